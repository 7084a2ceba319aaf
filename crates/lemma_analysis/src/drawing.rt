//! Drawing the lemma from what is marked and what was put aside.
use crate::resolving::Depth;
use crate::study::{Analyst, Lesson};
use lemma_engine::{Cause, Condition, Conflict, Engine, Finish, Known, Range, Taken};
use lemma_needs::{ends_left_by, left_by};
use qc_model::{Kind, VarId};
use std::alloc::AllocError;

// Where a step stands among the others: by the change that it belongs to, choices first; 0 is before all.
#[derive(Clone, Copy)]
struct Ordered {
    at: usize,
    taken: Taken,
}

/// The marked places of each variable, ascending.
#[derive(Drop)]
pub(crate) struct Grouped {
    places: Vec<usize>,
    // where those of a variable begin, up to the last variable that has some, and where these end
    starts: Vec<usize>,
}

impl Grouped {
    pub(crate) fn of(&self, x: VarId) -> &[usize] {
        let k = x.0 as usize;
        match (self.starts.get(k), self.starts.get(k.saturating_add(1))) {
            (Some(from), Some(end)) => self.places.get(*from..*end).unwrap_or(&[]),
            _ => &[],
        }
    }
}

impl<'p> Analyst<'p> {
    /// The lemma, with its steps in order.
    pub(crate) fn draw(
        &mut self,
        engine: &Engine,
        conflict: &Conflict,
        depth: Depth,
    ) -> Result<Lesson, AllocError> {
        let taken = self.steps(engine, conflict, depth)?;
        let marked = self.grouped(engine)?;
        let summing = self.sums_told(engine, conflict.loser, depth, &marked)?;
        let mut conditions = Vec::new(engine.alloc);
        let mut levels = summing.level;
        let mut last = None;
        for k in 0..engine.facts.variables() {
            let x = VarId(u16::try_from(k).unwrap_or(u16::MAX));
            if summing.has_dropped(x) {
                continue;
            }
            if !self.is_condition(engine, x, conflict.loser, depth) {
                continue;
            }
            let Some(condition) = condition_of(engine, x, marked.of(x))? else {
                continue;
            };
            let level = level_below(engine, marked.of(x), usize::MAX);
            if level >= depth.level && engine.facts.side_of(x) == conflict.loser {
                last = Some(x);
                levels = levels.max(level_below(engine, marked.of(x), depth.level));
            } else {
                levels = levels.max(level);
            }
            self.bump(x);
            conditions.push(condition)?;
        }
        levels = levels.max(self.levels_passed(engine, conflict.loser, depth));
        let lemma = Known::new(
            conflict.loser,
            depth.place,
            conditions,
            summing.sums,
            taken,
            finish_of(conflict),
        );
        Ok(Lesson {
            lemma,
            levels,
            x: last,
        })
    }

    // Whether a variable's marked changes are conditions of the lemma, and no choices of the winner's.
    pub(crate) fn is_condition(
        &self,
        engine: &Engine,
        x: VarId,
        loser: Kind,
        depth: Depth,
    ) -> bool {
        engine.facts.side_of(x) == loser || engine.facts.scope_of(x) < depth.place
    }

    fn grouped(&self, engine: &Engine) -> Result<Grouped, AllocError> {
        let mut sorted: Vec<(u16, usize)> = Vec::new(engine.alloc);
        for place in self.marks.places() {
            if let Some(change) = engine.trail.at(*place) {
                sorted.push((change.x.0, *place))?;
            }
        }
        sorted.sort_unstable();
        let mut places: Vec<usize> = Vec::new(engine.alloc);
        let mut starts: Vec<usize> = Vec::new(engine.alloc);
        for (x, place) in sorted.as_slice() {
            for _ in starts.len()..(*x as usize).saturating_add(1) {
                starts.push(places.len())?;
            }
            places.push(*place)?;
        }
        starts.push(places.len())?;
        Ok(Grouped { places, starts })
    }

    // How many decisions have to stand for the lemma to speak: those up to the winner's last restricted scope before it.
    fn levels_passed(&self, engine: &Engine, loser: Kind, depth: Depth) -> usize {
        let Some(last) = depth.place.checked_sub(1) else {
            return 0;
        };
        let restricted = (0..last).rev().find(|scope| engine.facts.side_at(*scope) != loser
            && engine.facts.is_restricted(*scope));
        let Some(restricted) = restricted else {
            return 0;
        };
        let mut levels = 0usize;
        for level in 1..engine.trail.levels().saturating_add(1) {
            if let Some(x) = engine.trail.decided_on(level)
                && engine.facts.scope_of(x) <= restricted
            {
                levels = level;
            }
        }
        levels
    }

    // The steps: what was put aside, and the winner's choices, each where it is first needed.
    fn steps(
        &mut self,
        engine: &Engine,
        conflict: &Conflict,
        depth: Depth,
    ) -> Result<Vec<Taken>, AllocError> {
        let mut ordered = self.choices(engine, conflict, depth)?;
        for place in self.resolved.as_slice() {
            if let Some(change) = engine.trail.at(*place) {
                ordered.push(Ordered {
                    at: place.saturating_add(1),
                    taken: Taken::Cut {
                        x: change.x,
                        lo: change.lo,
                        hi: change.hi,
                        why: change.why,
                    },
                })?;
            }
        }
        ordered.sort_unstable_by_key(|it| it.at);
        let mut taken = Vec::new(engine.alloc);
        for step in ordered.as_slice() {
            taken.push(step.taken)?;
        }
        for choice in conflict.choices.as_slice() {
            taken.push(Taken::Choose {
                x: choice.x,
                v: choice.v,
            })?;
        }
        Ok(taken)
    }

    fn choices(
        &mut self,
        engine: &Engine,
        conflict: &Conflict,
        depth: Depth,
    ) -> Result<Vec<Ordered>, AllocError> {
        let mut first = Vec::new(engine.alloc);
        for _ in 0..engine.facts.variables() {
            first.push(None)?;
        }
        for place in self.marks.places() {
            if let Some(change) = engine.trail.at(*place)
                && !self.is_condition(engine, change.x, conflict.loser, depth)
            {
                note(&mut first, change.x, place.saturating_add(1));
            }
        }
        for scope in depth.place..self.is_passed.len() {
            if self.is_passed.get(scope).copied().unwrap_or(false) {
                let (from, end) = engine.facts.variables_at(scope);
                for k in from..end {
                    let x = VarId(u16::try_from(k).unwrap_or(u16::MAX));
                    let at = match engine.trail.last_of(x) {
                        Some(place) => place.saturating_add(1),
                        None => 0,
                    };
                    if let Some(None) = first.get(k) {
                        note(&mut first, x, at);
                    }
                }
            }
        }
        let mut ordered = Vec::new(engine.alloc);
        for (k, at) in first.iter().enumerate() {
            if let Some(at) = at {
                let x = VarId(u16::try_from(k).unwrap_or(u16::MAX));
                let v = match conflict.choices.iter().find(|it| it.x.0 == x.0) {
                    Some(choice) => choice.v,
                    None => self.value(x),
                };
                ordered.push(Ordered {
                    at: *at,
                    taken: Taken::Choose { x, v },
                })?;
            }
        }
        Ok(ordered)
    }
}

/// How the proof of a lemma ends that this conflict leaves.
pub(crate) fn finish_of(conflict: &Conflict) -> Finish {
    match conflict.cause {
        Cause::Emptied(_) => Finish::Emptied,
        Cause::Rule(c) => Finish::Rule(c),
        Cause::Lemma(n) => Finish::Lemma(n),
        Cause::Goal => Finish::Goal,
    }
}

// What these changes leave of a variable.
fn condition_of(
    engine: &Engine,
    x: VarId,
    places: &[usize],
) -> Result<Option<Condition>, AllocError> {
    if places.is_empty() {
        return Ok(None);
    }
    if let Some((lo, hi)) = ends_left_by(engine, x, places) {
        return Ok(Some(Condition {
            x,
            lo,
            hi,
            ranges: Vec::new(engine.alloc),
        }));
    }
    let ranges = left_by(engine, x, places)?;
    let (Some(first), Some(last)) = (ranges.first().copied(), ranges.last().copied()) else {
        return Ok(None);
    };
    let ranges: Vec<Range> = if ranges.len() > 1 {
        ranges
    } else {
        Vec::new(engine.alloc)
    };
    Ok(Some(Condition {
        x,
        lo: first.lo,
        hi: last.hi,
        ranges,
    }))
}

// The last level below this one on which one of these changes stands.
fn level_below(engine: &Engine, places: &[usize], end: usize) -> usize {
    let mut level = 0usize;
    for place in places {
        if let Some(change) = engine.trail.at(*place)
            && change.level < end
        {
            level = level.max(change.level);
        }
    }
    level
}

// Keeps the earlier of two places.
fn note(first: &mut [Option<usize>], x: VarId, at: usize) {
    if let Some(place) = first.get_mut(x.0 as usize) {
        let is_earlier = match *place {
            Some(before) => at < before,
            None => true,
        };
        if is_earlier {
            *place = Some(at);
        }
    }
}
