//! Putting in the place of changes what they rest on.
use crate::study::Analyst;
use lemma_engine::{Cause, Conflict, Engine};
use lemma_ground::Why;
use lemma_needs::{needed_for, rests_on_others};
use qc_model::{Kind, VarId};
use std::alloc::AllocError;

/// How far the lemma reaches: the last scope that it speaks of with a variable of the loser's, and the level of its last
/// decision there. Without one, the start.
#[derive(Clone, Copy)]
pub(crate) struct Depth {
    pub(crate) place: usize,
    pub(crate) level: usize,
}

/// What putting reasons in the place of changes came to: the lemma can be drawn, a restricted scope was passed after changes
/// were put aside, so that the analysis begins anew, or it can't go on.
#[derive(Clone, Copy)]
pub(crate) enum Settled {
    At(Depth),
    Anew,
    Stuck,
}

// What to do next: a change to resolve, or the depth where none is left to be.
#[derive(Clone, Copy)]
enum Next {
    Resolve(usize),
    Rest(Depth),
}

// How often all that is marked is gone over for each change that is put aside.
const PASSES: usize = 2;

fn variable_of(engine: &Engine, place: usize) -> Option<VarId> {
    Some(engine.trail.at(place)?.x)
}

fn level_of(engine: &Engine, place: usize) -> usize {
    engine.trail.at(place).map_or(0, |it| it.level)
}

impl<'p> Analyst<'p> {
    /// Goes on until one change of the loser's is left on its last level, the decision or what follows from it, and none in
    /// a later scope.
    pub(crate) fn resolve(
        &mut self,
        engine: &Engine,
        conflict: &Conflict,
    ) -> Result<Settled, AllocError> {
        let loser = conflict.loser;
        for _ in 0..u64::MAX {
            if self.is_spent(engine) {
                return Ok(Settled::Stuck);
            }
            let passes = self.marks.places().len().saturating_mul(PASSES);
            self.go_over(passes);
            match self.next_to_do(engine, loser) {
                Next::Resolve(place) => {
                    if !self.put_aside(engine, place)? {
                        return Ok(Settled::Stuck);
                    }
                }
                Next::Rest(depth) => {
                    if self.reduce_at(engine, loser, depth)? {
                        continue;
                    }
                    let Some(scope) = self.next_passed(engine, conflict, depth) else {
                        return Ok(Settled::At(depth));
                    };
                    if let Some(is_passed) = self.is_passed.get_mut(scope) {
                        *is_passed = true;
                    }
                    if !self.resolved.is_empty() {
                        return Ok(Settled::Anew);
                    }
                    self.mark_passing(engine, scope, loser)?;
                }
            }
        }
        Ok(Settled::Stuck)
    }

    /// Takes the mark of a change, and marks what it rests on. A decision rests on nothing else.
    pub(crate) fn put_aside(&mut self, engine: &Engine, place: usize) -> Result<bool, AllocError> {
        self.needed.clear();
        if !needed_for(
            engine,
            &mut self.bench,
            place,
            &mut self.needed,
            &mut self.tests,
        )? {
            return Ok(false);
        }
        self.set_aside(engine, place)?;
        Ok(true)
    }

    // The same once it is known what the change rests on.
    fn set_aside(&mut self, engine: &Engine, place: usize) -> Result<(), AllocError> {
        self.marks.remove(place);
        self.resolved.push(place)?;
        if let Some(x) = variable_of(engine, place) {
            self.bump(x);
        }
        self.mark_needed()
    }

    fn next_to_do(&self, engine: &Engine, loser: Kind) -> Next {
        let Some((place, level)) = self.latest(engine, loser) else {
            return Next::Rest(Depth { place: 0, level: 0 });
        };
        if level == 0 {
            return Next::Resolve(place);
        }
        let Some(decided) = engine.trail.decided_on(level) else {
            return Next::Rest(Depth { place: 0, level: 0 });
        };
        if engine.facts.side_of(decided) != loser {
            return Next::Resolve(place);
        }
        let scope = engine.facts.scope_of(decided);
        let first = engine.trail.len_at(level.saturating_sub(1));
        match self.beyond(engine, loser, scope, first) {
            (Some(later), _) => Next::Resolve(later),
            (None, count) if count > 1 => Next::Resolve(place),
            (None, _) => Next::Rest(Depth {
                place: scope.saturating_add(1),
                level,
            }),
        }
    }

    // The latest of the loser's marked changes, and its level, which is the last with one.
    fn latest(&self, engine: &Engine, loser: Kind) -> Option<(usize, usize)> {
        let mut latest: Option<usize> = None;
        for place in self.marks.places() {
            if latest < Some(*place) && self.is_of(engine, loser, *place) {
                latest = Some(*place);
            }
        }
        let place = latest?;
        Some((place, level_of(engine, place)))
    }

    fn is_of(&self, engine: &Engine, side: Kind, place: usize) -> bool {
        match variable_of(engine, place) {
            Some(x) => engine.facts.side_of(x) == side,
            None => false,
        }
    }

    // The latest of the loser's marked changes in later scopes than this one, and how many of the loser's stand at this place or
    // behind it.
    fn beyond(
        &self,
        engine: &Engine,
        loser: Kind,
        scope: usize,
        first: usize,
    ) -> (Option<usize>, usize) {
        let mut later: Option<usize> = None;
        let mut count = 0usize;
        for place in self.marks.places() {
            let Some(x) = variable_of(engine, *place) else {
                continue;
            };
            if engine.facts.side_of(x) != loser {
                continue;
            }
            if *place >= first {
                count = count.saturating_add(1);
            }
            if later < Some(*place) && engine.facts.scope_of(x) > scope {
                later = Some(*place);
            }
        }
        (later, count)
    }

    // Puts changes of the last scope aside that rest on marked ones alone, and those of level 0. Says whether there were any.
    fn reduce_at(
        &mut self,
        engine: &Engine,
        loser: Kind,
        depth: Depth,
    ) -> Result<bool, AllocError> {
        let Some(scope) = depth.place.checked_sub(1) else {
            return Ok(false);
        };
        let mut k = 0usize;
        for _ in 0..self.marks.places().len() {
            let Some(place) = self.marks.places().get(k).copied() else {
                break;
            };
            if self.is_spent(engine) {
                break;
            }
            if !self.is_reducible(engine, loser, scope, depth, place) {
                k = k.saturating_add(1);
                continue;
            }
            if level_of(engine, place) == 0 {
                if self.put_aside(engine, place)? {
                    return Ok(true);
                }
            } else if self.rests_on_marked(engine, place)? {
                self.set_aside(engine, place)?;
                continue;
            }
            k = k.saturating_add(1);
        }
        Ok(false)
    }

    // Whether the change at a place is one of the loser's last scope that follows on an earlier level.
    fn is_reducible(
        &self,
        engine: &Engine,
        loser: Kind,
        scope: usize,
        depth: Depth,
        place: usize,
    ) -> bool {
        match engine.trail.at(place) {
            Some(change) => {
                change.level < depth.level
                    && engine.facts.side_of(change.x) == loser
                    && engine.facts.scope_of(change.x) == scope
                    && change.why != Why::Decided
            }
            None => false,
        }
    }

    // Whether a change rests on marked ones alone.
    fn rests_on_marked(&mut self, engine: &Engine, place: usize) -> Result<bool, AllocError> {
        if rests_on_others(engine, &self.marks, place) {
            return Ok(false);
        }
        self.needed.clear();
        if !needed_for(
            engine,
            &mut self.bench,
            place,
            &mut self.needed,
            &mut self.tests,
        )? {
            return Ok(false);
        }
        Ok(
            self.needed
                .changes
                .iter()
                .all(|it| self.marks.has(it.place)),
        )
    }

    // The winner's last restricted scope between the lemma and the conflict that hasn't been passed yet.
    fn next_passed(&self, engine: &Engine, conflict: &Conflict, depth: Depth) -> Option<usize> {
        let end = match conflict.cause {
            Cause::Goal => engine.facts.goal(),
            _ => engine.scope,
        };
        for scope in (depth.place..end).rev() {
            if engine.facts.side_at(scope) != conflict.loser
                && engine.facts.is_restricted(scope)
                && !self.is_passed.get(scope).copied().unwrap_or(true)
            {
                return Some(scope);
            }
        }
        None
    }
}
