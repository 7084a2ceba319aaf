//! A lemma drawn again, from a conflict that was met with its conditions assumed.
use crate::drawing::finish_of;
use crate::study::Analyst;
use lemma_engine::{Cause, Condition, Conflict, Engine, Known, Taken};
use lemma_ground::Why;
use lemma_needs::Marks;
use qc_model::VarId;
use std::alloc::AllocError;

impl<'p> Analyst<'p> {
    /// The n-th lemma as this conflict shows it: with those of its conditions that are needed, and the steps that are. None where
    /// it has sums, or isn't known.
    pub fn redraw(
        &mut self,
        engine: &Engine,
        n: usize,
        conflict: &Conflict,
    ) -> Result<Option<Known>, AllocError> {
        let Some(lemma) = engine.known.get(n) else {
            return Ok(None);
        };
        if !lemma.sums.is_empty() {
            return Ok(None);
        }
        self.trace(engine, conflict)?;
        Ok(Some(Known::new(
            lemma.loser,
            lemma.place,
            self.needed_conditions(engine, lemma, conflict)?,
            Vec::new(engine.alloc),
            self.steps_traced(engine, lemma, conflict)?,
            finish_of(conflict),
        )))
    }

    // Marks the assumptions and decisions that a conflict rests on, and puts all other changes aside that it does.
    fn trace(&mut self, engine: &Engine, conflict: &Conflict) -> Result<(), AllocError> {
        self.marks.clear();
        self.resolved.clear();
        self.mark_cause(engine, conflict)?;
        self.go_over(engine.trail.len());
        for place in (0..engine.trail.len()).rev() {
            if self.marks.has(place) && !is_decided(engine, place) {
                self.put_aside(engine, place)?;
            }
        }
        Ok(())
    }

    // The conditions that are needed: those of which an assumption is marked, that which left no value, and one on the loser's
    // last scope, so that the lemma keeps its place.
    fn needed_conditions(
        &self,
        engine: &Engine,
        lemma: &Known,
        conflict: &Conflict,
    ) -> Result<Vec<Condition>, AllocError> {
        let mut is_needed = assumed_by(engine, &self.marks)?;
        if let Cause::Emptied(x) = conflict.cause {
            set(&mut is_needed, x);
        }
        keep_place(engine, lemma, &mut is_needed);
        let mut conditions = Vec::new(engine.alloc);
        for condition in lemma.conditions.as_slice() {
            if has(&is_needed, condition.x) {
                conditions.push(condition.copied(engine.alloc)?)?;
            }
        }
        Ok(conditions)
    }

    // What was put aside and the winner's choices that are marked, in the order in which they came, and the choices at the end.
    fn steps_traced(
        &self,
        engine: &Engine,
        lemma: &Known,
        conflict: &Conflict,
    ) -> Result<Vec<Taken>, AllocError> {
        let mut places = Vec::new(engine.alloc);
        for place in self.resolved.as_slice() {
            places.push(*place)?;
        }
        for place in self.marks.places() {
            places.push(*place)?;
        }
        places.sort_unstable();
        let mut taken = Vec::new(engine.alloc);
        for place in places.as_slice() {
            if let Some(step) = step_at(engine, lemma, *place) {
                taken.push(step)?;
            }
        }
        for choice in conflict.choices.as_slice() {
            taken.push(Taken::Choose {
                x: choice.x,
                v: choice.v,
            })?;
        }
        Ok(taken)
    }
}

fn is_decided(engine: &Engine, place: usize) -> bool {
    match engine.trail.at(place) {
        Some(change) => change.why == Why::Decided,
        None => true,
    }
}

// The variables of which an assumption or a decision is marked.
fn assumed_by(engine: &Engine, marks: &Marks) -> Result<Vec<bool>, AllocError> {
    let mut is_assumed = vec![in engine.alloc; false; engine.facts.variables()]?;
    for place in marks.places() {
        if let Some(change) = engine.trail.at(*place) {
            set(&mut is_assumed, change.x);
        }
    }
    Ok(is_assumed)
}

// A condition on the loser's last scope is needed, whichever.
fn keep_place(engine: &Engine, lemma: &Known, is_needed: &mut [bool]) {
    let mut last: Option<VarId> = None;
    for condition in lemma.conditions.as_slice() {
        if is_at_place(engine, lemma, condition.x) {
            if has(is_needed, condition.x) {
                return;
            }
            last = Some(condition.x);
        }
    }
    if let Some(x) = last {
        set(is_needed, x);
    }
}

// Whether a variable is the loser's, of the scope right before the lemma's position.
fn is_at_place(engine: &Engine, lemma: &Known, x: VarId) -> bool {
    engine.facts.side_of(x) == lemma.loser
        && engine.facts.scope_of(x).saturating_add(1) == lemma.place
}

// The step that a change stands for; none for an assumption.
fn step_at(engine: &Engine, lemma: &Known, place: usize) -> Option<Taken> {
    let change = engine.trail.at(place)?;
    if change.why != Why::Decided {
        return Some(Taken::Cut {
            x: change.x,
            lo: change.lo,
            hi: change.hi,
            why: change.why,
        });
    }
    if engine.facts.side_of(change.x) == lemma.loser
        || engine.facts.scope_of(change.x) < lemma.place
    {
        return None;
    }
    Some(Taken::Choose {
        x: change.x,
        v: change.lo,
    })
}

fn has(marks: &[bool], x: VarId) -> bool {
    marks.get(x.0 as usize).copied().unwrap_or(false)
}

fn set(marks: &mut [bool], x: VarId) {
    if let Some(slot) = marks.get_mut(x.0 as usize) {
        *slot = true;
    }
}
