//! Constraints that are looked at by their filters.
use crate::engine::{Cause, Choice, Conflict, Engine};
use lemma_ground::Why;
use proof_tree::Step;
use qc_model::{ConId, Kind, VarId};
use std::alloc::AllocError;

impl<'p> Engine<'p> {
    fn lost_rule(&self, c: ConId, side: Kind) -> Conflict {
        Conflict {
            loser: side,
            cause: Cause::Rule(c),
            choices: Vec::new(self.alloc),
        }
    }

    /// Looks at a constraint: what it refutes of its keeper's values goes. Where it refutes values of the other side, that
    /// side takes one, and its keeper has lost.
    pub(crate) fn run_rule(&mut self, c: ConId) -> Result<Option<Conflict>, AllocError> {
        let side = self.facts.rule_side(c);
        if self.facts.own_of(c).is_empty() {
            if self.boxes.refutes(c) {
                return Ok(Some(self.lost_rule(c, side)));
            }
            return Ok(None);
        }
        self.boxes.filter(c)?;
        for k in 0..self.boxes.refuted().len() {
            let step = self.boxes.refuted().get(k).copied();
            if let Some(Step::Prune { x, lo, hi, .. }) = step
                && let Some(conflict) = self.refute(c, side, x, lo, hi)?
            {
                return Ok(Some(conflict));
            }
        }
        Ok(None)
    }

    // The constraint refutes the values of x from lo to hi.
    fn refute(
        &mut self,
        c: ConId,
        side: Kind,
        x: VarId,
        lo: i64,
        hi: i64,
    ) -> Result<Option<Conflict>, AllocError> {
        let Some(v) = self.boxes.next(x, lo) else {
            return Ok(None);
        };
        if v > hi {
            return Ok(None);
        }
        let all_go = lo <= self.boxes.least(x) && self.boxes.greatest(x) <= hi;
        let is_own = self.facts.side_of(x) == side;
        if (all_go || !is_own) && self.boxes.refutes(c) {
            return Ok(Some(self.lost_rule(c, side)));
        }
        if is_own {
            return self.remove(x, lo, hi, Why::Rule(c), side);
        }
        let mut conflict = self.lost_rule(c, side);
        conflict.choices.push(Choice { x, v })?;
        Ok(Some(conflict))
    }
}
