//! What a board does to its box.
ghost use Rattle.std.specs.Prelude.{◌≡◌, ◌<◌, ◌≤◌, suc, length, true, IsTrue};
ghost use Rattle.qc_model.specs.Domains.{Box, has_value, is_sub_box, values_left};
ghost use Rattle.fd_store.specs.Held.{Follows};

use crate::board::{Board, Closing};
use check_box::Remains;
use dense_box::{choose, is_tuple, reply, take_tuple};
use dense_quiet::Taking;
use qc_model::{ScopeId, VarId};
use std::alloc::AllocError;

// Leaves x its value v alone.
fn keep_value(remains: &mut Remains, x: VarId, v: i64)
    requires var { x.0 < length remains.old.box }
    requires left { IsTrue (has_value (values_left remains.old.box x.0) v) }
    ensures past { Follows remains.old remains.new }
    ensures fewer { (large : Box) → is_sub_box remains.old.box large ≡ true → is_sub_box remains.new.box large ≡ true }
{
    remains.store().known(x);
    remains.keep(x, v, v);
}

impl<'p> Board<'p> {
    // Whether constraints from scope i on may end before the number `stop`.
    fn reaches(&self, i: ScopeId, stop: usize) -> bool
        ensures order { IsTrue result → i.0 ≤ stop }
        ensures bound { IsTrue result → stop ≤ suc (length self.now.levels.problem.now.scopes) }
    {
        self.levels.problem.known();
        i.0 as usize <= stop && stop <= self.levels.problem.scopes() + 1
    }

    /// Closes the box for the constraints in force at scope i. Where it is lost, some values may be gone.
    pub fn close(&mut self, i: ScopeId) -> Closing
        ensures same { self.new.levels ≡ self.old.levels }
    {
        if !self.is_scope(i) {
            return Closing::Same;
        }
        let before = self.remains.mark().at;
        let stop = self.freedom.joint_stop(i);
        if !self.reaches(i, stop) {
            return Closing::Same;
        }
        if !self.closer.close(
            &self.levels,
            &mut self.remains,
            Taking::Owners,
            i.0 as usize,
            stop,
        ) {
            return Closing::Lost;
        }
        if self.has_answerless(i, stop) {
            return Closing::Lost;
        }
        if self.remains.mark().at == before {
            Closing::Same
        } else {
            Closing::Narrowed
        }
    }

    // Whether a move of the opponent from scope i on has no answer by the constraints before the number `stop`.
    fn has_answerless(&self, i: ScopeId, stop: usize) -> bool {
        if i.0 as usize >= self.moves_end || !self.reaches(i, stop) || self.remains.is_empty() {
            return false;
        }
        self.closer
            .has_answerless(&self.levels, self.remains.store(), i.0 as usize, stop)
    }

    // Closes the box for the constraints of the scopes from i to k, whosever values go, and says whether a closed box is left.
    fn close_up_to(&mut self, i: ScopeId, k: ScopeId) -> bool
        ensures same { self.new.levels ≡ self.old.levels }
    {
        let stop = k.0 as usize + 1;
        if !self.reaches(i, stop) {
            return true;
        }
        self.closer.close(
            &self.levels,
            &mut self.remains,
            Taking::All,
            i.0 as usize,
            stop,
        )
    }

    /// Whether no box within is closed for the constraints of the scopes from i to k, whosever values go; the goal has the number of
    /// scopes. The box stays as it is. It fails only where memory runs out.
    pub fn none_passes(&mut self, i: ScopeId, k: ScopeId) -> Result<bool, AllocError>
        ensures same { self.new.levels ≡ self.old.levels }
    {
        if !self.save()? {
            return Ok(true);
        }
        let passed = self.close_up_to(i, k);
        self.restore();
        Ok(!passed)
    }

    /// Leaves x the value alone, where it has it, and says whether it does.
    pub fn keep(&mut self, x: VarId, value: i64) -> bool
        ensures same { self.new.levels ≡ self.old.levels }
    {
        if x.0 as usize >= self.remains.store().count() {
            return false;
        }
        if !self.remains.store().has(x, value) {
            return false;
        }
        keep_value(&mut self.remains, x, value);
        true
    }

    /// Takes the values as a tuple of scope i; where they are none, nothing is taken.
    pub fn take(&mut self, i: ScopeId, values: &[i64]) -> bool
        ensures same { self.new.levels ≡ self.old.levels }
    {
        if !self.is_scope(i) {
            return false;
        }
        if !is_tuple(self.levels.level(i), self.remains.store(), values) {
            return false;
        }
        take_tuple(self.levels.level(i), &mut self.remains, values);
        true
    }

    /// Takes the values as a tuple of scope i with which it may go on; where they are none, or it may not, nothing is taken.
    pub fn choose(&mut self, i: ScopeId, values: &[i64]) -> bool
        ensures same { self.new.levels ≡ self.old.levels }
    {
        if !self.is_scope(i) {
            return false;
        }
        choose(&self.levels, i, &mut self.remains, values)
    }

    /// The step of a reply at scope i, where it is in place; else nothing is taken.
    pub fn reply(&mut self, i: ScopeId, values: &[i64]) -> bool
        ensures same { self.new.levels ≡ self.old.levels }
    {
        if !self.is_scope(i) {
            return false;
        }
        reply(&self.levels, i, &mut self.remains, values)
    }

    /// The step of a bound at scope i, where it is in place, and its mark; else nothing is taken.
    pub fn bound(&mut self, i: ScopeId, x: VarId, low: i64, high: i64) -> Option<i64>
        ensures same { self.new.levels ≡ self.old.levels }
    {
        if !self.is_scope(i) {
            return None;
        }
        self.wishes.bound(&mut self.remains, i, x, low, high)
    }
}
