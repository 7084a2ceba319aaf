//! The store as its callers see it.
ghost use Rattle.std.specs.Prelude.{◌≡◌, ◌≢◌, ◌<◌, ◌≤◌, ◌+◌, ℕ, ℤ, false, true, [], length, IfOk, OnOk, IsFalse, MatchBool};
ghost use Rattle.qc_model.specs.Domains.{declared_box, has_empty, values_left, is_none_left, least_value, greatest_value, has_value, is_single, is_ascending, box_without, values_within, values_outside};
ghost use Rattle.std.specs.List.{list_all};
ghost use Rattle.qc_model.specs.Valid.{is_number};
ghost use Rattle.qc_model.specs.Lists.{numbers_from};
ghost use Rattle.fd_store.specs.Held.{trail_len, past_box, removal, removal_need, count_left, Follows, IsUndone, AgreeApart, values_from, values_up_to, least_of, greatest_of};

use crate::answer::Removed;
use crate::declare::declared;
use crate::table::Table;
use qc_model::{Problem, VarId};
use std::alloc::{AllocError, Global};
use std::marker::Model;

/// A length that the trail had.
#[derive(Clone, Copy)]
pub struct Mark {
    pub at: usize,
}

/// The values left to each variable, with a trail of changes.
///
/// A clause sees the box, the past boxes and `spare`: how many more places the trail takes with no new memory. The number
/// of past boxes is the trail's length, and the past box at n is what undoing down to n gives.
#[derive(Drop)]
pub struct Store {
    table: Table,
}

impl Model for Store {
    ghost use Rattle.fd_store.specs.Held.{Held};
    ghost use Rattle.fd_store.specs.Sound.{IsSound};
    ghost use Rattle.fd_store.specs.Trail.{held};

    ghost Value = { Held };

    ghost view = { λ s. held s.table.words.items s.table.cells.items s.table.trail.items s.table.trail.spare };

    ghost invariant = { λ s. IsSound s.table.words.items s.table.cells.items s.table.trail.items };
}

impl Store {
    /// The declared domains of a problem's variables, none of which is empty, with an empty trail that has no room yet.
    pub fn new(alloc: Global, problem: &Problem) -> Result<Store, AllocError>
        ensures { IfOk result (λ s. (s.box ≡ declared_box problem.now) × (s.past ≡ []) × (s.spare ≡ 0) × IsFalse (has_empty s.box)) }
    {
        problem.known();
        let table = declared(alloc, problem.all_variables())?;
        Ok(Store { table })
    }

    /// The number of variables.
    pub fn count(&self) -> usize
        ensures { result ≡ length self.now.box }
    {
        self.table.cells.len()
    }

    /// How many values are left to x.
    pub fn size(&self, x: VarId) -> u32
        requires { x.0 < length self.now.box }
        ensures { result ≡ length (values_left self.now.box x.0) }
    {
        self.table.size(x.0 as usize)
    }

    /// Whether x has one value left.
    pub fn is_fixed(&self, x: VarId) -> bool
        requires { x.0 < length self.now.box }
        ensures { result ≡ is_single (values_left self.now.box x.0) }
    {
        self.size(x) == 1
    }

    /// The values left to x are ascending, each a number from -1,000,000,000 to 1,000,000,000.
    pub fn known(&self, x: VarId)
        requires { x.0 < length self.now.box }
        ensures ascending { is_ascending (values_left self.now.box x.0) ≡ true }
        ensures numbers { list_all is_number (values_left self.now.box x.0) ≡ true }
    {
        self.table.known(x.0 as usize);
    }

    /// The least value left to x.
    pub fn min(&self, x: VarId) -> i64
        requires var { x.0 < length self.now.box }
        requires left { is_none_left (values_left self.now.box x.0) ≡ false }
        ensures { result ≡ least_value (values_left self.now.box x.0) }
    {
        self.table.least(x.0 as usize)
    }

    /// The greatest value left to x.
    pub fn max(&self, x: VarId) -> i64
        requires var { x.0 < length self.now.box }
        requires left { is_none_left (values_left self.now.box x.0) ≡ false }
        ensures { result ≡ greatest_value (values_left self.now.box x.0) }
    {
        self.table.greatest(x.0 as usize)
    }

    /// Whether what is left to x is so many numbers in a row, from this one on.
    pub fn is_row(&self, x: VarId, least: i64, count: u32) -> bool
        requires var { x.0 < length self.now.box }
        requires left { is_none_left (values_left self.now.box x.0) ≡ false }
        ensures { MatchBool result (values_left self.now.box x.0 ≡ numbers_from least count) (values_left self.now.box x.0 ≢ numbers_from least count) }
    {
        self.table.is_row(x.0 as usize, least, count)
    }

    /// Whether v is left to x.
    pub fn has(&self, x: VarId, v: i64) -> bool
        requires { x.0 < length self.now.box }
        ensures { result ≡ has_value (values_left self.now.box x.0) v }
    {
        self.table.has(x.0 as usize, v)
    }

    /// The least value left to x that is at least v. None comes exactly where there is none.
    pub fn next(&self, x: VarId, v: i64) -> Option<i64>
        requires { x.0 < length self.now.box }
        ensures { result ≡ least_of (values_from v (values_left self.now.box x.0)) }
    {
        self.table.next(x.0 as usize, v)
    }

    /// The greatest value left to x that is at most v. None comes exactly where there is none.
    pub fn prev(&self, x: VarId, v: i64) -> Option<i64>
        requires { x.0 < length self.now.box }
        ensures { result ≡ greatest_of (values_up_to v (values_left self.now.box x.0)) }
    {
        self.table.prev(x.0 as usize, v)
    }

    /// The least value from lo to hi that is left to x.
    pub fn min_in(&self, x: VarId, lo: i64, hi: i64) -> i64
        requires var { x.0 < length self.now.box }
        requires left { is_none_left (values_within lo hi (values_left self.now.box x.0)) ≡ false }
        ensures { result ≡ least_value (values_within lo hi (values_left self.now.box x.0)) }
    {
        // some value is within: a single number is it, and else the next one from lo is
        if lo == hi {
            return lo;
        }
        match self.next(x, lo) {
            Some(v) => v,
            None => unreachable!(),
        }
    }

    /// The greatest value from lo to hi that is left to x.
    pub fn max_in(&self, x: VarId, lo: i64, hi: i64) -> i64
        requires var { x.0 < length self.now.box }
        requires left { is_none_left (values_within lo hi (values_left self.now.box x.0)) ≡ false }
        ensures { result ≡ greatest_value (values_within lo hi (values_left self.now.box x.0)) }
    {
        // some value is within: a single number is it, and else the last one up to hi is
        if lo == hi {
            return hi;
        }
        match self.prev(x, hi) {
            Some(v) => v,
            None => unreachable!(),
        }
    }

    /// The trail's length.
    pub fn mark(&self) -> Mark
        ensures { result.at ≡ trail_len self.now }
    {
        Mark {
            at: self.table.trail.len(),
        }
    }

    /// Each place of the trail took a value at least: a past place and the values left there are together at most the
    /// values at the trail's beginning.
    pub fn trail_known(&self)
        ensures { (k : ℕ) → k ≤ trail_len self.now → k + count_left (past_box self.now k) ≤ count_left (past_box self.now 0) }
    {
        self.table.trail_known();
    }

    /// The variable of which values went at the n-th place of the trail: no other lost or gained one there.
    pub fn changed_at(&self, n: usize) -> usize
        requires { n < trail_len self.now }
        ensures var { result < length self.now.box }
        ensures others { AgreeApart result (past_box self.now n) (past_box self.now (n + 1)) }
    {
        self.table.changed_at(n)
    }

    /// How many places of the trail are enough for this removal, at most 16,400: one for each word between the ends that
    /// may change, wherever the values' bits stand.
    pub fn trail_need(&self, x: VarId, lo: i64, hi: i64) -> usize
        requires { x.0 < length self.now.box }
        ensures need { result ≡ removal_need (values_left self.now.box x.0) lo hi }
        ensures most { result ≤ 16400 }
    {
        self.table.need(x.0 as usize, lo, hi)
    }

    /// No removal from x needs more than 16,400 places of the trail.
    pub fn need_known(&self, x: VarId)
        requires { x.0 < length self.now.box }
        ensures { (lo hi : ℤ) → removal_need (values_left self.now.box x.0) lo hi ≤ 16400 }
    {
        self.table.need_known(x.0 as usize);
    }

    /// Makes sure that the trail takes n more places with no new memory. The box and the past boxes stay, also after a
    /// refusal.
    pub fn reserve_trail(&mut self, n: usize) -> Result<(), AllocError>
        ensures content { self.new.box ≡ self.old.box }
        ensures past { self.new.past ≡ self.old.past }
        ensures reserved { OnOk result (n ≤ self.new.spare) }
        ensures spare { self.old.spare ≤ self.new.spare }
    {
        self.table.trail.reserve(n)
    }

    /// Takes the values from lo to hi out of x, and changes no other variable. The trail grows by at most one place for
    /// each value that goes.
    pub fn remove(&mut self, x: VarId, lo: i64, hi: i64) -> Removed
        requires var { x.0 < length self.old.box }
        requires room { removal_need (values_left self.old.box x.0) lo hi ≤ self.old.spare }
        ensures content { self.new.box ≡ box_without self.old.box x.0 lo hi }
        ensures past { Follows self.old self.new }
        ensures spare { self.new.spare + trail_len self.new ≡ self.old.spare + trail_len self.old }
        ensures few { trail_len self.new + length (values_left self.new.box x.0) ≤ trail_len self.old + length (values_left self.old.box x.0) }
        ensures answer { result ≡ removal (values_within lo hi (values_left self.old.box x.0)) (values_outside lo hi (values_left self.old.box x.0)) }
    {
        self.table.cut(x.0 as usize, lo, hi)
    }

    /// Takes the changes since the mark back: the box is the past box at the mark.
    pub fn undo_to(&mut self, mark: Mark)
        requires { mark.at ≤ trail_len self.old }
        ensures past { IsUndone mark.at self.old self.new }
        ensures content { self.new.box ≡ past_box self.old mark.at }
        ensures spare { self.new.spare + trail_len self.new ≡ self.old.spare + trail_len self.old }
    {
        self.table.undo(mark.at);
    }
}
