//! A removal of the values from one number to another.
ghost use Rattle.std.specs.Prelude.{◌≡◌, ◌<◌, ◌≤◌, ◌+◌, ◌-◌, ◌/◌, nat_le, nat_lt, int_le, length, slice_index_or, pos, negsuc, ◌+ℤ◌, ◌≤ℤ◌, ℕ};
ghost use Rattle.std.specs.Int.{int_min, int_max};
ghost use Rattle.qc_model.specs.Domains.{values_left};
ghost use Rattle.fd_store.specs.Held.{removal_need};
ghost use Rattle.fd_store.specs.Sound.{IsCell};
ghost use Rattle.fd_store.specs.Takes.{Takes, IsSoundTable, box_in, removed_of};

use crate::answer::Removed;
use crate::table::{Cell, Table, has_no_gap};

// The value at a place of a cell.
pub(crate) fn value_at(base: i64, k: u32) -> i64
    requires narrow { k ≤ 1048576 }
    requires low { negsuc 999999999 ≤ℤ base }
    requires high { base ≤ℤ pos 1000000001 }
    ensures { result ≡ (base +ℤ pos k) }
{
    base + i64::from(k)
}

// The place of a value.
pub(crate) fn offset_of(base: i64, v: i64) -> u32
    requires low { negsuc 999999999 ≤ℤ base }
    requires high { base ≤ℤ pos 1000000001 }
    requires from { base ≤ℤ v }
    requires below { v ≤ℤ (base +ℤ pos 1048576) }
    ensures { v ≡ (base +ℤ pos result) }
{
    (v - base) as u32
}

// The first place between the ends whose value is at least lo, or the end.
pub(crate) fn place_of(base: i64, first: u32, end: u32, lo: i64) -> u32
    requires low { negsuc 999999999 ≤ℤ base }
    requires high { base ≤ℤ pos 1000000001 }
    requires order { first ≤ end }
    requires within { end ≤ 1048576 }
    ensures from { first ≤ result }
    ensures most { result ≤ end }
    ensures places { (k : ℕ) → first ≤ k → k < end → nat_le result k ≡ int_le lo (base +ℤ pos k) }
    ensures value { result < end → int_max lo (base +ℤ pos first) ≡ (base +ℤ pos result) }
{
    if lo <= value_at(base, first) {
        first
    } else if lo >= value_at(base, end) {
        end
    } else {
        offset_of(base, lo)
    }
}

// One more than the last place between the ends whose value is at most hi, or the first place.
pub(crate) fn end_of(base: i64, first: u32, end: u32, hi: i64) -> u32
    requires low { negsuc 999999999 ≤ℤ base }
    requires high { base ≤ℤ pos 1000000001 }
    requires order { first ≤ end }
    requires within { end ≤ 1048576 }
    ensures from { first ≤ result }
    ensures most { result ≤ end }
    ensures places { (k : ℕ) → first ≤ k → k < end → nat_lt k result ≡ int_le (base +ℤ pos k) hi }
    ensures value { first < result → int_min hi (base +ℤ pos (end - 1)) ≡ (base +ℤ pos (result - 1)) }
{
    if hi < value_at(base, first) {
        first
    } else if hi >= value_at(base, end) {
        end
    } else {
        offset_of(base, hi) + 1
    }
}

impl Table {
    // Takes the values at places from a up to e.
    fn cut_places(&mut self, x: usize, cell: Cell, a: u32, e: u32)
        requires sound { IsSoundTable self.old }
        requires var { x < length self.old.cells.items }
        requires at { slice_index_or self.old.cells.items x cell ≡ cell }
        requires right { IsCell self.old.words.items cell }
        requires few { length self.old.words.items ≤ 100000 }
        requires first { cell.first ≤ a }
        requires order { a < e }
        requires end { e ≤ cell.end }
        requires room { (e - 1 - a) / 64 + 2 ≤ self.old.trail.spare }
        ensures { Takes x (cell.base +ℤ pos a) (cell.base +ℤ pos (e - 1)) self.old self.new }
    {
        if a > cell.first {
            if e < cell.end {
                self.clear(x, cell, a, e);
            } else {
                self.lower(x, cell, a);
            }
        } else if e < cell.end {
            self.raise(x, cell, e);
        } else {
            self.empty(x, cell);
        }
    }

    // Takes the values of x from lo to hi, wherever they stand.
    fn cut_span(&mut self, x: usize, lo: i64, hi: i64)
        requires sound { IsSoundTable self.old }
        requires var { x < length self.old.cells.items }
        requires room { removal_need (values_left (box_in self.old) x) lo hi ≤ self.old.trail.spare }
        ensures { Takes x lo hi self.old self.new }
    {
        let cell = self.cell(x);
        let a = place_of(cell.base, cell.first, cell.end, lo);
        let e = end_of(cell.base, cell.first, cell.end, hi);
        if a < e {
            self.cut_places(x, cell, a, e);
        }
    }

    // Takes the values of x from lo to hi, wherever they stand, and tells what became of all values of x. It isn't
    // inlined, so that `cut` needs few registers.
    #[inline(never)]
    fn cut_anywhere(&mut self, x: usize, lo: i64, hi: i64) -> Removed
        requires sound { IsSoundTable self.old }
        requires var { x < length self.old.cells.items }
        requires room { removal_need (values_left (box_in self.old) x) lo hi ≤ self.old.trail.spare }
        ensures takes { Takes x lo hi self.old self.new }
        ensures answer { result ≡ removed_of (length (values_left (box_in self.old) x)) (length (values_left (box_in self.new) x)) }
    {
        let before = self.size(x);
        self.cut_span(x, lo, hi);
        let after = self.size(x);
        if before == after {
            Removed::Nothing
        } else if after == 0 {
            Removed::Emptied
        } else {
            Removed::Some
        }
    }

    // Takes the values of x from lo to hi, and tells what became of all values of x. Most removals are at an end of
    // values without gaps: such an end moves to the value next to the removed ones, and no word is read.
    pub(crate) fn cut(&mut self, x: usize, lo: i64, hi: i64) -> Removed
        requires sound { IsSoundTable self.old }
        requires var { x < length self.old.cells.items }
        requires room { removal_need (values_left (box_in self.old) x) lo hi ≤ self.old.trail.spare }
        ensures takes { Takes x lo hi self.old self.new }
        ensures answer { result ≡ removed_of (length (values_left (box_in self.old) x)) (length (values_left (box_in self.new) x)) }
    {
        let cell = self.cell(x);
        if has_no_gap(cell) {
            let least = value_at(cell.base, cell.first);
            let past = value_at(cell.base, cell.end);
            if lo <= least {
                if hi < least {
                    return Removed::Nothing;
                }
                if hi < past - 1 {
                    self.move_first(x, cell, offset_of(cell.base, hi) + 1);
                    return Removed::Some;
                }
            } else if hi >= past - 1 {
                if lo >= past {
                    return Removed::Nothing;
                }
                self.move_end(x, cell, offset_of(cell.base, lo));
                return Removed::Some;
            }
        }
        self.cut_anywhere(x, lo, hi)
    }
}
