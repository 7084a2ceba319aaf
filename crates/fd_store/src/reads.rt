//! What a table tells of one variable.
ghost use Rattle.std.specs.Prelude.{◌≡◌, ◌≢◌, ◌<◌, ◌≤◌, ◌+◌, ℕ, ℤ, false, true, length, drop, MatchBool};
ghost use Rattle.std.specs.List.{list_all};
ghost use Rattle.qc_model.specs.Valid.{is_number};
ghost use Rattle.qc_model.specs.Domains.{values_left, is_none_left, least_value, greatest_value, has_value, is_ascending};
ghost use Rattle.qc_model.specs.Lists.{numbers_from};
ghost use Rattle.fd_store.specs.Held.{AgreeApart, removal_need, values_from, values_up_to, least_of, greatest_of};
ghost use Rattle.fd_store.specs.Sound.{cells_left};
ghost use Rattle.fd_store.specs.Trail.{cells_before, box_before};
ghost use Rattle.fd_store.specs.Takes.{IsSoundTable, box_in};

use crate::cuts::{end_of, offset_of, place_of, value_at};
use crate::table::{Table, has_no_gap};
use crate::words::{end_of_set, has_place, next_set};

impl Table {
    pub(crate) fn known(&self, x: usize)
        requires sound { IsSoundTable self.now }
        requires var { x < length self.now.cells.items }
        ensures ascending { is_ascending (values_left (box_in self.now) x) ≡ true }
        ensures numbers { list_all is_number (values_left (box_in self.now) x) ≡ true }
    {
        let _cell = self.cell(x);
    }

    // Each change took a value at least.
    pub(crate) fn trail_known(&self)
        requires sound { IsSoundTable self.now }
        ensures few { (k : ℕ) → k ≤ length self.now.trail.items → k + cells_left (cells_before (drop k self.now.trail.items) self.now.cells.items) ≤ cells_left (cells_before self.now.trail.items self.now.cells.items) }
    {}

    // How many values are left.
    pub(crate) fn size(&self, x: usize) -> u32
        requires sound { IsSoundTable self.now }
        requires var { x < length self.now.cells.items }
        ensures { result ≡ length (values_left (box_in self.now) x) }
    {
        self.cell(x).size
    }

    pub(crate) fn least(&self, x: usize) -> i64
        requires sound { IsSoundTable self.now }
        requires var { x < length self.now.cells.items }
        requires left { is_none_left (values_left (box_in self.now) x) ≡ false }
        ensures { result ≡ least_value (values_left (box_in self.now) x) }
    {
        let cell = self.cell(x);
        value_at(cell.base, cell.first)
    }

    pub(crate) fn greatest(&self, x: usize) -> i64
        requires sound { IsSoundTable self.now }
        requires var { x < length self.now.cells.items }
        requires left { is_none_left (values_left (box_in self.now) x) ≡ false }
        ensures { result ≡ greatest_value (values_left (box_in self.now) x) }
    {
        let cell = self.cell(x);
        value_at(cell.base, cell.end - 1)
    }

    // Whether what is left is so many numbers in a row, from this one on.
    pub(crate) fn is_row(&self, x: usize, least: i64, count: u32) -> bool
        requires sound { IsSoundTable self.now }
        requires var { x < length self.now.cells.items }
        requires left { is_none_left (values_left (box_in self.now) x) ≡ false }
        ensures { MatchBool result (values_left (box_in self.now) x ≡ numbers_from least count) (values_left (box_in self.now) x ≢ numbers_from least count) }
    {
        let cell = self.cell(x);
        if cell.size != count {
            return false;
        }
        if value_at(cell.base, cell.first) != least {
            return false;
        }
        has_no_gap(cell)
    }

    // The variable of the n-th change.
    pub(crate) fn changed_at(&self, n: usize) -> usize
        requires sound { IsSoundTable self.now }
        requires place { n < length self.now.trail.items }
        ensures var { result < length self.now.cells.items }
        ensures others { AgreeApart result (box_before (drop n self.now.trail.items) self.now.words.items self.now.cells.items) (box_before (drop (n + 1) self.now.trail.items) self.now.words.items self.now.cells.items) }
    {
        match self.trail.get(n) {
            Some(change) => change.var,
            None => unreachable!(),
        }
    }

    pub(crate) fn has(&self, x: usize, v: i64) -> bool
        requires sound { IsSoundTable self.now }
        requires var { x < length self.now.cells.items }
        ensures { result ≡ has_value (values_left (box_in self.now) x) v }
    {
        let cell = self.cell(x);
        if v < value_at(cell.base, cell.first) {
            return false;
        }
        if v >= value_at(cell.base, cell.end) {
            return false;
        }
        let k = offset_of(cell.base, v);
        has_place(self.words.as_slice(), 64 * cell.start + k as usize)
    }

    // The least value from v on, whether or not there are gaps. It isn't inlined, so that `next` needs few registers.
    #[inline(never)]
    fn next_anywhere(&self, x: usize, v: i64) -> Option<i64>
        requires sound { IsSoundTable self.now }
        requires var { x < length self.now.cells.items }
        ensures { result ≡ least_of (values_from v (values_left (box_in self.now) x)) }
    {
        let cell = self.cell(x);
        let a = place_of(cell.base, cell.first, cell.end, v);
        if a >= cell.end {
            return None;
        }
        let start = 64 * cell.start;
        let place = next_set(
            self.words.as_slice(),
            start + a as usize,
            start + cell.end as usize,
        );
        Some(value_at(cell.base, (place - start) as u32))
    }

    // The least value from v on.
    pub(crate) fn next(&self, x: usize, v: i64) -> Option<i64>
        requires sound { IsSoundTable self.now }
        requires var { x < length self.now.cells.items }
        ensures { result ≡ least_of (values_from v (values_left (box_in self.now) x)) }
    {
        let cell = self.cell(x);
        if !has_no_gap(cell) {
            return self.next_anywhere(x, v);
        }
        let next = v.max(value_at(cell.base, cell.first));
        if next < value_at(cell.base, cell.end) {
            Some(next)
        } else {
            None
        }
    }

    // The greatest value up to v, whether or not there are gaps. It isn't inlined, so that `prev` needs few registers.
    #[inline(never)]
    fn prev_anywhere(&self, x: usize, v: i64) -> Option<i64>
        requires sound { IsSoundTable self.now }
        requires var { x < length self.now.cells.items }
        ensures { result ≡ greatest_of (values_up_to v (values_left (box_in self.now) x)) }
    {
        let cell = self.cell(x);
        let e = end_of(cell.base, cell.first, cell.end, v);
        if e <= cell.first {
            return None;
        }
        let start = 64 * cell.start;
        let end = end_of_set(
            self.words.as_slice(),
            start + cell.first as usize,
            start + e as usize,
        );
        Some(value_at(cell.base, (end - 1 - start) as u32))
    }

    // The greatest value up to v.
    pub(crate) fn prev(&self, x: usize, v: i64) -> Option<i64>
        requires sound { IsSoundTable self.now }
        requires var { x < length self.now.cells.items }
        ensures { result ≡ greatest_of (values_up_to v (values_left (box_in self.now) x)) }
    {
        let cell = self.cell(x);
        if !has_no_gap(cell) {
            return self.prev_anywhere(x, v);
        }
        let prev = v.min(value_at(cell.base, cell.end) - 1);
        if prev >= value_at(cell.base, cell.first) {
            Some(prev)
        } else {
            None
        }
    }

    // No removal takes many places.
    pub(crate) fn need_known(&self, x: usize)
        requires sound { IsSoundTable self.now }
        requires var { x < length self.now.cells.items }
        ensures { (lo hi : ℤ) → removal_need (values_left (box_in self.now) x) lo hi ≤ 16400 }
    {
        let _cell = self.cell(x);
    }

    // How many places a removal takes at most.
    pub(crate) fn need(&self, x: usize, lo: i64, hi: i64) -> usize
        requires sound { IsSoundTable self.now }
        requires var { x < length self.now.cells.items }
        ensures need { result ≡ removal_need (values_left (box_in self.now) x) lo hi }
        ensures most { result ≤ 16400 }
    {
        let cell = self.cell(x);
        let a = place_of(cell.base, cell.first, cell.end, lo);
        let e = end_of(cell.base, cell.first, cell.end, hi);
        if a < e {
            (e - 1 - a) as usize / 64 + 2
        } else {
            0
        }
    }
}
