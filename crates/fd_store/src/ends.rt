//! Removals at an end of a variable's values, which write no word. Where values between the ends are missing, the new end is
//! looked for in the words; else it stands next to the removed values, and no word is read.
ghost use Rattle.std.specs.Prelude.{◌≡◌, ◌<◌, ◌≤◌, ◌+◌, ◌-◌, ◌&&◌, length, slice_index_or, pos, ◌+ℤ◌};
ghost use Rattle.qc_model.specs.Domains.{values_left};
ghost use Rattle.fd_store.specs.Places.{is_kept, is_inside, count_below};
ghost use Rattle.fd_store.specs.Sound.{IsCell};
ghost use Rattle.fd_store.specs.Takes.{Takes, IsSoundTable, box_in};

use crate::table::{Cell, Table, record};
use crate::words::{count_set, end_of_set, next_set};

impl Table {
    // How many values at places from a up to e are left.
    fn count(&self, cell: Cell, a: u32, e: u32) -> u32
        requires right { IsCell self.now.words.items cell }
        requires few { length self.now.words.items ≤ 100000 }
        requires first { cell.first ≤ a }
        requires order { a < e }
        requires end { e ≤ cell.end }
        ensures { result ≡ count_below (λ k. is_kept self.now.words.items cell k && is_inside a e k) cell.width }
    {
        let start = 64 * cell.start;
        count_set(
            self.words.as_slice(),
            start + a as usize,
            start + e as usize,
        )
    }

    // Takes the values below place e, where some stay, and looks for the first that stays.
    pub(crate) fn raise(&mut self, x: usize, cell: Cell, e: u32)
        requires sound { IsSoundTable self.old }
        requires var { x < length self.old.cells.items }
        requires at { slice_index_or self.old.cells.items x cell ≡ cell }
        requires right { IsCell self.old.words.items cell }
        requires few { length self.old.words.items ≤ 100000 }
        requires low { cell.first < e }
        requires high { e < cell.end }
        requires room { 0 < self.old.trail.spare }
        ensures takes { Takes x (cell.base +ℤ pos cell.first) (cell.base +ℤ pos (e - 1)) self.old self.new }
        ensures step { length self.new.trail.items ≡ length self.old.trail.items + 1 }
    {
        let start = 64 * cell.start;
        let next = next_set(
            self.words.as_slice(),
            start + e as usize,
            start + cell.end as usize,
        );
        let gone = self.count(cell, cell.first, e);
        let raised = Cell {
            first: (next - start) as u32,
            size: cell.size - gone,
            ..cell
        };
        self.replace(x, raised);
    }

    // Takes the values from place a on, where some stay, and looks for the last that stays.
    pub(crate) fn lower(&mut self, x: usize, cell: Cell, a: u32)
        requires sound { IsSoundTable self.old }
        requires var { x < length self.old.cells.items }
        requires at { slice_index_or self.old.cells.items x cell ≡ cell }
        requires right { IsCell self.old.words.items cell }
        requires few { length self.old.words.items ≤ 100000 }
        requires low { cell.first < a }
        requires high { a < cell.end }
        requires room { 0 < self.old.trail.spare }
        ensures takes { Takes x (cell.base +ℤ pos a) (cell.base +ℤ pos (cell.end - 1)) self.old self.new }
        ensures step { length self.new.trail.items ≡ length self.old.trail.items + 1 }
    {
        let start = 64 * cell.start;
        let end = end_of_set(
            self.words.as_slice(),
            start + cell.first as usize,
            start + a as usize,
        );
        let gone = self.count(cell, a, cell.end);
        let lowered = Cell {
            end: (end - start) as u32,
            size: cell.size - gone,
            ..cell
        };
        self.replace(x, lowered);
    }

    // Takes the values below place e, where some stay and none between the ends is missing.
    pub(crate) fn move_first(&mut self, x: usize, cell: Cell, e: u32)
        requires sound { IsSoundTable self.old }
        requires var { x < length self.old.cells.items }
        requires at { slice_index_or self.old.cells.items x cell ≡ cell }
        requires right { IsCell self.old.words.items cell }
        requires few { length self.old.words.items ≤ 100000 }
        requires dense { cell.size ≡ cell.end - cell.first }
        requires low { cell.first < e }
        requires high { e < cell.end }
        requires room { 0 < self.old.trail.spare }
        ensures takes { Takes x (cell.base +ℤ pos cell.first) (cell.base +ℤ pos (e - 1)) self.old self.new }
        ensures step { length self.new.trail.items ≡ length self.old.trail.items + 1 }
        ensures some { 0 < length (values_left (box_in self.new) x) }
    {
        let kept = &mut self.cells[x];
        record(&mut self.trail, x, *kept);
        kept.first = e;
        kept.size = cell.end - e;
    }

    // Takes the values from place a on, where some stay and none between the ends is missing.
    pub(crate) fn move_end(&mut self, x: usize, cell: Cell, a: u32)
        requires sound { IsSoundTable self.old }
        requires var { x < length self.old.cells.items }
        requires at { slice_index_or self.old.cells.items x cell ≡ cell }
        requires right { IsCell self.old.words.items cell }
        requires few { length self.old.words.items ≤ 100000 }
        requires dense { cell.size ≡ cell.end - cell.first }
        requires low { cell.first < a }
        requires high { a < cell.end }
        requires room { 0 < self.old.trail.spare }
        ensures takes { Takes x (cell.base +ℤ pos a) (cell.base +ℤ pos (cell.end - 1)) self.old self.new }
        ensures step { length self.new.trail.items ≡ length self.old.trail.items + 1 }
        ensures some { 0 < length (values_left (box_in self.new) x) }
    {
        let kept = &mut self.cells[x];
        record(&mut self.trail, x, *kept);
        kept.end = a;
        kept.size = a - cell.first;
    }

    // Takes all values.
    pub(crate) fn empty(&mut self, x: usize, cell: Cell)
        requires sound { IsSoundTable self.old }
        requires var { x < length self.old.cells.items }
        requires at { slice_index_or self.old.cells.items x cell ≡ cell }
        requires right { IsCell self.old.words.items cell }
        requires few { length self.old.words.items ≤ 100000 }
        requires some { cell.first < cell.end }
        requires room { 0 < self.old.trail.spare }
        ensures takes { Takes x (cell.base +ℤ pos cell.first) (cell.base +ℤ pos (cell.end - 1)) self.old self.new }
        ensures step { length self.new.trail.items ≡ length self.old.trail.items + 1 }
    {
        let emptied = Cell {
            end: cell.first,
            size: 0,
            ..cell
        };
        self.replace(x, emptied);
    }
}
