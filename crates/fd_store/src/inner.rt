//! Removals between the ends of a variable's values, word by word.
ghost use Rattle.std.specs.Prelude.{◌≡◌, ◌<◌, ◌≤◌, ◌+◌, ◌-◌, ◌*◌, ◌/◌, length, slice_index_or, pos, ◌+ℤ◌};
ghost use Rattle.fd_store.specs.Sound.{IsCell};
ghost use Rattle.fd_store.specs.Takes.{Takes, IsSoundTable, SameEnds};

use crate::bits::{cleared, count_in_word};
use crate::table::{Cell, Table};

impl Table {
    // Takes the values at places from a up to e, which lie in one word and strictly between the ends, and gives the cell
    // that is then in place.
    fn clear_word(&mut self, x: usize, cell: Cell, a: u32, e: u32) -> Cell
        requires sound { IsSoundTable self.old }
        requires var { x < length self.old.cells.items }
        requires at { slice_index_or self.old.cells.items x cell ≡ cell }
        requires right { IsCell self.old.words.items cell }
        requires low { cell.first < a }
        requires order { a < e }
        requires high { e < cell.end }
        requires word { e ≤ 64 * (a / 64) + 64 }
        requires room { 0 < self.old.trail.spare }
        ensures takes { Takes x (cell.base +ℤ pos a) (cell.base +ℤ pos (e - 1)) self.old self.new }
        ensures step { length self.new.trail.items ≤ length self.old.trail.items + 1 }
        ensures long { length self.new.cells.items ≡ length self.old.cells.items }
        ensures at { slice_index_or self.new.cells.items x result ≡ result }
        ensures same { SameEnds cell result }
        ensures right { IsCell self.new.words.items result }
    {
        let w = cell.start + (a / 64) as usize;
        let from = a % 64;
        let to = from + (e - a);
        let old = self.words[w];
        let gone = count_in_word(old, from, to);
        if gone == 0 {
            return cell;
        }
        let left = Cell {
            size: cell.size - gone,
            ..cell
        };
        self.rewrite(x, left, w, cleared(old, from, to));
        left
    }

    // Takes the values at places from a up to e, which lie strictly between the ends.
    pub(crate) fn clear(&mut self, x: usize, cell: Cell, a: u32, e: u32)
        requires sound { IsSoundTable self.old }
        requires var { x < length self.old.cells.items }
        requires at { slice_index_or self.old.cells.items x cell ≡ cell }
        requires right { IsCell self.old.words.items cell }
        requires low { cell.first < a }
        requires order { a < e }
        requires high { e < cell.end }
        requires room { (e + 63) / 64 - a / 64 ≤ self.old.trail.spare }
        ensures takes { Takes x (cell.base +ℤ pos a) (cell.base +ℤ pos (e - 1)) self.old self.new }
        ensures step { length self.new.trail.items ≤ length self.old.trail.items + ((e + 63) / 64 - a / 64) }
    {
        let mut left = cell;
        for w in a / 64..(e + 63) / 64 {
            left = self.clear_word(x, left, a.max(64 * w), e.min(64 * w + 64));
        }
    }
}
