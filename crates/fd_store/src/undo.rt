//! Undoing.
ghost use Rattle.std.specs.Prelude.{◌≡◌, ◌<◌, ◌≤◌, ◌+◌, length, set, take, drop};
ghost use Rattle.fd_store.specs.Takes.{IsSoundTable};
ghost use Rattle.fd_store.specs.Trail.{words_before, cells_before};

use crate::table::{Change, Table};

impl Table {
    // Puts back what a change found.
    fn revert(&mut self, change: Change)
        requires { change.var < length self.old.cells.items }
        ensures words { self.new.words.items ≡ set self.old.words.items change.word change.bits }
        ensures cells { self.new.cells.items ≡ set self.old.cells.items change.var change.cell }
        ensures trail { self.new.trail ≡ self.old.trail }
    {
        self.cells[change.var] = change.cell;
        if change.word < self.words.len() {
            self.words[change.word] = change.bits;
        }
    }

    // Takes the changes past the first `at` back, the last one first.
    pub(crate) fn undo(&mut self, at: usize)
        requires sound { IsSoundTable self.old }
        requires at { at ≤ length self.old.trail.items }
        ensures words { self.new.words.items ≡ words_before (drop at self.old.trail.items) self.old.words.items }
        ensures cells { self.new.cells.items ≡ cells_before (drop at self.old.trail.items) self.old.cells.items }
        ensures trail { self.new.trail.items ≡ take at self.old.trail.items }
        ensures spare { self.new.trail.spare + length self.new.trail.items ≡ self.old.trail.spare + length self.old.trail.items }
    {
        while self.trail.len() > at {
            if let Some(change) = self.trail.pop() {
                self.revert(change);
            }
        }
    }
}
