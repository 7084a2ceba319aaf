//! The words, the cells and the trail of a store, and the two ways in which a cell changes.
ghost use Rattle.std.specs.Prelude.{◌≡◌, ◌≢◌, ◌<◌, ◌≤◌, ◌+◌, ◌-◌, false, true, [], ◌∷◌, ◌++◌, length, set, slice_index, slice_index_or};
ghost use Rattle.fd_store.specs.Sound.{IsCell};
ghost use Rattle.fd_store.specs.Takes.{IsSoundTable};

use paged_stack::PagedStack;

/// Where a variable's bits stand, and which of them count.
///
/// The values that are left are base + k for each k from `first` up to `end` whose bit, the k-th from the word `start`
/// on, is set.
#[derive(Clone, Copy)]
pub(crate) struct Cell {
    pub(crate) base: i64,
    pub(crate) start: usize,
    pub(crate) width: u32,
    pub(crate) first: u32,
    pub(crate) end: u32,
    pub(crate) size: u32,
}

// Whether each value between a cell's ends is left, so that no word need be read.
pub(crate) fn has_no_gap(cell: Cell) -> bool
    requires { cell.first ≤ cell.end }
    ensures dense { result ≡ true → cell.size ≡ cell.end - cell.first }
    ensures gap { result ≡ false → cell.size ≢ cell.end - cell.first }
{
    cell.size == cell.end - cell.first
}

/// A place of the trail: what a word and a cell were before a change.
///
/// The cell stands first: then it is copied straight to the trail, since no other field is written there before it.
#[derive(Clone, Copy)]
pub(crate) struct Change {
    pub(crate) cell: Cell,
    pub(crate) bits: u64,
    pub(crate) word: usize,
    pub(crate) var: usize,
}

// Stands in a change for a word, where none was changed.
pub(crate) const NO_WORD: usize = usize::MAX;

// Records the cell of x, which is about to change while the words stay.
pub(crate) fn record(trail: &mut PagedStack<Change>, x: usize, cell: Cell)
    requires { 0 < trail.old.spare }
    ensures items { trail.new.items ≡ trail.old.items ++ record { bits = 0; word = NO_WORD; var = x; cell = cell } ∷ [] }
    ensures spare { trail.new.spare + 1 ≡ trail.old.spare }
{
    trail.push_spare(Change {
        cell,
        bits: 0,
        word: NO_WORD,
        var: x,
    });
}

#[derive(Drop)]
pub(crate) struct Table {
    pub(crate) words: Vec<u64>,
    pub(crate) cells: Vec<Cell>,
    pub(crate) trail: PagedStack<Change>,
}

impl Table {
    // The cell of x, and what is known of it.
    pub(crate) fn cell(&self, x: usize) -> Cell
        requires sound { IsSoundTable self.now }
        requires var { x < length self.now.cells.items }
        ensures at { slice_index_or self.now.cells.items x result ≡ result }
        ensures right { IsCell self.now.words.items result }
        ensures few { length self.now.words.items ≤ 100000 }
    {
        self.cells[x]
    }

    // Puts another cell in the place of the x-th, and leaves the words.
    pub(crate) fn replace(&mut self, x: usize, cell: Cell)
        requires var { x < length self.old.cells.items }
        requires room { 0 < self.old.trail.spare }
        ensures words { self.new.words.items ≡ self.old.words.items }
        ensures cells { self.new.cells.items ≡ set self.old.cells.items x cell }
        ensures trail { self.new.trail.items ≡ self.old.trail.items ++ record { bits = 0; word = NO_WORD; var = x; cell = slice_index_or self.old.cells.items x cell } ∷ [] }
        ensures spare { self.new.trail.spare + 1 ≡ self.old.trail.spare }
    {
        record(&mut self.trail, x, self.cells[x]);
        self.cells[x] = cell;
    }

    // Puts another cell in the place of the x-th, and other bits into one word.
    pub(crate) fn rewrite(&mut self, x: usize, cell: Cell, word: usize, bits: u64)
        requires var { x < length self.old.cells.items }
        requires word { word < length self.old.words.items }
        requires room { 0 < self.old.trail.spare }
        ensures words { self.new.words.items ≡ set self.old.words.items word bits }
        ensures cells { self.new.cells.items ≡ set self.old.cells.items x cell }
        ensures trail { self.new.trail.items ≡ self.old.trail.items ++ record { bits = slice_index self.old.words.items word; word = word; var = x; cell = slice_index_or self.old.cells.items x cell } ∷ [] }
        ensures spare { self.new.trail.spare + 1 ≡ self.old.trail.spare }
    {
        self.trail.push_spare(Change {
            bits: self.words[word],
            word,
            var: x,
            cell: self.cells[x],
        });
        self.words[word] = bits;
        self.cells[x] = cell;
    }
}
