//! Items are appended, and memory is asked for.
ghost use Rattle.std.specs.Prelude.{◌≡◌, ◌+◌, ◌%◌, ◌<◌, ◌≤◌, [], ◌∷◌, ◌++◌, length, IsOk, OnOk, OnErr};

use super::PagedStack;
use crate::block::PAGE_ITEMS;
use crate::page::Loose;
use std::alloc::AllocError;

// No stack has more pages, so that its counts fit a word.
const MOST_PAGES: usize = 1 << 50;

impl<T: Copy> PagedStack<T> {
    /// Makes sure that `n` items can be appended with no new memory. The items stay as they are, and no more pages are
    /// taken than that asks for. Where `spare` is at least `n` it takes no memory and answers `Ok`.
    ///
    /// After a refusal `spare` is no smaller: the pages that were had are kept.
    pub fn reserve(&mut self, n: usize) -> Result<(), AllocError>
        ensures items { self.new.items ≡ self.old.items }
        ensures spare { self.old.spare ≤ self.new.spare }
        ensures reserved { OnOk result (n ≤ self.new.spare) }
        ensures fewest { self.old.spare < n → self.new.spare < n + 1024 }
        ensures succeeds { n ≤ self.old.spare → IsOk result × (self.new ≡ self.old) }
    {
        while self.spare() < n {
            self.grow()?;
        }
        Ok(())
    }

    /// Appends the item. Where `spare` is above 0 it takes no memory and answers `Ok`; where it is 0 one page is taken.
    ///
    /// After a refusal nothing has changed.
    pub fn push(&mut self, item: T) -> Result<(), AllocError>
        ensures pushed { OnOk result ((self.new.items ≡ self.old.items ++ item ∷ []) × (self.old.spare ≤ self.new.spare + 1)) }
        ensures page { self.old.spare ≡ 0 → OnOk result (self.new.spare ≡ 1023) }
        ensures refused { OnErr result (self.new ≡ self.old) }
        ensures succeeds { 0 < self.old.spare → IsOk result × (self.new.spare + 1 ≡ self.old.spare) }
    {
        if self.spare() == 0 {
            self.grow()?;
        }
        self.push_spare(item);
        Ok(())
    }

    /// Appends the item with no new memory.
    pub fn push_spare(&mut self, item: T)
        requires { 0 < self.old.spare }
        ensures items { self.new.items ≡ self.old.items ++ item ∷ [] }
        ensures spare { self.new.spare + 1 ≡ self.old.spare }
    {
        if self.len % PAGE_ITEMS == 0 {
            return self.push_first(item);
        }
        self.push_next(item)
    }

    // The item is the first of a page.
    fn push_first(&mut self, item: T)
        requires { (0 < self.old.spare) × (length self.old.items % 1024 ≡ 0) }
        ensures items { self.new.items ≡ self.old.items ++ item ∷ [] }
        ensures spare { self.new.spare + 1 ≡ self.old.spare }
    {
        let mut loose = self.spare.pop_front();
        loose.restart(item);
        self.used.push_back(loose);
        self.len += 1;
    }

    // The item goes onto the last page.
    fn push_next(&mut self, item: T)
        requires { length self.old.items % 1024 ≡ 0 → ⊥ }
        ensures items { self.new.items ≡ self.old.items ++ item ∷ [] }
        ensures spare { self.new.spare + 1 ≡ self.old.spare }
    {
        self.used.add(item);
        self.len += 1;
    }

    // Takes memory for one more page.
    fn grow(&mut self) -> Result<(), AllocError>
        ensures grown { OnOk result ((self.new.items ≡ self.old.items) × (self.new.spare ≡ self.old.spare + 1024)) }
        ensures refused { OnErr result (self.new ≡ self.old) }
    {
        if self.used.len() + self.spare.len() >= MOST_PAGES {
            return Err(AllocError);
        }
        let loose = Loose::new(&self.alloc)?;
        self.spare.push_back(loose);
        Ok(())
    }
}
