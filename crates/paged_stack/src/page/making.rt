//! A page is made, and given back.
ghost use Rattle.std.specs.Prelude.{◌≡◌, [], ◌∷◌, IfOk};
ghost use Rattle.paged_stack.specs.Leaves.{items_of};

use super::{Loose, Page};
use crate::block::{Block, PAGE_ITEMS, join, row_size, split};
use std::alloc::{AllocError, Global};
use std::mem::size_of;

impl<T> Loose<T> {
    pub(crate) fn new(alloc: &Global) -> Result<Loose<T>, AllocError>
        ensures { IfOk result (λ l. items_of l.page ≡ []) }
    {
        let Some(capacity) = row_size::<T>() else {
            return Err(AllocError);
        };
        let Some(block) = Block::new(alloc, capacity) else {
            return Err(AllocError);
        };
        let (row, room, deed) = split(block);
        let page = Page {
            row,
            count: 0,
            deed,
        };
        Ok(Loose { page, room })
    }

    pub(crate) fn free(self, alloc: &Global) {
        let Loose { page, room } = self;
        let Page {
            row,
            count: _,
            deed,
        } = page;
        join(row, room, deed, PAGE_ITEMS * size_of::<T>()).free(alloc);
    }
}

impl<T: Copy> Loose<T> {
    // The item is all that the page holds.
    pub(crate) fn restart(&mut self, item: T)
        ensures { items_of self.new.page ≡ item ∷ [] }
    {
        self.page.cut(0);
        self.page.push(item);
    }
}
