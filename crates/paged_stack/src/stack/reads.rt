//! What a stack tells, and its start.
ghost use Rattle.std.specs.Prelude.{◌≡◌, ◌<◌, ◌≤◌, [], length, slice_index_or, MatchOption};

use super::PagedStack;
use crate::block::PAGE_ITEMS;
use crate::pages::Pages;
use std::alloc::Global;

impl<T: Copy> PagedStack<T> {
    /// An empty stack, which takes no memory yet. Its pages come from `alloc`.
    pub fn new(alloc: Global) -> PagedStack<T>
        ensures { (result.items ≡ []) × (result.spare ≡ 0) }
    {
        PagedStack {
            used: Pages::new(),
            spare: Pages::new(),
            len: 0,
            alloc,
        }
    }

    /// How many items it holds.
    pub fn len(&self) -> usize
        ensures { result ≡ length self.now.items }
    {
        self.len
    }

    /// How many more items it takes with no new memory.
    pub fn spare(&self) -> usize
        ensures { result ≡ self.now.spare }
    {
        PAGE_ITEMS * (self.used.len() + self.spare.len()) - self.len
    }

    /// The item at place `k`, and `None` exactly where `k` is not below the length. It takes no memory, and walks from the
    /// nearer end of the pages.
    pub fn get(&self, k: usize) -> Option<T>
        ensures { MatchOption result (length self.now.items ≤ k) (λ item. (k < length self.now.items) × (item ≡ slice_index_or self.now.items k item)) }
    {
        if k >= self.len {
            return None;
        }
        let page = self.used.find(k / PAGE_ITEMS);
        Some(page.get(k % PAGE_ITEMS))
    }
}
