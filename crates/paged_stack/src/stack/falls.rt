//! Items come off. Pages stay, as spare ones.
ghost use Rattle.std.specs.Prelude.{◌≡◌, ◌+◌, ◌-◌, ◌%◌, ◌<◌, ◌≤◌, [], ◌∷◌, ◌++◌, length, take, MatchOption};
ghost use Rattle.paged_stack.specs.Packed.{before_last};

use super::PagedStack;
use crate::block::PAGE_ITEMS;

impl<T: Copy> PagedStack<T> {
    /// Takes the last item off. It takes no memory, and gives none back.
    ///
    /// `None` comes exactly where the stack is empty, and then nothing changes.
    pub fn pop(&mut self) -> Option<T>
        ensures { MatchOption result ((self.old.items ≡ []) × (self.new ≡ self.old)) (λ item. (self.old.items ≡ self.new.items ++ item ∷ []) × (self.new.spare ≡ self.old.spare + 1)) }
    {
        if self.len == 0 {
            return None;
        }
        if self.len % PAGE_ITEMS == 1 {
            return Some(self.pop_first());
        }
        Some(self.pop_later())
    }

    // The last item is the first of its page, which is spare then.
    fn pop_first(&mut self) -> T
        requires { length self.old.items % 1024 ≡ 1 }
        ensures items { self.old.items ≡ self.new.items ++ result ∷ [] }
        ensures spare { self.new.spare ≡ self.old.spare + 1 }
    {
        let mut emptied = self.used.pop_back();
        let item = emptied.page.pop();
        self.spare.push_front(emptied);
        self.len -= 1;
        item
    }

    // The last item has others before it on its page.
    fn pop_later(&mut self) -> T
        requires { (0 < length self.old.items) × (length self.old.items % 1024 ≡ 1 → ⊥) }
        ensures items { self.old.items ≡ self.new.items ++ result ∷ [] }
        ensures spare { self.new.spare ≡ self.old.spare + 1 }
    {
        self.len -= 1;
        self.used.take()
    }

    /// Keeps the first `len` items. It takes no memory, and gives no page back.
    pub fn cut(&mut self, len: usize)
        requires { len ≤ length self.old.items }
        ensures items { self.new.items ≡ take len self.old.items }
        ensures spare { self.new.spare ≡ self.old.spare + (length self.old.items - len) }
    {
        while self.len > len {
            let before = (self.len - 1) / PAGE_ITEMS * PAGE_ITEMS;
            if before < len {
                self.shorten_last(len);
            } else {
                self.drop_last();
            }
        }
    }

    // The last page is spare then.
    fn drop_last(&mut self)
        requires { 0 < length self.old.items }
        ensures items { self.new.items ≡ take (before_last self.old.items) self.old.items }
        ensures spare { self.new.spare ≡ self.old.spare + (length self.old.items - before_last self.old.items) }
    {
        let emptied = self.used.pop_back();
        self.spare.push_front(emptied);
        self.len = (self.len - 1) / PAGE_ITEMS * PAGE_ITEMS;
    }

    // Only items of the last page go.
    fn shorten_last(&mut self, len: usize)
        requires { (before_last self.old.items < len) × (len ≤ length self.old.items) }
        ensures items { self.new.items ≡ take len self.old.items }
        ensures spare { self.new.spare ≡ self.old.spare + (length self.old.items - len) }
    {
        let before = (self.len - 1) / PAGE_ITEMS * PAGE_ITEMS;
        self.used.shorten(len - before);
        self.len = len;
    }
}
