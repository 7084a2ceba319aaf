//! The row of a page: raw memory with 1,024 places, which fill from the first on.
ghost use Rattle.std.specs.Prelude.{◌≡◌, ◌<◌, ◌≤◌, List, [], ◌∷◌, ◌++◌, length, take, slice_index_or};
ghost use Rattle.paged_stack.specs.Rows.{row_owns, row_lent};

use std::marker::Model;

// The first places hold `items`, and the others hold nothing.
pub(crate) struct Row<T> {
    pub(crate) ptr: *mut T,
    pub(crate) ghost items: { List T },
    pub(crate) ghost fits: { length items ≤ 1024 },
}

impl<T> Model for Row<T> {
    ghost also_owns = { λ r. row_owns T.row r.ptr r.items };

    ghost also_shares = { λ r _ κ. row_lent T.row r.ptr r.items κ };
}

impl<T> Row<T> {
    pub(crate) fn get(&self, k: usize) -> &T
        requires { k < length self.now.items }
        ensures { result.now ≡ slice_index_or self.now.items k result.now }
    {
        unsafe { &*self.ptr.add(k) }
    }

    // What lies at `k` and after it is forgotten.
    pub(crate) fn put(&mut self, k: usize, item: T)
        requires { (k ≤ length self.old.items) × (k < 1024) }
        ensures { (self.new.ptr ≡ self.old.ptr) × (self.new.items ≡ take k self.old.items ++ item ∷ []) }
    {
        unsafe { self.ptr.add(k).write(item) }
    }
}
