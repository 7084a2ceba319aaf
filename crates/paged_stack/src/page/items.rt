//! Items go onto a page and come off it.
ghost use Rattle.std.specs.Prelude.{◌≡◌, ◌<◌, ◌≤◌, [], ◌∷◌, ◌++◌, take, slice_index_or};
ghost use Rattle.paged_stack.specs.Leaves.{items_of, home_of};

use super::Page;

impl<T: Copy> Page<T> {
    pub(crate) fn push(&mut self, item: T)
        requires { self.old.count < 1024 }
        ensures { (items_of self.new ≡ items_of self.old ++ item ∷ []) × (home_of self.new ≡ home_of self.old) }
    {
        self.row.put(self.count, item);
        self.count += 1;
    }

    pub(crate) fn pop(&mut self) -> T
        requires { 0 < self.old.count }
        ensures { (items_of self.old ≡ items_of self.new ++ result ∷ []) × (home_of self.new ≡ home_of self.old) }
    {
        self.count -= 1;
        *self.row.get(self.count)
    }

    pub(crate) fn get(&self, k: usize) -> T
        requires { k < self.now.count }
        ensures { result ≡ slice_index_or (items_of self.now) k result }
    {
        *self.row.get(k)
    }

    pub(crate) fn cut(&mut self, count: usize)
        requires { count ≤ self.old.count }
        ensures { (items_of self.new ≡ take count (items_of self.old)) × (home_of self.new ≡ home_of self.old) }
    {
        self.count = count;
    }
}
