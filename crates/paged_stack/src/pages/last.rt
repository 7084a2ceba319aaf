//! The last page of a chain is written.
ghost use Rattle.std.specs.Prelude.{◌≡◌, ◌-◌, ◌<◌, ◌≤◌, [], ◌∷◌, ◌++◌, length, take, slice_set};
ghost use Rattle.paged_stack.specs.Packed.{last_of};

use super::Pages;

impl<T: Copy> Pages<T> {
    pub(crate) fn add(&mut self, item: T)
        requires { (0 < length self.old) × (length (last_of self.old) < 1024) }
        ensures { self.new ≡ slice_set self.old (length self.old - 1) (last_of self.old ++ item ∷ []) }
    {
        self.nodes.back_mut().push(item);
    }

    pub(crate) fn take(&mut self) -> T
        requires { (0 < length self.old) × (0 < length (last_of self.old)) }
        ensures value { last_of self.old ≡ take (length (last_of self.old) - 1) (last_of self.old) ++ result ∷ [] }
        ensures pages { self.new ≡ slice_set self.old (length self.old - 1) (take (length (last_of self.old) - 1) (last_of self.old)) }
    {
        self.nodes.back_mut().pop()
    }

    pub(crate) fn shorten(&mut self, count: usize)
        requires { (0 < length self.old) × (count ≤ length (last_of self.old)) }
        ensures { self.new ≡ slice_set self.old (length self.old - 1) (take count (last_of self.old)) }
    {
        self.nodes.back_mut().cut(count);
    }
}
