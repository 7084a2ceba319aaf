//! What the nodes lend.
ghost use Rattle.std.specs.Prelude.{◌≡◌, ◌-◌, ◌<◌, slice_index_or};
ghost use Rattle.std.specs.Borrow.{sem};
ghost use Rattle.paged_stack.specs.Nodes.{nodes_follow_item};

use super::Nodes;

impl<T> Nodes<T> {
    pub(crate) fn back_mut(&mut self) -> &mut T
        requires { 0 < self.old.len }
        ensures* writes_back { sem 𝓛 (nodes_follow_item T.row self.entry (self.old.len - 1) result) }
        ensures value { result.now ≡ slice_index_or self.old.items (self.old.len - 1) result.now }
    {
        unsafe { &mut (*self.tail.cast_mut()).elem }
    }
}
