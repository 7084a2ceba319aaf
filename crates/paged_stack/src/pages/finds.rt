//! A page is found by its number, from the nearer end, or by walking over the nodes.
ghost use Rattle.std.specs.Prelude.{◌≡◌, ◌<◌, length, map, slice_index_or};
ghost use Rattle.paged_stack.specs.Leaves.{items_of};

use super::Pages;
use crate::nodes::Nodes;
use crate::page::Page;

impl<T> Pages<T> {
    pub(crate) fn find(&self, number: usize) -> &Page<T>
        requires { number < length self.now }
        ensures { items_of result.now ≡ slice_index_or self.now number (items_of result.now) }
    {
        self.nodes.elem(self.nodes.find(number), number)
    }

    pub(crate) fn nodes(&self) -> &Nodes<Page<T>>
        ensures { map items_of result.now.items ≡ self.now }
    {
        &self.nodes
    }
}
