//! Reads of a chain. `i` is the index of the node at `at`, which only the proof needs.
ghost use Rattle.std.specs.Prelude.{◌≡◌, ◌+◌, ◌-◌, ◌<◌, slice_index_or};
ghost use Rattle.paged_stack.specs.Links.{place_of};

use super::{Node, Nodes, Place};

impl<T> Nodes<T> {
    pub(crate) fn len(&self) -> usize
        ensures { result ≡ self.now.len }
    {
        self.len
    }

    pub(crate) fn head(&self) -> Place
        ensures { 0 < self.now.len → result.ptr ≡ place_of self.now.links 0 }
    {
        Place {
            ptr: self.head as *const u8,
        }
    }

    pub(crate) fn tail(&self) -> Place
        ensures { 0 < self.now.len → result.ptr ≡ place_of self.now.links (self.now.len - 1) }
    {
        Place {
            ptr: self.tail as *const u8,
        }
    }

    pub(crate) fn next(&self, at: Place, i: usize) -> Place
        requires { (i < self.now.len) × (at.ptr ≡ place_of self.now.links i) }
        ensures { i + 1 < self.now.len → result.ptr ≡ place_of self.now.links (i + 1) }
    {
        let node = at.ptr as *const Node<T>;
        Place {
            ptr: unsafe { (*node).next } as *const u8,
        }
    }

    pub(crate) fn prev(&self, at: Place, i: usize) -> Place
        requires { (i < self.now.len) × (at.ptr ≡ place_of self.now.links i) }
        ensures { 0 < i → result.ptr ≡ place_of self.now.links (i - 1) }
    {
        let node = at.ptr as *const Node<T>;
        Place {
            ptr: unsafe { (*node).prev } as *const u8,
        }
    }

    pub(crate) fn elem(&self, at: Place, i: usize) -> &T
        requires { (i < self.now.len) × (at.ptr ≡ place_of self.now.links i) }
        ensures { result.now ≡ slice_index_or self.now.items i result.now }
    {
        let node = at.ptr as *const Node<T>;
        unsafe { &(*node).elem }
    }
}
