//! The items of a stack, one after another.
ghost use Rattle.std.specs.Prelude.{◌≡◌, ◌+◌, ◌/◌, ◌<◌, ◌≤◌, length, drop, Some, IfSome};
ghost use Rattle.std.specs.Iterator.{YieldsFirst, UpTo, at_most, item_count};
ghost use Rattle.std.specs.Iterator.SizeHint.{IsWithinCount};
ghost use Rattle.paged_stack.specs.Links.{place_of};

use super::PagedStack;
use crate::block::PAGE_ITEMS;
use crate::nodes::{Nodes, Place};
use crate::page::Page;
use std::marker::Model;

/// An iterator of a stack's items, in order up to the last, which a clause sees as the list of those that are left.
///
/// A step reads one item, and after the last one of a page a link. It takes no memory.
#[derive(Drop)]
pub struct Cursor<'a, T: Copy> {
    nodes: &'a Nodes<Page<T>>,
    // The node of the page on which the next item lies.
    at: Place,
    // The place of the next item in the stack.
    place: usize,
    len: usize,
}

impl<'a, T: Copy> Model for Cursor<'a, T> {
    ghost use Rattle.std.specs.Prelude.{◌≡◌, ◌/◌, ◌<◌, ◌≤◌, List, length, drop, map};
    ghost use Rattle.paged_stack.specs.Leaves.{items_of};
    ghost use Rattle.paged_stack.specs.Links.{place_of};
    ghost use Rattle.paged_stack.specs.Packed.{joined, IsPacked};

    ghost Value = { List T };

    ghost view = { λ c. drop c.place (joined (map items_of c.nodes.now.items)) };

    ghost invariant = { λ c. IsPacked (map items_of c.nodes.now.items) × (c.len ≡ length (joined (map items_of c.nodes.now.items))) × (c.place ≤ c.len) × (c.place < c.len → c.at.ptr ≡ place_of c.nodes.now.links (c.place / 1024)) };
}

impl<T: Copy> PagedStack<T> {
    /// An iterator of the items, from the first to the last. It takes no memory.
    pub fn cursor(&self) -> Cursor<'_, T>
        ensures { result ≡ self.now.items }
    {
        let nodes = self.used.nodes();
        Cursor {
            nodes,
            at: nodes.head(),
            place: 0,
            len: self.len,
        }
    }

    /// An iterator of the items from place `k` on. It takes no memory, and walks from the nearer end of the pages.
    pub fn cursor_from(&self, k: usize) -> Cursor<'_, T>
        requires { k ≤ length self.now.items }
        ensures { result ≡ drop k self.now.items }
    {
        let nodes = self.used.nodes();
        let at = if k < self.len {
            nodes.find(k / PAGE_ITEMS)
        } else {
            nodes.head()
        };
        Cursor {
            nodes,
            at,
            place: k,
            len: self.len,
        }
    }
}

impl<'a, T: Copy> Iterator for Cursor<'a, T> {
    type Item = T;

    ghost next_gives = { YieldsFirst (λ rest. rest) };

    ghost remaining = { item_count (λ rest. rest) };

    fn next(&mut self) -> Option<T> {
        if self.place == self.len {
            return None;
        }
        let page = self.nodes.elem(self.at, self.place / PAGE_ITEMS);
        let item = page.get(self.place % PAGE_ITEMS);
        self.at = node_after(self.nodes, self.at, self.place);
        self.place += 1;
        Some(item)
    }

    fn size_hint(&self) -> (usize, Option<usize>)
        ensures lower { IsWithinCount result.0 (at_most (length self.now)) }
        ensures upper { IfSome result.1 (UpTo (at_most (length self.now))) }
        ensures value { result ≡ (length self.now, Some (length self.now)) }
    {
        let left = self.len - self.place;
        (left, Some(left))
    }
}

// The node of the page that has the item after the one at `place`, whose node is at `at`.
fn node_after<E>(nodes: &Nodes<E>, at: Place, place: usize) -> Place
    requires { (place / 1024 < nodes.now.len) × (at.ptr ≡ place_of nodes.now.links (place / 1024)) }
    ensures { (place + 1) / 1024 < nodes.now.len → result.ptr ≡ place_of nodes.now.links ((place + 1) / 1024) }
{
    if place % PAGE_ITEMS < PAGE_ITEMS - 1 {
        return at;
    }
    nodes.next(at, place / PAGE_ITEMS)
}
