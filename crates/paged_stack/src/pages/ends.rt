//! Pages come and go at the ends of a chain.
ghost use Rattle.std.specs.Prelude.{◌≡◌, ◌+◌, ◌^◌, ◌<◌, [], ◌∷◌, ◌++◌, length};
ghost use Rattle.paged_stack.specs.Leaves.{items_of};

use super::Pages;
use crate::nodes::Nodes;
use crate::page::Loose;
use std::alloc::Global;

impl<T> Pages<T> {
    pub(crate) fn new() -> Pages<T>
        ensures { result ≡ [] }
    {
        Pages {
            nodes: Nodes::new(),
        }
    }

    pub(crate) fn len(&self) -> usize
        ensures { (result ≡ length self.now) × (result < 2 ^ 63) }
    {
        self.nodes.len()
    }

    pub(crate) fn push_front(&mut self, loose: Loose<T>)
        requires { length self.old + 1 < 2 ^ 63 }
        ensures { self.new ≡ items_of loose.page ∷ self.old }
    {
        let Loose { page, room } = loose;
        if self.nodes.len() == 0 {
            self.nodes.link_first(room, page);
        } else {
            self.nodes.link_front(room, page);
        }
    }

    pub(crate) fn push_back(&mut self, loose: Loose<T>)
        requires { length self.old + 1 < 2 ^ 63 }
        ensures { self.new ≡ self.old ++ items_of loose.page ∷ [] }
    {
        let Loose { page, room } = loose;
        if self.nodes.len() == 0 {
            self.nodes.link_first(room, page);
        } else {
            self.nodes.link_back(room, page);
        }
    }

    pub(crate) fn pop_front(&mut self) -> Loose<T>
        requires { 0 < length self.old }
        ensures { self.old ≡ items_of result.page ∷ self.new }
    {
        let (page, room) = self.nodes.unlink_front();
        Loose { page, room }
    }

    pub(crate) fn pop_back(&mut self) -> Loose<T>
        requires { 0 < length self.old }
        ensures { self.old ≡ self.new ++ items_of result.page ∷ [] }
    {
        let (page, room) = self.nodes.unlink_back();
        Loose { page, room }
    }

    // Gives each page back.
    pub(crate) fn free(self, alloc: &Global) {
        let mut pages = self;
        while pages.len() > 0 {
            pages.pop_front().free(alloc);
        }
        let Pages { nodes } = pages;
        nodes.end();
    }
}
