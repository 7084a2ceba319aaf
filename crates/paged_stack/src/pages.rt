//! A chain of pages, which a clause sees as the list of what each page holds.
use crate::nodes::Nodes;
use crate::page::Page;
use std::marker::Model;

mod ends;
mod finds;
mod last;

pub(crate) struct Pages<T> {
    nodes: Nodes<Page<T>>,
}

impl<T> Model for Pages<T> {
    ghost use Rattle.std.specs.Prelude.{◌≡◌, List, map};
    ghost use Rattle.paged_stack.specs.Links.{places_of};
    ghost use Rattle.paged_stack.specs.Leaves.{items_of, home_of};

    ghost Value = { List (List T) };

    ghost view = { λ p. map items_of p.nodes.items };

    ghost invariant = { λ p. places_of p.nodes.links ≡ map home_of p.nodes.items };
}
