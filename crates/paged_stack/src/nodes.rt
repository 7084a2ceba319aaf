//! A chain of nodes, linked both ways. A node lies in room that its caller gives, and gets back.
ghost use Rattle.std.specs.Prelude.{◌≡◌, ◌^◌, ◌<◌, List, length};
ghost use Rattle.paged_stack.specs.Links.{Link, IsChained};
ghost use Rattle.paged_stack.specs.Ownership.{room_owns, nodes_own, nodes_lent};

use std::marker::Model;

pub(crate) mod ends;
pub(crate) mod finds;
pub(crate) mod lends;
pub(crate) mod reads;

// `next` of the last node and `prev` of the first mean nothing.
pub(crate) struct Node<T> {
    next: *const Node<T>,
    prev: *const Node<T>,
    elem: T,
}

// Room for a `T`, with nothing in it.
pub(crate) struct Room<T> {
    pub(crate) ptr: *mut T,
}

impl<T> Model for Room<T> {
    ghost also_owns = { λ r. room_owns T.row r.ptr };
}

// `links` says of each node where it lies, its `next` and its `prev`. With no node, `head` and `tail` dangle.
pub(crate) struct Nodes<T> {
    head: *const Node<T>,
    tail: *const Node<T>,
    len: usize,
    pub(crate) ghost items: { List T },
    pub(crate) ghost links: { List Link },
    ghost ok: { (len ≡ length items) × (len ≡ length links) },
    ghost small: { len < 2 ^ 63 },
    ghost chained: { ∥ IsChained head tail links ∥₁ },
}

impl<T> Model for Nodes<T> {
    ghost also_owns = { λ n. nodes_own T.row n.links n.items };

    ghost also_shares = { λ n _ κ. nodes_lent T.row n.links n.items κ };
}

// Where a node lies. It owns nothing.
#[derive(Clone, Copy)]
pub(crate) struct Place {
    ptr: *const u8,
}
