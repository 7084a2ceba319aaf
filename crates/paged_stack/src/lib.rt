//! A stack kept in pages that never move.
//!
//! A trail of a solver and an arena of certificate lines grow item by item, and fall back to an earlier length at once. A
//! `Vec` would copy all its items each time that it grows, and ask for one block that is ever larger. Here the items lie in
//! pages of 1,024: a page is one block of the allocator, with room for its items and, after them, a node with two links, by
//! which the pages are chained both ways. A page stays where it is until the stack is dropped, so no item is ever copied to
//! make room, and no block asked for is larger than the one before. A drop gives each page back.
//!
//! A clause sees a stack as the list of its `items` and a number, `spare`: how many more items it takes with no new memory.
//! Only `reserve` and `push` ask for memory, at most what they need. Where `spare` is enough they do not, and answer `Ok`.
//! After a refusal the items are what they were, and so is `spare`, but that a `reserve` keeps the pages that it was given.
//! A page that is too large for any block is refused as one that is not to be had.
//!
//! Proved of each public function: it is safe, it ends, and it leaves exactly the list and the `spare` that its contract
//! says. Left open is only whether the allocator has a page. Proved of the pages: none is given back while something can
//! still reach it, and none twice. The compiler sees to it that a page is let go by no other way than its `free`.
//!
//! What a call costs:
//!
//! | call | steps |
//! |---|---|
//! | `push`, `push_spare`, `pop` | the last page alone; each 1,024th moves a page between the used and the spare ones, by its links |
//! | `get`, `cursor_from` | a link for each page between the item's and the nearer end |
//! | a step of a cursor | one item; after the last one of a page also one link |
//! | `cut` | a step for each page that is emptied, whatever it holds |
//! | `reserve` | a block of the allocator for each page that is taken |
//! | `len`, `spare`, `new`, `cursor` | a few instructions |
//!
//! The layers, from below: `nodes` links raw nodes, `row` reads and writes a page's places, `block` takes a block apart and
//! makes it whole, all three over raw memory, each function proved by a walk over its code. `page`, `pages` and `stack` are
//! safe code over them.
#![tactic(auto)]

pub(crate) mod block;
pub(crate) mod nodes;
pub(crate) mod page;
pub(crate) mod pages;
pub(crate) mod row;
mod stack;

pub use stack::PagedStack;
pub use stack::walk::Cursor;
