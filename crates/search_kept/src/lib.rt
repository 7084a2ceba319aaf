//! Nodes of a search whose lines are kept, for where the same node is met again.
//!
//! There are two kinds. A node that is known (`KnownNodes`) was decided at a position of its scope; its lines stand wherever the
//! position looks the same (`likeness`). A node kept aside (`AsideNodes`) stands below a tuple that was tried before its turn came;
//! its lines stand where the walk over the values comes to that tuple, in the same box.
//!
//! Both are told the lines of a node with what the search says of it (`IsEnded` of `specs/Known`, over the records of
//! `search_parts`), and answer with lines that stand here: `StandsHere`, `StandsAside`. What the search goes through between, and
//! how it found the lines, isn't asked.
#![tactic(auto)]

mod aside;
mod known;
mod resemblance;
mod turns;

pub use aside::{AsideNode, AsideNodes};
pub use known::{KnownNode, KnownNodes, NodeEnd, is_decided};
