//! The checker of dense certificates line by line, with memory for what is open and for the nodes that have names.
//!
//! `DenseMachine` takes the lines of a certificate, and says at the end what its root comes to. It keeps what a ledger of
//! `dense_ledger` has: what is open and was seen in a `Nest`, the tuples that were given in a `Freedom`, and the boxes of named nodes in
//! `Positions`. Each line is judged by the definitions of `dense_tree`, on the box that is there.
#![tactic(auto)]

mod begin;
mod cases;
mod ends;
mod given;
mod line;
mod machine;
mod nodes;
mod parts;
mod steps;
mod turn;

pub use dense_nest::{Answer, Found};
pub use line::Line;
pub use machine::DenseMachine;
