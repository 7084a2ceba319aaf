//! Nodes of a certificate that were checked before, by their position and their text.
//!
//! Where nothing is optimised, a node comes to the same wherever the position looks the same. So a checker that meets such a
//! position again, with the same text to come, needs no more than to pass over it. All memory is taken at the start; where it
//! is full, every node is forgotten.
#![tactic(auto)]

mod cost;
mod look;
mod memory;
mod node;

pub use memory::{LEAST_SIZE, MOST_SIZE, NodeMemory};
pub use node::Met;
