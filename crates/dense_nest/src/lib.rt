//! What is open around the lines of a dense certificate, and what was seen there.
//!
//! A `Nest` keeps what a ledger of `dense_ledger` has but for what its game says of single lines: what is left to the variables in a
//! store with its trail, what was seen in each scope's own tree in a join, and what is open above, each with a mark of the trail.
//! Whoever judges lines asks of its box what they claim, and tells it what they come to.
#![tactic(auto)]

mod answer;
mod basics;
mod begin;
mod cases;
mod nest;
mod nodes;
mod opened;
mod over;
mod parts;
mod place;
mod told;

pub use answer::Answer;
pub use joins::Found;
pub use nest::Nest;
pub use nodes::Reached;
pub use place::{Due, Entry, Fork, Open, Spot};
pub use told::{Named, Told};
