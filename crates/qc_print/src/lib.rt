//! A problem as its one text.
//!
//! Every item stands on a line of its own: a scope's head, its variables, its aggregates and its
//! constraints, and then the goal. The text is made in one pass.
#![tactic(auto)]

mod arguments;
mod parts;
mod problem;

pub use problem::print_problem;
