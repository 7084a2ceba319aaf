//! Decides games within a budget of turns, and writes the lines of a certificate one after the other.
//!
//! No tree is built on the way: `solve_flat` puts the lines into an arena, and `solve` reads them as a tree afterwards.
//! The contracts say which tree the lines are by what holds of it (`specs/Solution`), not by how it was
//! found: it proves the outcome, is in order, keeps its incumbents, means what it says, fits the text, and has no more turns
//! than the budget.
//!
//! A first pass goes through the game with cuts (`search_walk`). Where it comes to nothing, a second one goes over the cases in
//! order, so that an open certificate has exactly the turns of the budget.
#![tactic(auto)]

mod attempts;
mod beside;
mod certify;
mod pieces;

pub use attempts::{Flat, solve_flat};
pub use certify::solve;
pub use pieces::{Keep, solve_piece};
