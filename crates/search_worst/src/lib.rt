//! The search for what a game comes to where chosen owners meet the worst ties.
//!
//! `qc_pessimist` says what that is, and makes the plain problem that has the same answer. `solve_worst`
//! searches this problem, and says what the answer means for the old one.
#![tactic(auto)]

mod solve;

pub use solve::solve_worst;
