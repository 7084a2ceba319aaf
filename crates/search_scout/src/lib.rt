//! A free search of a scope's variables for one tuple that the constraints in force allow.
//!
//! The search that writes certificates goes over a scope's variables and their values in order. This one goes as it likes:
//! the variable with the fewest values left comes first, and it begins again, with values in another order, where it has
//! gone astray. Where an objective is given it goes on after a tuple for better ones. What it finds is advice. So nothing is
//! promised of a tuple: only that a look ends within its turns, and that the store, which is the scout's own, is as before.
#![tactic(auto)]

mod chance;
mod choosing;
mod closing;
mod diving;
mod ground;
mod improving;
mod narrowing;
mod restarts;
mod scouting;

pub use scouting::Scout;
