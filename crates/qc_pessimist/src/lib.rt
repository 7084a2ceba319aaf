//! The pessimistic reading of a problem: what it comes to where chosen owners meet the worst ties.
//!
//! The owner of a scope with a condition may count on the best of what later owners are indifferent to: of
//! the strategies that are optimal after its choice, it takes whichever suits it. Here the owners of chosen
//! scopes can't: after their choice they meet an optimal strategy that is worst for them
//! (`specs/Worst`). Such play is that of a plain problem: the one in which after each chosen scope stands an
//! existential scope without variables, whose owner wishes the opposite (`specs/Opposed`). `pessimistic`
//! makes this problem, and its contract says why its answer is that of the old one (`specs/Laws`).
#![tactic(auto)]

mod laws;
mod made;
mod opposed;
mod reading;

pub use laws::opposing_scopes_tell_the_worst;
pub use made::pessimistic;
pub use reading::{NoReading, Places};
