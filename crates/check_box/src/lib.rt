//! The checker's box: the values left to each variable, with a trail that has room for all removals from the beginning,
//! and what whoever goes along a certificate asks of them.
//!
//! `Remains` takes values away and goes back, and knows whether a variable has none left. `case_ends` tells which values a
//! case of a branch covers; `read_values` reads the values of variables that have one left each; `goal_holds` evaluates the
//! goal on them. The machine over lines, plays and lists of lemmas all stand on these.
#![tactic(auto)]

mod cover;
mod goal;
mod reading;
mod remains;

pub use cover::{Ends, case_ends};
pub use goal::goal_holds;
pub use reading::read_values;
pub use remains::Remains;
