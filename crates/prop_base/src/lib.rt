//! What all filters share: what they are given, one removal with its step, the loop that takes cuts until there is none, and
//! the filter that goes end by end.
//!
//! A filter removes values that a constraint refutes, and writes a step for each removal. It is given the constraint as an
//! `Asked`. A family of predicates is a `RuleFilter`, and `filter` runs it for a constraint of a problem. `prune` does one
//! removal; every filter goes through it. `filter_by_cuts` takes what a `Cutter` finds, one cut after another. `filter_by_ends` does so for
//! any predicate: it tries the least and the greatest value of each variable of the constraint by a refuter, and removes
//! those that are refuted, each with as many values beside it as are refuted as one range, until none is. Faster filters
//! take its place one by one; their contract is the same. Where they find that a constraint refutes the whole box,
//! `empty_last` takes all values of its last variable.
#![tactic(auto)]

mod answer;
mod asked;
mod cuts;
mod cutting;
mod emptying;
mod ends;
mod filtering;
mod nearing;
mod ranges;
mod refuting;
mod removal;

pub use answer::Filtered;
pub use asked::Asked;
pub use cuts::Cut;
pub use cutting::{Cutter, filter_by_cuts};
pub use emptying::{empty_last, last_variable};
pub use ends::filter_by_ends;
pub use filtering::{RuleFilter, filter};
pub use refuting::Refuter;
pub use removal::prune;
