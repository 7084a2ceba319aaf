//! The table of entailments: when each value of a box satisfies a constraint.
//!
//! Only predicates that have a reified form are in this table; it says of no other constraint that it's entailed, and of
//! no reified one. Each meaning is one function over the arguments and the store, as in the table of refutations.
#![tactic(auto)]

mod common;
mod comparisons;
mod left;
mod members;
mod reading;
mod sums;
mod table;
mod truths;

pub use left::{greatest, has, is_fixed, least, next};
pub use table::entails;
