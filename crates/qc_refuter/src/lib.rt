//! The table of refutations: when a constraint refutes a box.
//!
//! A view is a box in which one variable keeps only its values from one number to another. Each meaning of the table is
//! one function over the arguments and a view, with the same clause, as the table of what holds has them over values.
#![tactic(auto)]

mod common;
mod comparisons;
mod differing;
mod elements;
mod ends;
mod full;
mod members;
mod reading;
mod shown;
mod spans;
mod stretches;
mod sums;
mod table;
mod truths;
mod view;

pub use full::widest_full;
pub use sums::{Extent, sum_extent};
pub use table::{refutes, refutes_in, rule_refutes_in};
