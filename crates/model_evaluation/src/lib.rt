//! When a constraint of a problem holds on values.
//!
//! Each predicate has a meaning, by the model's table; each meaning has a function here, which takes
//! the arguments and the values of the first variables. A result is exactly what the definition
//! says, for all numbers within the number limit: sums and products are taken in 128 bits, quotients
//! and remainders are those of truncated division, places of arrays count from 1, and a later
//! variable counts as 0. A reified predicate is its plain one, compared with its last argument.
//!
//! No call takes memory. Clauses go by `holds_on` of the model's definitions; the words of
//! `specs/Evaluation.antt` say what is known of the arguments on the way.
#![tactic(auto)]

mod arithmetic;
mod comparisons;
mod differing;
mod elements;
mod evaluate;
mod reading;
mod rows;
mod sums;
mod truths;

pub use evaluate::{holds, satisfies};
