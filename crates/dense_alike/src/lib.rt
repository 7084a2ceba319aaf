//! Whether two places of a dense certificate look the same, for what is told of a named node again.
//!
//! `Positions` keeps the box of each named node, and compares another box with one of them: whether each earlier variable that is
//! read from a scope on has one value in both, and both look the same from there on; and whether as much is left to the variables
//! to come. Each answer is exactly what the definition in `dense_tree` says whose name it has.
//!
//! `KeptBox` is a box as ranges of values, `Reads` knows which earlier variables constraints read from each scope on, and `Comparer`
//! has a box of its own, in which it lays the values of the earlier variables among the declared values of the others, to ask which
//! constraints hold whatever comes. Where all constraints see the same of both positions it needn't ask: each holds whatever comes
//! after both, or after neither.
#![tactic(auto)]

mod clauses;
mod comparer;
mod kept_box;
mod laying;
mod leasts;
mod marks;
mod pluses;
mod positions;
mod range;
mod reading;
mod reads;
mod runs;
mod seen;
mod starts;
mod sums;
mod unseen;
mod values;
mod views;

pub use positions::Positions;
