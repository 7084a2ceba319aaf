//! The filter of comparisons and linear sums, plain and reified.
//!
//! A sum that a last argument tells of is read once while that can tell both: what it can be says whether the relation can
//! hold and whether it can fail. Once the argument tells one, the sum is filtered as a plain one, or as its contrary.
//!
//! A sum that is to be at most a number takes one pass over its places. A sum that is to be one number takes rounds over
//! both sides until one removes nothing; `filter_sum_equal` does this for any constraint that says no more than that. A sum
//! that isn't to be a number loses nothing until one term is left that can be more than one number.
#![tactic(auto)]

mod at_most;
mod different;
mod equal;
mod filtering;
mod least;
mod missing;
mod places;
mod relation;
mod repeats;
mod rounds;
mod signs;
mod slacks;
mod sums;
mod telling;
mod tighten;

pub use equal::filter_sum_equal;
pub use filtering::filter;
