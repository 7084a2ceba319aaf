//! The filters of comparisons of two arguments: equal, different, at most and below.
//!
//! A comparison means the same of integers and of truth values, so each stands here once, for both families. A filter
//! has three layers. The first says by values alone what both arguments may keep: a range for each, or nothing, where the
//! comparison is refuted. The second takes the other values out, in at most two steps for each argument. The third reads
//! a constraint's arguments. A variable compared with itself goes end by end.
//!
//! A third argument may tell whether the comparison holds. Once it has one value, the comparison or its contrary is
//! filtered. Before that, nothing goes but a value of its own, where the comparison can't hold or can't fail any more.
//! `tell` does the latter for whatever a last argument tells of, by two questions to the refuter. Who can answer both at
//! once calls `tell_other`.
//!
//! What is left to one argument, and to two in common, is read here for the crates above too.
#![tactic(auto)]

mod asking;
mod common;
mod comparing;
mod engines;
mod filtering;
mod keeping;
mod narrowing;
mod ranges;
mod reading;
mod reified;
mod table;
mod truths;
mod untold;

pub use asking::are_apart;
pub use common::{greatest_common, least_common};
pub use comparing::Comparison;
pub use filtering::filter_comparison;
pub use reading::{greatest, has, is_fixed, least, next_of, previous_of};
pub use reified::filter_reified;
pub use table::Table;
pub use truths::{loose, what_is_told};
pub use untold::{joined, tell, tell_other};
