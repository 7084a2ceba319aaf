//! What a search that learns from its conflicts stands on: the values left, level by level, who removed which and why, and what
//! is asked of a problem again and again.
//!
//! `Boxes` takes values out and brings them back, and asks the filters and the table of refutations; `Trail` has each removal
//! with its reason, so that the analysis of a conflict can tell what it rests on; `Facts` tells scopes, sides, clauses and sums.
#![tactic(auto)]

mod boxes;
mod facts;
mod filtered;
mod gathering;
mod stack;
mod sums;
mod trail;

pub use boxes::{Boxes, Cut};
pub use facts::{Facts, TruthOf, Waker, Wakes, other_side, rule_at, variable_at};
pub use sums::{Linear, Term, Total};
pub use trail::{Change, Trail, Why};
