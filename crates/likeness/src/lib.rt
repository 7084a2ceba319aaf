//! Whether two positions of a scope look the same, and a number for each that tells most apart.
//!
//! From a scope on a variable is looked at where it belongs to that scope or a later one, where a
//! constraint of these, or of the goal, reads its value, or where a condition or an aggregate mentions
//! it. A sum reads by value only what it is compared with, and sees of its terms what they come to;
//! a + b = c reads no value, and sees what those of a and b that are known come to, less c where it is; a
//! clause reads no value, and sees whether a variable that isn't looked at satisfies it. Whatever is
//! looked at from a scope on is looked at from each earlier one on, too. So one number for each variable
//! tells all: the last scope from which on it is looked at. `Sight` finds these numbers in one pass over
//! the problem, and then answers in constant time. Whether two positions show sums and clauses the same,
//! it finds in one pass over these.
//!
//! A position has a value for each variable before the scope. Two look the same from the scope on where
//! each variable that is looked at has the same value in both, and each constraint from there on sees the
//! same of both. Boxes in which all later variables have their declared values are then alike in the words
//! of `proof_alike`: what was decided at one of them is decided at the other, with the same vector.
//! `Likeness` compares positions, and gives each a number, a hash on which nothing rests; `Residues` has
//! the numbers of what constraints see alone.
#![tactic(auto)]

mod clauses;
mod likeness;
mod marks;
mod pluses;
mod reading;
mod residues;
mod sight;
mod sources;
mod sums;
mod values;
mod won;

pub use likeness::{Likeness, asks_nothing};
pub use residues::{Residues, mixed};
pub use sight::Sight;
pub use won::is_won;
