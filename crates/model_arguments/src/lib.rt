//! The arguments of a constraint by their place, for what stands above the model.
//!
//! A place has a variable or a number, an array that may hold variables, an array of numbers, or a
//! set. Whoever asks for one kind where another stands, or past the last place, gets the number 0,
//! nothing, or no set; the arguments of a problem's constraints have the sorts of their predicates,
//! so there this never happens.
//!
//! Clauses see the arguments by the words of `specs/Written.antt` and of the model's arguments;
//! `proofs/Written.antt` has what they are worth, and what a box leaves to each.
#![tactic(auto)]

mod reading;
mod repeats;
mod sets;
mod spans;
mod variables;

pub use reading::{arguments, items_at, last_one, members_at, numbers_at, one_at};
pub use repeats::{is_among, is_repeated, is_same};
pub use sets::contains;
pub use spans::{Span, width};
pub use variables::{are_distinct, own_variables};
