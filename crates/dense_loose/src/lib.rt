//! A leader's choices bounded while they are still open, in the search for dense certificates.
//!
//! `bound_loosely` shows of a scope of the player that what is left of its choices is no better than what was reached, and writes the
//! lines for it, where one of three shapes serves; `note_leaf` keeps what may serve next time. Nothing is promised of the lines: a
//! text is judged when it is whole.
#![tactic(auto)]

mod answers;
mod hunting;
mod loose;
mod replies;

pub use loose::{bound_loosely, note_leaf};
