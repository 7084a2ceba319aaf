//! The lower half of a search that learns from its conflicts: the lemmas learnt so far, and what constraints and lemmas remove.
//!
//! Both sides are searched for at once. A constraint or a lemma removes values of the side that has to keep it, and where it
//! would remove values of the other side, that side takes one of them and wins: a conflict. Each removal stands on the
//! `Trail` with its reason, so that the analysis of a conflict can tell what it rests on.
//!
//! Nothing is promised of what is found: a list that a search makes is checked before anybody relies on it. What is proved
//! is that all this is safe and ends.
#![tactic(auto)]

mod clauses;
mod engine;
mod forgetting;
mod known;
mod lemmas;
mod moving;
mod rules;
mod trying;
mod waiting;

pub use engine::{AS_A_LOOK, Cause, Choice, Conflict, Engine};
pub use known::{Condition, Finish, Known, Outlook, Range, SumCondition, Taken};
