//! A search for lists of lemmas: it learns from its conflicts, for both sides at once, until it is known who wins.
//!
//! `learn` gives a list for a plain game, or none where its budget is used up. Nothing is promised of a list: whoever gets one
//! has it checked, and falls back to another search where it isn't believed.
#![tactic(auto)]

mod attempt;
mod deciding;
mod listing;
mod ordering;
mod pacing;
mod replay;
mod search;
mod shortening;
mod trimming;
mod walking;

pub use listing::{List, Shown};
pub use search::learn;
