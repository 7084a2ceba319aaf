//! What a conflict teaches: the lemma that keeps a search from meeting it again.
//!
//! The analysis begins with the changes that a conflict rests on, and puts in the place of a change what that change rests on,
//! until one decision of the loser's, or what follows from it, is left on its level. What is left then is the lemma, and what
//! was put aside are the steps that show it. Nothing is promised of it: what a search learns is checked before anybody relies
//! on it.
#![tactic(auto)]

mod climbing;
mod covering;
mod drawing;
mod holding;
mod redrawing;
mod resolving;
mod study;
mod summing;

pub use study::{Analyst, Lesson};
