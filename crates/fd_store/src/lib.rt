//! The values left to each variable, with a trail of changes.
//!
//! A store keeps one bit for each value of each declared domain, in words of 64. Beside them each variable has a cell:
//! where its bits stand, the places of its least and greatest value left, and how many values are left. A bit outside of
//! these two places doesn't count, so a removal at an end writes no word: it moves the end to the next bit that is set.
//!
//! Each change of a cell, with the one word that it may have changed, is recorded as one place of a trail, which lies in
//! pages that never move. Undoing takes the places off again, the last one first, and needs no memory.
//!
//! A clause sees a store as its box, the boxes at each place of its trail, and how many more places the trail takes with
//! no new memory.
#![tactic(auto)]

mod answer;
mod bits;
mod build;
mod cuts;
mod declare;
mod ends;
mod inner;
mod reads;
mod store;
mod table;
mod undo;
mod words;

pub use answer::Removed;
pub use store::{Mark, Store};
