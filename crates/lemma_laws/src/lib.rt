//! That lists of lemmas are right: what they prove of a game is so, whatever made them.
//!
//! The proof is one induction over the steps of a lemma and one over the lemmas of a list. If the loser held the
//! position, then some play would hold it in which the winner gives the values that the steps choose (`Plays`);
//! it lies in the box of each step (`Closes`), and none lies in the last (`Shows`).
#![tactic(auto)]

mod laws;

pub use laws::{lemmas_are_true, lists_are_true};
