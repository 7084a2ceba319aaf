//! Judges proofs of optima by two lists of lemmas.
//!
//! Where both sides care for one quantity, a value is the optimum where the game is won in which the player also has to keep the
//! quantity as good as the value, and the one for the next better value isn't (`zero_sum`). Neither of these games has wishes,
//! so a list of lemmas proves who wins it. `judge_best` says what the bytes of two such lists under one head come to: yes exactly
//! where they prove that the value is the optimum, and then it is.
#![tactic(auto)]

mod asked;
mod judge;
mod laws;
mod part;
mod parts;
mod verdict;

pub use judge::judge_best;
pub use laws::texts_have_no_fault;
pub use verdict::Verdict;
