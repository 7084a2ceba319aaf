//! Checks the bytes of a list of lemmas against its problem, piece by piece.
//!
//! A `ListChecker` reads the bytes in their order. Each item, as its last byte comes, is handed to a machine that keeps the
//! lemmas that may be named, and nothing of the steps that showed them. At the end it says what the bytes come to: yes
//! exactly where they are the text of a list that proves what it states, and then what it states is so; or that it doesn't
//! prove that; or the first place at which the bytes are no such text.
#![tactic(auto)]

mod checker;
mod finding;
mod heads;
mod progress;

pub use finding::Checked;
pub use progress::ListChecker;
