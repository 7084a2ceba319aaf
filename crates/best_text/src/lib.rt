//! The text of a proof that a value is best: two lists of lemmas under one head.
//!
//! The head has the version of the text, the value, and how many bytes the first list has. Both lists stand behind it, whole.
//! `read_head` reads the head at the front of bytes.
#![tactic(auto)]

mod head;
mod numbers;

pub use head::{Head, LIST_LIMIT, read_head};
