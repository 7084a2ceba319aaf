//! Writing lists of lemmas.
//!
//! A list is written piece by piece, as it is read: its first two lines, and then each lemma and each line that forgets
//! one. The bytes are gathered in `Pieces` before they go to the sink, and no memory is taken. A fault comes only where
//! the sink's count of faults rose; then a prefix of the text was written.
#![tactic(auto)]

mod put;

pub use put::{put_forgotten, put_head, put_item, put_lemma};
