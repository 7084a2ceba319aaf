//! Checks lists of lemmas item by item.
//!
//! `specs/Books` says what each item makes of what is known before it. That the items of a list come to what the
//! definitions of `lemma_list` say of it is the law here, `items_tell_of_lists`.
//!
//! The machine keeps such a book: a store with its trail in place of boxes, and the lemmas that may be named. So what it
//! says at the end is what the list proves.
#![tactic(auto)]

mod cuts;
mod endings;
mod heads;
mod items;
mod laws;
mod machine;
mod showing;
mod steps;

pub use laws::items_tell_of_lists;
pub use machine::LemmaMachine;
