//! Lists of lemmas that are believed: learnt by a search, written as a text, and judged.
//!
//! `solve_by_lemmas` has a search learn a list, writes its text into memory, and hands the bytes to the checker of such texts.
//! Only where that says yes are they given. So nothing is asked of the search, nor of what it writes: a text that is given
//! proves who wins.
#![tactic(auto)]

mod growing;
mod solving;
mod spelling;

pub use solving::{Believed, solve_by_lemmas};
