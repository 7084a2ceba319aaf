//! Dense certificates that are believed: written by a search, and judged.
//!
//! `solve_densely` has a search write the text of a dense certificate, and hands the bytes to the checker of such texts. Only where that
//! says yes are they given. So nothing is asked of the search: a text that is given proves what it states.
#![tactic(auto)]

mod solving;

pub use solving::{Shown, solve_densely};
