//! Optima found by lists of lemmas.
//!
//! Where both sides care for one quantity, `best_by_lemmas` looks for the best value that the player can have, by bisection over
//! the declared ones: for each value that it tries, a list of lemmas shows who wins the game in which the quantity has to be as
//! good. The lists of the last value that can be had and of the next better one are put under one head, and the bytes are
//! handed to the judge of such texts. Only where that says yes are they given. So nothing is asked of the search.
#![tactic(auto)]

mod bisection;
mod solving;
mod together;

pub use solving::{Best, best_by_lemmas};
