//! What a search for dense certificates plays on: a game, what is left of its variables, and all that lines ask of them.
//!
//! A `Board` keeps the box of one place of a game, with a trail. It closes that box, takes tuples and values, bounds, replies, and
//! tells what is in place and what is left, by the functions that the checker of such certificates uses itself (`dense_box`,
//! `dense_close`). `save` remembers the box, and `restore` goes back to the one that was remembered last. Each call may be made at
//! any time with any numbers: what isn't there has no values, and what isn't in place changes nothing. So a search may be written
//! over it without proofs of its own, and whoever wants to rely on what it writes has that judged.
#![tactic(auto)]

mod asking;
mod board;
mod changing;
mod hindering;
mod joining;
mod saving;
mod starting;

pub use board::{Board, Closing};
pub use hindering::Needs;
pub use starting::Given;
