//! A search for dense certificates.
//!
//! `certify` goes through a game scope by scope and writes the lines of a dense certificate as it goes: it closes the box before
//! each choice, looks ahead where the opponent may be stuck (`ahead`), bounds by what was reached, leaves out what a settled scope
//! doesn't need, names positions that come again, and bounds a leader's choices while they are still open (`loose`). Scopes that take
//! long begin again with something better known (`patience`, `scouting`). Nothing is promised of a text that comes: whoever gets one has
//! it judged, and falls back to another search where it isn't believed.
#![tactic(auto)]

mod expanding;
mod search;
mod walk;

pub use search::certify;
