//! The commands of `qpart`: what is answered and written for the words and the files.
//!
//! `qpart` solves a piece of a game: the game in which some variables keep some of their values only, beside a value that other
//! pieces have reached. What it writes are the lines of a tree that stands as it is in a certificate of the whole game, which
//! `tools/spread` puts together. `run` reads the problem from a shelf and writes the piece to a sink, as the one of
//! `qecode_commands` does, by its calls and in its statuses. Its contract says what the answer means, by words of `specs/`
//! (`Answers`, `Pieces`, `Complete`).
#![tactic(auto)]

mod keeps;
mod solve;
mod text;
mod top;
mod words;

pub use top::run;
