//! The commands of `qtell`: what is answered and written for the words and the files.
//!
//! `qtell` tells of checked answers what people rely on: how the strategy of a certificate begins, which tuples are allowed
//! at a position, and the two certificates behind `worst` with `--gap`. `run` reads what the words name from a shelf, and
//! writes the answer to a sink, as the one of `qecode_commands` does, by its calls and in its statuses. Its contract says what
//! the answer means, by words of `specs/` (`Answers`, `Allowed`, `Opening`, `Complete`).
#![tactic(auto)]

mod allowed;
mod begin;
mod opening;
mod top;
mod words;

pub use top::run;
