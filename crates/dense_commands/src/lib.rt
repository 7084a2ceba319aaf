//! The commands of `qdense`: what is answered and written for the words and the files.
//!
//! It solves by lists of lemmas, where a search learns one and the list is believed, finds optima by two of them, and else does
//! as `qecode` does; and it checks such lists, dense certificates, and those of `qecode`. `run` reads what the words name from a
//! shelf, and writes the answer to a sink. Of the answer and the status its contract says what they mean, by words of `specs/`
//! alone (`Words`, `Answers`, `Complete`) and those that `qecode` has for files, problems and certificates.
#![tactic(auto)]

mod best;
mod check;
mod dense;
mod feed;
mod formula;
mod head;
mod list;
mod solve;
mod top;
mod words;

pub use top::run;
