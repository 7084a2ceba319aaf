//! Checks certificates line by line, with memory that doesn't grow with their number. What a machine answers is held
//! against what a certificate states by `shows`. What is left to each variable it keeps in a `Remains` of `check_box`.
#![tactic(auto)]

mod answer;
mod begin;
mod bounds;
mod cases;
mod closing;
mod ends;
mod judge;
mod kinds;
mod laws;
mod ledgers;
mod legal;
mod machine;
mod nesting;
mod nodes;
mod open;
mod passing;
mod reads;
mod shown;
mod tuple;
mod turn;

pub use answer::Answer;
pub use joins::Found;
pub use judge::judge_lines;
pub use laws::answers_are_right;
pub use ledgers::{ledgers_are_right, ledgers_keep_ends, ledgers_keep_sizes};
pub use machine::Machine;
pub use passing::{NodeDue, NodeEnded};
pub use shown::shows;
