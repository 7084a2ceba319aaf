//! The law that the canonical text of a problem is read again as that problem.
#![tactic(auto)]

mod laws;

pub use laws::{
    chunks_are_cut, items_are_not_refused, items_make_the_problem, printed_text_is_read_again,
};
