//! What the refusals of a problem text are for: a text that meets none of them makes a valid problem.
//!
//! Nothing here is computed when a program runs. Each function has an empty body, and its contract
//! states a law of the definitions alone.
#![tactic(auto)]

mod laws;

pub use laws::{names_are_names, unrefused_is_valid};
