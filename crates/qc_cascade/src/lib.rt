//! What lies ahead of a scope: the least scope, or the goal, that nobody can pass.
//!
//! Where the constraints of some scopes in a row, taken together, leave no values, the last of these scopes isn't
//! passed, whoever chooses in them. `enter` finds the first such scope and shows it by removals that empty a domain.
//! `specs/Ahead.antt` says what is found; the laws say that it is what a certificate asks of a horizon.
#![tactic(auto)]

mod adding;
mod cascade;
mod entered;
mod entering;
mod laws;

pub use entered::Entered;
pub use entering::{enter, enter_under};
pub use laws::{horizons_stand_in_place, nothing_ahead_is_missed};
