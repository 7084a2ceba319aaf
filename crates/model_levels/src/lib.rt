//! What the search and the checker both ask of a problem: where the variables and constraints of each
//! scope stand, and whether rules hold on values.
#![tactic(auto)]

mod blocks;
mod level;
mod levels;
mod places;
mod rules;
mod scopes;

pub use level::Level;
pub use levels::Levels;
pub use rules::all_hold;
