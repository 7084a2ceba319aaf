//! The allowed tuples of a scope, in ascending order.
//!
//! `first_moves` writes the first of the allowed tuples of a scope after the values before it, and tells whether there are
//! more. It goes variable by variable on the values left to each (`fd_store`), and leaves a value where a constraint of the
//! scope's restriction refutes what is left then: by the first law of `model_table` no tuple in it is allowed. So it takes time
//! by what is listed and by what isn't seen to be lost, and not by how many tuples there are. `stand_at` goes over the values of
//! the first scopes up to where they end.
//!
//! `specs/` has the lines of tuples (`Lines`), how values stand in a game (`Stands`), how tuples are put into a listing
//! (`Puts`) and those after some values of a scope (`Found`).
#![tactic(auto)]

mod first;
mod lines;
mod listing;
mod refuting;
mod search;
mod standing;

pub use first::first_moves;
pub use lines::put_values;
pub use listing::Listing;
pub use standing::{Standing, stand_at};
