//! Closing: the filters of many constraints, until none of them refutes an end of a variable of its own.
//!
//! `Filter` is what is asked of the filters; all families of predicates are closed by the same code. `close` goes over a
//! list of constraints, round after round. `Engine` is made once for a problem and closes ranges of its constraints: it
//! knows which constraints mention a variable, so that only those that a change concerns run again.
#![tactic(auto)]

mod answer;
mod engine;
mod filtering;
mod found;
mod hints;
mod literals;
mod moved;
mod rounds;
mod running;
mod skipping;
mod waiting;
mod waking;
mod watching;

pub use answer::Closed;
pub use engine::Engine;
pub use filtering::Filter;
pub use rounds::close;
