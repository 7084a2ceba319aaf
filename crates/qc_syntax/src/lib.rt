//! Problem texts: the problem that a text says, or why it says none.
//!
//! A text is cut into tokens, the tokens are read as items by the grammar, and the items are looked
//! through for ten faults, in their order. Without a fault they make a valid draft. Each refusal has
//! the place of the first thing in the text that it names; the kinds come in the order of `Refused13`,
//! so a text with several faults is refused for the first kind that it meets, wherever that stands.
#![tactic(auto)]

mod fault;
mod laws;
mod problem;

pub use fault::{ReadFault, Refusal, Refused13};
pub use laws::texts_say_one_thing;
pub use problem::read_problem;
