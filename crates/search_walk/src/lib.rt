//! The way of a search through a game: it goes over the values that are left, and puts lines.
//!
//! The values left are those of a `SearchBox`: it is closed by the filters of the constraints in force before each branch,
//! and each node looks ahead for a scope that nobody passes. What the leaves of a node come to, joins say (`joins`), one
//! a scope.
//!
//! With cuts it keeps of each settled node the case that settled it alone, and tries first the tuple after which no other
//! counted at the same position before, or else at other nodes of the scope, or one that a free search found (`search_advice`). What
//! stands below a tuple that was tried and ended nothing is kept aside for where the values are gone over, and the lines of a node
//! whose position was decided before are copied (`search_kept`). Without cuts it goes over the cases in order, so that what is left
//! open took exactly the turns that it was given.
//!
//! `node` goes through a scope's node, and `part` through the rest of a scope's own tree, whatever was seen before it. Their
//! contracts (`specs/Told`) say which lines were put by what holds of the tree that they are (`search_parts`), not by how it was
//! found. Who begins a walk, and what it comes to in the end, stands in `game_search`.
#![tactic(auto)]

mod aim;
mod endings;
mod keeping;
mod narrowing;
mod rival;
mod search;
mod stage;
mod stop;
mod tries;
mod walk;
mod writing;

pub use aim::{Aim, aim_of};
pub use endings::{is_here, verdict};
pub use narrowing::narrow_beside;
pub use rival::Rival;
pub use search::{node, part};
pub use stage::Stage;
pub use stop::Stop;
pub use walk::Walk;
pub use writing::put_horizon;
