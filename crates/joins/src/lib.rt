//! What is demanded of each scope of a problem, and what the parts of a node come to together.
//!
//! A scope's demanded list has what earlier scopes want that it can decide, the nearest first; after
//! it its own wish stands before these. `Demands` holds the list of each scope and of the goal, and
//! `compare` is the order of the vectors of values that the lists ask for.
//!
//! A join is told the leaves of one node's own tree, one after another, and says what they come to:
//! `ExistsJoin` for a scope of the player, `ForallJoin` for one of the opponent. It keeps none of the
//! leaves: only what the verdict needs, in room that `new` takes. So a leaf costs the length of the
//! list and no memory. Contracts say of a join which lists of leaves it stands for, and each answer is
//! the verdict of every such list.
//!
//! Whoever walks a certificate's tree, or makes one, is in one node of each scope at most. So `Joins`
//! has one join a scope, with room for one vector: what a node came to is handed out there, and goes
//! from there into the join of the scope above. All memory is taken by `new`. Contracts say which
//! leaves and bounds the join of a scope stands for (`StandsAt`), and that a change at one scope keeps
//! what holds at all others. A leaf of which a number is known has to be as long as its list, and its
//! numbers small beside those so far; of another nothing is said, but no call has a premise on numbers.
//! The laws (`verdicts_are_long`, `verdicts_are_sized`, `leaves_fit`) say that what a game comes to is
//! long and small anyhow.
#![tactic(auto)]

mod build;
mod columns;
mod demands;
mod endings;
mod exists_join;
mod forall_join;
mod joins;
mod laws;
mod leaves;
mod numbers;
mod order;
mod reading;
mod scope_join;
mod taking;
mod values;

pub use demands::Demands;
pub use exists_join::ExistsJoin;
pub use forall_join::ForallJoin;
pub use joins::Joins;
pub use laws::{
    leaves_fit, lengths_join, numbers_come_from_ends, open_scopes_are_unknown,
    order_changes_nothing, sizes_join, verdicts_are_long, verdicts_are_sized,
};
pub use leaves::{Found, Leaf};
pub use order::compare;
pub use qc_model::Condition as Entry;
pub use values::Value;
