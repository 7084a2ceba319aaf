//! What holds of the parts of a tree that a search makes.
//!
//! A search puts lines, and says of them by these records that they are those of a tree which has what a certificate asks for:
//! `specs/Made` for a node, an ending, steps with an ending and the cases of a branch, `specs/Written` for their lines. Each record
//! is proved by one lemma a constructor of trees, over any game, box, list and horizon (`proofs/Nodes`, `Stepping`, `Branching`), and
//! that of cases case by case (`Progress`). Nothing here speaks of how a search goes on, or of its box.
//!
//! What the leaves of a scope come to, beside what was seen of them, stands in `Joining`, `Outdone`, `Sure` and `Beating`; the laws
//! that say most are clauses of functions here, which do nothing. `Elsewhere` and `Waiting` have what holds of a case that was
//! searched before those that stand before it.
#![tactic(auto)]

mod laws;

pub use laws::{
    cases_stand_behind, ended_scopes_are_known, marks_change_nothing, parts_stand_elsewhere,
};
