//! Boxes that are closed for the constraints of all scopes ahead, kept along the way to a node.
//!
//! A search that looks ahead at each node asks again and again whether the constraints of the scopes ahead leave values
//! together. From a node to the next below it little changes. So `Joint` keeps the box that it found at each scope on the
//! way, on a store with a trail of its own, and goes on from there: it takes out what the node's box has lost since, and runs
//! the constraints that this wakes. Where that leaves values nothing ahead is closed, which is what a node without a horizon
//! owes. Where it doesn't, the search looks for the horizon itself.
//!
//! `specs/Stacked.antt` says what is known of the boxes on the way.
#![tactic(auto)]

mod entry;
mod inside;
mod joint;
mod narrowing;
mod seeing;
mod stack;

pub use joint::Joint;
