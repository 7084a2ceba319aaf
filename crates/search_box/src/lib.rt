//! What a search does to the values that are left: it closes them for the constraints in force, looks ahead for a horizon,
//! takes a value, gives up values that are no better than what it has, and goes back.
//!
//! `SearchBox` brings the store, its trail, the filters and the values of the position together. Its contracts speak in
//! the words of certificates: the steps of closing are in place as steps of the scope's own tree, a horizon stands in
//! place at its node and nothing ahead is missed. So the search above it speaks of trees alone.
//!
//! `specs/Boxed.antt` says what a box holds, `specs/Entered.antt` which variables have a value at a place in the game.
#![tactic(auto)]

mod ahead;
mod bounding;
mod closing;
mod foresight;
mod laws;
mod mentioning;
mod reading;
mod repeating;
mod search_box;
mod taking;
mod tuple;

pub use bounding::Bounded;
pub use laws::{boxes_come_back, boxes_lead_on, closed_boxes_change, steps_go_together};
pub use search_box::SearchBox;
