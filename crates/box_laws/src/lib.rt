//! Laws of boxes: of the values that are left to the variables of a game, of ascending values one by one, of the values
//! between two numbers, and of stores that are led on and undone.
//!
//! No value is looked at when a program runs. The laws are there for whoever keeps a box, a search or a checker; those
//! that tell most are contracts of functions with an empty body, the others stand among the proofs.
#![tactic(auto)]

mod laws;

pub use laws::{declared_boxes, ranges_are_told, stores_come_back, values_are_numbers};
