//! What is open around the line that comes next, and what was seen there.

use crate::opened::Opened;
use crate::place::{Due, Entry};
use crate::told::{Named, Tally};
use check_box::Remains;
use joins::{Demands, Found, Joins};
use model_levels::Levels;
use std::alloc::Global;

/// What is known after some lines, but for given tuples and the boxes of named nodes: a store with its trail in place of boxes, a
/// join a scope in place of all that was seen there, and what is open above. Memory is taken for what is open, and for each named
/// node. Once a line is out of place nothing more is kept.
#[derive(Drop)]
pub struct Nest<'p> {
    pub(crate) alloc: Global,
    pub levels: Levels<'p>,
    pub demands: Demands,
    pub remains: Remains,
    pub due: Due,
    /// The node whose own tree is read.
    pub entry: Entry,
    pub named: Vec<Named>,
    pub(crate) joins: Joins<'p>,
    // one for each scope
    pub(crate) tallies: Vec<Tally>,
    pub(crate) open: Opened,
    // room for a position: one value for each variable
    pub(crate) values: Vec<i64>,
    // what the node that ended last has come to, and the value of its scope's own condition
    pub(crate) found: Found,
    pub(crate) own: Option<i64>,
    pub(crate) turns: u64,
    pub(crate) has_open: bool,
}
