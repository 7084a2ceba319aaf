//! The machine: it takes the lines of a tree one by one, and says at the end what the tree comes to.

use crate::bounds::Bounds;
use crate::nesting::Nesting;
use crate::open::Due;
use crate::reads::Reads;
use check_assignment::Assignment;
use check_box::Remains;
use joins::{Found, Joins};
use model_levels::Levels;

/// What is known after some lines: a store with its trail in place of boxes, a join a scope in place of all that was seen
/// there, and what is open in places that are made once. Once a line is out of place nothing more is kept.
#[derive(Drop)]
pub struct Machine<'p> {
    pub(crate) levels: Levels<'p>,
    pub(crate) bounds: Bounds,
    pub(crate) remains: Remains,
    pub(crate) joins: Joins<'p>,
    // the first of them are the values of the variables before the scope that is read
    pub(crate) values: Assignment<'p>,
    pub(crate) reads: Reads,
    pub(crate) nesting: Nesting,
    pub(crate) due: Due,
    pub(crate) number: u8,
    pub(crate) horizon: Option<u8>,
    // what the node that ended last came to, and the value of its scope's own condition
    pub(crate) found: Found,
    pub(crate) own: Option<i64>,
    pub(crate) turns: u64,
    pub(crate) has_open: bool,
}
