//! The machine: it takes the lines of a dense certificate one by one, and says at the end what its root comes to.

use dense_alike::Positions;
use dense_box::{Freedom, Wishes};
use dense_close::Closer;
use dense_nest::Nest;

/// What is known after some lines. Memory is taken for what is open, and for each named node. Once a line is out of place nothing more
/// is kept.
#[derive(Drop)]
pub struct DenseMachine<'p> {
    pub(crate) nest: Nest<'p>,
    pub(crate) closer: Closer<'p>,
    pub(crate) freedom: Freedom,
    pub(crate) wishes: Wishes,
    pub(crate) positions: Positions<'p>,
}
