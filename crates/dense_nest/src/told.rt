//! What is kept of named nodes, and of a scope's own tree beside its join.

use crate::place::Spot;
use joins::Found;

/// What a named node has come to, and its vector where that is exact.
#[derive(Drop)]
pub struct Told {
    pub found: Found,
    pub vector: Vec<i64>,
}

/// A named node: where it begins, and what it has come to once it has ended. Its box is kept with those of the others.
#[derive(Drop)]
pub struct Named {
    pub spot: Spot,
    pub told: Option<Told>,
}

/// Of a scope's own tree, beside what its join keeps: how large its numbers may be together, in values of variables; the best of
/// the values that leaves leave to what is demanded first; and whether a leaf is neither lost nor barred, or a mark is there.
#[derive(Clone, Copy)]
pub struct Tally {
    pub size: u64,
    pub best: Option<i64>,
    pub mixed: bool,
}
