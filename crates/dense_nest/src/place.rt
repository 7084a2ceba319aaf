//! Where the parts of a certificate stand, and what is open around them.

use fd_store::Mark;
use qc_model::VarId;

/// Where a node, or a part of a scope's own tree, stands, but for its box: its scope's number, the horizon in force, whether a
/// scope of the player above went on with several values left, and whether a bound of the block stands above.
#[derive(Clone, Copy)]
pub struct Spot {
    pub number: u8,
    pub horizon: Option<u8>,
    pub loose: bool,
    pub bounded: bool,
}

/// A node: where it begins, with a mark at its box, the horizon in force below its own, its number among the named ones, and
/// whether one tuple led to it while the others of the scope before were skipped.
#[derive(Clone, Copy)]
pub struct Entry {
    pub spot: Spot,
    pub horizon: Option<u8>,
    pub mark: Mark,
    pub named: Option<u32>,
    pub chosen: bool,
}

/// A branch: its variable, a mark at its box, the least number that no case so far covers, and whether a bound of the block
/// stands above it.
#[derive(Clone, Copy)]
pub struct Fork {
    pub x: VarId,
    pub mark: Mark,
    pub from: i64,
    pub bounded: bool,
}

/// What is open around what is read: the own tree of the scope before, which waits for a node below it; or a branch.
#[derive(Clone, Copy)]
pub enum Open {
    Waiting(Entry),
    Forked(Fork),
}

/// What the next line may be: a given tuple, or the root; a node; one after `m`; and one after its horizon; a part of a scope's
/// own tree, below a bound or not; a case, or the one that goes up to a number; none, since the root has ended, or since a line
/// was out of place.
#[derive(Clone, Copy)]
pub enum Due {
    Given,
    Node(Entry),
    Named(Entry),
    Body(Entry),
    Part { bounded: bool },
    Case,
    Ranged { high: i64 },
    Ended,
    Wrong,
}
