//! What is open above the line that comes next, and what that line may be.

use fd_store::Mark;
use qc_model::VarId;

/// A scope's own tree that waits for the node after one of its tuples, with the horizon in force there; or a branch on a
/// variable, with a mark at its box and the least number that no case so far covers.
#[derive(Clone, Copy)]
pub(crate) enum Open {
    Next { horizon: Option<u8> },
    Branch { x: VarId, mark: Mark, from: i64 },
}

/// What the next line may be: a node; a step of a horizon at scope `k`, or its dot, with a mark at the node's box; a node
/// after its horizon; a part of a scope's own tree; a case, or the one that goes up to `high`; what comes after a node that
/// has ended and isn't left yet; none, since the lines are a node, or since one was out of place.
#[derive(Clone, Copy)]
pub(crate) enum Due {
    Node,
    Prune { k: u8, mark: Mark },
    Body,
    Part,
    Case,
    Ranged { high: i64 },
    Closed,
    Ended,
    Wrong,
}
