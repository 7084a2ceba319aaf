//! The lines of dense certificates.

use qc_model::{ScopeId, VarId};

/// A line of a dense certificate; a tuple stands beside it. Scopes, variables and nodes count from 0.
#[derive(Clone, Copy, PartialEq, Eq)]
pub enum Line {
    Given { scope: ScopeId },
    Named,
    Horizon { scope: ScopeId },
    Stuck,
    Goal,
    Again { node: u32 },
    NoPlay { scope: ScopeId },
    Close,
    Bound { x: VarId, lo: i64, hi: i64 },
    Reply,
    Empty,
    Barred,
    Best,
    Next,
    Chosen,
    Branch { x: VarId },
    Range { high: i64 },
    Skip,
    Open,
    Dot,
}
