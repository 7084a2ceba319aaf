//! The lines of a certificate's text after its head.
use qc_model::{ConId, VarId};

/// A line below the head of a certificate's text, with its numbers.
#[derive(Clone, Copy, PartialEq, Eq)]
pub enum Line {
    /// A horizon at scope `k`, counted from 1 as in the text; its removals and a `Dot` follow.
    Horizon {
        k: u8,
    },
    Prune {
        x: VarId,
        lo: i64,
        hi: i64,
        c: ConId,
    },
    Bound {
        x: VarId,
        lo: i64,
        hi: i64,
    },
    /// The end of a horizon, or of a branch.
    Dot,
    Stuck,
    Goal,
    Empty,
    Barred,
    Next,
    /// A branch on `x`; its cases and a `Dot` follow.
    Branch {
        x: VarId,
    },
    Skip,
    Open,
    /// The next case goes up to the value `hi`.
    Range {
        hi: i64,
    },
}
