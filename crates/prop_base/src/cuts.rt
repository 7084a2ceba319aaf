//! Removals.
use qc_model::VarId;

/// The values of x from lo to hi.
#[derive(Clone, Copy, PartialEq, Eq)]
pub struct Cut {
    pub x: VarId,
    pub lo: i64,
    pub hi: i64,
}
