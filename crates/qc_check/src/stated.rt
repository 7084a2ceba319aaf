//! What a certificate states, and how bytes stop being one.
use proof_tree::Outcome;

/// What the head of a certificate states.
#[derive(Clone, Copy)]
pub(crate) struct Stated {
    pub(crate) outcome: Outcome,
    pub(crate) optimum: Option<i64>,
}

/// Why no more bytes are read.
#[derive(Clone, Copy)]
pub(crate) enum Stop {
    /// They are no certificate's.
    Bad,
    /// They are nested too deep.
    Deep,
}
