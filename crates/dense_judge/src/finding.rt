//! What the bytes of a dense certificate come to.
use proof_tree::Outcome;

/// What bytes come to, checked against a problem.
#[derive(Clone, Copy, PartialEq, Eq)]
pub enum Checked {
    /// They are the text of a certificate that proves this outcome, with this optimum where one is stated.
    Yes {
        outcome: Outcome,
        optimum: Option<i64>,
    },
    /// They are the text of a certificate that doesn't prove what it states. That says nothing of the game.
    NotProved,
    /// They are no certificate's text, which shows first at this place: an offset of bytes, counted from 0. A text that is cut off
    /// shows it at its end.
    NotACertificate {
        at: u64,
    },
}
