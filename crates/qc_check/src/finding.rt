//! What the bytes of a certificate come to.
use proof_tree::Outcome;

/// What bytes come to, checked against a problem. Places are offsets of bytes, counted from 0.
#[derive(Clone, Copy, PartialEq, Eq)]
pub enum Checked {
    /// They are a certificate that proves what it states: this outcome, with this optimum.
    Yes {
        outcome: Outcome,
        optimum: Option<i64>,
    },
    /// They are a certificate, and it doesn't prove what it states. That says nothing of the game.
    NotProved,
    /// They are no certificate's, which shows first at this place.
    NotACertificate {
        at: u64,
    },
    /// A line at this place is nested more than 1,000 deep, and the bytes before it are in order.
    TooDeep {
        at: u64,
    },
}

/// What the bytes so far are, as one more piece is read. Places are offsets of bytes, counted from 0.
#[derive(Clone, Copy, PartialEq, Eq)]
pub enum Fed {
    /// Some certificate's text begins with them, or is them.
    More,
    /// They are no certificate's, whatever comes, which shows first at this place.
    NotACertificate { at: u64 },
    /// A line at this place is nested more than 1,000 deep, and the bytes before it are in order.
    TooDeep { at: u64 },
}

/// Whether a certificate proves what it states. `NotProved` says nothing of the game.
#[derive(Clone, Copy, PartialEq, Eq)]
pub enum Answer {
    Yes,
    NotProved,
}
