//! What bytes come to.

/// What the bytes of a proof that a value is best come to, checked against a problem.
#[derive(Clone, Copy, PartialEq, Eq)]
pub enum Verdict {
    /// They prove that the game is won, and that this is its optimum.
    Yes { value: i64 },
    /// They are the text of two lists under a head that don't prove it. That says nothing of the game.
    NotProved,
    /// They are no such text, which shows first at this place: an offset of bytes, counted from 0. A text that is cut off
    /// shows it at its end.
    NotACertificate { at: u64 },
}
