//! What the bytes of a list of lemmas come to.
use qc_model::Kind;

/// What bytes come to, checked against a problem.
#[derive(Clone, Copy, PartialEq, Eq)]
pub enum Checked {
    /// They are the text of a list that proves that the side which owns the scopes of this kind loses the game.
    Yes { loser: Kind },
    /// They are the text of a list that doesn't prove what it states. That says nothing of the game.
    NotProved,
    /// They are no list's text, which shows first at this place: an offset of bytes, counted from 0. A text that is cut off
    /// shows it at its end.
    NotACertificate { at: u64 },
}
