//! What a text is cut into.
use crate::token::Sort;

/// What a text is cut into.
#[derive(Clone, Copy)]
pub(crate) enum Piece {
    /// A blank or a comment.
    Gap,
    /// A token.
    Good(Sort),
    /// A number that isn't a good one.
    BadNumber,
    /// A byte at which no blank, comment or token begins.
    BadByte,
}

/// A piece, and how many bytes it has after its first.
#[derive(Clone, Copy)]
pub(crate) struct Cut {
    pub(crate) piece: Piece,
    pub(crate) more: usize,
}
