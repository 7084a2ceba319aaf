//! Tokens and their places.

/// A word, a number or a sign of a text. It begins with the byte at `start` and ends before the byte
/// at `end`, both counted from 0.
#[derive(Clone, Copy, Debug, PartialEq, Eq)]
pub struct Token {
    pub start: u32,
    pub end: u32,
    pub sort: Sort,
}

/// What a token is.
#[derive(Clone, Copy, Debug, PartialEq, Eq)]
pub enum Sort {
    /// A letter or `_`, and then letters, digits and `_`.
    Word,
    /// A number, by its value.
    Number(i64),
    /// A sign, by its byte. That of `..` is the byte of one dot.
    Sign(u8),
}
