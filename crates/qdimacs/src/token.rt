//! Tokens and their places.
use qc_model::Kind;

/// What a token is.
#[derive(Clone, Copy, PartialEq, Eq)]
pub enum Sign {
    /// `p`.
    Format,
    /// `cnf`.
    Cnf,
    /// `e` or `a`.
    Quantifier(Kind),
    /// `0`.
    Zero,
    /// A digit from 1 to 9 and at most eight further digits, by its value.
    Number(u32),
    /// A minus with a number right behind it, by that number's value.
    Negative(u32),
    /// Anything else.
    Other,
}

/// A token, and the place of its first byte, counted from 0.
#[derive(Clone, Copy, PartialEq, Eq)]
pub struct Token {
    pub at: u32,
    pub sign: Sign,
}
