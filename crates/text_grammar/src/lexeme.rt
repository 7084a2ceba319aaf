//! What the grammar sees of a token.
use crate::tree::{Number, Word};
use qc_model::Sense;

/// A token as the grammar knows it: a word of the language, a name, a number or a sign. A place is kept
/// where a refusal can name it.
#[derive(Clone, Copy, PartialEq, Eq)]
pub enum Lexeme {
    Exists(u32),
    Forall(u32),
    Goal,
    Solve,
    Var(u32),
    Bits(u32),
    Aggregate(u32),
    Sum,
    Least,
    Greatest,
    Else,
    Optimise(Sense),
    Constraint(u32),
    Truth(bool),
    Name(Word),
    Number(Number),
    Semicolon,
    Colon,
    Comma,
    ParenOpen,
    ParenClose,
    BracketOpen(u32),
    BracketClose,
    BraceOpen(u32),
    BraceClose,
    Equals,
    Dots,
}
