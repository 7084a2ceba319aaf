//! What the grammar sees of a token, from its bytes.
ghost use Rattle.std.specs.Prelude.{◌≡◌, ◌≤◌, length};
ghost use Rattle.text_grammar.specs.Lexemes.{word_lexeme as word_lexeme_of, sign_lexeme as sign_lexeme_of, lexeme_of};

use crate::lexeme::Lexeme;
use crate::tree::{Number, Word};
use qc_model::Sense;
use qc_tokens::{Sort, Token};

fn word_lexeme(bytes: &[u8], start: u32, end: u32) -> Lexeme
    ensures { result ≡ word_lexeme_of bytes.now start end }
{
    if bytes == b"exists".as_slice() {
        Lexeme::Exists(start)
    } else if bytes == b"forall".as_slice() {
        Lexeme::Forall(start)
    } else if bytes == b"goal".as_slice() {
        Lexeme::Goal
    } else if bytes == b"solve".as_slice() {
        Lexeme::Solve
    } else if bytes == b"var".as_slice() {
        Lexeme::Var(start)
    } else if bytes == b"bool".as_slice() {
        Lexeme::Bits(start)
    } else if bytes == b"aggregate".as_slice() {
        Lexeme::Aggregate(start)
    } else if bytes == b"sum".as_slice() {
        Lexeme::Sum
    } else if bytes == b"least".as_slice() {
        Lexeme::Least
    } else if bytes == b"greatest".as_slice() {
        Lexeme::Greatest
    } else if bytes == b"else".as_slice() {
        Lexeme::Else
    } else if bytes == b"minimize".as_slice() {
        Lexeme::Optimise(Sense::Min)
    } else if bytes == b"maximize".as_slice() {
        Lexeme::Optimise(Sense::Max)
    } else if bytes == b"constraint".as_slice() {
        Lexeme::Constraint(start)
    } else if bytes == b"true".as_slice() {
        Lexeme::Truth(true)
    } else if bytes == b"false".as_slice() {
        Lexeme::Truth(false)
    } else {
        Lexeme::Name(Word { start, end })
    }
}

fn sign_lexeme(byte: u8, at: u32) -> Lexeme
    ensures { result ≡ sign_lexeme_of byte at }
{
    match byte {
        b';' => Lexeme::Semicolon,
        b':' => Lexeme::Colon,
        b',' => Lexeme::Comma,
        b'(' => Lexeme::ParenOpen,
        b')' => Lexeme::ParenClose,
        b'[' => Lexeme::BracketOpen(at),
        b']' => Lexeme::BracketClose,
        b'{' => Lexeme::BraceOpen(at),
        b'}' => Lexeme::BraceClose,
        b'=' => Lexeme::Equals,
        _ => Lexeme::Dots,
    }
}

/// The lexeme of a token of the text.
pub(crate) fn lexeme(text: &[u8], token: Token) -> Lexeme
    requires order { token.start ≤ token.end }
    requires within { token.end ≤ length text.now }
    ensures { result ≡ lexeme_of text.now token }
{
    match token.sort {
        Sort::Word => {
            let bytes = &text[token.start as usize..token.end as usize];
            word_lexeme(bytes, token.start, token.end)
        }
        Sort::Number(value) => Lexeme::Number(Number {
            at: token.start,
            value,
        }),
        Sort::Sign(byte) => sign_lexeme(byte, token.start),
    }
}
