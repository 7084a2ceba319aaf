//! The first piece of a text.
ghost use Rattle.std.specs.Prelude.{◌≡◌, ◌≤◌, ◌∷◌, IsTrue, length};
ghost use Rattle.qc_tokens.specs.Tokens.{begins_number as begins_a_number, number as number_cut, dots as dots_cut, single as single_cut, first_cut as first_cut_of, number_piece as number_piece_of};

use crate::bytes::{
    begins_with_digit, begins_with_dot, count_in_line, count_word_bytes, is_blank, is_first_byte,
    is_sign,
};
use crate::number::value_of;
use crate::piece::{Cut, Piece};
use crate::token::Sort;

/// The piece that a text begins with. The text is its first byte and the rest.
#[tactic(auto, unfolding(crate::specs::Tokens::first_cut))]
pub(crate) fn first_cut(text: &[u8], first: u8, rest: &[u8]) -> Cut
    requires { text.now ≡ first ∷ rest.now }
    ensures cut { result ≡ first_cut_of first rest.now }
    ensures within { result.more ≤ length rest.now }
{
    if is_blank(first) {
        single(Piece::Gap)
    } else if first == b'%' {
        Cut {
            piece: Piece::Gap,
            more: count_in_line(rest),
        }
    } else if is_sign(first) {
        single(Piece::Good(Sort::Sign(first)))
    } else if first == b'.' {
        dots(rest)
    } else if is_first_byte(first) {
        Cut {
            piece: Piece::Good(Sort::Word),
            more: count_word_bytes(rest),
        }
    } else if begins_number(first, rest) {
        number(text, first, rest)
    } else {
        single(Piece::BadByte)
    }
}

fn begins_number(first: u8, rest: &[u8]) -> bool
    ensures { result ≡ begins_a_number first rest.now }
{
    first.is_ascii_digit() || (first == b'-' && begins_with_digit(rest))
}

// A piece of one byte.
fn single(piece: Piece) -> Cut
    ensures { result ≡ single_cut piece }
{
    Cut { piece, more: 0 }
}

// Two dots are one sign.
fn dots(rest: &[u8]) -> Cut
    ensures { result ≡ dots_cut rest.now }
{
    if begins_with_dot(rest) {
        Cut {
            piece: Piece::Good(Sort::Sign(b'.')),
            more: 1,
        }
    } else {
        single(Piece::BadByte)
    }
}

fn number(text: &[u8], first: u8, rest: &[u8]) -> Cut
    requires text { text.now ≡ first ∷ rest.now }
    requires begins { IsTrue (begins_a_number first rest.now) }
    ensures { result ≡ number_cut first rest.now }
{
    let more = count_word_bytes(rest);
    Cut {
        piece: number_piece(value_of(&text[..more + 1])),
        more,
    }
}

fn number_piece(value: Option<i64>) -> Piece
    ensures { result ≡ number_piece_of value }
{
    match value {
        Some(value) => Piece::Good(Sort::Number(value)),
        None => Piece::BadNumber,
    }
}
