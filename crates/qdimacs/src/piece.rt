//! What a text is cut into.
ghost use Rattle.std.specs.Prelude.{◌≡◌, ◌≤◌, ◌∷◌, length};
ghost use Rattle.std.specs.List.{prefix_len};
ghost use Rattle.qdimacs.specs.Tokens.{is_blank as is_blank_byte, is_in_line as is_in_its_line, is_in_token as is_in_a_token, piece_of};

use crate::sign::read_sign;
use crate::token::Sign;

/// A line feed, a blank, a comment or a token: what the token is, how many bytes it has after its
/// first, and whether the line that goes on behind it has had blanks alone.
#[derive(Clone, Copy)]
pub(crate) struct Piece {
    pub(crate) sign: Option<Sign>,
    pub(crate) more: usize,
    pub(crate) fresh: bool,
}

fn is_blank(byte: u8) -> bool
    ensures { result ≡ is_blank_byte byte }
{
    byte == b' ' || byte == b'\t' || byte == b'\r'
}

fn is_in_token(byte: u8) -> bool
    ensures { result ≡ is_in_a_token byte }
{
    !(is_blank(byte) || byte == b'\n')
}

/// How many bytes come before the first line feed, or all of them.
fn count_in_line(bytes: &[u8]) -> usize
    ensures count { result ≡ prefix_len is_in_its_line bytes.now }
    ensures within { result ≤ length bytes.now }
{
    for (i, byte) in bytes.iter().enumerate() {
        if *byte == b'\n' {
            return i;
        }
    }
    bytes.len()
}

/// How many bytes come before the first blank or line feed, or all of them.
fn count_in_token(bytes: &[u8]) -> usize
    ensures count { result ≡ prefix_len is_in_a_token bytes.now }
    ensures within { result ≤ length bytes.now }
{
    for (i, byte) in bytes.iter().enumerate() {
        if !is_in_token(*byte) {
            return i;
        }
    }
    bytes.len()
}

/// The piece that a text begins with, where the line before it has had blanks alone or not. The text is
/// its first byte and the rest.
#[tactic(auto, unfolding(crate::specs::Tokens::piece_of))]
pub(crate) fn first_piece(fresh: bool, text: &[u8], first: u8, rest: &[u8]) -> Piece
    requires { text.now ≡ first ∷ rest.now }
    ensures piece { result ≡ piece_of fresh first rest.now }
    ensures within { result.more ≤ length rest.now }
{
    if first == b'\n' {
        Piece {
            sign: None,
            more: 0,
            fresh: true,
        }
    } else if is_blank(first) {
        Piece {
            sign: None,
            more: 0,
            fresh,
        }
    } else if fresh && first == b'c' {
        Piece {
            sign: None,
            more: count_in_line(rest),
            fresh: true,
        }
    } else {
        let more = count_in_token(rest);
        Piece {
            sign: Some(read_sign(&text[..more + 1])),
            more,
            fresh: false,
        }
    }
}
