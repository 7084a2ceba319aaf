//! The tokens of a whole text.
ghost use Rattle.std.specs.Prelude.{◌≡◌, ◌+◌, ◌^◌, ◌<◌, length, IfOk, IfErr, None};
ghost use Rattle.std.specs.List.{All};
ghost use Rattle.qc_tokens.specs.Tokens.{tokens_of, first_bad_byte, first_bad_number, bad_byte_from, Explains, IsTokenOf};
ghost use Rattle.qc_tokens.specs.Inner.{fault_of};

use crate::cut::first_cut;
use crate::fault::TokenError;
use crate::piece::Piece;
use crate::token::Token;
use std::alloc::Global;

/// The tokens of a text shorter than 2^32 bytes, in order.
///
/// # Errors
///
/// `BadByte` where the text has a byte at which no blank, comment or token begins, with the first such
/// byte's place. `BadNumber` where it has none, but a number that isn't a good one, with the first such
/// number's place. `Memory` where memory was refused.
pub fn tokens(alloc: Global, text: &[u8]) -> Result<Vec<Token>, TokenError>
    requires { length text.now < 2 ^ 32 }
    ensures tokens { IfOk result (λ ts. ts.items ≡ tokens_of text.now) }
    ensures places { IfOk result (λ ts. All (IsTokenOf text.now) ts.items) }
    ensures good { IfOk result (λ ts. (first_bad_byte text.now ≡ None) × (first_bad_number text.now ≡ None)) }
    ensures why { IfErr result (λ e. Explains text.now e) }
{
    let mut tokens = Vec::new(alloc);
    let mut left = text;
    let mut at: u32 = 0;
    while let Some((first, rest)) = left.split_first() {
        let cut = first_cut(left, *first, rest);
        let end = at + 1 + cut.more as u32;
        match cut.piece {
            Piece::Gap => {}
            Piece::Good(sort) => tokens.push(Token {
                start: at,
                end,
                sort,
            })?,
            Piece::BadNumber => {
                return Err(bad_number(&rest[cut.more..], end, at));
            }
            Piece::BadByte => return Err(TokenError::BadByte { at }),
        }
        left = &rest[cut.more..];
        at = end;
    }
    Ok(tokens)
}

// Why a text is refused whose first bad number stands at this place, and that has no bad byte before
// what is left.
fn bad_number(left: &[u8], start: u32, at: u32) -> TokenError
    requires { start + length left.now < 2 ^ 32 }
    ensures { result ≡ fault_of (bad_byte_from start left.now) at }
{
    match find_bad_byte(left, start) {
        Some(at) => TokenError::BadByte { at },
        None => TokenError::BadNumber { at },
    }
}

// The place of the first bad byte of a part of a text, which begins at this place.
fn find_bad_byte(part: &[u8], start: u32) -> Option<u32>
    requires { start + length part.now < 2 ^ 32 }
    ensures { result ≡ bad_byte_from start part.now }
{
    let mut left = part;
    let mut at = start;
    while let Some((first, rest)) = left.split_first() {
        let cut = first_cut(left, *first, rest);
        if let Piece::BadByte = cut.piece {
            return Some(at);
        }
        left = &rest[cut.more..];
        at = at + 1 + cut.more as u32;
    }
    None
}
