//! The tokens of a whole text.
ghost use Rattle.std.specs.Prelude.{◌≡◌, ◌<◌, ◌^◌, ◌++◌, length, IfOk, OnOk};
ghost use Rattle.qdimacs.specs.Tokens.{token_at, tokens_of};

use crate::piece::first_piece;
use crate::token::{Sign, Token};
use std::alloc::{AllocError, Global};

fn push_token(tokens: &mut Vec<Token>, at: u32, sign: Option<Sign>) -> Result<(), AllocError>
    ensures { OnOk result (tokens.new.items ≡ tokens.old.items ++ token_at at sign) }
{
    match sign {
        Some(sign) => {
            tokens.push(Token { at, sign })?;
            Ok(())
        }
        None => Ok(()),
    }
}

/// The tokens of a text, in order.
pub(crate) fn tokens(alloc: Global, text: &[u8]) -> Result<Vec<Token>, AllocError>
    requires { length text.now < 2 ^ 32 }
    ensures { IfOk result (λ ts. ts.items ≡ tokens_of text.now) }
{
    let mut tokens = Vec::new(alloc);
    let mut left = text;
    let mut at: u32 = 0;
    let mut fresh = true;
    while let Some((first, rest)) = left.split_first() {
        let piece = first_piece(fresh, left, *first, rest);
        push_token(&mut tokens, at, piece.sign)?;
        fresh = piece.fresh;
        left = &rest[piece.more..];
        at = at + 1 + piece.more as u32;
    }
    Ok(tokens)
}
