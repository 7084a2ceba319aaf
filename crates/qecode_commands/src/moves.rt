//! The moves of a play, as a text.
ghost use Rattle.std.specs.Prelude.{◌≡◌, ◌≤◌, None, alloc_error, length, IfOk, IfErr, OnOk};
ghost use Rattle.qecode_commands.specs.declared.moves.NoMoves.TheVariants.{Memory};
ghost use Rattle.qecode_commands.specs.Moves.{numbers_of, first_other, moves_of, bad_moves_at, ExplainsOther, ExplainsMoves};

use qc_tokens::{Sort, Token, TokenError, tokens};
use std::alloc::{AllocError, AllocFailed, Global};

/// Why a text is no moves.
#[derive(Clone, Copy, PartialEq, Eq)]
pub enum NoMoves {
    /// No token begins at this place, or one that is no number.
    Bad { at: u32 },
    /// Memory was refused.
    Memory(AllocError),
}

impl From<AllocError> for NoMoves {
    ghost from_gives = { λ e f. f ≡ Memory e };

    fn from(error: AllocError) -> NoMoves {
        NoMoves::Memory(error)
    }
}

impl<T: Drop> From<AllocFailed<T>> for NoMoves {
    ghost from_gives = { λ _ f. f ≡ Memory alloc_error };

    fn from(_error: AllocFailed<T>) -> NoMoves {
        NoMoves::Memory(AllocError)
    }
}

/// The numbers of a text, in order. Nothing but numbers may stand in it, and what stands between tokens.
pub fn read_moves(alloc: Global, text: &[u8]) -> Result<Vec<i64>, NoMoves>
    requires { length text.now ≤ 65536 }
    ensures moves { IfOk result (λ moves. moves.items ≡ moves_of text.now) }
    ensures good { OnOk result (bad_moves_at text.now ≡ None) }
    ensures why { IfErr result (λ fault. ExplainsMoves text.now fault) }
{
    match tokens(alloc, text) {
        Ok(tokens) => numbers(alloc, &tokens),
        Err(TokenError::BadByte { at }) => Err(NoMoves::Bad { at }),
        Err(TokenError::BadNumber { at }) => Err(NoMoves::Bad { at }),
        Err(TokenError::Memory(error)) => Err(NoMoves::Memory(error)),
    }
}

// The numbers that tokens are.
fn numbers(alloc: Global, tokens: &[Token]) -> Result<Vec<i64>, NoMoves>
    ensures numbers { IfOk result (λ numbers. numbers.items ≡ numbers_of tokens.now) }
    ensures good { OnOk result (first_other tokens.now ≡ None) }
    ensures why { IfErr result (λ fault. ExplainsOther tokens.now fault) }
{
    let mut numbers = Vec::new(alloc);
    for token in tokens {
        match token.sort {
            Sort::Number(value) => numbers.push(value)?,
            Sort::Word => return Err(NoMoves::Bad { at: token.start }),
            Sort::Sign(_) => return Err(NoMoves::Bad { at: token.start }),
        }
    }
    Ok(numbers)
}
