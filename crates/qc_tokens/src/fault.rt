//! Why a text isn't cut into tokens.
ghost use Rattle.std.specs.Prelude.{◌≡◌, alloc_error};
ghost use Rattle.qc_tokens.specs.declared.fault.TokenError.TheVariants.{Memory};

use std::alloc::{AllocError, AllocFailed};
use thiserror::Error;

/// Why a text isn't cut into tokens. Places are offsets of bytes, counted from 0.
#[derive(Clone, Copy, Debug, PartialEq, Eq, Error)]
pub enum TokenError {
    /// The first byte at which no blank, comment or token begins.
    #[error("BadByte")]
    BadByte { at: u32 },
    /// The first number with anything but digits after its sign, or with a value past 64 bits, in a
    /// text that has no bad byte.
    #[error("BadNumber")]
    BadNumber { at: u32 },
    /// Memory was refused.
    #[error("Memory")]
    Memory(AllocError),
}

impl From<AllocError> for TokenError {
    ghost from_gives = { λ e f. f ≡ Memory e };

    fn from(error: AllocError) -> TokenError {
        TokenError::Memory(error)
    }
}

impl<T: Drop> From<AllocFailed<T>> for TokenError {
    ghost from_gives = { λ _ f. f ≡ Memory alloc_error };

    fn from(_error: AllocFailed<T>) -> TokenError {
        TokenError::Memory(AllocError)
    }
}
