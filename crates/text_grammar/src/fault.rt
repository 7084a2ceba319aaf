//! Why tokens are no problem text.
ghost use Rattle.std.specs.Prelude.{◌≡◌, alloc_error};
ghost use Rattle.text_grammar.specs.declared.fault.GrammarFault.TheVariants.{Memory};

use std::alloc::{AllocError, AllocFailed};
use thiserror::Error;

/// Why tokens are no problem text. Places are offsets of bytes, counted from 0.
#[derive(Clone, Copy, Debug, PartialEq, Eq, Error)]
pub enum GrammarFault {
    /// The first token that can't stand there, whatever might follow it; or the end of the text, where
    /// it begins a problem and isn't one.
    #[error("Syntax")]
    Syntax { at: u32 },
    /// Memory was refused.
    #[error("Memory")]
    Memory(AllocError),
}

impl From<AllocError> for GrammarFault {
    ghost from_gives = { λ e f. f ≡ Memory e };

    fn from(error: AllocError) -> GrammarFault {
        GrammarFault::Memory(error)
    }
}

impl<T: Drop> From<AllocFailed<T>> for GrammarFault {
    ghost from_gives = { λ _ f. f ≡ Memory alloc_error };

    fn from(_error: AllocFailed<T>) -> GrammarFault {
        GrammarFault::Memory(AllocError)
    }
}
