//! Why a text gives no problem.
ghost use Rattle.std.specs.Prelude.{◌≡◌, alloc_error};
ghost use Rattle.qdimacs.specs.declared.fault.QdimacsFault.TheVariants.{Memory};

use std::alloc::{AllocError, AllocFailed};
use thiserror::Error;

/// What a text can be refused for, in the order in which it is looked for.
#[derive(Clone, Copy, Debug, PartialEq, Eq)]
pub enum QdimacsKind {
    /// The tokens are those of no formula: the first token with which they begin none, or the end of
    /// the text where more could make them one.
    Syntax,
    /// A set or a clause names a variable above the first count.
    OutOfRange,
    /// A variable stands in sets twice: its second place.
    Repeated,
    /// The number of clauses isn't the second count: that count.
    WrongCount,
    /// More than 500 variables or 20,000 clauses by their count, the 65th scope by its quantifier, or a
    /// clause of more than 1,000 literals of one sign by its first token.
    TooMany,
}

/// Why a text gives no problem. Places are offsets of bytes, counted from 0.
#[derive(Clone, Copy, Debug, PartialEq, Eq, Error)]
pub enum QdimacsFault {
    /// The text is refused for this, at this place.
    #[error("{kind:?} at {at}")]
    Refused { kind: QdimacsKind, at: u32 },
    /// Memory was refused.
    #[error("memory")]
    Memory(AllocError),
}

impl From<AllocError> for QdimacsFault {
    ghost from_gives = { λ e f. f ≡ Memory e };

    fn from(error: AllocError) -> QdimacsFault {
        QdimacsFault::Memory(error)
    }
}

impl<T: Drop> From<AllocFailed<T>> for QdimacsFault {
    ghost from_gives = { λ _ f. f ≡ Memory alloc_error };

    fn from(_error: AllocFailed<T>) -> QdimacsFault {
        QdimacsFault::Memory(AllocError)
    }
}
