//! Why a text is no problem.
ghost use Rattle.std.specs.Prelude.{◌≡◌};
ghost use Rattle.text_resolve.specs.declared.refusal.ItemFault.TheVariants.{Memory};

use std::alloc::AllocError;
use thiserror::Error;

/// What the items of a text can be refused for, in the order in which they are looked for.
#[derive(Clone, Copy, Debug, PartialEq, Eq)]
pub enum RefusalKind {
    DuplicateName,
    UnknownName,
    UnknownPredicate,
    WrongArguments,
    OutOfRange,
    EmptyDomain,
    TooWide,
    TooMany,
    NotVisible,
    BottleneckFirst,
}

/// Why no problem is made of a text.
#[derive(Clone, Copy, Debug, PartialEq, Eq, Error)]
pub enum ItemFault {
    /// The text is refused for this, at this place.
    #[error("{kind:?} at {at}")]
    Refused { kind: RefusalKind, at: u32 },
    /// Memory was refused.
    #[error("memory")]
    Memory(AllocError),
}

impl From<AllocError> for ItemFault {
    ghost from_gives = { λ e f. f ≡ Memory e };

    fn from(error: AllocError) -> ItemFault {
        ItemFault::Memory(error)
    }
}
