//! Why there are no names of a text.
ghost use Rattle.std.specs.Prelude.{◌≡◌, alloc_error};
ghost use Rattle.text_resolve.specs.declared.fault.NamesFault.TheVariants.{Memory};

use std::alloc::{AllocError, AllocFailed};
use thiserror::Error;

/// Why there are no names of a text.
#[derive(Clone, Copy, Debug, PartialEq, Eq, Error)]
pub(crate) enum NamesFault {
    /// The name at this place was declared before.
    #[error("name declared twice at {at}")]
    Repeated { at: u32 },
    /// Memory was refused.
    #[error("memory")]
    Memory(AllocError),
}

impl<T: Drop> From<AllocFailed<T>> for NamesFault {
    ghost from_gives = { λ _ f. f ≡ Memory alloc_error };

    fn from(_error: AllocFailed<T>) -> NamesFault {
        NamesFault::Memory(AllocError)
    }
}
