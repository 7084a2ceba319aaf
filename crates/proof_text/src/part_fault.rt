// Why reading a part stopped. Places are told by the number of bytes from there on.
ghost use Rattle.std.specs.Prelude.{◌≡◌};
ghost use Rattle.proof_text.specs.Refusals.{IsMemory};
ghost use Rattle.proof_text.specs.declared.part_fault.PartFault.TheVariants.{Memory};

use std::alloc::{AllocError, AllocFailed};

#[derive(Clone, Copy, PartialEq, Eq)]
pub(crate) enum PartFault {
    // no text goes on with this byte, or it has to go on
    Wrong { left: usize },
    // the line at this byte nests too deep
    Deep { left: usize },
    Memory(AllocError),
}

impl From<AllocError> for PartFault {
    ghost from_gives = { λ given e. e ≡ Memory given };

    fn from(error: AllocError) -> PartFault {
        PartFault::Memory(error)
    }
}

impl<T: Drop> From<AllocFailed<T>> for PartFault {
    ghost from_gives = { λ _ e. IsMemory e };

    fn from(error: AllocFailed<T>) -> PartFault {
        PartFault::Memory(AllocError::from(error))
    }
}
