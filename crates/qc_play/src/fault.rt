//! Why there is no play.
ghost use Rattle.std.specs.Prelude.{◌≡◌, alloc_error};
ghost use Rattle.qc_play.specs.declared.fault.PlayFault.TheVariants.{Memory};

use qc_model::ScopeId;
use std::alloc::{AllocError, AllocFailed};

/// Why a play doesn't come to its end. Scopes are counted from 0.
#[derive(Clone, Copy, PartialEq, Eq)]
pub enum PlayFault {
    /// Fewer moves are left than this scope has variables.
    Missing(ScopeId),
    /// Enough are left, and the next ones aren't an allowed tuple of this scope.
    NotAllowed(ScopeId),
    /// Memory was refused.
    Memory(AllocError),
}

impl From<AllocError> for PlayFault {
    ghost from_gives = { λ e f. f ≡ Memory e };

    fn from(error: AllocError) -> PlayFault {
        PlayFault::Memory(error)
    }
}

impl<T: Drop> From<AllocFailed<T>> for PlayFault {
    ghost from_gives = { λ _ f. f ≡ Memory alloc_error };

    fn from(_error: AllocFailed<T>) -> PlayFault {
        PlayFault::Memory(AllocError)
    }
}
