//! Which owners meet the worst ties, and why no problem is given for them.
ghost use Rattle.std.specs.Prelude.{◌≡◌, alloc_error};
ghost use Rattle.qc_pessimist.specs.declared.reading.NoReading.TheVariants.{Memory};

use qc_model::ScopeId;
use std::alloc::{AllocError, AllocFailed};
use thiserror::Error;

/// The owners that meet the worst ties: that of one scope, or those of all existential scopes with a
/// condition.
#[derive(Clone, Copy, PartialEq, Eq)]
pub enum Places {
    One(ScopeId),
    All,
}

/// Why no problem is given.
#[derive(Clone, Copy, Debug, PartialEq, Eq, Error)]
pub enum NoReading {
    /// The one place names no existential scope with a condition.
    #[error("no condition")]
    NoCondition,
    /// There would be more than 64 scopes.
    #[error("too many scopes")]
    TooManyScopes,
    /// Memory was refused.
    #[error("memory")]
    Memory(AllocError),
}

impl From<AllocError> for NoReading {
    ghost from_gives = { λ e f. f ≡ Memory e };

    fn from(error: AllocError) -> NoReading {
        NoReading::Memory(error)
    }
}

impl<T: Drop> From<AllocFailed<T>> for NoReading {
    ghost from_gives = { λ _ f. f ≡ Memory alloc_error };

    fn from(_error: AllocFailed<T>) -> NoReading {
        NoReading::Memory(AllocError)
    }
}
