//! Why a search gives up.
use std::alloc::{AllocError, AllocFailed};

/// No memory was left; or no turn, or the search met what it has no lines for; or a node of the last scope takes long; or the first
/// scope begins again.
#[derive(Clone, Copy, PartialEq, Eq)]
pub enum Stop {
    Memory,
    Spent,
    Slow,
    Again,
}

impl From<AllocError> for Stop {
    fn from(_error: AllocError) -> Stop {
        Stop::Memory
    }
}

impl<T: Drop> From<AllocFailed<T>> for Stop {
    fn from(_error: AllocFailed<T>) -> Stop {
        Stop::Memory
    }
}
