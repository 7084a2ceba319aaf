//! Why a row ends at a line: what is wrong with the line, or with what was answered.
use qc_io::ReadError;
use std::alloc::{AllocError, AllocFailed};
use thiserror::Error;

#[derive(Clone, Copy, Debug, Error)]
pub(crate) enum Fault {
    #[error("no field is called so")]
    UnknownField,
    #[error("no escape is written so")]
    UnknownEscape,
    #[error("no text is called so")]
    UnknownText,
    #[error("this row has no such part")]
    UnknownPart,
    #[error("no program is called so")]
    UnknownProgram,
    #[error("a number is wanted")]
    NoNumber,
    #[error("the words are no UTF-8")]
    NoWords,
    #[error("nothing was run")]
    NothingRun,
    #[error("of the last run no status is wanted")]
    NoStatus,
    #[error("the file can't be read")]
    Unreadable,
    #[error("there is too little memory")]
    Memory,
    #[error("another status is wanted")]
    OtherStatus,
    #[error("another text is wanted")]
    OtherText,
    #[error("more lines or fewer are wanted")]
    OtherLines,
}

impl From<AllocError> for Fault {
    fn from(_: AllocError) -> Fault {
        Fault::Memory
    }
}

impl<T: Drop> From<AllocFailed<T>> for Fault {
    fn from(_: AllocFailed<T>) -> Fault {
        Fault::Memory
    }
}

impl From<ReadError> for Fault {
    fn from(error: ReadError) -> Fault {
        match error {
            ReadError::Fault | ReadError::TooLong => Fault::Unreadable,
            ReadError::Memory(_) => Fault::Memory,
        }
    }
}
