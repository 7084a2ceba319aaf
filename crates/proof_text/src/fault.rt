//! Why bytes are no certificate.
use std::alloc::AllocError;
use thiserror::Error;

/// Why bytes couldn't be read as a certificate. Places are offsets of bytes, counted from 0.
#[derive(Clone, Copy, Debug, PartialEq, Eq, Error)]
pub enum CertFault {
    /// The bytes are no certificate's text. With the byte at this place no text goes on, or all bytes
    /// are there and the text isn't ended.
    #[error("NotACertificate")]
    NotACertificate { at: u64 },
    /// The line at this place stands below more than 1,000 branches and next nodes, its own included.
    #[error("TooDeep")]
    TooDeep { at: u64 },
    /// There was no memory for the tree.
    #[error("Memory")]
    Memory(AllocError),
}
