//! What a run of the queue finds.
use qc_model::ConId;

/// Nothing waits any more, a domain is empty, or the constraint removed something.
#[derive(Clone, Copy, PartialEq, Eq)]
pub(crate) enum Found {
    Settled,
    Emptied,
    Changed(ConId),
}
