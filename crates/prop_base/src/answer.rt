//! What a filter answers.

/// What became of the box: a domain is empty, nothing was removed, or something was.
#[derive(Clone, Copy, PartialEq, Eq)]
pub enum Filtered {
    Emptied,
    Stable,
    Changed,
}
