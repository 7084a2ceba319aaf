//! What closing answers.

/// What the box handed back is: closed for the constraints, or one with an empty domain.
#[derive(Clone, Copy, PartialEq, Eq)]
pub enum Closed {
    Open,
    Empty,
}
