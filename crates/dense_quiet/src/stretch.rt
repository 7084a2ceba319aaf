//! Numbers in a row.

/// The numbers from low to high; none where high is below low.
#[derive(Clone, Copy)]
pub struct Stretch {
    pub low: i64,
    pub high: i64,
}

/// The numbers that a constraint leaves a variable, by a guess; where it is sure, the constraint refutes those below them together, and
/// those above them.
#[derive(Clone, Copy)]
pub struct Kept {
    pub stretch: Stretch,
    pub sure: bool,
}
