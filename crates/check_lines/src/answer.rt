//! What a machine answers.
use joins::Found;

/// What the lines of a whole node come to, where each is in place: the node's verdict, the value of the scope's own
/// condition, where it has one and the verdict is exact, how many cases are taken (up to 2^64 - 1), and whether one is left
/// open.
#[derive(Clone, Copy, PartialEq, Eq)]
pub struct Answer {
    pub found: Found,
    pub own: Option<i64>,
    pub turns: u64,
    pub has_open: bool,
}
