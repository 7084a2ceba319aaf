//! What a removal answers.

/// What became of a variable's values: none of them was named, none is left, or some went and some stayed.
#[derive(Clone, Copy, PartialEq, Eq)]
pub enum Removed {
    Nothing,
    Emptied,
    Some,
}
