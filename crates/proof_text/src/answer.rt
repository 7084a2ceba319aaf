//! What reading a byte of a certificate's text tells.
use proof_tree::{Line, Outcome, Version};

/// What became of the text with a byte.
#[derive(Clone, Copy, PartialEq, Eq)]
pub enum Read {
    /// The bytes begin a text, and neither a head nor a line of the tree ends with this one.
    Within,
    /// The head, the first two lines, ends with this byte.
    Head {
        version: Version,
        outcome: Outcome,
        optimum: Option<i64>,
    },
    /// A line of the tree ends with this byte.
    Whole(Line),
    /// Here or before, a line began that is nested more than 1,000 deep.
    TooDeep,
    /// Here or before, the bytes stopped being the beginning of a text.
    Bad,
}
