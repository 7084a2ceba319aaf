//! What a join is told, and what it says.

/// A leaf of a node's own tree: nothing goes on there, or what is known of the node below it.
#[derive(Clone, Copy)]
pub enum Leaf<'a> {
    /// The restriction doesn't hold there.
    Barred,
    /// No strategy wins below.
    Lost,
    /// The best strategy below has this vector of values for the list after the scope.
    Exact(&'a [i64]),
    /// No strategy below has a better first value than this.
    AtMost(i64),
    /// Nothing is known of the node below.
    Unknown,
    /// The values were left out.
    Skipped,
}

/// What the leaves come to: no strategy wins, the best has a known vector, none has a better first
/// value than the number, or nothing is known.
#[derive(Clone, Copy, PartialEq, Eq)]
pub enum Found {
    Lost,
    Exact,
    AtMost(i64),
    Unknown,
}
