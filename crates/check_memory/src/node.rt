//! What is kept of a node.

/// A node that was checked: the number of its position, its scope, the horizon in force, whether it was won, how many turns its
/// text has, below how many open nodes and branches it stood, and where the values of the variables before its scope and its text
/// begin, and how many they are.
#[derive(Clone, Copy)]
pub(crate) struct Node {
    pub(crate) number: u64,
    pub(crate) scope: u8,
    pub(crate) horizon: Option<u8>,
    pub(crate) won: bool,
    pub(crate) turns: u64,
    pub(crate) depth: usize,
    pub(crate) values: usize,
    pub(crate) count: usize,
    pub(crate) text: usize,
    pub(crate) size: usize,
}

/// What is known of a node whose text comes next: whether it is won, how many turns its text has, below how many open
/// nodes and branches it may stand at most, and how many bytes its text has.
#[derive(Clone, Copy)]
pub struct Met {
    pub won: bool,
    pub turns: u64,
    pub depth: usize,
    pub size: usize,
}
