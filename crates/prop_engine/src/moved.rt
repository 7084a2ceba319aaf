//! Which ends of a variable moved.

/// Which ends of a variable may have moved.
#[derive(Clone, Copy)]
pub(crate) struct Moved {
    pub(crate) least: bool,
    pub(crate) greatest: bool,
}
