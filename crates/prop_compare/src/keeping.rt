//! What two arguments may keep.

/// The numbers from lo to hi.
#[derive(Clone, Copy)]
pub struct Ends {
    pub lo: i64,
    pub hi: i64,
}

/// What the first argument keeps, and then the second.
#[derive(Clone, Copy)]
pub struct Keeping {
    pub first: Ends,
    pub second: Ends,
}
