//! A variable's part in a constraint.

/// A constraint, by its number, that mentions a variable, and by how much its balance grows as the variable grows by one.
/// The factor is 0 where no balance is kept; a variable that stands in a constraint several times has several terms.
#[derive(Clone, Copy)]
pub(crate) struct Term {
    pub(crate) rule: u16,
    pub(crate) factor: i64,
}
