//! Families of predicates: those of a family are filtered by the same code.
ghost use Rattle.std.specs.Prelude.{◌≡◌};
ghost use Rattle.qc_model.specs.Families.{family};

use crate::predicates::row_of;
use crate::problem::Pred;

/// A family of predicates.
#[derive(Clone, Copy, PartialEq, Eq)]
pub enum Family {
    /// Comparisons of integers and of their sums.
    Linear,
    /// Arithmetic of one or two integers.
    Arith,
    /// Items of arrays, least and greatest items, members, differing values and tables.
    Element,
    /// Truth values.
    Bool,
}

/// The family of a predicate; a reified predicate is in the family of its plain one.
pub fn family_of(pred: Pred) -> Family
    ensures { result ≡ family pred }
{
    row_of(pred).family
}
