//! Which arguments each predicate takes.
ghost use Rattle.std.specs.Prelude.{◌≡◌};
ghost use Rattle.qc_model.specs.Signature.{arg_kinds_of as arg_kinds_of_pred, most_items as most_items_of};

use crate::limits;
use crate::predicates::row_of;
use crate::problem::Pred;

/// What an argument of a predicate may be: an integer variable or a number, a Boolean variable or a
/// truth value, an array of either, an array of numbers or of truth values alone, or a set of
/// numbers.
#[derive(Clone, Copy, PartialEq, Eq)]
pub enum ArgKind {
    Integer,
    Boolean,
    Integers,
    Booleans,
    Numbers,
    Truths,
    Members,
}

/// How many items an array may have where an argument of this kind stands: 1,000 where they may be
/// variables, and 100,000 where they are numbers or truth values alone.
pub fn most_items(kind: ArgKind) -> usize
    ensures { result ≡ most_items_of kind }
{
    match kind {
        ArgKind::Integers | ArgKind::Booleans => limits::ITEMS,
        ArgKind::Integer
        | ArgKind::Boolean
        | ArgKind::Numbers
        | ArgKind::Truths
        | ArgKind::Members => { limits::NUMBERS }
    }
}

/// The kind of each argument of the predicate, in order.
pub fn arg_kinds_of(pred: Pred) -> &'static [ArgKind]
    ensures { result.now ≡ arg_kinds_of_pred pred }
{
    row_of(pred).kinds
}
