//! The names of the predicates, as the problem text writes them.
ghost use Rattle.std.specs.Prelude.{◌≡◌};
ghost use Rattle.qc_model.specs.Signature.{pred_name as pred_name_of};

use crate::predicates::row_of;
use crate::problem::Pred;

/// The name of a predicate.
pub fn pred_name(pred: Pred) -> &'static str
    ensures { result.now ≡ pred_name_of pred }
{
    row_of(pred).name
}
