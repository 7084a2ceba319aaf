//! The parts of a constraint that are read here.
ghost use Rattle.std.specs.Prelude.{◌≡◌, ◌<◌, ◌^◌};

use qc_model::{Constraint, Pred};

pub(crate) fn pred_of(rule: &Constraint) -> Pred
    ensures { result ≡ rule.now.pred }
{
    rule.pred
}

/// The number of the constraint's scope.
pub(crate) fn scope_of(rule: &Constraint) -> usize
    ensures is { result ≡ rule.now.owner.0 }
    ensures small { result < 2 ^ 8 }
{
    rule.owner.0 as usize
}
