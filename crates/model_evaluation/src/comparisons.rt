//! Two values compared.
ghost use Rattle.std.specs.Prelude.{◌≡◌};
ghost use Rattle.model_evaluation.specs.Evaluation.{given};
ghost use Rattle.qc_model.specs.Holds.{holds_as};
ghost use Rattle.qc_model.specs.Meaning.{equal as Equal, different as Different, at_most as AtMost, below as Below};

use crate::reading::one_value;
use qc_model::Argument;

pub(crate) fn equal(args: &[Argument], values: &[i64]) -> bool
    ensures { result ≡ holds_as Equal (given values.now args.now) }
{
    one_value(args, 0, values) == one_value(args, 1, values)
}

pub(crate) fn different(args: &[Argument], values: &[i64]) -> bool
    ensures { result ≡ holds_as Different (given values.now args.now) }
{
    one_value(args, 0, values) != one_value(args, 1, values)
}

pub(crate) fn at_most(args: &[Argument], values: &[i64]) -> bool
    ensures { result ≡ holds_as AtMost (given values.now args.now) }
{
    one_value(args, 0, values) <= one_value(args, 1, values)
}

pub(crate) fn below(args: &[Argument], values: &[i64]) -> bool
    ensures { result ≡ holds_as Below (given values.now args.now) }
{
    one_value(args, 0, values) < one_value(args, 1, values)
}
