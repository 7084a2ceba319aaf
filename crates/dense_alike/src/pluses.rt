//! What the known ones of a, b and c of a + b = c come to, in 128 bits.
ghost use Rattle.std.specs.Prelude.{◌≡◌, ◌+ℤ◌, ◌-ℤ◌, map};
ghost use Rattle.std.specs.Ordering.{int_eq};
ghost use Rattle.proof_alike.specs.Reading.{left_over as left_over_of, known_plus};
ghost use Rattle.qc_model.specs.Arguments.{fill};
ghost use Rattle.qc_model.specs.Holds.{arg_value, value_at};

use crate::values::value_of;
use model_arguments::{arguments, one_at};
use qc_model::{Argument, Constraint};

/// a and b less c, in 128 bits, where nothing overflows.
fn less(a: i64, b: i64, c: i64) -> i128
    ensures { result ≡ ((a +ℤ b) -ℤ c) }
{
    a as i128 + b as i128 - c as i128
}

/// The value of an argument, 0 where it has none.
fn known_at(args: &[Argument], place: usize, values: &[i64]) -> i64
    ensures { result ≡ value_at (map (fill (arg_value values.now)) args.now) place }
{
    value_of(one_at(args, place), values)
}

/// a and b less c, with 0 for each variable without a value.
fn left_over(args: &[Argument], values: &[i64]) -> i128
    ensures { result ≡ left_over_of (map (fill (arg_value values.now)) args.now) }
{
    let a = known_at(args, 0, values);
    let b = known_at(args, 1, values);
    let c = known_at(args, 2, values);
    less(a, b, c)
}

/// Whether a and b less c come to the same on both values.
pub(crate) fn are_pluses_same(rule: &Constraint, here: &[i64], there: &[i64]) -> bool
    ensures { result ≡ int_eq (known_plus here.now rule.now) (known_plus there.now rule.now) }
{
    let args = arguments(rule);
    left_over(args, here) == left_over(args, there)
}
