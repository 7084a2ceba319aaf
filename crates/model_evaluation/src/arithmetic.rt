//! A result of one or two integers.
ghost use Rattle.std.specs.Prelude.{◌≡◌, ◌≤◌, ◌&&◌, not, IsTrue, ◌+ℤ◌, ◌*ℤ◌, int_div, int_rem, unsigned_abs};
ghost use Rattle.std.specs.Ordering.{int_eq};
ghost use Rattle.model_evaluation.specs.Evaluation.{given, are_readable};
ghost use Rattle.qc_model.specs.Holds.{holds_as, is_zero};
ghost use Rattle.qc_model.specs.Meaning.{plus as Plus, times as Times, absolute_value as AbsoluteValue, smaller as Smaller, greater as Greater, quotient as Quotient, remainder as Remainder};

use crate::reading::{one_value, small_value};
use qc_model::Argument;

/// In 128 bits, where no sum of two values overflows.
fn sum(x: i64, y: i64) -> i128
    ensures { result ≡ (x +ℤ y) }
{
    x as i128 + y as i128
}

pub(crate) fn plus(args: &[Argument], values: &[i64]) -> bool
    ensures { result ≡ holds_as Plus (given values.now args.now) }
{
    let x = one_value(args, 0, values);
    let y = one_value(args, 1, values);
    sum(x, y) == one_value(args, 2, values) as i128
}

/// In 128 bits, where no product of two values overflows.
pub(crate) fn product(x: i64, y: i64) -> i128
    ensures { result ≡ (x *ℤ y) }
{
    x as i128 * y as i128
}

pub(crate) fn times(args: &[Argument], values: &[i64]) -> bool
    ensures { result ≡ holds_as Times (given values.now args.now) }
{
    let x = one_value(args, 0, values);
    let y = one_value(args, 1, values);
    product(x, y) == one_value(args, 2, values) as i128
}

pub(crate) fn absolute_value(args: &[Argument], values: &[i64]) -> bool
    ensures { result ≡ holds_as AbsoluteValue (given values.now args.now) }
{
    one_value(args, 0, values).unsigned_abs() as i128 == one_value(args, 1, values) as i128
}

pub(crate) fn smaller(args: &[Argument], values: &[i64]) -> bool
    ensures { result ≡ holds_as Smaller (given values.now args.now) }
{
    let least = one_value(args, 0, values).min(one_value(args, 1, values));
    least == one_value(args, 2, values)
}

pub(crate) fn greater(args: &[Argument], values: &[i64]) -> bool
    ensures { result ≡ holds_as Greater (given values.now args.now) }
{
    let greatest = one_value(args, 0, values).max(one_value(args, 1, values));
    greatest == one_value(args, 2, values)
}

/// Truncated. The dividend is small, so that the quotient can't overflow.
fn divides_to(x: i64, y: i64, quotient: i64) -> bool
    requires { unsigned_abs x ≤ 1000000000 }
    ensures { result ≡ (not (is_zero y) && int_eq (int_div x y) quotient) }
{
    y != 0 && x / y == quotient
}

fn leaves(x: i64, y: i64, remainder: i64) -> bool
    requires { unsigned_abs x ≤ 1000000000 }
    ensures { result ≡ (not (is_zero y) && int_eq (int_rem x y) remainder) }
{
    y != 0 && x % y == remainder
}

pub(crate) fn quotient(args: &[Argument], values: &[i64]) -> bool
    requires { IsTrue (are_readable values.now args.now) }
    ensures { result ≡ holds_as Quotient (given values.now args.now) }
{
    let x = small_value(args, 0, values);
    let y = one_value(args, 1, values);
    divides_to(x, y, one_value(args, 2, values))
}

pub(crate) fn remainder(args: &[Argument], values: &[i64]) -> bool
    requires { IsTrue (are_readable values.now args.now) }
    ensures { result ≡ holds_as Remainder (given values.now args.now) }
{
    let x = small_value(args, 0, values);
    let y = one_value(args, 1, values);
    leaves(x, y, one_value(args, 2, values))
}
