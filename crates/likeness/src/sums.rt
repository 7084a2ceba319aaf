//! What the terms of sums come to, in 128 bits.
ghost use Rattle.std.specs.Prelude.{◌≡◌, ◌*ℤ◌, map, IfSome, IsTrue};
ghost use Rattle.proof_alike.specs.Reading.{left_sum};
ghost use Rattle.qc_model.specs.Arguments.{fill};
ghost use Rattle.qc_model.specs.Holds.{arg_value, sum_of_products};

use crate::values::value_of;
use model_arguments::{items_at, numbers_at};
use qc_model::{Arg, Argument};

/// In 128 bits, where no product of two values overflows.
fn product(x: i64, y: i64) -> i128
    ensures { result ≡ (x *ℤ y) }
{
    x as i128 * y as i128
}

/// The sum of the products, item by item. None comes where it overflows on the way.
fn sum_of(factors: &[i64], items: &[Arg], values: &[i64]) -> Option<i128>
    ensures { IfSome result (λ sum. sum ≡ sum_of_products factors.now (map (arg_value values.now) items.now)) }
{
    let mut sum: i128 = 0;
    for k in 0..factors.len().min(items.len()) {
        sum = sum.checked_add(product(factors[k], value_of(items[k], values)))?;
    }
    Some(sum)
}

/// Whether the sum comes to the same on both values.
pub(crate) fn are_sums_alike(args: &[Argument], kept: &[i64], here: &[i64]) -> bool
    ensures { IsTrue result → left_sum (map (fill (arg_value kept.now)) args.now) ≡ left_sum (map (fill (arg_value here.now)) args.now) }
{
    let factors = numbers_at(args, 0);
    let items = items_at(args, 1);
    let Some(sum) = sum_of(factors, items, kept) else {
        return false;
    };
    match sum_of(factors, items, here) {
        Some(other) => sum == other,
        None => false,
    }
}
