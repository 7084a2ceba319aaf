//! What the terms of sums come to, in 128 bits.
ghost use Rattle.std.specs.Prelude.{◌≡◌, ◌≤◌, ◌<◌, ◌^◌, length, IsTrue, slice_index_or, pos, ◌*ℤ◌, unsigned_abs};
ghost use Rattle.std.specs.List.{list_all};
ghost use Rattle.std.specs.Ordering.{int_eq};
ghost use Rattle.proof_alike.specs.Reading.{known_sum};
ghost use Rattle.qc_model.specs.Holds.{sum_of_products};
ghost use Rattle.qc_model.specs.Valid.{is_number};
ghost use Rattle.model_evaluation.specs.Evaluation.{item_values, are_readable};

use crate::values::value_of;
use model_arguments::{arguments, items_at, numbers_at};
use qc_model::{Arg, Constraint};

/// In 128 bits, where no product of two values overflows.
fn product(x: i64, y: i64) -> i128
    ensures { result ≡ (x *ℤ y) }
{
    x as i128 * y as i128
}

/// The product of number k and the value of item k.
fn term(factors: &[i64], items: &[Arg], k: usize, values: &[i64]) -> i128
    requires factors { IsTrue (list_all is_number factors.now) }
    requires items { IsTrue (list_all is_number (item_values values.now items.now)) }
    requires factor { k < length factors.now }
    requires item { k < length items.now }
    ensures value { result ≡ (slice_index_or factors.now k (pos 0) *ℤ slice_index_or (item_values values.now items.now) k (pos 0)) }
    ensures small { unsigned_abs result ≤ 10 ^ 18 }
{
    product(factors[k], value_of(items[k], values))
}

/// At most 1,000 products, each within 10 ^ 18.
fn sum_of(factors: &[i64], items: &[Arg], values: &[i64]) -> i128
    requires factors { IsTrue (list_all is_number factors.now) }
    requires items { IsTrue (list_all is_number (item_values values.now items.now)) }
    requires few { length items.now ≤ 1000 }
    ensures { result ≡ sum_of_products factors.now (item_values values.now items.now) }
{
    let count = factors.len().min(items.len());
    let mut sum: i128 = 0;
    for k in 0..count {
        sum += term(factors, items, k, values);
    }
    sum
}

/// What the terms come to whose variables have values, the others counted as 0.
fn known(rule: &Constraint, values: &[i64]) -> i128
    requires { IsTrue (are_readable values.now rule.now.args) }
    ensures { result ≡ known_sum values.now rule.now }
{
    let args = arguments(rule);
    sum_of(numbers_at(args, 0), items_at(args, 1), values)
}

/// Whether the sum comes to the same on both values.
pub(crate) fn are_sums_same(rule: &Constraint, here: &[i64], there: &[i64]) -> bool
    requires here { IsTrue (are_readable here.now rule.now.args) }
    requires there { IsTrue (are_readable there.now rule.now.args) }
    ensures { result ≡ int_eq (known_sum here.now rule.now) (known_sum there.now rule.now) }
{
    known(rule, here) == known(rule, there)
}
