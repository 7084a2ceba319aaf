//! Sums of products, in 128 bits.
ghost use Rattle.std.specs.Prelude.{◌≡◌, ◌≤◌, ◌<◌, ◌^◌, length, IsTrue, slice_index_or, pos, ◌*ℤ◌, unsigned_abs};
ghost use Rattle.std.specs.List.{list_all};
ghost use Rattle.qc_model.specs.Arguments.{numbers as numbers_in};
ghost use Rattle.model_evaluation.specs.Evaluation.{given, item_values, are_readable};
ghost use Rattle.qc_model.specs.Holds.{holds_as, sum_of_products, values_at};
ghost use Rattle.qc_model.specs.Meaning.{sum_equal as SumEqual, sum_different as SumDifferent, sum_at_most as SumAtMost};
ghost use Rattle.qc_model.specs.Valid.{is_number};

use crate::arithmetic::product;
use crate::reading::{items_at, numbers_at, one_value, value_of};
use qc_model::{Arg, Argument};

/// The product of number k and the value of item k.
fn term(factors: &[i64], items: &[Arg], k: usize, values: &[i64]) -> i128
    requires factors { IsTrue (list_all is_number factors.now) }
    requires items { IsTrue (list_all is_number (item_values values.now items.now)) }
    requires factor { k < length factors.now }
    requires item { k < length items.now }
    ensures value { result ≡ (slice_index_or factors.now k (pos 0) *ℤ slice_index_or (item_values values.now items.now) k (pos 0)) }
    ensures small { unsigned_abs result ≤ 10 ^ 18 }
{
    product(factors[k], value_of(&items[k], values))
}

/// At most 1,000 products, each within 10 ^ 18.
fn sum_of(factors: &[i64], items: &[Arg], values: &[i64]) -> i128
    requires factors { IsTrue (list_all is_number factors.now) }
    requires items { IsTrue (list_all is_number (item_values values.now items.now)) }
    requires few { length items.now ≤ 1000 }
    ensures { result ≡ sum_of_products factors.now (item_values values.now items.now) }
{
    let count = factors.len().min(items.len());
    let mut sum: i128 = 0;
    for k in 0..count {
        sum += term(factors, items, k, values);
    }
    sum
}

/// The sum of the products of arguments 0 and 1.
fn left_sum(args: &[Argument], values: &[i64]) -> i128
    requires { IsTrue (are_readable values.now args.now) }
    ensures { result ≡ sum_of_products (numbers_in (given values.now args.now) 0) (values_at (given values.now args.now) 1) }
{
    let factors = numbers_at(args, 0, values);
    sum_of(factors, items_at(args, 1, values), values)
}

pub(crate) fn sum_equal(args: &[Argument], values: &[i64]) -> bool
    requires { IsTrue (are_readable values.now args.now) }
    ensures { result ≡ holds_as SumEqual (given values.now args.now) }
{
    left_sum(args, values) == one_value(args, 2, values) as i128
}

pub(crate) fn sum_different(args: &[Argument], values: &[i64]) -> bool
    requires { IsTrue (are_readable values.now args.now) }
    ensures { result ≡ holds_as SumDifferent (given values.now args.now) }
{
    left_sum(args, values) != one_value(args, 2, values) as i128
}

pub(crate) fn sum_at_most(args: &[Argument], values: &[i64]) -> bool
    requires { IsTrue (are_readable values.now args.now) }
    ensures { result ≡ holds_as SumAtMost (given values.now args.now) }
{
    left_sum(args, values) <= one_value(args, 2, values) as i128
}
