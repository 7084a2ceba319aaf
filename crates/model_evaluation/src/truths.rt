//! Truth values, where 1 is true and 0 is false.
ghost use Rattle.std.specs.Prelude.{◌≡◌, ◌≤◌, ◌||◌, IsTrue};
ghost use Rattle.std.specs.List.{list_any, list_all};
ghost use Rattle.model_evaluation.specs.Evaluation.{given, item_values, are_readable};
ghost use Rattle.qc_model.specs.Holds.{holds_as, odd_ones, is_one, is_zero, value_at};
ghost use Rattle.qc_model.specs.Meaning.{both as Both, either as Either, exactly_one as ExactlyOne, all_items as AllItems, some_item as SomeItem, odd_items as OddItems, clause as Clause};

use crate::reading::{items_at, one_value, value_of};
use qc_model::{Arg, Argument};

fn is_true(args: &[Argument], place: usize, values: &[i64]) -> bool
    ensures { result ≡ is_one (value_at (given values.now args.now) place) }
{
    one_value(args, place, values) == 1
}

pub(crate) fn both(args: &[Argument], values: &[i64]) -> bool
    ensures { result ≡ holds_as Both (given values.now args.now) }
{
    is_true(args, 2, values) == (is_true(args, 0, values) && is_true(args, 1, values))
}

pub(crate) fn either(args: &[Argument], values: &[i64]) -> bool
    ensures { result ≡ holds_as Either (given values.now args.now) }
{
    is_true(args, 2, values) == (is_true(args, 0, values) || is_true(args, 1, values))
}

pub(crate) fn exactly_one(args: &[Argument], values: &[i64]) -> bool
    ensures { result ≡ holds_as ExactlyOne (given values.now args.now) }
{
    is_true(args, 2, values) == (one_value(args, 0, values) != one_value(args, 1, values))
}

fn all_ones(items: &[Arg], values: &[i64]) -> bool
    ensures { result ≡ list_all is_one (item_values values.now items.now) }
{
    items.iter().all(|item| value_of(item, values) == 1)
}

fn some_one(items: &[Arg], values: &[i64]) -> bool
    ensures { result ≡ list_any is_one (item_values values.now items.now) }
{
    items.iter().any(|item| value_of(item, values) == 1)
}

fn some_zero(items: &[Arg], values: &[i64]) -> bool
    ensures { result ≡ list_any is_zero (item_values values.now items.now) }
{
    items.iter().any(|item| value_of(item, values) == 0)
}

pub(crate) fn all_items(args: &[Argument], values: &[i64]) -> bool
    requires { IsTrue (are_readable values.now args.now) }
    ensures { result ≡ holds_as AllItems (given values.now args.now) }
{
    is_true(args, 1, values) == all_ones(items_at(args, 0, values), values)
}

pub(crate) fn some_item(args: &[Argument], values: &[i64]) -> bool
    requires { IsTrue (are_readable values.now args.now) }
    ensures { result ≡ holds_as SomeItem (given values.now args.now) }
{
    is_true(args, 1, values) == some_one(items_at(args, 0, values), values)
}

fn odd_count(items: &[Arg], values: &[i64]) -> bool
    ensures { result ≡ odd_ones (item_values values.now items.now) }
{
    let mut odd = false;
    for item in items {
        odd = odd != (value_of(item, values) == 1);
    }
    odd
}

pub(crate) fn odd_items(args: &[Argument], values: &[i64]) -> bool
    requires { IsTrue (are_readable values.now args.now) }
    ensures { result ≡ holds_as OddItems (given values.now args.now) }
{
    odd_count(items_at(args, 0, values), values)
}

pub(crate) fn clause(args: &[Argument], values: &[i64]) -> bool
    requires { IsTrue (are_readable values.now args.now) }
    ensures { result ≡ holds_as Clause (given values.now args.now) }
{
    some_one(items_at(args, 0, values), values) || some_zero(items_at(args, 1, values), values)
}
