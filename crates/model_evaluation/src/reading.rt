//! What the arguments of a constraint are worth, by their place. One of another kind counts as 0 or
//! as empty.
ghost use Rattle.std.specs.Prelude.{◌≡◌, ◌≤◌, IsTrue, length, unsigned_abs};
ghost use Rattle.std.specs.List.{list_all};
ghost use Rattle.model_evaluation.specs.Evaluation.{given, item_values, are_readable};
ghost use Rattle.qc_model.specs.Arguments.{members as members_in, numbers as numbers_in};
ghost use Rattle.qc_model.specs.Domains.{set_has};
ghost use Rattle.qc_model.specs.Holds.{arg_value, value_at, values_at, last_value as last_value_of};
ghost use Rattle.qc_model.specs.Valid.{is_number};

use model_arguments::{contains, last_one, members_at, one_at};
use qc_model::{Arg, Argument};

/// The value of a variable or of a number; a variable without a value counts as 0.
pub(crate) fn value_of(arg: &Arg, values: &[i64]) -> i64
    ensures { result ≡ arg_value values.now arg.now }
{
    match arg {
        Arg::Var(x) => values.get(x.0 as usize).copied().unwrap_or(0),
        Arg::Num(n) => *n,
    }
}

pub(crate) fn one_value(args: &[Argument], place: usize, values: &[i64]) -> i64
    ensures { result ≡ value_at (given values.now args.now) place }
{
    value_of(&one_at(args, place), values)
}

/// A value that is known to be within the number limit.
pub(crate) fn small_value(args: &[Argument], place: usize, values: &[i64]) -> i64
    requires { IsTrue (are_readable values.now args.now) }
    ensures value { result ≡ value_at (given values.now args.now) place }
    ensures small { unsigned_abs result ≤ 1000000000 }
{
    value_of(&one_at(args, place), values)
}

pub(crate) fn last_value(args: &[Argument], values: &[i64]) -> i64
    ensures { result ≡ last_value_of (given values.now args.now) }
{
    value_of(&last_one(args), values)
}

/// The items of an array that may hold variables.
pub(crate) fn items_at<'a>(args: &'a [Argument], place: usize, values: &[i64]) -> &'a [Arg]
    requires { IsTrue (are_readable values.now args.now) }
    ensures items { item_values values.now result.now ≡ values_at (given values.now args.now) place }
    ensures few { length result.now ≤ 1000 }
    ensures small { IsTrue (list_all is_number (item_values values.now result.now)) }
{
    model_arguments::items_at(args, place)
}

pub(crate) fn numbers_at<'a>(args: &'a [Argument], place: usize, values: &[i64]) -> &'a [i64]
    requires { IsTrue (are_readable values.now args.now) }
    ensures items { result.now ≡ numbers_in (given values.now args.now) place }
    ensures small { IsTrue (list_all is_number result.now) }
{
    model_arguments::numbers_at(args, place)
}

pub(crate) fn is_member(args: &[Argument], place: usize, number: i64, values: &[i64]) -> bool
    requires { IsTrue (are_readable values.now args.now) }
    ensures { result ≡ set_has (members_in (given values.now args.now) place) number }
{
    match members_at(args, place) {
        Some(set) => contains(set, number),
        None => false,
    }
}
