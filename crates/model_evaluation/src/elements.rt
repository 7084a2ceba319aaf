//! Items of arrays, by their places and by their order, and members of sets.
ghost use Rattle.std.specs.Prelude.{◌≡◌, IsTrue, pos, ◌+ℤ◌, ◌≤ℤ◌, slice_get};
ghost use Rattle.model_evaluation.specs.Evaluation.{given, item_values, are_readable, is_some_item};
ghost use Rattle.qc_model.specs.Holds.{holds_as, item_is, is_least as is_least_of, is_greatest as is_greatest_of};
ghost use Rattle.qc_model.specs.Meaning.{element as Element, variable_element as VariableElement, minimum as Minimum, maximum as Maximum, member as Member};

use crate::reading::{is_member, items_at, numbers_at, one_value, value_of};
use qc_model::{Arg, Argument};

/// The place counted from 0.
fn from_zero(place: i64) -> usize
    requires { pos 1 ≤ℤ place }
    ensures { place ≡ pos 1 +ℤ pos result }
{
    (place - 1) as usize
}

fn number_at_is(numbers: &[i64], k: usize, number: i64) -> bool
    ensures { result ≡ is_some_item number (slice_get numbers.now k) }
{
    match numbers.get(k) {
        Some(item) => *item == number,
        None => false,
    }
}

/// Whether the number at the place, counted from 1, is this one.
fn number_is(numbers: &[i64], place: i64, number: i64) -> bool
    ensures { result ≡ item_is (pos 1) place numbers.now number }
{
    if place < 1 {
        return false;
    }
    number_at_is(numbers, from_zero(place), number)
}

fn value_at_is(items: &[Arg], values: &[i64], k: usize, number: i64) -> bool
    ensures { result ≡ is_some_item number (slice_get (item_values values.now items.now) k) }
{
    match items.get(k) {
        Some(item) => value_of(item, values) == number,
        None => false,
    }
}

/// Whether the value of the item at the place, counted from 1, is this number.
fn value_is(items: &[Arg], values: &[i64], place: i64, number: i64) -> bool
    ensures { result ≡ item_is (pos 1) place (item_values values.now items.now) number }
{
    if place < 1 {
        return false;
    }
    value_at_is(items, values, from_zero(place), number)
}

pub(crate) fn element(args: &[Argument], values: &[i64]) -> bool
    requires { IsTrue (are_readable values.now args.now) }
    ensures { result ≡ holds_as Element (given values.now args.now) }
{
    let place = one_value(args, 0, values);
    let number = one_value(args, 2, values);
    number_is(numbers_at(args, 1, values), place, number)
}

pub(crate) fn variable_element(args: &[Argument], values: &[i64]) -> bool
    requires { IsTrue (are_readable values.now args.now) }
    ensures { result ≡ holds_as VariableElement (given values.now args.now) }
{
    let place = one_value(args, 0, values);
    let number = one_value(args, 2, values);
    value_is(items_at(args, 1, values), values, place, number)
}

/// Whether the number is an item's value, and no value is less.
fn is_least(items: &[Arg], values: &[i64], least: i64) -> bool
    ensures { result ≡ is_least_of least (item_values values.now items.now) }
{
    let mut reached = false;
    for item in items {
        let value = value_of(item, values);
        if value < least {
            return false;
        }
        reached = reached || value == least;
    }
    reached
}

/// Whether the number is an item's value, and no value is greater.
fn is_greatest(items: &[Arg], values: &[i64], greatest: i64) -> bool
    ensures { result ≡ is_greatest_of greatest (item_values values.now items.now) }
{
    let mut reached = false;
    for item in items {
        let value = value_of(item, values);
        if value > greatest {
            return false;
        }
        reached = reached || value == greatest;
    }
    reached
}

pub(crate) fn minimum(args: &[Argument], values: &[i64]) -> bool
    requires { IsTrue (are_readable values.now args.now) }
    ensures { result ≡ holds_as Minimum (given values.now args.now) }
{
    let least = one_value(args, 0, values);
    is_least(items_at(args, 1, values), values, least)
}

pub(crate) fn maximum(args: &[Argument], values: &[i64]) -> bool
    requires { IsTrue (are_readable values.now args.now) }
    ensures { result ≡ holds_as Maximum (given values.now args.now) }
{
    let greatest = one_value(args, 0, values);
    is_greatest(items_at(args, 1, values), values, greatest)
}

pub(crate) fn member(args: &[Argument], values: &[i64]) -> bool
    requires { IsTrue (are_readable values.now args.now) }
    ensures { result ≡ holds_as Member (given values.now args.now) }
{
    let number = one_value(args, 0, values);
    is_member(args, 1, number, values)
}
