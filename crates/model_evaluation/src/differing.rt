//! Values that differ from each other. Few values are compared in pairs. More of them are sorted
//! first, in an array on the stack, so that a thousand values take some ten thousand comparisons
//! and not half a million.
ghost use Rattle.std.specs.Prelude.{◌≡◌, ◌≤◌, IsTrue, length};
ghost use Rattle.std.specs.List.{list_any};
ghost use Rattle.std.specs.Ordering.{int_eq};
ghost use Rattle.qc_model.specs.Domains.{is_ascending};
ghost use Rattle.model_evaluation.specs.Evaluation.{given, item_values, are_readable};
ghost use Rattle.qc_model.specs.Holds.{holds_as, all_differ};
ghost use Rattle.qc_model.specs.Meaning.{all_different as AllDifferent};

use crate::reading::{items_at, value_of};
use qc_model::{Arg, Argument};

/// As many items as an array of a constraint can have.
const MOST_ITEMS: usize = 1000;

/// Up to this many items, pairs are compared.
const FEW_ITEMS: usize = 24;

fn some_value_is(items: &[Arg], values: &[i64], number: i64) -> bool
    ensures { result ≡ list_any (int_eq number) (item_values values.now items.now) }
{
    items.iter().any(|item| number == value_of(item, values))
}

fn pairs_differ(items: &[Arg], values: &[i64]) -> bool
    ensures { result ≡ all_differ (item_values values.now items.now) }
{
    let mut rest = items;
    while let Some((item, later)) = rest.split_first() {
        if some_value_is(later, values, value_of(item, values)) {
            return false;
        }
        rest = later;
    }
    true
}

fn write_values(buffer: &mut [i64], items: &[Arg], values: &[i64])
    requires { length items.now ≡ length buffer.old }
    ensures { buffer.new ≡ item_values values.now items.now }
{
    for k in 0..items.len() {
        buffer[k] = value_of(&items[k], values);
    }
}

fn ascends(numbers: &[i64]) -> bool
    ensures { result ≡ is_ascending numbers.now }
{
    let mut rest = numbers;
    while let Some((number, later)) = rest.split_first() {
        if later.len() > 0 && *number >= later[0] {
            return false;
        }
        rest = later;
    }
    true
}

#[inline(never)]
fn sorted_differ(items: &[Arg], values: &[i64]) -> bool
    requires { length items.now ≤ 1000 }
    ensures { result ≡ all_differ (item_values values.now items.now) }
{
    let mut buffer = [0; MOST_ITEMS];
    let part = &mut buffer[..items.len()];
    write_values(part, items, values);
    part.sort_unstable();
    ascends(part)
}

pub(crate) fn all_different(args: &[Argument], values: &[i64]) -> bool
    requires { IsTrue (are_readable values.now args.now) }
    ensures { result ≡ holds_as AllDifferent (given values.now args.now) }
{
    let items = items_at(args, 0, values);
    if items.len() <= FEW_ITEMS {
        pairs_differ(items, values)
    } else {
        sorted_differ(items, values)
    }
}
