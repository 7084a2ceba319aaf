//! Arrays of values that are one of the rows of a table.
ghost use Rattle.std.specs.Prelude.{◌≡◌, IsTrue, length};
ghost use Rattle.std.specs.List.{list_any};
ghost use Rattle.model_evaluation.specs.Evaluation.{given, item_values, are_readable};
ghost use Rattle.qc_model.specs.Holds.{holds_as, rows};
ghost use Rattle.qc_model.specs.Lists.{same_values};
ghost use Rattle.qc_model.specs.Meaning.{table as Table};

use crate::reading::{items_at, numbers_at, value_of};
use qc_model::{Arg, Argument};

fn is_row(items: &[Arg], values: &[i64], row: &[i64]) -> bool
    requires { length items.now ≡ length row.now }
    ensures { result ≡ same_values (item_values values.now items.now) row.now }
{
    for k in 0..items.len() {
        if value_of(&items[k], values) != row[k] {
            return false;
        }
    }
    true
}

/// Whether the values are one of the rows; rows of no numbers are none.
fn has_row(items: &[Arg], values: &[i64], numbers: &[i64]) -> bool
    ensures { result ≡ list_any (same_values (item_values values.now items.now)) (rows (length (item_values values.now items.now)) numbers.now) }
{
    let width = items.len();
    if width == 0 {
        return false;
    }
    let mut rest = numbers;
    while width <= rest.len() {
        let (row, later) = rest.split_at(width);
        if is_row(items, values, row) {
            return true;
        }
        rest = later;
    }
    false
}

pub(crate) fn table(args: &[Argument], values: &[i64]) -> bool
    requires { IsTrue (are_readable values.now args.now) }
    ensures { result ≡ holds_as Table (given values.now args.now) }
{
    let numbers = numbers_at(args, 1, values);
    has_row(items_at(args, 0, values), values, numbers)
}
