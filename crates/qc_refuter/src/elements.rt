//! Items of arrays by their places, and rows of tables.
ghost use Rattle.std.specs.Prelude.{◌≡◌, ◌≤◌, ◌<◌, ◌+◌, ◌&&◌, ℕ, not, IsTrue, IsFalse, length, map, pos};
ghost use Rattle.std.specs.List.{list_any, list_all};
ghost use Rattle.qc_model.specs.Domains.{has_value, misses};
ghost use Rattle.qc_model.specs.Holds.{rows};
ghost use Rattle.qc_model.specs.Left.{some_item_in, some_item_meets, row_fits};
ghost use Rattle.qc_model.specs.Meaning.{element as Element, variable_element as VariableElement, table as Table};
ghost use Rattle.qc_model.specs.Refuted.{left_to, refuted_as};
ghost use Rattle.qc_refuter.specs.Met.{seen, lefts, are_met, is_open};

use crate::common::meet;
use crate::reading::{arg_met, items_met, numbers_met};
use crate::shown::View;
use crate::view::{greatest, has, least};
use qc_model::{Arg, Argument};

// The first of so many places, counted from 0, that b may name, whose numbers count from 1.
fn first_place(b: Arg, count: usize, view: &View) -> usize
    requires b { IsTrue (is_open (seen view.now) b) }
    ensures most { result ≤ count }
    ensures missed { (j : ℕ) → j < result → IsFalse (has_value (left_to (seen view.now) b) (pos (j + 1))) }
{
    let low = least(b, view);
    if low <= 1 {
        return 0;
    }
    count.min(low as usize - 1)
}

// The place past the last that b may name.
fn end_place(b: Arg, count: usize, view: &View) -> usize
    requires b { IsTrue (is_open (seen view.now) b) }
    ensures most { result ≤ count }
    ensures missed { (j : ℕ) → result ≤ j → j < count → IsFalse (has_value (left_to (seen view.now) b) (pos (j + 1))) }
{
    let high = greatest(b, view);
    if high <= 0 {
        return 0;
    }
    count.min(high as usize)
}

// Whether the place and the item both are left.
fn place_fits(b: Arg, k: usize, c: Arg, number: i64, view: &View) -> bool
    requires k { k < 4611686018427387904 }
    requires b { IsTrue (is_open (seen view.now) b) }
    requires c { IsTrue (is_open (seen view.now) c) }
    ensures { result ≡ (has_value (left_to (seen view.now) b) (pos (k + 1)) && has_value (left_to (seen view.now) c) number) }
{
    has(b, k as i64 + 1, view) && has(c, number, view)
}

// Whether some number of the array is left to c, and its place, counted from 1, to b.
fn some_number(b: Arg, numbers: &[i64], c: Arg, view: &View) -> bool
    requires b { IsTrue (is_open (seen view.now) b) }
    requires c { IsTrue (is_open (seen view.now) c) }
    ensures { result ≡ some_item_in (pos 1) (left_to (seen view.now) b) numbers.now (left_to (seen view.now) c) }
{
    for k in first_place(b, numbers.len(), view)..end_place(b, numbers.len(), view) {
        if place_fits(b, k, c, numbers[k], view) {
            return true;
        }
    }
    false
}

pub(crate) fn element_refuted(args: &[Argument], view: &View) -> bool
    requires { IsTrue (are_met (seen view.now) args.now) }
    ensures { result ≡ refuted_as Element (lefts (seen view.now) args.now) }
{
    let b = arg_met(args, 0, view);
    let c = arg_met(args, 2, view);
    !some_number(b, numbers_met(args, 1, view), c, view)
}

// Whether the place is left, and the item and c have a value in common.
fn place_meets(b: Arg, place: i64, item: Arg, c: Arg, view: &View) -> bool
    requires b { IsTrue (is_open (seen view.now) b) }
    requires item { IsTrue (is_open (seen view.now) item) }
    requires c { IsTrue (is_open (seen view.now) c) }
    ensures { result ≡ (has_value (left_to (seen view.now) b) place && not (misses (left_to (seen view.now) item) (left_to (seen view.now) c))) }
{
    has(b, place, view) && meet(item, c, view)
}

// Whether some item of the array has a value in common with c, and its place, counted from 1, is left to b.
fn some_item(b: Arg, items: &[Arg], c: Arg, view: &View) -> bool
    requires b { IsTrue (is_open (seen view.now) b) }
    requires items { IsTrue (list_all (is_open (seen view.now)) items.now) }
    requires c { IsTrue (is_open (seen view.now) c) }
    ensures { result ≡ some_item_meets (pos 1) (left_to (seen view.now) b) (map (left_to (seen view.now)) items.now) (left_to (seen view.now) c) }
{
    for k in first_place(b, items.len(), view)..end_place(b, items.len(), view) {
        if place_meets(b, k as i64 + 1, items[k], c, view) {
            return true;
        }
    }
    false
}

pub(crate) fn variable_element_refuted(args: &[Argument], view: &View) -> bool
    requires { IsTrue (are_met (seen view.now) args.now) }
    ensures { result ≡ refuted_as VariableElement (lefts (seen view.now) args.now) }
{
    let b = arg_met(args, 0, view);
    let c = arg_met(args, 2, view);
    !some_item(b, items_met(args, 1, view), c, view)
}

fn is_row(items: &[Arg], row: &[i64], view: &View) -> bool
    requires items { IsTrue (list_all (is_open (seen view.now)) items.now) }
    requires width { length items.now ≡ length row.now }
    ensures { result ≡ row_fits (map (left_to (seen view.now)) items.now) row.now }
{
    for k in 0..items.len() {
        if !has(items[k], row[k], view) {
            return false;
        }
    }
    true
}

// Whether some row has each of its numbers left; rows of no numbers are none.
fn has_row(items: &[Arg], numbers: &[i64], view: &View) -> bool
    requires { IsTrue (list_all (is_open (seen view.now)) items.now) }
    ensures { result ≡ list_any (row_fits (map (left_to (seen view.now)) items.now)) (rows (length (map (left_to (seen view.now)) items.now)) numbers.now) }
{
    let width = items.len();
    if width == 0 {
        return false;
    }
    let mut rest = numbers;
    while width <= rest.len() {
        let (row, later) = rest.split_at(width);
        if is_row(items, row, view) {
            return true;
        }
        rest = later;
    }
    false
}

pub(crate) fn table_refuted(args: &[Argument], view: &View) -> bool
    requires { IsTrue (are_met (seen view.now) args.now) }
    ensures { result ≡ refuted_as Table (lefts (seen view.now) args.now) }
{
    !has_row(items_met(args, 0, view), numbers_met(args, 1, view), view)
}
