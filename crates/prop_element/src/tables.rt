//! What is taken where items are to be a row of a table.
ghost use Rattle.std.specs.Prelude.{◌≡◌, ◌<◌, ℤ, List, [], ◌∷◌, IsTrue, IfNone, IfSome, length, map};
ghost use Rattle.std.specs.List.{list_all};
ghost use Rattle.qc_model.specs.Closed.{keeps_ends};
ghost use Rattle.qc_model.specs.Domains.{Values, has_value, is_within};
ghost use Rattle.qc_model.specs.Holds.{rows};
ghost use Rattle.qc_model.specs.Left.{row_fits};
ghost use Rattle.qc_model.specs.Refuted.{left_to};
ghost use Rattle.model_arguments.specs.Asked.{IsAsked};
ghost use Rattle.qc_refuter.specs.Met.{is_open};
ghost use Rattle.prop_base.specs.Closed.{IsCut, keeps_arg};
ghost use Rattle.prop_element.specs.Tables.{IsTable, IsTableRule, IsFitting, NoRow, NoneIs, IsNext, IsLowestRow, IsHighestRow, has_entry, fits_beyond};

use crate::hulls::{any_cut, arg_cut};
use fd_store::Store;
use model_arguments::{arguments, items_at, numbers_at};
use prop_base::Cut;
use prop_compare::{greatest, has, is_fixed, least};
use qc_model::{Arg, Constraint, Problem};

// Whether each entry of the row is left.
fn is_row(items: &[Arg], row: &[i64], store: &Store) -> bool
    requires items { IsTrue (list_all (is_open store.now.box) items.now) }
    requires width { length items.now ≡ length row.now }
    ensures { result ≡ row_fits (map (left_to store.now.box) items.now) row.now }
{
    for k in 0..items.len() {
        if !has(items[k], row[k], store) {
            return false;
        }
    }
    true
}

// Whether the number is from one to another.
fn is_from(n: i64, from: i64, to: i64) -> bool
    ensures { result ≡ is_within from to n }
{
    from <= n && n <= to
}

// Whether each entry of the row is left, and the one at place k isn't from low to high.
fn is_wanted(items: &[Arg], row: &[i64], k: usize, low: i64, high: i64, store: &Store) -> bool
    requires items { IsTrue (list_all (is_open store.now.box) items.now) }
    requires place { k < length items.now }
    requires width { length items.now ≡ length row.now }
    ensures { result ≡ fits_beyond (map (left_to store.now.box) items.now) k low high row.now }
{
    if is_from(row[k], low, high) {
        return false;
    }
    is_row(items, row, store)
}

// The first row whose entry at place k is from one number to another, and the numbers after it.
fn next_within<'a>(
    numbers: &'a [i64],
    width: usize,
    k: usize,
    from: i64,
    to: i64,
) -> Option<(&'a [i64], &'a [i64])>
    requires { k < width }
    ensures none { IfNone result (NoneIs (has_entry k from to) (rows width numbers.now)) }
    ensures some { IfSome result (λ found. IsNext (has_entry k from to) (rows width numbers.now) found.0.now (rows width found.1.now)) }
    ensures width { IfSome result (λ found. length found.0.now ≡ width) }
    ensures fewer { IfSome result (λ found. length found.1.now < length numbers.now) }
{
    let mut rest = numbers;
    while width <= rest.len() {
        let (row, later) = rest.split_at(width);
        if is_from(row[k], from, to) {
            return Some((row, later));
        }
        rest = later;
    }
    None
}

// Whether no value beyond the numbers from low to high is left to the item.
fn is_spanned(item: Arg, low: i64, high: i64, store: &Store) -> bool
    requires { IsTrue (is_open store.now.box item) }
    ensures { IsTrue result → (v : ℤ) → IsTrue (has_value (left_to store.now.box item) v) → IsTrue (is_within low high v) }
{
    if low <= least(item, store) {
        return greatest(item, store) <= high;
    }
    false
}

// The first row that fits and whose entry at place k isn't from low to high, and the numbers after it. A row whose entry at
// the place `key` lies outside what its item has left is passed over without a look at the others.
fn next_row<'a>(
    items: &[Arg],
    numbers: &'a [i64],
    key: usize,
    k: usize,
    low: i64,
    high: i64,
    store: &Store,
) -> Option<(&'a [i64], &'a [i64])>
    requires items { IsTrue (list_all (is_open store.now.box) items.now) }
    requires key { key < length items.now }
    requires place { k < length items.now }
    ensures none { IfNone result (NoneIs (fits_beyond (map (left_to store.now.box) items.now) k low high) (rows (length items.now) numbers.now)) }
    ensures some { IfSome result (λ found. IsNext (fits_beyond (map (left_to store.now.box) items.now) k low high) (rows (length items.now) numbers.now) found.0.now (rows (length items.now) found.1.now)) }
    ensures width { IfSome result (λ found. length found.0.now ≡ length items.now) }
    ensures fewer { IfSome result (λ found. length found.1.now < length numbers.now) }
{
    if is_spanned(items[k], low, high, store) {
        return None;
    }
    let width = items.len();
    let from = least(items[key], store);
    let to = greatest(items[key], store);
    let mut rest = numbers;
    while let Some((row, later)) = next_within(rest, width, key, from, to) {
        if is_wanted(items, row, k, low, high, store) {
            return Some((row, later));
        }
        rest = later;
    }
    None
}

// The row, where it has a lesser entry at place k than the other.
fn lower_row<'a>(best: &'a [i64], row: &'a [i64], k: usize) -> &'a [i64]
    requires place { k < length best.now }
    requires width { length row.now ≡ length best.now }
    ensures width { length result.now ≡ length best.now }
    ensures lower { (ds : List Values) (rs rest : List (List ℤ)) → IsFitting ds rs row.now → IsLowestRow ds rs k best.now (row.now ∷ rest) → IsLowestRow ds rs k result.now rest }
{
    if best[k] <= row[k] {
        return best;
    }
    row
}

// The row, where it has a greater entry at place k than the other.
fn higher_row<'a>(best: &'a [i64], row: &'a [i64], k: usize) -> &'a [i64]
    requires place { k < length best.now }
    requires width { length row.now ≡ length best.now }
    ensures width { length result.now ≡ length best.now }
    ensures higher { (ds : List Values) (rs rest : List (List ℤ)) → IsFitting ds rs row.now → IsHighestRow ds rs k best.now (row.now ∷ rest) → IsHighestRow ds rs k result.now rest }
{
    if row[k] <= best[k] {
        return best;
    }
    row
}

// Of the first row, which fits, and the others that do, one with the least entry at place k, and one with the greatest.
fn end_rows<'a>(
    first: &'a [i64],
    numbers: &'a [i64],
    items: &[Arg],
    key: usize,
    k: usize,
    store: &Store,
) -> (&'a [i64], &'a [i64])
    requires items { IsTrue (list_all (is_open store.now.box) items.now) }
    requires key { key < length items.now }
    requires place { k < length items.now }
    requires width { length first.now ≡ length items.now }
    requires fits { IsTrue (row_fits (map (left_to store.now.box) items.now) first.now) }
    ensures low_width { length result.0.now ≡ length items.now }
    ensures high_width { length result.1.now ≡ length items.now }
    ensures lowest { IsLowestRow (map (left_to store.now.box) items.now) (first.now ∷ rows (length items.now) numbers.now) k result.0.now [] }
    ensures highest { IsHighestRow (map (left_to store.now.box) items.now) (first.now ∷ rows (length items.now) numbers.now) k result.1.now [] }
{
    let mut low = first;
    let mut high = first;
    let mut rest = numbers;
    while let Some((row, later)) = next_row(items, rest, key, k, low[k], high[k], store) {
        low = lower_row(low, row, k);
        high = higher_row(high, row, k);
        rest = later;
    }
    (low, high)
}

// The first row that fits, and the numbers after it. No number is from 1 to 0.
fn first_row<'a>(
    items: &[Arg],
    numbers: &'a [i64],
    key: usize,
    store: &Store,
) -> Option<(&'a [i64], &'a [i64])>
    requires items { IsTrue (list_all (is_open store.now.box) items.now) }
    requires key { key < length items.now }
    ensures none { IfNone result (NoRow (map (left_to store.now.box) items.now) (rows (length items.now) numbers.now)) }
    ensures some { IfSome result (λ found. IsNext (row_fits (map (left_to store.now.box) items.now)) (rows (length items.now) numbers.now) found.0.now (rows (length items.now) found.1.now)) }
    ensures width { IfSome result (λ found. length found.0.now ≡ length items.now) }
{
    next_row(items, numbers, key, key, 1, 0, store)
}

// The place of the first item that has one value left; the first place, where there is none. Few rows have that value there.
fn key_place(items: &[Arg], store: &Store) -> usize
    requires items { IsTrue (list_all (is_open store.now.box) items.now) }
    requires some { 0 < length items.now }
    ensures { result < length items.now }
{
    for k in 0..items.len() {
        if is_fixed(items[k], store) {
            return k;
        }
    }
    0
}

// What some variable can't keep. The rows are walked through for each, but none before the first that fits, and where one
// has each end of what it has left, no further.
fn columns_cut(
    problem: &Problem,
    rule: &Constraint,
    items: &[Arg],
    numbers: &[i64],
    store: &Store,
) -> Option<Cut>
    requires asked { IsAsked problem.now rule.now store.now.box }
    requires items { IsTrue (list_all (is_open store.now.box) items.now) }
    requires table { IsTable rule.now items.now (rows (length items.now) numbers.now) }
    ensures none { IfNone result (IsTrue (list_all (keeps_arg rule.now store.now.box) items.now)) }
    ensures some { IfSome result (λ cut. IsCut rule.now store.now.box cut) }
{
    if items.is_empty() {
        return None;
    }
    let key = key_place(items, store);
    let Some((first, later)) = first_row(items, numbers, key, store) else {
        return any_cut(problem, rule, items[0], items, store);
    };
    for k in 0..items.len() {
        let (low, high) = end_rows(first, later, items, key, k, store);
        let item = items[k];
        if let Some(cut) = arg_cut(rule, item, low[k], high[k], store) {
            return Some(cut);
        }
    }
    None
}

/// What a constraint that its items are a row of its table takes next. No variable stands twice.
pub(crate) fn table_cut(problem: &Problem, rule: &Constraint, store: &Store) -> Option<Cut>
    requires table { IsTableRule rule.now }
    requires asked { IsAsked problem.now rule.now store.now.box }
    ensures none { IfNone result (IsTrue (keeps_ends store.now.box rule.now)) }
    ensures some { IfSome result (λ cut. IsCut rule.now store.now.box cut) }
{
    problem.known();
    let args = arguments(rule);
    let items = items_at(args, 0);
    let numbers = numbers_at(args, 1);
    columns_cut(problem, rule, items, numbers, store)
}
