//! What is taken where an item, variable or number, is to stand at a place of an array.
//!
//! The place keeps the numbers from the first place that fits to the last: one that is left, and whose item has a value in
//! common with the result. The result keeps what it has in common with items at such places, from the least to the
//! greatest. While two places fit, no item loses anything; where one does, its item is to equal the result.
ghost use Rattle.std.specs.Prelude.{◌≡◌, ◌<◌, ◌≤◌, ◌∷◌, IsTrue, IsFalse, IfNone, IfSome, length};
ghost use Rattle.std.specs.List.{list_all};
ghost use Rattle.qc_model.specs.Closed.{keeps_ends};
ghost use Rattle.model_arguments.specs.Asked.{IsAsked};
ghost use Rattle.model_arguments.specs.Repeats.{has_repeat};
ghost use Rattle.model_arguments.specs.Written.{arg_at, args_at};
ghost use Rattle.qc_refuter.specs.Met.{is_open};
ghost use Rattle.qc_model.specs.Domains.{misses};
ghost use Rattle.qc_model.specs.Refuted.{left_to};
ghost use Rattle.qc_refuter.specs.Commons.{IsLeastCommon};
ghost use Rattle.prop_base.specs.Closed.{IsCut, keeps_arg};
ghost use Rattle.prop_element.specs.Extremes.{item_at};
ghost use Rattle.prop_element.specs.Choices.{IsChoice, IsChoiceRule, item_fits, IsFirstItem, IsLastItem, NoItem, IsLeastMet, IsMetSomewhere, IsLowestMet, IsHighestMet, IsLowerMet, IsHigherMet};

use crate::elements::{counted, places_before, places_up_to};
use crate::hulls::{any_cut, arg_cut, whole_cut};
use fd_store::Store;
use model_arguments::{arguments, is_among, is_repeated, is_same, items_at, one_at};
use prop_base::Cut;
use prop_compare::{greatest, greatest_common, has, least, least_common};
use qc_model::{Arg, Constraint, Problem};

/// A place, counted from 0, and the least value that its item has in common with the result.
#[derive(Clone, Copy)]
struct Met {
    place: usize,
    least: i64,
}

// The least value left to both, which most often is the least of the item.
#[inline(always)]
fn least_of_both(item: Arg, r: Arg, store: &Store) -> Option<i64>
    requires item { IsTrue (is_open store.now.box item) }
    requires last { IsTrue (is_open store.now.box r) }
    ensures none { IfNone result (IsTrue (misses (left_to store.now.box item) (left_to store.now.box r))) }
    ensures some { IfSome result (λ v. IsLeastCommon (left_to store.now.box item) (left_to store.now.box r) v) }
{
    let v = least(item, store);
    if has(r, v, store) {
        return Some(v);
    }
    least_common(item, r, store)
}

// The least value that r has in common with the item at place k, where that place, counted from 0, is left.
#[inline(always)]
fn met_at(a: Arg, items: &[Arg], r: Arg, k: usize, store: &Store) -> Option<i64>
    requires place { k < length items.now }
    requires few { length items.now ≤ 1000 }
    requires first { IsTrue (is_open store.now.box a) }
    requires items { IsTrue (list_all (is_open store.now.box) items.now) }
    requires last { IsTrue (is_open store.now.box r) }
    ensures none { IfNone result (IsFalse (item_fits store.now.box a items.now r k)) }
    ensures some { IfSome result (λ v. IsLeastMet store.now.box a items.now r k v) }
{
    if !has(a, counted(k), store) {
        return None;
    }
    least_of_both(items[k], r, store)
}

// Whether place k is left, and its item has a value in common with r.
fn fits(a: Arg, items: &[Arg], r: Arg, k: usize, store: &Store) -> bool
    requires place { k < length items.now }
    requires few { length items.now ≤ 1000 }
    requires first { IsTrue (is_open store.now.box a) }
    requires items { IsTrue (list_all (is_open store.now.box) items.now) }
    requires last { IsTrue (is_open store.now.box r) }
    ensures { result ≡ item_fits store.now.box a items.now r k }
{
    met_at(a, items, r, k, store).is_some()
}

fn first_item(a: Arg, items: &[Arg], r: Arg, store: &Store) -> Option<Met>
    requires few { length items.now ≤ 1000 }
    requires first { IsTrue (is_open store.now.box a) }
    requires items { IsTrue (list_all (is_open store.now.box) items.now) }
    requires last { IsTrue (is_open store.now.box r) }
    ensures none { IfNone result (NoItem store.now.box a items.now r) }
    ensures first { IfSome result (λ met. IsFirstItem store.now.box a items.now r met.place) }
    ensures least { IfSome result (λ met. IsLeastCommon (left_to store.now.box (item_at items.now met.place)) (left_to store.now.box r) met.least) }
{
    let from = places_before(a, store);
    let until = places_up_to(a, items.len(), store);
    for k in from..until {
        if let Some(v) = met_at(a, items, r, k, store) {
            return Some(Met { place: k, least: v });
        }
    }
    None
}

// The walk back ends at the first place that fits.
fn last_item(a: Arg, items: &[Arg], r: Arg, start: usize, store: &Store) -> usize
    requires few { length items.now ≤ 1000 }
    requires first { IsTrue (is_open store.now.box a) }
    requires items { IsTrue (list_all (is_open store.now.box) items.now) }
    requires last { IsTrue (is_open store.now.box r) }
    requires start { IsFirstItem store.now.box a items.now r start }
    ensures { IsLastItem store.now.box a items.now r result }
{
    let mut k = places_up_to(a, items.len(), store);
    while k > start + 1 {
        k -= 1;
        if fits(a, items, r, k, store) {
            return k;
        }
    }
    start
}

// The least value that r has in common with the item at place k, where that place is left and the value less than the
// best one; the best one otherwise.
fn lower_met(a: Arg, items: &[Arg], r: Arg, best: i64, k: usize, store: &Store) -> i64
    requires place { k < length items.now }
    requires few { length items.now ≤ 1000 }
    requires best { IsMetSomewhere store.now.box a items.now r best }
    requires first { IsTrue (is_open store.now.box a) }
    requires items { IsTrue (list_all (is_open store.now.box) items.now) }
    requires last { IsTrue (is_open store.now.box r) }
    ensures { IsLowerMet store.now.box a items.now r best k result }
{
    if best <= least(items[k], store) {
        return best;
    }
    let Some(v) = met_at(a, items, r, k, store) else {
        return best;
    };
    if v < best { v } else { best }
}

// The greatest one likewise.
fn higher_met(a: Arg, items: &[Arg], r: Arg, best: i64, k: usize, store: &Store) -> i64
    requires place { k < length items.now }
    requires few { length items.now ≤ 1000 }
    requires best { IsMetSomewhere store.now.box a items.now r best }
    requires first { IsTrue (is_open store.now.box a) }
    requires items { IsTrue (list_all (is_open store.now.box) items.now) }
    requires last { IsTrue (is_open store.now.box r) }
    ensures { IsHigherMet store.now.box a items.now r best k result }
{
    if greatest(items[k], store) <= best {
        return best;
    }
    if !has(a, counted(k), store) {
        return best;
    }
    let Some(v) = greatest_common(items[k], r, store) else {
        return best;
    };
    if best < v { v } else { best }
}

// The least value that r has in common with an item whose place is left, from the one that it has in common with the
// first. The walk stops where none can be less.
fn lowest_met(
    a: Arg,
    items: &[Arg],
    r: Arg,
    start: usize,
    end: usize,
    some: i64,
    store: &Store,
) -> i64
    requires few { length items.now ≤ 1000 }
    requires start { IsFirstItem store.now.box a items.now r start }
    requires end { IsLastItem store.now.box a items.now r end }
    requires some { IsLeastCommon (left_to store.now.box (item_at items.now start)) (left_to store.now.box r) some }
    requires first { IsTrue (is_open store.now.box a) }
    requires items { IsTrue (list_all (is_open store.now.box) items.now) }
    requires last { IsTrue (is_open store.now.box r) }
    ensures { IsLowestMet store.now.box a items.now r result }
{
    let low = least(r, store);
    let mut best = some;
    for k in start + 1..end + 1 {
        if best <= low {
            return best;
        }
        best = lower_met(a, items, r, best, k, store);
    }
    best
}

fn highest_met(
    a: Arg,
    items: &[Arg],
    r: Arg,
    start: usize,
    end: usize,
    some: i64,
    store: &Store,
) -> i64
    requires few { length items.now ≤ 1000 }
    requires start { IsFirstItem store.now.box a items.now r start }
    requires end { IsLastItem store.now.box a items.now r end }
    requires some { IsMetSomewhere store.now.box a items.now r some }
    requires first { IsTrue (is_open store.now.box a) }
    requires items { IsTrue (list_all (is_open store.now.box) items.now) }
    requires last { IsTrue (is_open store.now.box r) }
    ensures { IsHighestMet store.now.box a items.now r result }
{
    let high = greatest(r, store);
    let mut best = some;
    for k in start..end + 1 {
        if high <= best {
            return best;
        }
        best = higher_met(a, items, r, best, k, store);
    }
    best
}

// No place fits: all values of some variable.
fn unfit_cut(
    problem: &Problem,
    rule: &Constraint,
    a: Arg,
    items: &[Arg],
    r: Arg,
    store: &Store,
) -> Option<Cut>
    requires asked { IsAsked problem.now rule.now store.now.box }
    requires first { IsTrue (is_open store.now.box a) }
    requires items { IsTrue (list_all (is_open store.now.box) items.now) }
    requires last { IsTrue (is_open store.now.box r) }
    requires choice { IsChoice rule.now a items.now r }
    requires unfit { NoItem store.now.box a items.now r }
    ensures none { IfNone result (IsTrue (keeps_ends store.now.box rule.now)) }
    ensures some { IfSome result (λ cut. IsCut rule.now store.now.box cut) }
{
    if let Some(cut) = whole_cut(problem, rule, a, store) {
        return Some(cut);
    }
    any_cut(problem, rule, r, items, store)
}

// What the result can't keep, then what the item can't, where one place alone fits.
fn met_cut(
    rule: &Constraint,
    a: Arg,
    items: &[Arg],
    r: Arg,
    start: usize,
    end: usize,
    some: i64,
    store: &Store,
) -> Option<Cut>
    requires few { length items.now ≤ 1000 }
    requires first { IsTrue (is_open store.now.box a) }
    requires items { IsTrue (list_all (is_open store.now.box) items.now) }
    requires last { IsTrue (is_open store.now.box r) }
    requires choice { IsChoice rule.now a items.now r }
    requires start { IsFirstItem store.now.box a items.now r start }
    requires end { IsLastItem store.now.box a items.now r end }
    requires some { IsLeastCommon (left_to store.now.box (item_at items.now start)) (left_to store.now.box r) some }
    ensures none { IfNone result (IsTrue (keeps_arg rule.now store.now.box r) × IsTrue (list_all (keeps_arg rule.now store.now.box) items.now)) }
    ensures some { IfSome result (λ cut. IsCut rule.now store.now.box cut) }
{
    let low = lowest_met(a, items, r, start, end, some, store);
    let high = highest_met(a, items, r, start, end, some, store);
    if let Some(cut) = arg_cut(rule, r, low, high, store) {
        return Some(cut);
    }
    if start < end {
        return None;
    }
    arg_cut(rule, items[start], low, high, store)
}

// What the place can't keep, then what the others can't.
fn chosen_cut(
    problem: &Problem,
    rule: &Constraint,
    a: Arg,
    items: &[Arg],
    r: Arg,
    store: &Store,
) -> Option<Cut>
    requires asked { IsAsked problem.now rule.now store.now.box }
    requires few { length items.now ≤ 1000 }
    requires first { IsTrue (is_open store.now.box a) }
    requires items { IsTrue (list_all (is_open store.now.box) items.now) }
    requires last { IsTrue (is_open store.now.box r) }
    requires choice { IsChoice rule.now a items.now r }
    ensures none { IfNone result (IsTrue (keeps_ends store.now.box rule.now)) }
    ensures some { IfSome result (λ cut. IsCut rule.now store.now.box cut) }
{
    let Some(first) = first_item(a, items, r, store) else {
        return unfit_cut(problem, rule, a, items, r, store);
    };
    let start = first.place;
    let end = last_item(a, items, r, start, store);
    if let Some(cut) = arg_cut(rule, a, counted(start), counted(end), store) {
        return Some(cut);
    }
    met_cut(rule, a, items, r, start, end, first.least, store)
}

/// What a constraint that its last argument is the item at its first one takes next. No variable stands twice.
pub(crate) fn choice_cut(problem: &Problem, rule: &Constraint, store: &Store) -> Option<Cut>
    requires choice { IsChoiceRule rule.now }
    requires asked { IsAsked problem.now rule.now store.now.box }
    ensures none { IfNone result (IsTrue (keeps_ends store.now.box rule.now)) }
    ensures some { IfSome result (λ cut. IsCut rule.now store.now.box cut) }
{
    problem.known();
    let args = arguments(rule);
    let a = one_at(args, 0);
    let items = items_at(args, 1);
    let r = one_at(args, 2);
    chosen_cut(problem, rule, a, items, r, store)
}

/// Whether a variable stands twice among the place, the items and the result.
pub(crate) fn is_tangled(rule: &Constraint) -> bool
    ensures { result ≡ has_repeat (arg_at rule.now.args 0 ∷ arg_at rule.now.args 2 ∷ args_at rule.now.args 1) }
{
    let args = arguments(rule);
    let a = one_at(args, 0);
    let items = items_at(args, 1);
    let r = one_at(args, 2);
    (is_same(a, r) || is_among(a, items)) || (is_among(r, items) || is_repeated(items))
}
