//! What is taken where a number is to stand at a place of an array.
ghost use Rattle.std.specs.Prelude.{◌≡◌, ◌<◌, ◌+◌, ◌≤◌, IsTrue, IfNone, IfSome, length, pos, ◌≤ℤ◌};
ghost use Rattle.qc_model.specs.Closed.{keeps_ends};
ghost use Rattle.model_arguments.specs.Written.{arg_at};
ghost use Rattle.qc_model.specs.Refuted.{left_to, refuted_by};
ghost use Rattle.model_arguments.specs.Asked.{IsAsked};
ghost use Rattle.qc_refuter.specs.Met.{is_open};
ghost use Rattle.prop_base.specs.Closed.{IsCut, keeps_arg};
ghost use Rattle.model_arguments.specs.Repeats.{same_variable};
ghost use Rattle.prop_element.specs.Elements.{IsElement, IsElementRule, place_fits, IsFirstPlace, IsLastPlace, NoPlace, NoneBefore, NoneFrom, IsLowerPlace, IsHigherPlace, IsLowestPlace, IsHighestPlace};

use crate::hulls::{arg_cut, whole_cut};
use fd_store::Store;
use model_arguments::{arguments, is_same, numbers_at, one_at};
use prop_base::Cut;
use prop_compare::{greatest, has, least};
use qc_model::{Arg, Constraint, Problem};

// Whether place k, counted from 0, and its number are both left.
fn fits(a: Arg, numbers: &[i64], r: Arg, k: usize, store: &Store) -> bool
    requires place { k < length numbers.now }
    requires first { IsTrue (is_open store.now.box a) }
    requires last { IsTrue (is_open store.now.box r) }
    ensures { result ≡ place_fits (left_to store.now.box a) numbers.now (left_to store.now.box r) k }
{
    has(r, numbers[k], store) && has(a, k as i64 + 1, store)
}

// The place of a number that counts from 1, counted from 0.
fn place_of(number: i64) -> usize
    requires { pos 1 ≤ℤ number }
    ensures { pos (result + 1) ≡ number }
{
    (number - 1) as usize
}

/// How many places stand before the first that is left.
pub(crate) fn places_before(a: Arg, store: &Store) -> usize
    requires { IsTrue (is_open store.now.box a) }
    ensures { NoneBefore (left_to store.now.box a) result }
{
    let first = least(a, store);
    if first < 1 {
        return 0;
    }
    place_of(first)
}

/// How many of so many places stand up to the last that is left.
pub(crate) fn places_up_to(a: Arg, count: usize, store: &Store) -> usize
    requires { IsTrue (is_open store.now.box a) }
    ensures most { result ≤ count }
    ensures none { NoneFrom (left_to store.now.box a) count result }
{
    let last = greatest(a, store);
    if last < 1 {
        return 0;
    }
    let k = place_of(last);
    if k < count { k + 1 } else { count }
}

fn first_place(a: Arg, numbers: &[i64], r: Arg, store: &Store) -> Option<usize>
    requires first { IsTrue (is_open store.now.box a) }
    requires last { IsTrue (is_open store.now.box r) }
    ensures none { IfNone result (NoPlace (left_to store.now.box a) numbers.now (left_to store.now.box r)) }
    ensures some { IfSome result (λ k. IsFirstPlace (left_to store.now.box a) numbers.now (left_to store.now.box r) k) }
{
    let from = places_before(a, store);
    let until = places_up_to(a, numbers.len(), store);
    for k in from..until {
        if fits(a, numbers, r, k, store) {
            return Some(k);
        }
    }
    None
}

// The walk back ends at the first place that fits.
fn last_place(a: Arg, numbers: &[i64], r: Arg, start: usize, store: &Store) -> usize
    requires first { IsTrue (is_open store.now.box a) }
    requires last { IsTrue (is_open store.now.box r) }
    requires start { IsFirstPlace (left_to store.now.box a) numbers.now (left_to store.now.box r) start }
    ensures { IsLastPlace (left_to store.now.box a) numbers.now (left_to store.now.box r) result }
{
    let mut k = places_up_to(a, numbers.len(), store);
    while k > start + 1 {
        k -= 1;
        if fits(a, numbers, r, k, store) {
            return k;
        }
    }
    start
}

// Place k, where it fits and has a number that is less than that of the best place; the best place otherwise.
#[inline(always)]
fn lower_place(a: Arg, numbers: &[i64], r: Arg, best: usize, k: usize, store: &Store) -> usize
    requires place { k < length numbers.now }
    requires best { best < length numbers.now }
    requires fits { IsTrue (place_fits (left_to store.now.box a) numbers.now (left_to store.now.box r) best) }
    requires first { IsTrue (is_open store.now.box a) }
    requires last { IsTrue (is_open store.now.box r) }
    ensures { IsLowerPlace (left_to store.now.box a) numbers.now (left_to store.now.box r) best k result }
{
    if numbers[best] <= numbers[k] {
        return best;
    }
    if fits(a, numbers, r, k, store) {
        return k;
    }
    best
}

// Place k, where it fits and has a number that is greater than that of the best place; the best place otherwise.
#[inline(always)]
fn higher_place(a: Arg, numbers: &[i64], r: Arg, best: usize, k: usize, store: &Store) -> usize
    requires place { k < length numbers.now }
    requires best { best < length numbers.now }
    requires fits { IsTrue (place_fits (left_to store.now.box a) numbers.now (left_to store.now.box r) best) }
    requires first { IsTrue (is_open store.now.box a) }
    requires last { IsTrue (is_open store.now.box r) }
    ensures { IsHigherPlace (left_to store.now.box a) numbers.now (left_to store.now.box r) best k result }
{
    if numbers[k] <= numbers[best] {
        return best;
    }
    if fits(a, numbers, r, k, store) {
        return k;
    }
    best
}

// Of the places that fit, one with the least number. The walk stops where none can be less.
fn lowest_place(a: Arg, numbers: &[i64], r: Arg, start: usize, end: usize, store: &Store) -> usize
    requires first { IsTrue (is_open store.now.box a) }
    requires last { IsTrue (is_open store.now.box r) }
    requires start { IsFirstPlace (left_to store.now.box a) numbers.now (left_to store.now.box r) start }
    requires end { IsLastPlace (left_to store.now.box a) numbers.now (left_to store.now.box r) end }
    ensures { IsLowestPlace (left_to store.now.box a) numbers.now (left_to store.now.box r) result }
{
    let low = least(r, store);
    let mut best = lower_place(a, numbers, r, start, end, store);
    for k in start..end {
        if numbers[best] <= low {
            return best;
        }
        best = lower_place(a, numbers, r, best, k, store);
    }
    best
}

fn highest_place(a: Arg, numbers: &[i64], r: Arg, start: usize, end: usize, store: &Store) -> usize
    requires first { IsTrue (is_open store.now.box a) }
    requires last { IsTrue (is_open store.now.box r) }
    requires start { IsFirstPlace (left_to store.now.box a) numbers.now (left_to store.now.box r) start }
    requires end { IsLastPlace (left_to store.now.box a) numbers.now (left_to store.now.box r) end }
    ensures { IsHighestPlace (left_to store.now.box a) numbers.now (left_to store.now.box r) result }
{
    let high = greatest(r, store);
    let mut best = higher_place(a, numbers, r, start, end, store);
    for k in start..end {
        if high <= numbers[best] {
            return best;
        }
        best = higher_place(a, numbers, r, best, k, store);
    }
    best
}

/// The number of a place, counted from 1.
pub(crate) fn counted(k: usize) -> i64
    requires { k < 1000000 }
    ensures { result ≡ pos (k + 1) }
{
    k as i64 + 1
}

// All values of the place, or else of the number.
fn either_cut(problem: &Problem, rule: &Constraint, a: Arg, r: Arg, store: &Store) -> Option<Cut>
    requires asked { IsAsked problem.now rule.now store.now.box }
    requires first { IsTrue (is_open store.now.box a) }
    requires last { IsTrue (is_open store.now.box r) }
    requires refuted { IsTrue (refuted_by rule.now store.now.box) }
    ensures none { IfNone result (IsTrue (keeps_arg rule.now store.now.box a) × IsTrue (keeps_arg rule.now store.now.box r)) }
    ensures some { IfSome result (λ cut. IsCut rule.now store.now.box cut) }
{
    if let Some(cut) = whole_cut(problem, rule, a, store) {
        return Some(cut);
    }
    whole_cut(problem, rule, r, store)
}

// What the place can't keep, then what the number can't.
fn placed_cut(
    problem: &Problem,
    rule: &Constraint,
    a: Arg,
    numbers: &[i64],
    r: Arg,
    store: &Store,
) -> Option<Cut>
    requires asked { IsAsked problem.now rule.now store.now.box }
    requires first { IsTrue (is_open store.now.box a) }
    requires last { IsTrue (is_open store.now.box r) }
    requires few { length numbers.now ≤ 100000 }
    requires element { IsElement rule.now a numbers.now r }
    ensures none { IfNone result (IsTrue (keeps_ends store.now.box rule.now)) }
    ensures some { IfSome result (λ cut. IsCut rule.now store.now.box cut) }
{
    let Some(start) = first_place(a, numbers, r, store) else {
        return either_cut(problem, rule, a, r, store);
    };
    let end = last_place(a, numbers, r, start, store);
    let from = counted(start);
    let to = counted(end);
    if let Some(cut) = arg_cut(rule, a, from, to, store) {
        return Some(cut);
    }
    let low = lowest_place(a, numbers, r, start, end, store);
    let high = highest_place(a, numbers, r, start, end, store);
    arg_cut(rule, r, numbers[low], numbers[high], store)
}

/// What a constraint that its last argument is the number at its first one takes next. These are not the same variable.
pub(crate) fn element_cut(problem: &Problem, rule: &Constraint, store: &Store) -> Option<Cut>
    requires element { IsElementRule rule.now }
    requires asked { IsAsked problem.now rule.now store.now.box }
    ensures none { IfNone result (IsTrue (keeps_ends store.now.box rule.now)) }
    ensures some { IfSome result (λ cut. IsCut rule.now store.now.box cut) }
{
    problem.known();
    let args = arguments(rule);
    let a = one_at(args, 0);
    let numbers = numbers_at(args, 1);
    let r = one_at(args, 2);
    placed_cut(problem, rule, a, numbers, r, store)
}

/// Whether the first and the last argument are the same variable.
pub(crate) fn is_own_place(rule: &Constraint) -> bool
    ensures { result ≡ same_variable (arg_at rule.now.args 0) (arg_at rule.now.args 2) }
{
    let args = arguments(rule);
    is_same(one_at(args, 0), one_at(args, 2))
}
