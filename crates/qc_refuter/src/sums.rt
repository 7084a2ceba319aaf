//! Sums of products, in 128 bits. A product alone fits into 64.
ghost use Rattle.std.specs.Prelude.{◌≡◌, ◌≤◌, ◌<◌, ◌^◌, IsTrue, true, length, map, ◌*ℤ◌, unsigned_abs, int_lt};
ghost use Rattle.std.specs.Int.{int_min, int_max};
ghost use Rattle.std.specs.List.{list_all};
ghost use Rattle.qc_model.specs.Entailed.{entailed_as};
ghost use Rattle.qc_model.specs.Domains.{least_value, greatest_value};
ghost use Rattle.qc_model.specs.Left.{span, left_at, sum_range, sum_at as sum_in};
ghost use Rattle.qc_model.specs.Meaning.{sum_equal as SumEqual, sum_different as SumDifferent, sum_at_most as SumAtMost};
ghost use Rattle.qc_model.specs.Ranges.{range_of, point, product as product_of};
ghost use Rattle.qc_model.specs.Refuted.{left_to, refuted_as};
ghost use Rattle.qc_model.specs.Valid.{is_number};
ghost use Rattle.model_arguments.specs.Asked.{IsAsked};
ghost use Rattle.qc_refuter.specs.Met.{seen, lefts, are_met, is_open};

use crate::ends::Reach;
use crate::reading::{greatest_at, items_met, least_at, numbers_met};
use crate::shown::View;
use crate::view::{greatest_of, least_of};
use fd_store::Store;
use qc_model::{Arg, Argument, Constraint, Problem};

/// The least and the greatest number that a sum can be.
#[derive(Clone, Copy)]
pub struct Extent {
    pub from: i128,
    pub to: i128,
}

// The product of two numbers within the limit.
fn product(a: i64, b: i64) -> i64
    requires a { IsTrue (is_number a) }
    requires b { IsTrue (is_number b) }
    ensures value { result ≡ (a *ℤ b) }
    ensures small { unsigned_abs result ≤ 10 ^ 18 }
{
    a * b
}

// The two numbers in their order.
fn ordered(p: i64, q: i64) -> Reach
    requires p { unsigned_abs p ≤ 10 ^ 18 }
    requires q { unsigned_abs q ≤ 10 ^ 18 }
    ensures value { range_of result.from result.to ≡ range_of (int_min p q) (int_max p q) }
    ensures small_from { unsigned_abs result.from ≤ 10 ^ 18 }
    ensures small_to { unsigned_abs result.to ≤ 10 ^ 18 }
{
    if q < p {
        Reach { from: q, to: p }
    } else {
        Reach { from: p, to: q }
    }
}

// What a factor times an argument can be on the box of a store.
fn term_left(factor: i64, arg: Arg, store: &Store) -> Reach
    requires factor { IsTrue (is_number factor) }
    requires open { IsTrue (is_open store.now.box arg) }
    ensures value { range_of result.from result.to ≡ product_of (point factor) (span (left_to store.now.box arg)) }
    ensures small_from { unsigned_abs result.from ≤ 10 ^ 18 }
    ensures small_to { unsigned_abs result.to ≤ 10 ^ 18 }
{
    match arg {
        Arg::Num(n) => {
            let only = product(factor, n);
            Reach {
                from: only,
                to: only,
            }
        }
        Arg::Var(x) => ordered(product(factor, store.min(x)), product(factor, store.max(x))),
    }
}

// The least value left to an item of an array: only what its kind needs is read.
#[inline(always)]
fn least_behind(item: &Arg, view: &View) -> i64
    requires { IsTrue (is_open (seen view.now) item.now) }
    ensures { result ≡ least_value (left_to (seen view.now) item.now) }
{
    match item {
        Arg::Num(n) => *n,
        Arg::Var(y) => least_of(*y, view),
    }
}

// The greatest value left to it.
#[inline(always)]
fn greatest_behind(item: &Arg, view: &View) -> i64
    requires { IsTrue (is_open (seen view.now) item.now) }
    ensures { result ≡ greatest_value (left_to (seen view.now) item.now) }
{
    match item {
        Arg::Num(n) => *n,
        Arg::Var(y) => greatest_of(*y, view),
    }
}

// The least that a factor times an argument can be, as a view shows it.
#[inline(always)]
fn least_term(factor: i64, arg: &Arg, view: &View) -> i64
    requires factor { IsTrue (is_number factor) }
    requires open { IsTrue (is_open (seen view.now) arg.now) }
    ensures value { result ≡ (product_of (point factor) (span (left_to (seen view.now) arg.now))).from }
    ensures small { unsigned_abs result ≤ 10 ^ 18 }
{
    if factor < 0 {
        product(factor, greatest_behind(arg, view))
    } else {
        product(factor, least_behind(arg, view))
    }
}

// The greatest that it can be.
#[inline(always)]
fn greatest_term(factor: i64, arg: &Arg, view: &View) -> i64
    requires factor { IsTrue (is_number factor) }
    requires open { IsTrue (is_open (seen view.now) arg.now) }
    ensures value { result ≡ (product_of (point factor) (span (left_to (seen view.now) arg.now))).to }
    ensures small { unsigned_abs result ≤ 10 ^ 18 }
{
    if factor < 0 {
        product(factor, least_behind(arg, view))
    } else {
        product(factor, greatest_behind(arg, view))
    }
}

// The least that a sum of at most 1,000 terms can be. Mostly one end of a sum tells enough, and then the other isn't read.
#[inline(always)]
fn least_sum(factors: &[i64], items: &[Arg], view: &View) -> i128
    requires factors { IsTrue (list_all is_number factors.now) }
    requires items { IsTrue (list_all (is_open (seen view.now)) items.now) }
    requires few { length items.now ≤ 1000 }
    ensures { result ≡ (sum_range factors.now (map (left_to (seen view.now)) items.now)).from }
{
    let count = factors.len().min(items.len());
    let view = *view;
    let mut sum: i128 = 0;
    for k in 0..count {
        sum += least_term(factors[k], &items[k], &view) as i128;
    }
    sum
}

// The greatest that it can be.
#[inline(always)]
fn greatest_sum(factors: &[i64], items: &[Arg], view: &View) -> i128
    requires factors { IsTrue (list_all is_number factors.now) }
    requires items { IsTrue (list_all (is_open (seen view.now)) items.now) }
    requires few { length items.now ≤ 1000 }
    ensures { result ≡ (sum_range factors.now (map (left_to (seen view.now)) items.now)).to }
{
    let count = factors.len().min(items.len());
    let view = *view;
    let mut sum: i128 = 0;
    for k in 0..count {
        sum += greatest_term(factors[k], &items[k], &view) as i128;
    }
    sum
}

// The least that the sum of the arguments can be.
#[inline(always)]
fn least_in(args: &[Argument], view: &View) -> i128
    requires { IsTrue (are_met (seen view.now) args.now) }
    ensures { result ≡ (sum_in (lefts (seen view.now) args.now)).from }
{
    least_sum(numbers_met(args, 0, view), items_met(args, 1, view), view)
}

// The greatest that it can be.
#[inline(always)]
fn greatest_in(args: &[Argument], view: &View) -> i128
    requires { IsTrue (are_met (seen view.now) args.now) }
    ensures { result ≡ (sum_in (lefts (seen view.now) args.now)).to }
{
    greatest_sum(numbers_met(args, 0, view), items_met(args, 1, view), view)
}

// The sum is more than the number, whatever values its items have.
#[inline(never)]
fn is_above(factors: &[i64], items: &[Arg], number: i64, view: &View) -> bool
    requires factors { IsTrue (list_all is_number factors.now) }
    requires items { IsTrue (list_all (is_open (seen view.now)) items.now) }
    requires few { length items.now ≤ 1000 }
    ensures { result ≡ int_lt number (sum_range factors.now (map (left_to (seen view.now)) items.now)).from }
{
    (number as i128) < least_sum(factors, items, view)
}

// The sum is less than the number, whatever values its items have.
#[inline(never)]
fn is_below(factors: &[i64], items: &[Arg], number: i64, view: &View) -> bool
    requires factors { IsTrue (list_all is_number factors.now) }
    requires items { IsTrue (list_all (is_open (seen view.now)) items.now) }
    requires few { length items.now ≤ 1000 }
    ensures { result ≡ int_lt (sum_range factors.now (map (left_to (seen view.now)) items.now)).to number }
{
    greatest_sum(factors, items, view) < number as i128
}

// Whether an item is the view's own variable.
#[inline(always)]
fn is_own(item: Arg, view: &View) -> bool {
    match item {
        Arg::Num(_) => false,
        Arg::Var(y) => y.0 == view.x.0,
    }
}

// Whether the view shows its own variable, which is this item, from the least value on.
#[inline(always)]
fn shows_least(item: Arg, view: &View) -> bool
    requires { IsTrue (is_open (seen view.now) item) }
{
    match item {
        Arg::Num(_) => false,
        Arg::Var(y) => {
            if y.0 == view.x.0 {
                view.store.min(y) == view.ends.least
            } else {
                false
            }
        }
    }
}

// Whether the end of the sum that the view brings nearer to the third argument is the greatest. No answer is wrong: it says
// which end is read first, so that the other mostly needn't be.
#[inline(always)]
fn is_rather_below(factors: &[i64], items: &[Arg], view: &View) -> bool
    requires { IsTrue (list_all (is_open (seen view.now)) items.now) }
{
    let mut k = factors.len().min(items.len());
    // a search mostly gives values in order, so that what is removed stands late
    while k > 0 {
        k -= 1;
        if is_own(items[k], view) {
            return shows_least(items[k], view) == (0 < factors[k]);
        }
    }
    false
}

// The sum can't be the third argument.
#[inline(always)]
pub(crate) fn sum_equal_refuted(args: &[Argument], view: &View) -> bool
    requires { IsTrue (are_met (seen view.now) args.now) }
    ensures { result ≡ refuted_as SumEqual (lefts (seen view.now) args.now) }
{
    let factors = numbers_met(args, 0, view);
    let items = items_met(args, 1, view);
    let least = least_at(args, 2, view);
    let greatest = greatest_at(args, 2, view);
    if is_rather_below(factors, items, view) {
        is_below(factors, items, least, view) || is_above(factors, items, greatest, view)
    } else {
        is_above(factors, items, greatest, view) || is_below(factors, items, least, view)
    }
}

// The sum can only be the least value of the third argument.
pub(crate) fn sum_equal_entailed(args: &[Argument], view: &View) -> bool
    requires { IsTrue (are_met (seen view.now) args.now) }
    ensures { result ≡ entailed_as SumEqual (lefts (seen view.now) args.now) }
{
    let number = least_at(args, 2, view) as i128;
    least_in(args, view) == number && greatest_in(args, view) == number
}

pub(crate) fn sum_at_most_refuted(args: &[Argument], view: &View) -> bool
    requires { IsTrue (are_met (seen view.now) args.now) }
    ensures { result ≡ refuted_as SumAtMost (lefts (seen view.now) args.now) }
{
    (greatest_at(args, 2, view) as i128) < least_in(args, view)
}

pub(crate) fn sum_at_most_entailed(args: &[Argument], view: &View) -> bool
    requires { IsTrue (are_met (seen view.now) args.now) }
    ensures { result ≡ entailed_as SumAtMost (lefts (seen view.now) args.now) }
{
    greatest_in(args, view) <= least_at(args, 2, view) as i128
}

pub(crate) fn sum_different_refuted(args: &[Argument], view: &View) -> bool
    requires { IsTrue (are_met (seen view.now) args.now) }
    ensures { result ≡ refuted_as SumDifferent (lefts (seen view.now) args.now) }
{
    sum_equal_entailed(args, view)
}

pub(crate) fn sum_different_entailed(args: &[Argument], view: &View) -> bool
    requires { IsTrue (are_met (seen view.now) args.now) }
    ensures { result ≡ entailed_as SumDifferent (lefts (seen view.now) args.now) }
{
    sum_equal_refuted(args, view)
}

/// What a sum of products can be on the box of a store. It takes no memory.
pub fn sum_extent(
    problem: &Problem,
    rule: &Constraint,
    factors: &[i64],
    items: &[Arg],
    store: &Store,
) -> Extent
    requires asked { IsAsked problem.now rule.now store.now.box }
    requires factors { IsTrue (list_all is_number factors.now) }
    requires items { IsTrue (list_all (is_open store.now.box) items.now) }
    requires few { length items.now ≤ 1000 }
    ensures value { range_of result.from result.to ≡ sum_range factors.now (map (left_to store.now.box) items.now) }
    ensures small_from { unsigned_abs result.from ≤ 10 ^ 21 }
    ensures small_to { unsigned_abs result.to ≤ 10 ^ 21 }
{
    problem.known();
    let _ = rule.pred;
    let count = factors.len().min(items.len());
    let mut from: i128 = 0;
    let mut to: i128 = 0;
    for k in 0..count {
        let one = term_left(factors[k], items[k], store);
        from += one.from as i128;
        to += one.to as i128;
    }
    Extent { from, to }
}
