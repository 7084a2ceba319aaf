//! Results of one or two integers, by the spans of what is left.
ghost use Rattle.std.specs.Prelude.{◌≡◌, ◌||◌, IsTrue};
ghost use Rattle.qc_model.specs.Left.{span, range_at, is_zero_range};
ghost use Rattle.qc_model.specs.Meaning.{plus as Plus, times as Times, absolute_value as AbsoluteValue, quotient as Quotient, remainder as Remainder};
ghost use Rattle.qc_model.specs.Ranges.{ranges_miss, range_sum, product, absolute_range, quotient_range, remainder_range};
ghost use Rattle.qc_model.specs.Refuted.{left_to, refuted_as};
ghost use Rattle.qc_refuter.specs.Met.{seen, lefts, are_met, is_open};
ghost use Rattle.qc_refuter.specs.Spanned.{range_in, is_small};

use crate::reading::arg_met;
use crate::shown::View;
use crate::view::{greatest, least};
use fd_interval::{Span, abs, add, div, mul, rem, span_of};
use qc_model::{Arg, Argument};

fn span_left(arg: Arg, view: &View) -> Span
    requires { IsTrue (is_open (seen view.now) arg) }
    ensures range { range_in result ≡ span (left_to (seen view.now) arg) }
    ensures small { IsTrue (is_small result) }
{
    span_of(least(arg, view) as i128, greatest(arg, view) as i128)
}

// The numbers from the least value that is left to the greatest.
fn span_at(args: &[Argument], place: usize, view: &View) -> Span
    requires { IsTrue (are_met (seen view.now) args.now) }
    ensures range { range_in result ≡ range_at (lefts (seen view.now) args.now) place }
    ensures small { IsTrue (is_small result) }
{
    span_left(arg_met(args, place, view), view)
}

fn misses(a: Span, b: Span) -> bool
    ensures { result ≡ ranges_miss (range_in a) (range_in b) }
{
    a.hi < b.lo || b.hi < a.lo
}

fn sum_misses(a: Span, b: Span, c: Span) -> bool
    requires a { IsTrue (is_small a) }
    requires b { IsTrue (is_small b) }
    ensures { result ≡ ranges_miss (range_sum (range_in a) (range_in b)) (range_in c) }
{
    misses(add(a, b), c)
}

fn product_misses(a: Span, b: Span, c: Span) -> bool
    requires a { IsTrue (is_small a) }
    requires b { IsTrue (is_small b) }
    ensures { result ≡ ranges_miss (product (range_in a) (range_in b)) (range_in c) }
{
    misses(mul(a, b), c)
}

fn absolute_misses(a: Span, b: Span) -> bool
    ensures { result ≡ ranges_miss (absolute_range (range_in a)) (range_in b) }
{
    misses(abs(a), b)
}

fn quotient_misses(a: Span, b: Span, c: Span) -> bool
    ensures { result ≡ (is_zero_range (range_in b) || ranges_miss (quotient_range (range_in a) (range_in b)) (range_in c)) }
{
    match div(a, b) {
        Some(quotients) => misses(quotients, c),
        None => true,
    }
}

fn remainder_misses(a: Span, b: Span, c: Span) -> bool
    ensures { result ≡ (is_zero_range (range_in b) || ranges_miss (remainder_range (range_in a) (range_in b)) (range_in c)) }
{
    match rem(a, b) {
        Some(remainders) => misses(remainders, c),
        None => true,
    }
}

pub(crate) fn plus_refuted(args: &[Argument], view: &View) -> bool
    requires { IsTrue (are_met (seen view.now) args.now) }
    ensures { result ≡ refuted_as Plus (lefts (seen view.now) args.now) }
{
    let a = span_at(args, 0, view);
    let b = span_at(args, 1, view);
    sum_misses(a, b, span_at(args, 2, view))
}

pub(crate) fn times_refuted(args: &[Argument], view: &View) -> bool
    requires { IsTrue (are_met (seen view.now) args.now) }
    ensures { result ≡ refuted_as Times (lefts (seen view.now) args.now) }
{
    let a = span_at(args, 0, view);
    let b = span_at(args, 1, view);
    product_misses(a, b, span_at(args, 2, view))
}

pub(crate) fn absolute_value_refuted(args: &[Argument], view: &View) -> bool
    requires { IsTrue (are_met (seen view.now) args.now) }
    ensures { result ≡ refuted_as AbsoluteValue (lefts (seen view.now) args.now) }
{
    let a = span_at(args, 0, view);
    absolute_misses(a, span_at(args, 1, view))
}

pub(crate) fn quotient_refuted(args: &[Argument], view: &View) -> bool
    requires { IsTrue (are_met (seen view.now) args.now) }
    ensures { result ≡ refuted_as Quotient (lefts (seen view.now) args.now) }
{
    let a = span_at(args, 0, view);
    let b = span_at(args, 1, view);
    quotient_misses(a, b, span_at(args, 2, view))
}

pub(crate) fn remainder_refuted(args: &[Argument], view: &View) -> bool
    requires { IsTrue (are_met (seen view.now) args.now) }
    ensures { result ≡ refuted_as Remainder (lefts (seen view.now) args.now) }
{
    let a = span_at(args, 0, view);
    let b = span_at(args, 1, view);
    remainder_misses(a, b, span_at(args, 2, view))
}
