//! Relations of numbers that are refuted by the ends of what is left to them alone.
ghost use Rattle.std.specs.Prelude.{◌≡◌, ◌+ℤ◌, IsTrue};
ghost use Rattle.qc_model.specs.Ranges.{point, ranges_miss, range_sum, product as product_range, smaller_range, greater_range};
ghost use Rattle.qc_model.specs.Valid.{is_number};
ghost use Rattle.model_arguments.specs.Written.{arg_at};
ghost use Rattle.qc_refuter.specs.Met.{are_met};
ghost use Rattle.dense_quiet.specs.Quiet.{range_in, reach, FailsAtPoints, SparesThree, by_spans, refuted_in};
ghost use Rattle.dense_quiet.specs.Taking.{takes_of};

use crate::ends::Ends;
use crate::reading::{arg_met, at_greatest, at_least, ends_of, is_spared};
use crate::summing::product;
use crate::taking::Taking;
use fd_store::Store;
use qc_model::{Argument, Constraint, Problem};

/// How the first number is related to the second, or how the third comes of both.
#[derive(Clone, Copy)]
pub(crate) enum Relation {
    AtMost,
    Below,
    Sum,
    Product,
    Lesser,
    Greater,
}

/// Numbers from one to another.
#[derive(Clone, Copy)]
pub(crate) struct Reach {
    from: i64,
    to: i64,
}

// Whether none of them is left.
#[inline(always)]
fn misses(numbers: Reach, ends: Ends) -> bool
    ensures { result ≡ ranges_miss (reach numbers) (range_in ends) }
{
    numbers.to < ends.least || ends.greatest < numbers.from
}

/// The sum of two numbers within the limit.
#[inline(always)]
pub(crate) fn sum(a: i64, b: i64) -> i64
    requires a { IsTrue (is_number a) }
    requires b { IsTrue (is_number b) }
    ensures { result ≡ (a +ℤ b) }
{
    a + b
}

#[inline(always)]
fn sums(a: Ends, b: Ends) -> Reach
    ensures { reach result ≡ range_sum (range_in a) (range_in b) }
{
    Reach {
        from: sum(a.least, b.least),
        to: sum(a.greatest, b.greatest),
    }
}

#[inline(always)]
fn products(a: Ends, b: Ends) -> Reach
    ensures { reach result ≡ product_range (range_in a) (range_in b) }
{
    let low = product(a.least, b.least);
    let falling = product(a.least, b.greatest);
    let rising = product(a.greatest, b.least);
    let high = product(a.greatest, b.greatest);
    Reach {
        from: low.min(falling.min(rising.min(high))),
        to: low.max(falling.max(rising.max(high))),
    }
}

// The lesser of two numbers, and the greater.
#[inline(always)]
fn lessers(a: Ends, b: Ends) -> Reach
    ensures { reach result ≡ smaller_range (range_in a) (range_in b) }
{
    Reach {
        from: a.least.min(b.least),
        to: a.greatest.min(b.greatest),
    }
}

#[inline(always)]
fn greaters(a: Ends, b: Ends) -> Reach
    ensures { reach result ≡ greater_range (range_in a) (range_in b) }
{
    Reach {
        from: a.least.max(b.least),
        to: a.greatest.max(b.greatest),
    }
}

// Whether the relation is refuted where such ends are left. Of two numbers the third ends don't matter.
#[inline(always)]
fn is_refuted(relation: Relation, a: Ends, b: Ends, c: Ends) -> bool
    ensures { result ≡ refuted_in relation (range_in a) (range_in b) (range_in c) }
{
    match relation {
        Relation::AtMost => b.greatest < a.least,
        Relation::Below => b.greatest <= a.least,
        Relation::Sum => misses(sums(a, b), c),
        Relation::Product => misses(products(a, b), c),
        Relation::Lesser => misses(lessers(a, b), c),
        Relation::Greater => misses(greaters(a, b), c),
    }
}

// Whether neither end of the first is refuted.
#[inline(always)]
fn first_fits(relation: Relation, a: Ends, b: Ends, c: Ends) -> bool
    ensures { IsTrue result → FailsAtPoints (λ r. refuted_in relation r (range_in b) (range_in c)) (range_in a) }
{
    if is_refuted(relation, at_least(a), b, c) {
        return false;
    }
    !is_refuted(relation, at_greatest(a), b, c)
}

#[inline(always)]
fn second_fits(relation: Relation, a: Ends, b: Ends, c: Ends) -> bool
    ensures { IsTrue result → FailsAtPoints (λ r. refuted_in relation (range_in a) r (range_in c)) (range_in b) }
{
    if is_refuted(relation, a, at_least(b), c) {
        return false;
    }
    !is_refuted(relation, a, at_greatest(b), c)
}

#[inline(always)]
fn third_fits(relation: Relation, a: Ends, b: Ends, c: Ends) -> bool
    ensures { IsTrue result → FailsAtPoints (λ r. refuted_in relation (range_in a) (range_in b) r) (range_in c) }
{
    if is_refuted(relation, a, b, at_least(c)) {
        return false;
    }
    !is_refuted(relation, a, b, at_greatest(c))
}

/// Whether the relation refutes neither what is left to the first arguments nor an end of one that may be taken.
#[inline(always)]
pub(crate) fn is_quiet_by_ends(
    relation: Relation,
    problem: &Problem,
    taking: Taking,
    rule: &Constraint,
    args: &[Argument],
    store: &Store,
) -> bool
    requires { IsTrue (are_met store.now.box args.now) }
    ensures { IsTrue result → SparesThree (by_spans (refuted_in relation)) (takes_of taking problem.now rule.now) (arg_at args.now 0) (arg_at args.now 1) (arg_at args.now 2) store.now.box }
{
    let x = arg_met(args, 0, store);
    let y = arg_met(args, 1, store);
    let z = arg_met(args, 2, store);
    let a = ends_of(x, store);
    let b = ends_of(y, store);
    let c = ends_of(z, store);
    if is_refuted(relation, a, b, c) {
        return false;
    }
    if !is_spared(first_fits(relation, a, b, c), problem, taking, rule, x) {
        return false;
    }
    if !is_spared(second_fits(relation, a, b, c), problem, taking, rule, y) {
        return false;
    }
    is_spared(third_fits(relation, a, b, c), problem, taking, rule, z)
}
