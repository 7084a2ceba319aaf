//! What the terms of a sum come to in a box: all of them, or those of variables of some scopes.
ghost use Rattle.std.specs.Prelude.{◌≡◌, ◌≤◌, ◌^◌, cond, IsTrue, unsigned_abs, pos};
ghost use Rattle.qc_model.specs.Left.{span};
ghost use Rattle.qc_model.specs.Ranges.{range_of, point, product};
ghost use Rattle.qc_model.specs.Refuted.{left_to};
ghost use Rattle.qc_model.specs.Valid.{is_number};
ghost use Rattle.model_arguments.specs.Asked.{IsAsked};
ghost use Rattle.qc_refuter.specs.Met.{is_open};
ghost use Rattle.lemma_list.specs.Sums.{counts as counts_in, terms_range};
ghost use Rattle.lemma_reasons.specs.Steps.{is_counted as is_counted_in};
ghost use Rattle.lemma_reasons.specs.Terms.{AreTerms};

use crate::places::is_chosen_before;
use fd_store::Store;
use qc_model::{Arg, Constraint, Problem};
use qc_refuter::{Extent, sum_extent};

/// Which terms count: all, or those of variables of scopes before one, and of these perhaps only those that aren't of
/// variables of scopes before another.
#[derive(Clone, Copy)]
pub(crate) struct Which {
    pub(crate) before: Option<usize>,
    pub(crate) but: Option<usize>,
}

// Whether an item counts: any, or only a variable of a scope before one.
fn counts(problem: &Problem, before: Option<usize>, item: Arg) -> bool
    ensures { result ≡ counts_in problem.now before item }
{
    match before {
        None => true,
        Some(i) => match item {
            Arg::Var(x) => is_chosen_before(problem, i, x),
            Arg::Num(_) => false,
        },
    }
}

fn is_counted(problem: &Problem, which: Which, item: Arg) -> bool
    ensures { result ≡ is_counted_in problem.now which.before which.but item }
{
    match which.but {
        None => counts(problem, which.before, item),
        Some(i) => counts(problem, which.before, item) && !counts(problem, Some(i), item),
    }
}

// What one term comes to, and 0 where it doesn't count.
fn term(
    problem: &Problem,
    rule: &Constraint,
    which: Which,
    factor: i64,
    item: Arg,
    store: &Store,
) -> Extent
    requires asked { IsAsked problem.now rule.now store.now.box }
    requires factor { IsTrue (is_number factor) }
    requires open { IsTrue (is_open store.now.box item) }
    ensures value { range_of result.from result.to ≡ cond (is_counted_in problem.now which.before which.but item) (product (point factor) (span (left_to store.now.box item))) (point (pos 0)) }
    ensures small_from { unsigned_abs result.from ≤ 10 ^ 21 }
    ensures small_to { unsigned_abs result.to ≤ 10 ^ 21 }
{
    if is_counted(problem, which, item) {
        sum_extent(problem, rule, &[factor], &[item], store)
    } else {
        Extent { from: 0, to: 0 }
    }
}

/// What the terms that count come to.
pub(crate) fn terms(
    problem: &Problem,
    rule: &Constraint,
    which: Which,
    factors: &[i64],
    items: &[Arg],
    store: &Store,
) -> Extent
    requires asked { IsAsked problem.now rule.now store.now.box }
    requires terms { AreTerms store.now.box factors.now items.now }
    ensures value { range_of result.from result.to ≡ terms_range (is_counted_in problem.now which.before which.but) factors.now items.now store.now.box }
    ensures small_from { unsigned_abs result.from ≤ 10 ^ 24 }
    ensures small_to { unsigned_abs result.to ≤ 10 ^ 24 }
{
    let count = factors.len().min(items.len());
    let mut from: i128 = 0;
    let mut to: i128 = 0;
    for k in 0..count {
        let one = term(problem, rule, which, factors[k], items[k], store);
        from += one.from;
        to += one.to;
    }
    Extent { from, to }
}

/// What all terms come to, or those of variables of scopes before one.
pub(crate) fn terms_before(
    problem: &Problem,
    rule: &Constraint,
    before: Option<usize>,
    factors: &[i64],
    items: &[Arg],
    store: &Store,
) -> Extent
    requires asked { IsAsked problem.now rule.now store.now.box }
    requires terms { AreTerms store.now.box factors.now items.now }
    ensures { range_of result.from result.to ≡ terms_range (counts_in problem.now before) factors.now items.now store.now.box }
{
    match before {
        None => sum_extent(problem, rule, factors, items, store),
        Some(_) => {
            let which = Which { before, but: None };
            terms(problem, rule, which, factors, items, store)
        }
    }
}
