//! What is known of the sums of linear constraints: by the box, and by the sums of a lemma.
ghost use Rattle.std.specs.Prelude.{◌≡◌, ◌==◌, ◌≤◌, ◌^◌, Bool, cond, unsigned_abs};
ghost use Rattle.qc_model.specs.declared.problem.Arg.{Arg};
ghost use Rattle.qc_model.specs.Ranges.{range_of, range_sum};
ghost use Rattle.model_arguments.specs.Asked.{IsAsked};
ghost use Rattle.lemma_list.specs.Sums.{common, sum_known as sum_known_in};
ghost use Rattle.std.specs.List.{list_any};
ghost use Rattle.lemma_reasons.specs.Terms.{AreTerms, with_all};

use crate::terms::{Which, terms, terms_before};
use fd_store::Store;
use lemma_list::SumLiteral;
use qc_model::{Arg, ConId, Constraint, Problem};
use qc_refuter::Extent;

/// The sums of a lemma as they are asked for one constraint: they are of variables of scopes before one.
#[derive(Clone, Copy)]
pub(crate) struct Given<'a> {
    pub(crate) sums: &'a [SumLiteral],
    pub(crate) scope: usize,
    pub(crate) c: ConId,
}

/// A sum that is compared with an argument, and what it can be: whether it is to equal it, or to be at most that.
#[derive(Clone, Copy)]
pub(crate) struct Sum {
    pub(crate) is_equal: bool,
    pub(crate) bound: Arg,
    pub(crate) from: i128,
    pub(crate) to: i128,
}

// Also the range of a sum, and what the terms beyond it come to.
fn with_sum(known: Extent, beyond: Extent, sum: SumLiteral) -> Extent
    requires beyond_from { unsigned_abs beyond.from ≤ 10 ^ 24 }
    requires beyond_to { unsigned_abs beyond.to ≤ 10 ^ 24 }
    ensures value { range_of result.from result.to ≡ common (range_sum (range_of sum.lo sum.hi) (range_of beyond.from beyond.to)) (range_of known.from known.to) }
{
    let from = sum.lo as i128 + beyond.from;
    let to = sum.hi as i128 + beyond.to;
    Extent {
        from: from.max(known.from),
        to: to.min(known.to),
    }
}

// The same where the sum is of this constraint.
fn with_own(known: Extent, beyond: Extent, sum: SumLiteral, c: ConId) -> Extent
    requires beyond_from { unsigned_abs beyond.from ≤ 10 ^ 24 }
    requires beyond_to { unsigned_abs beyond.to ≤ 10 ^ 24 }
    ensures value { range_of result.from result.to ≡ cond (sum.c.0 == c.0) (common (range_sum (range_of sum.lo sum.hi) (range_of beyond.from beyond.to)) (range_of known.from known.to)) (range_of known.from known.to) }
{
    if sum.c.0 == c.0 {
        with_sum(known, beyond, sum)
    } else {
        known
    }
}

// Also all sums of this constraint.
fn with_sums(known: Extent, beyond: Extent, given: Given) -> Extent
    requires beyond_from { unsigned_abs beyond.from ≤ 10 ^ 24 }
    requires beyond_to { unsigned_abs beyond.to ≤ 10 ^ 24 }
    ensures { range_of result.from result.to ≡ with_all given.entry.sums.now given.entry.c.0 (range_of beyond.from beyond.to) (range_of known.from known.to) }
{
    let mut known = known;
    let mut n = given.sums.len();
    while n > 0 {
        n -= 1;
        known = with_own(known, beyond, given.sums[n], given.c);
    }
    known
}

fn has_sum(given: Given) -> bool
    ensures { result ≡ list_any (λ z. z.c.0 == given.entry.c.0) given.entry.sums.now }
{
    given.sums.iter().any(|sum| sum.c.0 == given.c.0)
}

/// What is known of the sum of the terms that count: of all, or of those of variables of scopes before one.
pub(crate) fn sum_known(
    problem: &Problem,
    rule: &Constraint,
    given: Given,
    before: Option<usize>,
    factors: &[i64],
    items: &[Arg],
    store: &Store,
) -> Extent
    requires asked { IsAsked problem.now rule.now store.now.box }
    requires terms { AreTerms store.now.box factors.now items.now }
    ensures { (e : Bool) (b : Arg) → range_of result.from result.to ≡ sum_known_in problem.now given.entry.scope given.entry.sums.now given.entry.c.0 before (record { is_equal = e; factors = factors.now; items = items.now; bound = b }) store.now.box }
{
    let known = terms_before(problem, rule, before, factors, items, store);
    if !has_sum(given) {
        return known;
    }
    let rest = Which {
        before,
        but: Some(given.scope),
    };
    let beyond = terms(problem, rule, rest, factors, items, store);
    with_sums(known, beyond, given)
}
