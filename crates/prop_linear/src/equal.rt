//! The filter of a constraint that says no more than that a sum is a number, while nothing but its items changes.
ghost use Rattle.std.specs.Prelude.{◌≡◌, ◌≤◌, IsTrue, IsFalse, IfOk, length, cond};
ghost use Rattle.std.specs.List.{list_all};
ghost use Rattle.qc_model.specs.Valid.{arg_sees, is_number};
ghost use Rattle.qc_refuter.specs.Met.{is_open};
ghost use Rattle.prop_base.specs.declared.answer.Filtered.TheVariants.{Changed, Stable};
ghost use Rattle.prop_base.specs.Filtering.{Answers, Fits, Prunes};
ghost use Rattle.prop_linear.specs.Sides.{IsBalanced, IsRound};
ghost use Rattle.prop_linear.specs.Tightening.{AlikeOutside};
ghost use Rattle.model_arguments.specs.Repeats.{has_repeat};

use crate::repeats::stands_twice;
use crate::rounds::tighten_places;
use crate::slacks::{excess, slack};
use crate::sums::spread_of;
use fd_store::Store;
use proof_tree::StepList;
use prop_base::{Asked, Filtered, empty_last, filter_by_ends};
use prop_compare::Table;
use qc_model::Arg;
use std::alloc::AllocError;

// Whether a number is at most s, and at most t.
fn is_within(moves: u64, s: u128, t: u128) -> bool
    ensures over { IsTrue result → moves ≤ s }
    ensures under { IsTrue result → moves ≤ t }
{
    let moves = moves as u128;
    if s < moves {
        return false;
    }
    moves <= t
}

// One round. Where the sum can't be the number, a variable loses all its values. Stable says that nothing is too far.
#[inline(always)]
fn run_round(
    asked: Asked,
    factors: &[i64],
    items: &[Arg],
    bound: i64,
    store: &mut Store,
    steps: &mut StepList,
) -> Result<Filtered, AllocError>
    requires fits { Fits asked store.old }
    requires balanced { IsBalanced asked.rule.now store.old.box factors.now items.now bound }
    requires once { IsFalse (has_repeat items.now) }
    requires equal { length factors.now ≡ length items.now }
    requires few { length items.now ≤ 1000 }
    requires factors { IsTrue (list_all is_number factors.now) }
    requires sees { IsTrue (list_all (arg_sees asked.problem.now.variables asked.rule.now.owner.0) items.now) }
    requires open { IsTrue (list_all (is_open store.old.box) items.now) }
    ensures pruning { Prunes asked.entry store.old store.new steps.old steps.new }
    ensures answer { IfOk result (λ f. IsRound f asked.entry.rule.now store.new.box steps.old steps.new) }
    ensures alike { IfOk result (λ f. f ≡ Changed → AlikeOutside items.now store.old.box store.new.box) }
{
    asked.problem.known();
    let sum = spread_of(factors, items, store);
    if (bound as i128) < sum.from {
        return empty_last(asked, store, steps);
    }
    if sum.to < bound as i128 {
        return empty_last(asked, store, steps);
    }
    let s = slack(bound, sum.from);
    let t = excess(sum.to, bound);
    if is_within(sum.widest.moves, s, t) {
        return Ok(Filtered::Stable);
    }
    if tighten_places(asked, factors, items, sum.widest, s, t, store, steps)? {
        Ok(Filtered::Changed)
    } else {
        Ok(Filtered::Stable)
    }
}

// What to answer where a round removed nothing.
fn ended(changed: bool) -> Filtered
    ensures { result ≡ cond changed Changed Stable }
{
    if changed {
        Filtered::Changed
    } else {
        Filtered::Stable
    }
}

/// Rounds until one removes nothing, where no variable stands twice; end by end otherwise. Where the sum can't be the
/// number, a variable loses all its values.
#[inline(always)]
pub fn filter_sum_equal(
    asked: Asked,
    factors: &[i64],
    items: &[Arg],
    bound: i64,
    store: &mut Store,
    steps: &mut StepList,
) -> Result<Filtered, AllocError>
    requires fits { Fits asked store.old }
    requires balanced { IsBalanced asked.rule.now store.old.box factors.now items.now bound }
    requires equal { length factors.now ≡ length items.now }
    requires few { length items.now ≤ 1000 }
    requires factors { IsTrue (list_all is_number factors.now) }
    requires sees { IsTrue (list_all (arg_sees asked.problem.now.variables asked.rule.now.owner.0) items.now) }
    requires open { IsTrue (list_all (is_open store.old.box) items.now) }
    ensures pruning { Prunes asked.entry store.old store.new steps.old steps.new }
    ensures answer { Answers asked.entry store.new steps.old steps.new result }
{
    asked.problem.known();
    if stands_twice(items) {
        return filter_by_ends(&Table {}, asked, store, steps);
    }
    let mut changed = false;
    loop {
        match run_round(asked, factors, items, bound, store, steps)? {
            Filtered::Emptied => return Ok(Filtered::Emptied),
            Filtered::Stable => return Ok(ended(changed)),
            Filtered::Changed => changed = true,
        }
    }
}
