//! One pass over a sum that is to be at most a number, with variables that stand once.
//!
//! Each place loses the values that alone make the sum too great. What it loses is never the value that makes its term
//! least, so the least of the sum stays, and one pass is enough. A sum that is to be at least a number is seen as its
//! negative, which is to be at most the opposite number.
ghost use Rattle.std.specs.Prelude.{◌≡◌, ◌<◌, ◌+◌, IsTrue, IsFalse, OnOk, IfOk, length, take, pos, ◌+ℤ◌, ◌≤ℤ◌, Bool, true, false};
ghost use Rattle.std.specs.List.{list_all};
ghost use Rattle.qc_model.specs.Closed.{keeps_ends};
ghost use Rattle.qc_model.specs.Domains.{has_empty};
ghost use Rattle.qc_model.specs.Valid.{arg_sees, is_number};
ghost use Rattle.prop_base.specs.Filtering.{Fits, Prunes};
ghost use Rattle.prop_linear.specs.Sides.{IsPast, signed};
ghost use Rattle.model_arguments.specs.Repeats.{has_repeat};
ghost use Rattle.prop_linear.specs.Tightening.{AlikeOutside, AllNear, IsBounded, least_sum};

use crate::places::{is_near, place_cut};
use crate::signs::factor_at;
use fd_store::Store;
use proof_tree::StepList;
use prop_base::{Asked, prune};
use qc_model::Arg;
use std::alloc::AllocError;

// The values that are too far at place k, for the sum or for its negative, which may be at most s above its least: they go.
// It answers whether something was removed. No domain is emptied.
#[inline(never)]
fn cut_place(
    asked: Asked,
    factors: &[i64],
    items: &[Arg],
    k: usize,
    negative: bool,
    s: u128,
    store: &mut Store,
    steps: &mut StepList,
) -> Result<bool, AllocError>
    requires fits { Fits asked store.old }
    requires past { IsPast asked.rule.now store.old.box (signed negative factors.now) items.now (least_sum (signed negative factors.now) items.now store.old.box +ℤ pos s) }
    requires once { IsFalse (has_repeat items.now) }
    requires equal { length factors.now ≡ length items.now }
    requires factors { IsTrue (list_all is_number factors.now) }
    requires sees { IsTrue (list_all (arg_sees asked.problem.now.variables asked.rule.now.owner.0) items.now) }
    requires place { k < length items.now }
    ensures pruning { Prunes asked.entry store.old store.new steps.old steps.new }
    ensures full { OnOk result (IsFalse (has_empty store.new.box)) }
    ensures alike { OnOk result (AlikeOutside items.now store.old.box store.new.box) }
    ensures rises { OnOk result ((b : Bool) → least_sum (signed b factors.now) items.now store.old.box ≤ℤ least_sum (signed b factors.now) items.now store.new.box) }
    ensures sum { OnOk result (least_sum (signed negative factors.now) items.now store.new.box ≡ least_sum (signed negative factors.now) items.now store.old.box) }
    ensures near { OnOk result (AllNear s (take k (signed negative factors.now)) (take k items.now) store.old.box → AllNear s (take (k + 1) (signed negative factors.now)) (take (k + 1) items.now) store.new.box) }
    ensures grown { IfOk result (λ b. (b ≡ true → length steps.new ≡ length steps.old + 1) × (b ≡ false → steps.new ≡ steps.old)) }
{
    asked.problem.known();
    let factor = factor_at(factors, k, negative);
    match items[k] {
        Arg::Num(_) => Ok(false),
        Arg::Var(x) => match place_cut(factor, x, s, store) {
            None => Ok(false),
            Some(cut) => {
                prune(asked, cut, store, steps)?;
                Ok(true)
            }
        },
    }
}

/// So what is too far at place k. Mostly nothing is, and one look at the place's two ends tells it.
#[inline(always)]
pub(crate) fn tighten_place(
    asked: Asked,
    factors: &[i64],
    items: &[Arg],
    k: usize,
    negative: bool,
    s: u128,
    store: &mut Store,
    steps: &mut StepList,
) -> Result<bool, AllocError>
    requires fits { Fits asked store.old }
    requires past { IsPast asked.rule.now store.old.box (signed negative factors.now) items.now (least_sum (signed negative factors.now) items.now store.old.box +ℤ pos s) }
    requires once { IsFalse (has_repeat items.now) }
    requires equal { length factors.now ≡ length items.now }
    requires factors { IsTrue (list_all is_number factors.now) }
    requires sees { IsTrue (list_all (arg_sees asked.problem.now.variables asked.rule.now.owner.0) items.now) }
    requires place { k < length items.now }
    ensures pruning { Prunes asked.entry store.old store.new steps.old steps.new }
    ensures full { OnOk result (IsFalse (has_empty store.new.box)) }
    ensures alike { OnOk result (AlikeOutside items.now store.old.box store.new.box) }
    ensures rises { OnOk result ((b : Bool) → least_sum (signed b factors.now) items.now store.old.box ≤ℤ least_sum (signed b factors.now) items.now store.new.box) }
    ensures sum { OnOk result (least_sum (signed negative factors.now) items.now store.new.box ≡ least_sum (signed negative factors.now) items.now store.old.box) }
    ensures near { OnOk result (AllNear s (take k (signed negative factors.now)) (take k items.now) store.old.box → AllNear s (take (k + 1) (signed negative factors.now)) (take (k + 1) items.now) store.new.box) }
    ensures grown { IfOk result (λ b. (b ≡ true → length steps.new ≡ length steps.old + 1) × (b ≡ false → steps.new ≡ steps.old)) }
{
    asked.problem.known();
    if let Arg::Var(x) = items[k]
        && is_near(factor_at(factors, k, negative), x, s, store)
    {
        return Ok(false);
    }
    cut_place(asked, factors, items, k, negative, s, store, steps)
}

/// Removes at each place what is too far, for the sum or for its negative, and answers whether something was removed. No
/// domain is emptied.
pub(crate) fn tighten_all(
    asked: Asked,
    factors: &[i64],
    items: &[Arg],
    negative: bool,
    s: u128,
    store: &mut Store,
    steps: &mut StepList,
) -> Result<bool, AllocError>
    requires fits { Fits asked store.old }
    requires bounded { IsBounded asked.rule.now store.old.box (signed negative factors.now) items.now (least_sum (signed negative factors.now) items.now store.old.box +ℤ pos s) }
    requires once { IsFalse (has_repeat items.now) }
    requires equal { length factors.now ≡ length items.now }
    requires factors { IsTrue (list_all is_number factors.now) }
    requires sees { IsTrue (list_all (arg_sees asked.problem.now.variables asked.rule.now.owner.0) items.now) }
    ensures pruning { Prunes asked.entry store.old store.new steps.old steps.new }
    ensures full { OnOk result (IsFalse (has_empty store.new.box)) }
    ensures keeps { OnOk result (IsTrue (keeps_ends store.new.box asked.entry.rule.now)) }
    ensures grown { IfOk result (λ b. (b ≡ true → length steps.old < length steps.new) × (b ≡ false → steps.new ≡ steps.old)) }
{
    let mut changed = false;
    for k in 0..items.len() {
        if tighten_place(asked, factors, items, k, negative, s, store, steps)? {
            changed = true;
        }
    }
    Ok(changed)
}
