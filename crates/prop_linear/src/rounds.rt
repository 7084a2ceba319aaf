//! One round over a sum that is to be one number, with variables that stand once.
//!
//! The slacks on both sides are those at the start of the round. The least of a sum only rises while values go, and its
//! greatest only falls, so what is too far by these slacks is too far at each later moment too.
ghost use Rattle.std.specs.Prelude.{◌≡◌, ◌<◌, ◌+◌, IsTrue, IsFalse, OnOk, IfOk, IfSome, length, pos, ◌+ℤ◌, ◌≤ℤ◌, Bool, true, false};
ghost use Rattle.std.specs.List.{list_all};
ghost use Rattle.qc_model.specs.Domains.{has_empty, values_left};
ghost use Rattle.qc_model.specs.Valid.{arg_sees, is_number};
ghost use Rattle.qc_refuter.specs.Met.{is_domain_left};
ghost use Rattle.prop_base.specs.Filtering.{Fits, Prunes};
ghost use Rattle.prop_linear.specs.Sides.{IsPast, AreNear, signed};
ghost use Rattle.model_arguments.specs.Repeats.{has_repeat};
ghost use Rattle.prop_linear.specs.Tightening.{AlikeOutside, IsNear, least_sum};

use crate::places::moves;
use crate::sums::Widest;
use crate::tighten::tighten_place;
use fd_store::Store;
use model_arguments::width;
use proof_tree::StepList;
use prop_base::Asked;
use qc_model::{Arg, VarId};
use std::alloc::AllocError;

// Whether a term of x moves by at most s, and at most t.
fn is_near_both(factor: i64, x: VarId, s: u128, t: u128, store: &Store) -> bool
    requires x { x.0 < length store.now.box }
    requires open { IsTrue (is_domain_left (values_left store.now.box x.0)) }
    ensures over { IsTrue result → IsNear factor s (values_left store.now.box x.0) }
    ensures under { IsTrue result → IsNear factor t (values_left store.now.box x.0) }
{
    let room = moves(factor, width(store.min(x), store.max(x)));
    if s < room {
        return false;
    }
    room <= t
}

// What is too far at place k, on both sides, goes. Mostly nothing is, and one look at the place's two ends tells it.
#[inline(always)]
fn tighten_both(
    asked: Asked,
    factors: &[i64],
    items: &[Arg],
    k: usize,
    s: u128,
    t: u128,
    store: &mut Store,
    steps: &mut StepList,
) -> Result<bool, AllocError>
    requires fits { Fits asked store.old }
    requires over { IsPast asked.rule.now store.old.box factors.now items.now (least_sum factors.now items.now store.old.box +ℤ pos s) }
    requires under { IsPast asked.rule.now store.old.box (signed true factors.now) items.now (least_sum (signed true factors.now) items.now store.old.box +ℤ pos t) }
    requires once { IsFalse (has_repeat items.now) }
    requires equal { length factors.now ≡ length items.now }
    requires factors { IsTrue (list_all is_number factors.now) }
    requires sees { IsTrue (list_all (arg_sees asked.problem.now.variables asked.rule.now.owner.0) items.now) }
    requires place { k < length items.now }
    ensures pruning { Prunes asked.entry store.old store.new steps.old steps.new }
    ensures full { OnOk result (IsFalse (has_empty store.new.box)) }
    ensures rises { OnOk result ((b : Bool) → least_sum (signed b factors.now) items.now store.old.box ≤ℤ least_sum (signed b factors.now) items.now store.new.box) }
    ensures alike { OnOk result (AlikeOutside items.now store.old.box store.new.box) }
    ensures near { IfOk result (λ b. b ≡ false → AreNear k s t factors.now items.now store.old.box → AreNear (k + 1) s t factors.now items.now store.old.box) }
    ensures grown { IfOk result (λ b. (b ≡ true → length steps.old < length steps.new) × (b ≡ false → steps.new ≡ steps.old)) }
{
    asked.problem.known();
    let Arg::Var(x) = items[k] else {
        return Ok(false);
    };
    if is_near_both(factors[k], x, s, t, store) {
        return Ok(false);
    }
    let over = tighten_place(asked, factors, items, k, false, s, store, steps)?;
    let under = tighten_place(asked, factors, items, k, true, t, store, steps)?;
    Ok(over || under)
}

// Removes at each place what is too far above the least of the sum, by more than s, or below its greatest, by more than
// t. It answers whether something was removed. No domain is emptied.
#[inline(never)]
fn tighten_round(
    asked: Asked,
    factors: &[i64],
    items: &[Arg],
    s: u128,
    t: u128,
    store: &mut Store,
    steps: &mut StepList,
) -> Result<bool, AllocError>
    requires fits { Fits asked store.old }
    requires over { IsPast asked.rule.now store.old.box factors.now items.now (least_sum factors.now items.now store.old.box +ℤ pos s) }
    requires under { IsPast asked.rule.now store.old.box (signed true factors.now) items.now (least_sum (signed true factors.now) items.now store.old.box +ℤ pos t) }
    requires once { IsFalse (has_repeat items.now) }
    requires equal { length factors.now ≡ length items.now }
    requires factors { IsTrue (list_all is_number factors.now) }
    requires sees { IsTrue (list_all (arg_sees asked.problem.now.variables asked.rule.now.owner.0) items.now) }
    ensures pruning { Prunes asked.entry store.old store.new steps.old steps.new }
    ensures full { OnOk result (IsFalse (has_empty store.new.box)) }
    ensures alike { OnOk result (AlikeOutside items.now store.old.box store.new.box) }
    ensures near { IfOk result (λ b. b ≡ false → AreNear (length items.now) s t factors.now items.now store.old.box) }
    ensures grown { IfOk result (λ b. (b ≡ true → length steps.old < length steps.new) × (b ≡ false → steps.new ≡ steps.old)) }
{
    let mut changed = false;
    for k in 0..items.len() {
        if tighten_both(asked, factors, items, k, s, t, store, steps)? {
            changed = true;
        }
    }
    Ok(changed)
}

// Goes over the places, the k-th first: where something goes there, the sum is to be looked at anew.
#[inline(always)]
fn tighten_first(
    asked: Asked,
    factors: &[i64],
    items: &[Arg],
    k: usize,
    s: u128,
    t: u128,
    store: &mut Store,
    steps: &mut StepList,
) -> Result<bool, AllocError>
    requires fits { Fits asked store.old }
    requires over { IsPast asked.rule.now store.old.box factors.now items.now (least_sum factors.now items.now store.old.box +ℤ pos s) }
    requires under { IsPast asked.rule.now store.old.box (signed true factors.now) items.now (least_sum (signed true factors.now) items.now store.old.box +ℤ pos t) }
    requires once { IsFalse (has_repeat items.now) }
    requires equal { length factors.now ≡ length items.now }
    requires factors { IsTrue (list_all is_number factors.now) }
    requires sees { IsTrue (list_all (arg_sees asked.problem.now.variables asked.rule.now.owner.0) items.now) }
    requires place { k < length items.now }
    ensures pruning { Prunes asked.entry store.old store.new steps.old steps.new }
    ensures full { OnOk result (IsFalse (has_empty store.new.box)) }
    ensures alike { OnOk result (AlikeOutside items.now store.old.box store.new.box) }
    ensures near { IfOk result (λ b. b ≡ false → AreNear (length items.now) s t factors.now items.now store.old.box) }
    ensures grown { IfOk result (λ b. (b ≡ true → length steps.old < length steps.new) × (b ≡ false → steps.new ≡ steps.old)) }
{
    if tighten_both(asked, factors, items, k, s, t, store, steps)? {
        return Ok(true);
    }
    tighten_round(asked, factors, items, s, t, store, steps)
}

// The place of the widest term, where the others move by at most s, and at most t.
#[inline(always)]
fn lone_place(widest: Widest, count: usize, s: u128, t: u128) -> Option<usize>
    ensures { IfSome result (λ k. k < count) }
{
    let others = widest.others as u128;
    if s < others || t < others {
        return None;
    }
    if widest.place < count {
        Some(widest.place)
    } else {
        None
    }
}

/// Removes at each place what is too far above the least of the sum, by more than s, or below its greatest, by more than
/// t. It answers whether something was removed. No domain is emptied. Mostly the widest term alone moves too far: where the
/// others are near, its place is all there is to do.
#[inline(always)]
pub(crate) fn tighten_places(
    asked: Asked,
    factors: &[i64],
    items: &[Arg],
    widest: Widest,
    s: u128,
    t: u128,
    store: &mut Store,
    steps: &mut StepList,
) -> Result<bool, AllocError>
    requires fits { Fits asked store.old }
    requires over { IsPast asked.rule.now store.old.box factors.now items.now (least_sum factors.now items.now store.old.box +ℤ pos s) }
    requires under { IsPast asked.rule.now store.old.box (signed true factors.now) items.now (least_sum (signed true factors.now) items.now store.old.box +ℤ pos t) }
    requires once { IsFalse (has_repeat items.now) }
    requires equal { length factors.now ≡ length items.now }
    requires factors { IsTrue (list_all is_number factors.now) }
    requires sees { IsTrue (list_all (arg_sees asked.problem.now.variables asked.rule.now.owner.0) items.now) }
    ensures pruning { Prunes asked.entry store.old store.new steps.old steps.new }
    ensures full { OnOk result (IsFalse (has_empty store.new.box)) }
    ensures alike { OnOk result (AlikeOutside items.now store.old.box store.new.box) }
    ensures near { IfOk result (λ b. b ≡ false → AreNear (length items.now) s t factors.now items.now store.old.box) }
    ensures grown { IfOk result (λ b. (b ≡ true → length steps.old < length steps.new) × (b ≡ false → steps.new ≡ steps.old)) }
{
    match lone_place(widest, items.len(), s, t) {
        None => tighten_round(asked, factors, items, s, t, store, steps),
        Some(k) => tighten_first(asked, factors, items, k, s, t, store, steps),
    }
}
