//! Rounds over the items, until one changes nothing.
//!
//! A round takes each item in turn, and removes what the full ranges take that begin at its least value, until they take
//! nothing. A removal may make ranges full that begin elsewhere. So a round in which nothing was removed shows that all
//! full ranges leave all items alone.
ghost use Rattle.std.specs.Prelude.{◌≡◌, ◌<◌, ℕ, [], true, IsTrue, IfOk, length, map, get_or};
ghost use Rattle.qc_model.specs.declared.problem.Arg.TheVariants.{Var};
ghost use Rattle.qc_model.specs.Domains.{least_value};
ghost use Rattle.qc_model.specs.Refuted.{left_to};
ghost use Rattle.qc_model.specs.Valid.{arg_sees};
ghost use Rattle.model_arguments.specs.Asked.{IsAsked};
ghost use Rattle.prop_base.specs.Filtering.{Answers, Fits, Prunes};
ghost use Rattle.prop_different.specs.Different.{IsDifferent};
ghost use Rattle.prop_different.specs.Parts.{IsPart};
ghost use Rattle.prop_different.specs.Quiet.{IsQuiet, IsQuietNext, AllQuiet};

use crate::walk::first_cut;
use fd_store::Store;
use proof_tree::StepList;
use prop_base::{Asked, Filtered, prune};
use prop_compare::least;
use qc_model::{Arg, Constraint, Problem, VarId};
use std::alloc::AllocError;

// Until the full ranges that begin at the least value of the item at a place take nothing.
fn settle(
    asked: Asked,
    items: &[Arg],
    place: usize,
    spare: VarId,
    store: &mut Store,
    steps: &mut StepList,
    rooms: &mut [u16],
) -> Result<Filtered, AllocError>
    requires fits { Fits asked store.old }
    requires different { IsDifferent asked.problem.now asked.rule.now items.now }
    requires place { place < length items.now }
    requires spare { IsTrue (arg_sees asked.problem.now.variables asked.rule.now.owner.0 (Var spare)) }
    requires rooms { length rooms.old ≡ length items.now }
    ensures length { length rooms.new ≡ length items.now }
    ensures pruning { Prunes asked.entry store.old store.new steps.old steps.new }
    ensures answer { IfOk result (λ f. IsPart f (λ box. IsQuiet (map (left_to box) items.now) (least_value (get_or (map (left_to box) items.now) place []))) store.old.box store.new.box steps.old steps.new) }
{
    let mut changed = false;
    while let Some(cut) = first_cut(asked.problem, asked.rule, items, place, spare, store, rooms) {
        if prune(asked, cut, store, steps)? {
            return Ok(Filtered::Emptied);
        }
        changed = true;
    }
    if changed {
        Ok(Filtered::Changed)
    } else {
        Ok(Filtered::Stable)
    }
}

// Whether an item before the place has the same least value, so that the same ranges begin there. To miss one would cost
// time alone.
fn begins_before(
    problem: &Problem,
    rule: &Constraint,
    items: &[Arg],
    place: usize,
    store: &Store,
) -> bool
    requires asked { IsAsked problem.now rule.now store.now.box }
    requires different { IsDifferent problem.now rule.now items.now }
    requires place { place < length items.now }
    ensures { result ≡ true → (j : ℕ) × (j < place) × (least_value (get_or (map (left_to store.now.box) items.now) j []) ≡ least_value (get_or (map (left_to store.now.box) items.now) place [])) }
{
    let _ = (problem.constraints(), rule.pred);
    let low = least(items[place], store);
    for j in 0..place {
        if least(items[j], store) == low {
            return true;
        }
    }
    false
}

// The item at a place, unless the ranges that begin at its least value had their turn.
fn take_turn(
    asked: Asked,
    items: &[Arg],
    place: usize,
    spare: VarId,
    store: &mut Store,
    steps: &mut StepList,
    rooms: &mut [u16],
) -> Result<Filtered, AllocError>
    requires fits { Fits asked store.old }
    requires different { IsDifferent asked.problem.now asked.rule.now items.now }
    requires place { place < length items.now }
    requires spare { IsTrue (arg_sees asked.problem.now.variables asked.rule.now.owner.0 (Var spare)) }
    requires rooms { length rooms.old ≡ length items.now }
    ensures length { length rooms.new ≡ length items.now }
    ensures pruning { Prunes asked.entry store.old store.new steps.old steps.new }
    ensures answer { IfOk result (λ f. IsPart f (λ box. IsQuietNext (map (left_to box) items.now) place) store.old.box store.new.box steps.old steps.new) }
{
    if begins_before(asked.problem, asked.rule, items, place, store) {
        return Ok(Filtered::Stable);
    }
    settle(asked, items, place, spare, store, steps, rooms)
}

// Each item in turn.
fn round(
    asked: Asked,
    items: &[Arg],
    spare: VarId,
    store: &mut Store,
    steps: &mut StepList,
    rooms: &mut [u16],
) -> Result<Filtered, AllocError>
    requires fits { Fits asked store.old }
    requires different { IsDifferent asked.problem.now asked.rule.now items.now }
    requires spare { IsTrue (arg_sees asked.problem.now.variables asked.rule.now.owner.0 (Var spare)) }
    requires rooms { length rooms.old ≡ length items.now }
    ensures length { length rooms.new ≡ length items.now }
    ensures pruning { Prunes asked.entry store.old store.new steps.old steps.new }
    ensures answer { IfOk result (λ f. IsPart f (λ box. AllQuiet (map (left_to box) items.now)) store.old.box store.new.box steps.old steps.new) }
{
    let mut changed = false;
    for k in 0..items.len() {
        match take_turn(asked, items, k, spare, store, steps, rooms)? {
            Filtered::Emptied => return Ok(Filtered::Emptied),
            Filtered::Stable => {}
            Filtered::Changed => changed = true,
        }
    }
    if changed {
        Ok(Filtered::Changed)
    } else {
        Ok(Filtered::Stable)
    }
}

/// Removes what full ranges take from items that don't lie in them, until they leave all items alone. Where a range holds
/// too many items, all values of the spare variable go.
pub(crate) fn settle_all(
    asked: Asked,
    items: &[Arg],
    spare: VarId,
    store: &mut Store,
    steps: &mut StepList,
    rooms: &mut [u16],
) -> Result<Filtered, AllocError>
    requires fits { Fits asked store.old }
    requires different { IsDifferent asked.problem.now asked.rule.now items.now }
    requires spare { IsTrue (arg_sees asked.problem.now.variables asked.rule.now.owner.0 (Var spare)) }
    requires rooms { length rooms.old ≡ length items.now }
    ensures pruning { Prunes asked.entry store.old store.new steps.old steps.new }
    ensures answer { Answers asked.entry store.new steps.old steps.new result }
{
    let mut changed = false;
    loop {
        match round(asked, items, spare, store, steps, rooms)? {
            Filtered::Emptied => return Ok(Filtered::Emptied),
            Filtered::Stable => break,
            Filtered::Changed => changed = true,
        }
    }
    if changed {
        Ok(Filtered::Changed)
    } else {
        Ok(Filtered::Stable)
    }
}
