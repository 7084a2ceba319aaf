//! What lies ahead of a node, as a certificate shows it.
ghost use Rattle.std.specs.Prelude.{◌≡◌, ◌<◌, ◌≤◌, ℕ, [], suc, true, false, length, IfOk, IfSome, IsTrue, IsFalse};
ghost use Rattle.qc_model.specs.Content.{Rule};
ghost use Rattle.qc_model.specs.Domains.{has_empty};
ghost use Rattle.model_arguments.specs.Asked.{is_box_of};
ghost use Rattle.prop_engine.specs.Watching.{IsReady};
ghost use Rattle.qc_cascade.specs.Ahead.{IsEntered as IsFound, IsOpen};
ghost use Rattle.model_levels.specs.Spans.{IsSpanOf, is_number_within};
ghost use Rattle.search_box.specs.Foreseen.{IsForeseen};
ghost use Rattle.search_box.specs.Looking.{LooksAhead, scope_number, first_unseen};

use crate::foresight::{Foresight, foresee};
use fd_store::Store;
use model_arguments::Span;
use model_levels::Levels;
use proof_tree::Horizon;
use prop_engine::{Engine, Filter};
use qc_cascade::{Entered, enter, enter_under};
use qc_model::ScopeId;
use search_joint::Joint;
use search_trim::trimmed;
use std::alloc::{AllocError, Global};

// What is found ahead, up to the horizon in force.
fn found_ahead<F: Filter>(
    filter: &F,
    alloc: Global,
    levels: &Levels,
    engine: &mut Engine,
    i: ScopeId,
    in_force: Option<ScopeId>,
    store: &mut Store,
) -> Result<Entered, AllocError>
    requires ready { IsReady levels.now.problem.now engine.old }
    requires known { (c : Rule) → F.knows c ≡ true }
    requires scope { i.0 < length levels.now.problem.now.scopes }
    requires horizon { IfSome in_force (λ h. h.0 ≤ length levels.now.problem.now.scopes) }
    requires declared { is_box_of levels.now.problem.now store.old.box ≡ true }
    requires full { has_empty store.old.box ≡ false }
    ensures ready { IsReady levels.now.problem.now engine.new }
    ensures content { store.new.box ≡ store.old.box }
    ensures past { store.new.past ≡ store.old.past }
    ensures answer { IfOk result (λ e. IsFound levels.now.problem.now i.0 (first_unseen levels.now.problem.now (scope_number in_force)) store.old.box e.horizon e.steps) }
{
    match in_force {
        None => enter(filter, alloc, levels, engine, i, store),
        Some(horizon) => enter_under(filter, alloc, levels, engine, i, horizon, store),
    }
}

// A horizon for a node of scope i, nearer than the one in force, or none, without the steps that its empty domain doesn't
// need. The box and the past boxes are as before.
fn nearest_horizon<F: Filter>(
    filter: &F,
    alloc: Global,
    levels: &Levels,
    engine: &mut Engine,
    i: ScopeId,
    in_force: Option<ScopeId>,
    store: &mut Store,
) -> Result<Option<Horizon>, AllocError>
    requires ready { IsReady levels.now.problem.now engine.old }
    requires known { (c : Rule) → F.knows c ≡ true }
    requires scope { i.0 < length levels.now.problem.now.scopes }
    requires horizon { IfSome in_force (λ h. h.0 ≤ length levels.now.problem.now.scopes) }
    requires declared { is_box_of levels.now.problem.now store.old.box ≡ true }
    requires full { has_empty store.old.box ≡ false }
    ensures ready { IsReady levels.now.problem.now engine.new }
    ensures content { store.new.box ≡ store.old.box }
    ensures past { store.new.past ≡ store.old.past }
    ensures to { IfOk result (λ z. IfSome z (λ h. h.scope.0 ≤ length levels.now.problem.now.scopes)) }
    ensures answer { IfOk result (λ z. LooksAhead levels.now.problem.now i.0 store.old.box (scope_number in_force) z) }
{
    levels.problem.known();
    let found = found_ahead(filter, alloc, levels, engine, i, in_force, store)?;
    match found.horizon {
        None => Ok(None),
        Some(scope) => {
            let steps = trimmed(alloc, levels.problem, found.steps.items())?;
            Ok(Some(Horizon { scope, steps }))
        }
    }
}

// The first number that needn't be looked at.
fn stop_of(levels: &Levels, in_force: Option<ScopeId>) -> usize
    ensures { result ≡ first_unseen levels.now.problem.now (scope_number in_force) }
{
    match in_force {
        None => levels.problem.scopes() + 1,
        Some(horizon) => horizon.0 as usize,
    }
}

// Keeps the box of this node on the way, as far as the horizon that was found here: nodes below begin with it.
fn note(
    levels: &Levels,
    joint: &mut Joint,
    i: ScopeId,
    horizon: &Horizon,
    store: &Store,
) -> Result<(), AllocError>
    requires game { joint.old ≡ levels.now.problem.now }
    requires to { horizon.now.scope.0 ≤ length levels.now.problem.now.scopes }
    requires declared { is_box_of levels.now.problem.now store.now.box ≡ true }
    requires full { has_empty store.now.box ≡ false }
    ensures game { joint.new ≡ joint.old }
{
    let stop = horizon.scope.0 as usize;
    if !has_none(levels, i, stop) {
        let _ = joint.sees_through(levels, i, stop, store)?;
    }
    Ok(())
}

// Whether no constraint is of the scopes from i to the one before `stop`.
fn has_none(levels: &Levels, i: ScopeId, stop: usize) -> bool
    requires { stop ≤ suc (length levels.now.problem.now.scopes) }
    ensures none { IsTrue result → (k : ℕ) → IsFalse (is_number_within levels.now.problem.now i.0 stop k) }
    ensures ahead { IsFalse result → i.0 < stop }
{
    levels.problem.known();
    if stop <= i.0 as usize {
        return true;
    }
    let span = levels.constraints_between(i, ScopeId((stop - 1) as u8));
    span.end <= span.first
}

// The constraints of the scopes from i to the one before `stop`, where the own tree of scope i is closed for just these.
fn own_span(levels: &Levels, i: ScopeId, stop: usize) -> Option<Span>
    requires scope { i.0 < length levels.now.problem.now.scopes }
    requires ahead { i.0 < stop }
    requires stop { stop ≤ suc (length levels.now.problem.now.scopes) }
    ensures { IfSome result (λ s. IsSpanOf levels.now.problem.now i.0 stop s.first s.end) }
{
    levels.problem.known();
    let span = levels.constraints_between(i, ScopeId((stop - 1) as u8));
    let own = levels.level(i).in_force;
    if own.first != span.first {
        return None;
    }
    if own.end != span.end {
        return None;
    }
    Some(span)
}

// Whether a box within this one is found that is closed for the constraints of the scopes from i to the one before `stop`.
// Where the own tree is closed for the same constraints, the box itself is closed, and how is kept: then the own tree needn't do
// it again. Else it goes on from the boxes on the way.
fn sees<F: Filter>(
    filter: &F,
    alloc: Global,
    levels: &Levels,
    joint: &mut Joint,
    engine: &mut Engine,
    i: ScopeId,
    stop: usize,
    store: &mut Store,
    foresight: &mut Foresight,
) -> Result<bool, AllocError>
    requires ready { IsReady levels.now.problem.now engine.old }
    requires game { joint.old ≡ levels.now.problem.now }
    requires known { (c : Rule) → F.knows c ≡ true }
    requires scope { i.0 < length levels.now.problem.now.scopes }
    requires stop { stop ≤ suc (length levels.now.problem.now.scopes) }
    requires declared { is_box_of levels.now.problem.now store.old.box ≡ true }
    requires full { has_empty store.old.box ≡ false }
    ensures ready { IsReady levels.now.problem.now engine.new }
    ensures game { joint.new ≡ joint.old }
    ensures content { store.new.box ≡ store.old.box }
    ensures past { store.new.past ≡ store.old.past }
    ensures seen { IfOk result (λ ok. IsTrue ok → IsOpen levels.now.problem.now i.0 stop store.old.box []) }
    ensures foreseen { IsTrue foresight.new.known → IsForeseen levels.now.problem.now store.new foresight.new }
{
    levels.problem.known();
    foresight.known = false;
    if has_none(levels, i, stop) {
        return Ok(true);
    }
    match own_span(levels, i, stop) {
        Some(span) => foresee(
            filter,
            alloc,
            levels.problem,
            engine,
            span,
            store,
            foresight,
        ),
        None => joint.sees_through(levels, i, stop, store),
    }
}

/// A horizon for a node of scope i, nearer than the one in force, or none: first by one closing for all that lies ahead, or by
/// the boxes on the way, which tell at little cost that there is none, and else scope by scope. The box and the past boxes are as
/// before.
pub(crate) fn look<F: Filter>(
    filter: &F,
    alloc: Global,
    levels: &Levels,
    joint: &mut Joint,
    engine: &mut Engine,
    i: ScopeId,
    in_force: Option<ScopeId>,
    store: &mut Store,
    foresight: &mut Foresight,
) -> Result<Option<Horizon>, AllocError>
    requires ready { IsReady levels.now.problem.now engine.old }
    requires game { joint.old ≡ levels.now.problem.now }
    requires known { (c : Rule) → F.knows c ≡ true }
    requires scope { i.0 < length levels.now.problem.now.scopes }
    requires horizon { IfSome in_force (λ h. h.0 ≤ length levels.now.problem.now.scopes) }
    requires declared { is_box_of levels.now.problem.now store.old.box ≡ true }
    requires full { has_empty store.old.box ≡ false }
    ensures ready { IsReady levels.now.problem.now engine.new }
    ensures game { joint.new ≡ joint.old }
    ensures content { store.new.box ≡ store.old.box }
    ensures past { store.new.past ≡ store.old.past }
    ensures foreseen { IsTrue foresight.new.known → IsForeseen levels.now.problem.now store.new foresight.new }
    ensures answer { IfOk result (λ z. LooksAhead levels.now.problem.now i.0 store.old.box (scope_number in_force) z) }
{
    let stop = stop_of(levels, in_force);
    if sees(
        filter, alloc, levels, joint, engine, i, stop, store, foresight,
    )? {
        return Ok(None);
    }
    match nearest_horizon(filter, alloc, levels, engine, i, in_force, store)? {
        None => Ok(None),
        Some(horizon) => {
            note(levels, joint, i, &horizon, store)?;
            Ok(Some(horizon))
        }
    }
}
