//! A store that is brought within another one, and closed there.
ghost use Rattle.std.specs.Prelude.{◌≡◌, ◌<◌, ◌≤◌, [], length, IfOk, IsTrue, IsFalse};
ghost use Rattle.qc_model.specs.Closed.{keeps_ends};
ghost use Rattle.qc_model.specs.Domains.{Box, has_empty, is_none_left, is_sub_box, values_left};
ghost use Rattle.model_arguments.specs.Asked.{is_box_of};
ghost use Rattle.fd_store.specs.Held.{Follows};
ghost use Rattle.prop_engine.specs.Closing.{EachRule, IsClosing, is_between};
ghost use Rattle.prop_engine.specs.Watching.{IsReady, WasKept};
ghost use Rattle.search_joint.specs.Inside.{AreSettled, IsClosedInside, IsSettled};
ghost use Rattle.search_joint.specs.Narrowed.{IsNarrowed};

use crate::narrowing::narrow;
use fd_store::Store;
use model_arguments::Span;
use proof_tree::StepList;
use prop_engine::{Closed, Engine, Filter};
use qc_model::{Problem, VarId};
use std::alloc::{AllocError, Global};

// Takes out of x what the other store doesn't have, names x where there was something, and says whether x has values left.
fn settle(
    store: &mut Store,
    within: &Store,
    x: VarId,
    changed: &mut Vec<VarId>,
) -> Result<bool, AllocError>
    requires var { x.0 < length store.old.box }
    requires there { x.0 < length within.now.box }
    requires full { IsFalse (has_empty store.old.box) }
    requires full_there { IsFalse (has_empty within.now.box) }
    ensures narrowed { IsNarrowed x.0 store.old store.new }
    ensures settled { IfOk result (λ some. IsTrue some → IsSettled x.0 changed.old.items changed.new.items store.old.box store.new.box within.now.box) }
{
    if !narrow(store, within, x)? {
        return Ok(true);
    }
    changed.push(x)?;
    Ok(store.size(x) > 0)
}

// The same for each variable: `changed` names those that lost something.
fn settle_all(
    store: &mut Store,
    within: &Store,
    changed: &mut Vec<VarId>,
) -> Result<bool, AllocError>
    requires few { length store.old.box ≤ 500 }
    requires count { length store.old.box ≡ length within.now.box }
    requires full { IsFalse (has_empty store.old.box) }
    requires full_there { IsFalse (has_empty within.now.box) }
    ensures follows { Follows store.old store.new }
    ensures fewer { (large : Box) → IsTrue (is_sub_box store.old.box large) → IsTrue (is_sub_box store.new.box large) }
    ensures settled { IfOk result (λ some. IsTrue some → AreSettled changed.new.items store.old.box store.new.box within.now.box) }
{
    for at in 0..store.count() {
        if !settle(store, within, VarId(at as u16), changed)? {
            return Ok(false);
        }
    }
    Ok(true)
}

// Closes the store for the constraints of the span, where it is known that they all kept their ends in a box from which this
// one differs at the changed variables alone, or from nothing.
fn close<F: Filter>(
    filter: &F,
    alloc: Global,
    problem: &Problem,
    span: Span,
    was_kept: bool,
    changed: &[VarId],
    engine: &mut Engine,
    store: &mut Store,
    steps: &mut StepList,
) -> Result<Closed, AllocError>
    requires ready { IsReady problem.now engine.old }
    requires span { span.end ≤ length problem.now.constraints }
    requires known { EachRule (is_between span.first span.end) problem.now F.knows }
    requires declared { IsTrue (is_box_of problem.now store.old.box) }
    requires full { IsFalse (has_empty store.old.box) }
    requires earlier { IsTrue was_kept → WasKept (is_between span.first span.end) problem.now changed.now store.old.box }
    ensures ready { IsReady problem.now engine.new }
    ensures follows { Follows store.old store.new }
    ensures fewer { (large : Box) → IsTrue (is_sub_box store.old.box large) → IsTrue (is_sub_box store.new.box large) }
    ensures answer { IfOk result (λ a. IsClosing a (is_between span.first span.end) problem.now store.new.box) }
{
    steps.clear();
    if was_kept {
        return engine.close_changed(filter, alloc, problem, span, changed, store, steps);
    }
    engine.close_span(filter, alloc, problem, span, store, steps)
}

/// Brings the store within the other one, and closes it for the constraints of the span; `was_kept` says that they all keep
/// their ends in it as it is. It says whether that leaves a box without an empty domain.
pub(crate) fn close_inside<F: Filter>(
    filter: &F,
    alloc: Global,
    problem: &Problem,
    span: Span,
    was_kept: bool,
    within: &Store,
    changed: &mut Vec<VarId>,
    engine: &mut Engine,
    store: &mut Store,
    steps: &mut StepList,
) -> Result<bool, AllocError>
    requires ready { IsReady problem.now engine.old }
    requires span { span.end ≤ length problem.now.constraints }
    requires known { EachRule (is_between span.first span.end) problem.now F.knows }
    requires declared { IsTrue (is_box_of problem.now store.old.box) }
    requires full { IsFalse (has_empty store.old.box) }
    requires declared_there { IsTrue (is_box_of problem.now within.now.box) }
    requires full_there { IsFalse (has_empty within.now.box) }
    requires kept { IsTrue was_kept → EachRule (is_between span.first span.end) problem.now (keeps_ends store.old.box) }
    ensures ready { IsReady problem.now engine.new }
    ensures follows { Follows store.old store.new }
    ensures answer { IfOk result (λ ok. IsTrue ok → IsClosedInside (is_between span.first span.end) problem.now store.new.box within.now.box) }
{
    problem.known();
    changed.clear();
    if !settle_all(store, within, changed)? {
        return Ok(false);
    }
    match close(
        filter, alloc, problem, span, was_kept, changed, engine, store, steps,
    )? {
        Closed::Open => Ok(true),
        Closed::Empty => Ok(false),
    }
}
