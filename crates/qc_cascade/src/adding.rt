//! Closing a box that is closed for some constraints for others too.
ghost use Rattle.std.specs.Prelude.{◌≡◌, ◌≤◌, length, drop, IsTrue, IsFalse, IfOk};
ghost use Rattle.qc_model.specs.Closed.{keeps_ends};
ghost use Rattle.qc_model.specs.Domains.{has_empty};
ghost use Rattle.model_arguments.specs.Asked.{is_box_of};
ghost use Rattle.prop_base.specs.Pruning.{IsPruning};
ghost use Rattle.prop_engine.specs.Closing.{EachRule, IsClosing, is_between};
ghost use Rattle.prop_engine.specs.Watching.{IsReady, WasKept, changed_by, step_variable};
ghost use Rattle.qc_cascade.specs.Adding.{is_either};
ghost use Rattle.qc_cascade.specs.Ahead.{EachKnown};

use fd_store::Store;
use model_arguments::Span;
use proof_tree::{Step, StepList};
use prop_engine::{Closed, Engine, Filter};
use qc_model::{Problem, VarId};
use std::alloc::{AllocError, Global};

// The variable that a step takes values from.
fn variable_of(step: &Step) -> VarId
    ensures { result ≡ step_variable step.now }
{
    match step {
        Step::Prune { x, .. } => *x,
        Step::Bound { x, .. } => *x,
    }
}

// The variables that the steps from a place on take values from.
fn changed_since(alloc: Global, steps: &StepList, from: usize) -> Result<Vec<VarId>, AllocError>
    requires { from ≤ length steps.now }
    ensures { IfOk result (λ xs. xs.items ≡ changed_by (drop from steps.now)) }
{
    let fresh = &steps.items()[from..];
    let mut variables = Vec::with_capacity(alloc, fresh.len())?;
    for step in fresh {
        variables.push(variable_of(step))?;
    }
    Ok(variables)
}

// Closes two spans in turn, each after what the other removed, until one removes nothing. It begins with `behind`, whose
// constraints kept their ends before the steps from the place `from` on; those of `settled` keep them now.
fn close_in_turn<F: Filter>(
    filter: &F,
    alloc: Global,
    problem: &Problem,
    engine: &mut Engine,
    behind: Span,
    settled: Span,
    from: usize,
    store: &mut Store,
    steps: &mut StepList,
) -> Result<Closed, AllocError>
    requires ready { IsReady problem.now engine.old }
    requires behind { behind.end ≤ length problem.now.constraints }
    requires settled { settled.end ≤ length problem.now.constraints }
    requires known { EachKnown problem.now F.knows }
    requires declared { IsTrue (is_box_of problem.now store.old.box) }
    requires full { IsFalse (has_empty store.old.box) }
    requires from { from ≤ length steps.old }
    requires earlier { WasKept (is_between behind.first behind.end) problem.now (changed_by (drop from steps.old)) store.old.box }
    requires kept { EachRule (is_between settled.first settled.end) problem.now (keeps_ends store.old.box) }
    ensures ready { IsReady problem.now engine.new }
    ensures pruning { IsPruning (is_either behind settled) problem.now store.old store.new steps.old steps.new }
    ensures answer { IfOk result (λ a. IsClosing a (is_either behind settled) problem.now store.new.box) }
{
    let mut due = behind;
    let mut other = settled;
    let mut since = from;
    loop {
        let changed = changed_since(alloc, steps, since)?;
        if changed.is_empty() {
            return Ok(Closed::Open);
        }
        since = steps.items().len();
        match engine.close_changed(filter, alloc, problem, due, &changed, store, steps)? {
            Closed::Open => {}
            Closed::Empty => return Ok(Closed::Empty),
        }
        let ran = due;
        due = other;
        other = ran;
    }
}

/// Closes the box, which is closed for the constraints of the span `closed`, for those of `fresh` too. It runs those of
/// `fresh` first, and of the others those alone that removals concern.
pub(crate) fn close_added<F: Filter>(
    filter: &F,
    alloc: Global,
    problem: &Problem,
    engine: &mut Engine,
    closed: Span,
    fresh: Span,
    store: &mut Store,
    steps: &mut StepList,
) -> Result<Closed, AllocError>
    requires ready { IsReady problem.now engine.old }
    requires closed { closed.end ≤ length problem.now.constraints }
    requires fresh { fresh.end ≤ length problem.now.constraints }
    requires known { EachKnown problem.now F.knows }
    requires declared { IsTrue (is_box_of problem.now store.old.box) }
    requires full { IsFalse (has_empty store.old.box) }
    requires kept { EachRule (is_between closed.first closed.end) problem.now (keeps_ends store.old.box) }
    ensures ready { IsReady problem.now engine.new }
    ensures pruning { IsPruning (is_either closed fresh) problem.now store.old store.new steps.old steps.new }
    ensures answer { IfOk result (λ a. IsClosing a (is_either closed fresh) problem.now store.new.box) }
{
    let from = steps.items().len();
    match engine.close_span(filter, alloc, problem, fresh, store, steps)? {
        Closed::Open => {}
        Closed::Empty => return Ok(Closed::Empty),
    }
    close_in_turn(
        filter, alloc, problem, engine, closed, fresh, from, store, steps,
    )
}
