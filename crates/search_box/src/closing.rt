//! Closing a store for the constraints in force at a scope.
ghost use Rattle.std.specs.Prelude.{◌≡◌, true, false, IfOk, IsTrue};
ghost use Rattle.qc_model.specs.Content.{Rule};
ghost use Rattle.qc_model.specs.Domains.{has_empty, is_sub_box};
ghost use Rattle.model_arguments.specs.Asked.{is_box_of};
ghost use Rattle.fd_store.specs.Held.{Follows};
ghost use Rattle.prop_engine.specs.Watching.{IsReady};
ghost use Rattle.search_box.specs.Closes.{IsClosingAt, IsPruned, WasClosed};
ghost use Rattle.search_box.specs.Foreseen.{IsForeseen};

use crate::foresight::{Foresight, is_foreseen};
use crate::repeating::repeat;
use fd_store::Store;
use model_levels::Level;
use proof_tree::StepList;
use prop_engine::{Closed, Engine, Filter};
use qc_model::VarId;
use std::alloc::{AllocError, Global};

// Runs the filters of all constraints in force, and those that removals wake, until nothing more is removed.
fn close_all<F: Filter>(
    filter: &F,
    alloc: Global,
    level: &Level,
    engine: &mut Engine,
    store: &mut Store,
    steps: &mut StepList,
) -> Result<Closed, AllocError>
    requires ready { IsReady level.now.problem.now engine.old }
    requires known { (c : Rule) → F.knows c ≡ true }
    requires declared { is_box_of level.now.problem.now store.old.box ≡ true }
    requires full { has_empty store.old.box ≡ false }
    ensures ready { IsReady level.now.problem.now engine.new }
    ensures pruned { IsPruned level.now.problem.now level.now.number store.old.box store.new.box steps.old steps.new }
    ensures fewer { is_sub_box store.new.box store.old.box ≡ true }
    ensures declared { is_box_of level.now.problem.now store.new.box ≡ true }
    ensures follows { Follows store.old store.new }
    ensures answer { IfOk result (λ a. IsClosingAt a level.now.problem.now level.now.number store.new.box) }
{
    level.problem.known();
    engine.close_span(filter, alloc, level.problem, level.in_force, store, steps)
}

/// So, or by the same removals once more where the box was closed for these constraints when it was looked ahead from.
pub(crate) fn close_once<F: Filter>(
    filter: &F,
    alloc: Global,
    level: &Level,
    foresight: &Foresight,
    engine: &mut Engine,
    store: &mut Store,
    steps: &mut StepList,
) -> Result<Closed, AllocError>
    requires ready { IsReady level.now.problem.now engine.old }
    requires known { (c : Rule) → F.knows c ≡ true }
    requires declared { is_box_of level.now.problem.now store.old.box ≡ true }
    requires full { has_empty store.old.box ≡ false }
    requires foreseen { IsTrue foresight.now.known → IsForeseen level.now.problem.now store.old foresight.now }
    ensures ready { IsReady level.now.problem.now engine.new }
    ensures pruned { IsPruned level.now.problem.now level.now.number store.old.box store.new.box steps.old steps.new }
    ensures fewer { is_sub_box store.new.box store.old.box ≡ true }
    ensures declared { is_box_of level.now.problem.now store.new.box ≡ true }
    ensures follows { Follows store.old store.new }
    ensures answer { IfOk result (λ a. IsClosingAt a level.now.problem.now level.now.number store.new.box) }
{
    level.problem.known();
    if is_foreseen(foresight, level.in_force, store) {
        repeat(
            level.problem,
            level.in_force,
            foresight.steps.items(),
            store,
            steps,
        )?;
        return Ok(Closed::Open);
    }
    close_all(filter, alloc, level, engine, store, steps)
}

/// Closes it where a box was closed before in which only these variables have changed since: only the constraints that
/// mention them, and those that removals wake, run.
pub(crate) fn close_changed<F: Filter>(
    filter: &F,
    alloc: Global,
    level: &Level,
    changed: &[VarId],
    engine: &mut Engine,
    store: &mut Store,
    steps: &mut StepList,
) -> Result<Closed, AllocError>
    requires ready { IsReady level.now.problem.now engine.old }
    requires known { (c : Rule) → F.knows c ≡ true }
    requires declared { is_box_of level.now.problem.now store.old.box ≡ true }
    requires full { has_empty store.old.box ≡ false }
    requires earlier { WasClosed level.now.problem.now level.now.number changed.now store.old.box }
    ensures ready { IsReady level.now.problem.now engine.new }
    ensures pruned { IsPruned level.now.problem.now level.now.number store.old.box store.new.box steps.old steps.new }
    ensures fewer { is_sub_box store.new.box store.old.box ≡ true }
    ensures declared { is_box_of level.now.problem.now store.new.box ≡ true }
    ensures follows { Follows store.old store.new }
    ensures answer { IfOk result (λ a. IsClosingAt a level.now.problem.now level.now.number store.new.box) }
{
    level.problem.known();
    engine.close_changed(
        filter,
        alloc,
        level.problem,
        level.in_force,
        changed,
        store,
        steps,
    )
}
