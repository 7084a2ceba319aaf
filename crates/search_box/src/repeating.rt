//! Removals that are done once more.
ghost use Rattle.std.specs.Prelude.{◌≡◌, true, OnOk};
ghost use Rattle.proof_tree.specs.Steps.{after_step, after_steps};
ghost use Rattle.prop_base.specs.Pruning.{IsPruning, are_pruned_by, is_pruned_by};
ghost use Rattle.prop_engine.specs.Closing.{is_between};

use fd_store::Store;
use model_arguments::Span;
use proof_tree::{Step, StepList};
use qc_model::Problem;
use std::alloc::AllocError;

// One of them.
fn repeat_one(
    problem: &Problem,
    span: Span,
    step: Step,
    store: &mut Store,
    steps: &mut StepList,
) -> Result<(), AllocError>
    requires { is_pruned_by (is_between span.first span.end) problem.now step store.old.box ≡ true }
    ensures pruning { IsPruning (is_between span.first span.end) problem.now store.old store.new steps.old steps.new }
    ensures content { OnOk result (store.new.box ≡ after_step step store.old.box) }
{
    let _ = (problem.variables(), span.first);
    let Step::Prune { x, lo, hi, .. } = step else {
        return Ok(());
    };
    let need = store.trail_need(x, lo, hi);
    store.reserve_trail(need)?;
    steps.push(step)?;
    let _ = store.remove(x, lo, hi);
    Ok(())
}

/// Takes out once more what these removals by constraints of the span took out of such a box. After a refusal the steps appended
/// are exactly the removals made.
pub(crate) fn repeat(
    problem: &Problem,
    span: Span,
    taken: &[Step],
    store: &mut Store,
    steps: &mut StepList,
) -> Result<(), AllocError>
    requires { are_pruned_by (is_between span.first span.end) problem.now taken.now store.old.box ≡ true }
    ensures pruning { IsPruning (is_between span.first span.end) problem.now store.old store.new steps.old steps.new }
    ensures content { OnOk result (store.new.box ≡ after_steps taken.now store.old.box) }
{
    for step in taken {
        repeat_one(problem, span, *step, store, steps)?;
    }
    Ok(())
}
