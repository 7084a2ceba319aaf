//! One filter.
ghost use Rattle.std.specs.Prelude.{◌≡◌, ◌<◌, length, IsTrue, IsFalse, IfOk};
ghost use Rattle.qc_model.specs.Domains.{has_empty};
ghost use Rattle.model_arguments.specs.Asked.{is_box_of};
ghost use Rattle.prop_base.specs.Pruning.{IsPruning, is_just};
ghost use Rattle.prop_engine.specs.Closing.{EachRule, IsRun};

use crate::filtering::Filter;
use fd_store::Store;
use proof_tree::StepList;
use prop_base::Filtered;
use qc_model::{ConId, Problem};
use std::alloc::{AllocError, Global};

/// Runs the filter of the constraint c.
pub(crate) fn run_filter<F: Filter>(
    filter: &F,
    alloc: Global,
    problem: &Problem,
    c: ConId,
    store: &mut Store,
    steps: &mut StepList,
) -> Result<Filtered, AllocError>
    requires c { c.0 < length problem.now.constraints }
    requires known { EachRule (is_just c.0) problem.now F.knows }
    requires declared { IsTrue (is_box_of problem.now store.old.box) }
    requires full { IsFalse (has_empty store.old.box) }
    ensures pruning { IsPruning (is_just c.0) problem.now store.old store.new steps.old steps.new }
    ensures declared { IsTrue (is_box_of problem.now store.new.box) }
    ensures answer { IfOk result (λ f. IsRun f (is_just c.0) problem.now store.old.box store.new.box steps.old steps.new) }
{
    problem.known();
    let _ = problem.constraint(c);
    filter.filter(alloc, problem, c, store, steps)
}
