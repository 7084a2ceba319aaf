//! What closing asks of the filters.
ghost use Rattle.std.specs.Prelude.{◌≡◌, ◌<◌, length, IsTrue, IfOk, Bool, slice_get, Some};
ghost use Rattle.qc_model.specs.Content.{Rule};
ghost use Rattle.model_arguments.specs.Asked.{IsAsked};
ghost use Rattle.prop_base.specs.Pruning.{IsPruning, IsFiltered, is_just};

use fd_store::Store;
use proof_tree::StepList;
use prop_base::Filtered;
use qc_model::{ConId, Problem};
use std::alloc::{AllocError, Global};

/// The filters of the constraints that it knows.
pub trait Filter {
    ghost knows: { Rule → Bool };

    /// Removes values as the constraint c refutes them, each with a step, until a domain is empty or the constraint
    /// refutes the box with none of its own variables at its least or greatest value. After a refusal the steps
    /// appended are exactly the removals made.
    fn filter(
        &self,
        alloc: Global,
        problem: &Problem,
        c: ConId,
        store: &mut Store,
        steps: &mut StepList,
    ) -> Result<Filtered, AllocError>
        requires c { c.0 < length problem.now.constraints }
        requires known { (rule : Rule) → slice_get problem.now.constraints c.0 ≡ Some rule → IsTrue (knows rule) }
        requires asked { (rule : Rule) → slice_get problem.now.constraints c.0 ≡ Some rule → IsAsked problem.now rule store.old.box }
        ensures pruning { IsPruning (is_just c.0) problem.now store.old store.new steps.old steps.new }
        ensures answer { (rule : Rule) → slice_get problem.now.constraints c.0 ≡ Some rule → IfOk result (λ f. IsFiltered f rule store.new.box steps.old steps.new) };
}
