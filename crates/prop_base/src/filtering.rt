//! The filter of a family of predicates.
ghost use Rattle.std.specs.Prelude.{◌≡◌, ◌<◌, length, IfOk, slice_get, Some};
ghost use Rattle.qc_model.specs.Content.{Rule};
ghost use Rattle.model_arguments.specs.Asked.{IsAsked};
ghost use Rattle.prop_base.specs.Filtering.{Answers, Fits, Prunes};
ghost use Rattle.prop_base.specs.Pruning.{IsPruning, IsFiltered, is_just};

use crate::answer::Filtered;
use crate::asked::Asked;
use fd_store::Store;
use proof_tree::StepList;
use qc_model::{ConId, Problem};
use std::alloc::AllocError;

/// What a family of predicates does for a constraint.
pub trait RuleFilter {
    /// Removes values as the constraint refutes them, each with a step, until a domain is empty or the constraint refutes
    /// the box with none of its own variables at its least or greatest value. After a refusal the steps appended are
    /// exactly the removals made.
    fn filter_rule(
        &self,
        asked: Asked,
        store: &mut Store,
        steps: &mut StepList,
    ) -> Result<Filtered, AllocError>
        requires fits { Fits asked store.old }
        ensures pruning { Prunes asked.entry store.old store.new steps.old steps.new }
        ensures answer { Answers asked.entry store.new steps.old steps.new result };
}

/// Does for the constraint c what its family does.
pub fn filter<F: RuleFilter>(
    family: &F,
    problem: &Problem,
    c: ConId,
    store: &mut Store,
    steps: &mut StepList,
) -> Result<Filtered, AllocError>
    requires c { c.0 < length problem.now.constraints }
    requires asked { (rule : Rule) → slice_get problem.now.constraints c.0 ≡ Some rule → IsAsked problem.now rule store.old.box }
    ensures pruning { IsPruning (is_just c.0) problem.now store.old store.new steps.old steps.new }
    ensures answer { (rule : Rule) → slice_get problem.now.constraints c.0 ≡ Some rule → IfOk result (λ f. IsFiltered f rule store.new.box steps.old steps.new) }
{
    let rule = problem.constraint(c);
    let asked = Asked { problem, c, rule };
    family.filter_rule(asked, store, steps)
}
