//! The filter.
ghost use Rattle.std.specs.Prelude.{◌≡◌, ◌<◌, length, IfOk, slice_get, Some};
ghost use Rattle.qc_model.specs.Content.{Rule};
ghost use Rattle.model_arguments.specs.Asked.{IsAsked};
ghost use Rattle.prop_base.specs.Pruning.{IsPruning, IsFiltered, is_just};

use crate::greater::filter_greater;
use crate::plus::filter_plus;
use fd_store::Store;
use proof_tree::StepList;
use prop_base::{Asked, Filtered, RuleFilter, filter_by_ends};
use prop_compare::Table;
use qc_model::{ConId, Pred, Problem};
use std::alloc::{AllocError, Global};

// Arithmetic of two or three integers.
#[derive(Clone, Copy)]
struct Arith {}

impl RuleFilter for Arith {
    fn filter_rule(
        &self,
        asked: Asked,
        store: &mut Store,
        steps: &mut StepList,
    ) -> Result<Filtered, AllocError> {
        let rule = asked.rule;
        match rule.pred {
            Pred::IntPlus => filter_plus(asked, store, steps),
            Pred::IntMax => filter_greater(asked, store, steps),
            _ => filter_by_ends(&Table {}, asked, store, steps),
        }
    }
}

/// Removes values as the constraint c refutes them, each with a step, until a domain is empty or the constraint refutes
/// the box with none of its own variables at its least or greatest value. After a refusal the steps appended are exactly
/// the removals made.
pub fn filter(
    alloc: Global,
    problem: &Problem,
    c: ConId,
    store: &mut Store,
    steps: &mut StepList,
) -> Result<Filtered, AllocError>
    requires c { c.0 < length problem.now.constraints }
    requires asked { (rule : Rule) → slice_get problem.now.constraints c.0 ≡ Some rule → IsAsked problem.now rule store.old.box }
    ensures pruning { IsPruning (is_just c.0) problem.now store.old store.new steps.old steps.new }
    ensures answer { (rule : Rule) → slice_get problem.now.constraints c.0 ≡ Some rule → IfOk result (λ f. IsFiltered f rule store.new.box steps.old steps.new) }
{
    let _ = alloc;
    prop_base::filter(&Arith {}, problem, c, store, steps)
}
