//! The filter that goes end by end, for every constraint.
use fd_store::Store;
use proof_tree::StepList;
use prop_base::{Asked, Filtered, RuleFilter, filter_by_ends};
use prop_compare::Table;
use prop_engine::Filter;
use qc_model::{ConId, Problem};
use std::alloc::{AllocError, Global};

/// Filters every constraint end by end.
#[derive(Clone, Copy)]
pub(crate) struct ByEnds {}

impl RuleFilter for ByEnds {
    fn filter_rule(
        &self,
        asked: Asked,
        store: &mut Store,
        steps: &mut StepList,
    ) -> Result<Filtered, AllocError> {
        filter_by_ends(&Table {}, asked, store, steps)
    }
}

impl Filter for ByEnds {
    ghost use Rattle.std.specs.Prelude.{true};

    ghost knows = { λ c. true };

    fn filter(
        &self,
        alloc: Global,
        problem: &Problem,
        c: ConId,
        store: &mut Store,
        steps: &mut StepList,
    ) -> Result<Filtered, AllocError> {
        let _ = alloc;
        prop_base::filter(self, problem, c, store, steps)
    }
}
