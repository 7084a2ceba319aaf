//! The filters of the four families, as one.
use fd_store::Store;
use proof_tree::StepList;
use prop_base::Filtered;
use prop_engine::Filter;
use qc_model::{ConId, Family, Problem, family_of};
use std::alloc::{AllocError, Global};

/// The filters of all predicates.
#[derive(Clone, Copy)]
pub struct Families {}

impl Filter for Families {
    ghost use Rattle.std.specs.Prelude.{true};

    ghost knows = { λ c. true };

    fn filter(
        &self,
        alloc: Global,
        problem: &Problem,
        c: ConId,
        store: &mut Store,
        steps: &mut StepList,
    ) -> Result<Filtered, AllocError> {
        match family_of(problem.constraint(c).pred) {
            Family::Linear => prop_linear::filter(alloc, problem, c, store, steps),
            Family::Arith => prop_arith::filter(alloc, problem, c, store, steps),
            Family::Element => prop_element::filter(alloc, problem, c, store, steps),
            Family::Bool => prop_bool::filter(alloc, problem, c, store, steps),
        }
    }
}
