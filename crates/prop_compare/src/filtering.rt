//! The filter of a comparison.
ghost use Rattle.std.specs.Prelude.{◌≡◌};
ghost use Rattle.qc_model.specs.Meaning.{meaning_of};
ghost use Rattle.prop_base.specs.Filtering.{Answers, Fits, Prunes};
ghost use Rattle.prop_compare.specs.Compared.{meant_by};

use crate::comparing::{Comparison, compare};
use crate::table::Table;
use fd_store::Store;
use model_arguments::{arguments, is_same, one_at};
use proof_tree::StepList;
use prop_base::{Asked, Filtered, filter_by_ends};
use std::alloc::AllocError;

/// Removes values as the comparison c refutes them, until a domain is empty or the constraint refutes the box with none
/// of its own variables at its least or greatest value. After a refusal the steps appended are exactly the removals made.
pub fn filter_comparison(
    asked: Asked,
    comparison: Comparison,
    store: &mut Store,
    steps: &mut StepList,
) -> Result<Filtered, AllocError>
    requires meaning { meaning_of asked.rule.now.pred ≡ meant_by comparison }
    requires fits { Fits asked store.old }
    ensures pruning { Prunes asked.entry store.old store.new steps.old steps.new }
    ensures answer { Answers asked.entry store.new steps.old steps.new result }
{
    asked.problem.known();
    let args = arguments(asked.rule);
    let a = one_at(args, 0);
    let b = one_at(args, 1);
    if is_same(a, b) {
        return filter_by_ends(&Table {}, asked, store, steps);
    }
    compare(asked, comparison, a, b, store, steps)
}
