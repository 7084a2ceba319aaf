//! The filter.
ghost use Rattle.std.specs.Prelude.{◌≡◌};
ghost use Rattle.qc_model.specs.declared.problem.Pred.TheVariants.{AllDifferentInt};
ghost use Rattle.prop_base.specs.Filtering.{Answers, Fits, Prunes};
ghost use Rattle.prop_different.specs.Different.{IsDifferent};

use crate::rounds::settle_all;
use fd_store::Store;
use model_arguments::{arguments, is_repeated, items_at};
use proof_tree::StepList;
use prop_base::{Asked, Filtered, filter_by_ends, last_variable};
use prop_compare::Table;
use qc_model::Arg;
use std::alloc::AllocError;

/// As many items as an array of a constraint can have.
const MOST_ITEMS: usize = 1000;

fn filter_items(
    asked: Asked,
    items: &[Arg],
    store: &mut Store,
    steps: &mut StepList,
) -> Result<Filtered, AllocError>
    requires fits { Fits asked store.old }
    requires different { IsDifferent asked.problem.now asked.rule.now items.now }
    ensures pruning { Prunes asked.entry store.old store.new steps.old steps.new }
    ensures answer { Answers asked.entry store.new steps.old steps.new result }
{
    let Some(spare) = last_variable(asked.problem, asked.rule) else {
        return Ok(Filtered::Stable);
    };
    let mut buffer = [0u16; MOST_ITEMS];
    let rooms = &mut buffer[..items.len()];
    settle_all(asked, items, spare, store, steps, rooms)
}

/// Removes values as the constraint c refutes them, which says that integers differ, each with a step, until a domain is
/// empty or the constraint refutes the box with none of its own variables at its least or greatest value. It goes by full
/// ranges, and end by end where a variable stands twice. After a refusal the steps appended are exactly the removals made.
pub fn filter_different(
    asked: Asked,
    store: &mut Store,
    steps: &mut StepList,
) -> Result<Filtered, AllocError>
    requires pred { asked.rule.now.pred ≡ AllDifferentInt }
    requires fits { Fits asked store.old }
    ensures pruning { Prunes asked.entry store.old store.new steps.old steps.new }
    ensures answer { Answers asked.entry store.new steps.old steps.new result }
{
    asked.problem.known();
    let items = items_at(arguments(asked.rule), 0);
    if is_repeated(items) {
        return filter_by_ends(&Table {}, asked, store, steps);
    }
    filter_items(asked, items, store, steps)
}
