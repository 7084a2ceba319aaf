//! Closing for a list of constraints.
ghost use Rattle.std.specs.Prelude.{◌≡◌, ◌<◌, ◌≤◌, length, drop, take, IsTrue, IsFalse, IfOk, OnOk, nat_lt};
ghost use Rattle.std.specs.List.{list_all};
ghost use Rattle.qc_model.specs.Closed.{keeps_ends};
ghost use Rattle.qc_model.specs.Domains.{has_empty};
ghost use Rattle.model_arguments.specs.Asked.{is_box_of};
ghost use Rattle.prop_base.specs.Pruning.{IsPruning};
ghost use Rattle.prop_engine.specs.Closing.{has_constraint, EachRule, IsClosing, IsRound};

use crate::answer::Closed;
use crate::filtering::Filter;
use crate::running::run_filter;
use fd_store::Store;
use proof_tree::StepList;
use prop_base::Filtered;
use qc_model::{ConId, Problem};
use std::alloc::{AllocError, Global};

// One round over the list. Stable says that the box is closed.
fn run_round<F: Filter>(
    filter: &F,
    alloc: Global,
    problem: &Problem,
    cons: &[ConId],
    store: &mut Store,
    steps: &mut StepList,
) -> Result<Filtered, AllocError>
    requires exist { IsTrue (list_all (λ c. nat_lt c.0 (length problem.now.constraints)) cons.now) }
    requires known { EachRule (has_constraint cons.now) problem.now F.knows }
    requires declared { IsTrue (is_box_of problem.now store.old.box) }
    requires full { IsFalse (has_empty store.old.box) }
    ensures pruning { IsPruning (has_constraint cons.now) problem.now store.old store.new steps.old steps.new }
    ensures answer { IfOk result (λ f. IsRound f (has_constraint cons.now) problem.now store.new.box steps.old steps.new) }
{
    let mut changed = false;
    for c in cons {
        match run_filter(filter, alloc, problem, *c, store, steps)? {
            Filtered::Emptied => return Ok(Filtered::Emptied),
            Filtered::Stable => {}
            Filtered::Changed => changed = true,
        }
    }
    if changed {
        Ok(Filtered::Changed)
    } else {
        Ok(Filtered::Stable)
    }
}

/// Runs the filters of the constraints of the list until the box is closed for them or a domain is empty. After a refusal
/// the steps appended are exactly the removals made.
pub fn close<F: Filter>(
    filter: &F,
    alloc: Global,
    problem: &Problem,
    cons: &[ConId],
    store: &mut Store,
    steps: &mut StepList,
) -> Result<Closed, AllocError>
    requires exist { IsTrue (list_all (λ c. nat_lt c.0 (length problem.now.constraints)) cons.now) }
    requires known { EachRule (has_constraint cons.now) problem.now F.knows }
    requires declared { IsTrue (is_box_of problem.now store.old.box) }
    requires full { IsFalse (has_empty store.old.box) }
    ensures pruning { IsPruning (has_constraint cons.now) problem.now store.old store.new steps.old steps.new }
    ensures answer { IfOk result (λ a. IsClosing a (has_constraint cons.now) problem.now store.new.box) }
{
    loop {
        match run_round(filter, alloc, problem, cons, store, steps)? {
            Filtered::Emptied => return Ok(Closed::Empty),
            Filtered::Stable => return Ok(Closed::Open),
            Filtered::Changed => {}
        }
    }
}
