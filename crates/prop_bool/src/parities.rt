//! The filter of constraints that say whether an odd number of items are 1.
ghost use Rattle.model_arguments.specs.Asked.{IsAsked};
ghost use Rattle.prop_base.specs.Filtering.{Answers, Fits, Prunes};
ghost use Rattle.prop_bool.specs.Findings.{IsFinding};
ghost use Rattle.prop_bool.specs.Parities.{IsParity};

use crate::acting::act;
use crate::findings::Finding;
use crate::tallies::{Tally, tally_of};
use fd_store::Store;
use proof_tree::StepList;
use prop_base::{Asked, Filtered};
use qc_model::{Arg, Constraint, Problem};
use std::alloc::AllocError;

// Where one variable is unfixed, it has to be what the others leave to it.
fn look(problem: &Problem, rule: &Constraint, items: &[Arg], odd: bool, store: &Store) -> Finding
    requires asked { IsAsked problem.now rule.now store.now.box }
    requires says { IsParity problem.now rule.now items.now odd }
    ensures { IsFinding result rule.now store.now.box }
{
    let _ = (problem.constraints(), rule.pred);
    match tally_of(items, store) {
        Tally::Decided(is_odd) => {
            if is_odd == odd {
                return Finding::Nothing;
            }
            Finding::Refuted
        }
        Tally::Open(x, others) => Finding::Loses(x, odd == others),
        Tally::Free => Finding::Nothing,
        Tally::Unknown => Finding::Unknown,
    }
}

pub(crate) fn filter_parity(
    asked: Asked,
    items: &[Arg],
    odd: bool,
    store: &mut Store,
    steps: &mut StepList,
) -> Result<Filtered, AllocError>
    requires fits { Fits asked store.old }
    requires says { IsParity asked.problem.now asked.rule.now items.now odd }
    ensures pruning { Prunes asked.entry store.old store.new steps.old steps.new }
    ensures answer { Answers asked.entry store.new steps.old steps.new result }
{
    let finding = look(asked.problem, asked.rule, items, odd, store);
    act(asked, finding, store, steps)
}
