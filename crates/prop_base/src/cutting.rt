//! Taking cuts until there is none.
//!
//! A filter that finds one cut after another, each in the box that the cuts before it leave, has nothing more to say: the
//! loop is the same for all of them.
ghost use Rattle.std.specs.Prelude.{IsTrue, IfNone, IfSome};
ghost use Rattle.qc_model.specs.Closed.{keeps_ends};
ghost use Rattle.qc_model.specs.Content.{Rule};
ghost use Rattle.model_arguments.specs.Asked.{IsAsked};
ghost use Rattle.prop_base.specs.Closed.{IsCut};
ghost use Rattle.prop_base.specs.Filtering.{Answers, Fits, Prunes};

use crate::answer::Filtered;
use crate::asked::Asked;
use crate::cuts::Cut;
use crate::removal::prune;
use fd_store::Store;
use proof_tree::StepList;
use qc_model::{Constraint, Problem};
use std::alloc::AllocError;

/// What finds the next cut of a constraint that it serves.
pub trait Cutter {
    ghost serves: { Self → Rule → Type 0 };

    /// Values of a variable, all of which the constraint refutes; none, where the constraint refutes the box with none of
    /// its own variables at its least or greatest value.
    fn next_cut(&self, problem: &Problem, rule: &Constraint, store: &Store) -> Option<Cut>
        requires serves { serves self.now rule.now }
        requires asked { IsAsked problem.now rule.now store.now.box }
        ensures none { IfNone result (IsTrue (keeps_ends store.now.box rule.now)) }
        ensures some { IfSome result (λ k. IsCut rule.now store.now.box k) };
}

/// Takes cuts, each with a step, until a domain is empty or there is none. After a refusal the steps appended are exactly
/// the removals made.
pub fn filter_by_cuts<C: Cutter>(
    cutter: &C,
    asked: Asked,
    store: &mut Store,
    steps: &mut StepList,
) -> Result<Filtered, AllocError>
    requires serves { C.serves cutter.now asked.rule.now }
    requires fits { Fits asked store.old }
    ensures pruning { Prunes asked.entry store.old store.new steps.old steps.new }
    ensures answer { Answers asked.entry store.new steps.old steps.new result }
{
    let mut changed = false;
    while let Some(cut) = cutter.next_cut(asked.problem, asked.rule, store) {
        if prune(asked, cut, store, steps)? {
            return Ok(Filtered::Emptied);
        }
        changed = true;
    }
    if changed {
        Ok(Filtered::Changed)
    } else {
        Ok(Filtered::Stable)
    }
}
