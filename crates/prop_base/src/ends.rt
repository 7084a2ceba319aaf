//! The filter that goes end by end. It is right for every predicate.
//!
//! An end of a variable is tried by the refuter. Where it is refuted, it goes with the widest range from there that is
//! refuted as a whole, so an end that moves by n values takes some 2 log n questions and one step.
ghost use Rattle.std.specs.Prelude.{◌<◌, length, IsTrue, IfNone, IfSome, ⊤};
ghost use Rattle.std.specs.List.{list_all};
ghost use Rattle.qc_model.specs.Valid.{arg_sees, argument_sees};
ghost use Rattle.model_arguments.specs.Asked.{IsAsked};
ghost use Rattle.prop_base.specs.Closed.{IsCut, keeps_at, keeps_arg, keeps_argument};
ghost use Rattle.prop_base.specs.Filtering.{Answers, Fits, Prunes};

use crate::answer::Filtered;
use crate::asked::Asked;
use crate::cuts::Cut;
use crate::cutting::{Cutter, filter_by_cuts};
use crate::ranges::widest;
use crate::refuting::Refuter;
use fd_store::Store;
use model_arguments::{arguments, width};
use proof_tree::StepList;
use qc_model::{Arg, Argument, Constraint, Problem, VarId};
use std::alloc::AllocError;

// A range from an end of x that is refuted.
fn end_cut<R: Refuter>(
    refuter: &R,
    problem: &Problem,
    rule: &Constraint,
    store: &Store,
    x: VarId,
) -> Option<Cut>
    requires asked { IsAsked problem.now rule.now store.now.box }
    requires x { x.0 < length store.now.box }
    ensures none { IfNone result (IsTrue (keeps_at rule.now store.now.box x.0)) }
    ensures some { IfSome result (λ k. IsCut rule.now store.now.box k) }
{
    problem.known();
    let low = store.min(x);
    let high = store.max(x);
    let room = width(low, high);
    if refuter.refutes_in(problem, rule, store, x, low, low) {
        let end = Cut {
            x,
            lo: low,
            hi: low,
        };
        return Some(widest(refuter, problem, rule, store, end, true, room));
    }
    if refuter.refutes_in(problem, rule, store, x, high, high) {
        let end = Cut {
            x,
            lo: high,
            hi: high,
        };
        return Some(widest(refuter, problem, rule, store, end, false, room));
    }
    None
}

fn arg_cut<R: Refuter>(
    refuter: &R,
    problem: &Problem,
    rule: &Constraint,
    store: &Store,
    arg: Arg,
) -> Option<Cut>
    requires asked { IsAsked problem.now rule.now store.now.box }
    requires sees { IsTrue (arg_sees problem.now.variables rule.now.owner.0 arg) }
    ensures none { IfNone result (IsTrue (keeps_arg rule.now store.now.box arg)) }
    ensures some { IfSome result (λ k. IsCut rule.now store.now.box k) }
{
    match arg {
        Arg::Var(x) => end_cut(refuter, problem, rule, store, x),
        Arg::Num(_) => None,
    }
}

fn items_cut<R: Refuter>(
    refuter: &R,
    problem: &Problem,
    rule: &Constraint,
    store: &Store,
    items: &[Arg],
) -> Option<Cut>
    requires asked { IsAsked problem.now rule.now store.now.box }
    requires sees { IsTrue (list_all (arg_sees problem.now.variables rule.now.owner.0) items.now) }
    ensures none { IfNone result (IsTrue (list_all (keeps_arg rule.now store.now.box) items.now)) }
    ensures some { IfSome result (λ k. IsCut rule.now store.now.box k) }
{
    for item in items {
        if let Some(cut) = arg_cut(refuter, problem, rule, store, *item) {
            return Some(cut);
        }
    }
    None
}

fn argument_cut<R: Refuter>(
    refuter: &R,
    problem: &Problem,
    rule: &Constraint,
    store: &Store,
    argument: &Argument,
) -> Option<Cut>
    requires asked { IsAsked problem.now rule.now store.now.box }
    requires sees { IsTrue (argument_sees problem.now.variables rule.now.owner.0 argument.now) }
    ensures none { IfNone result (IsTrue (keeps_argument rule.now store.now.box argument.now)) }
    ensures some { IfSome result (λ k. IsCut rule.now store.now.box k) }
{
    match argument {
        Argument::One(arg) => arg_cut(refuter, problem, rule, store, *arg),
        Argument::Many(items) => items_cut(refuter, problem, rule, store, items.items()),
        Argument::Numbers(_) => None,
        Argument::Members(_) => None,
    }
}

// A range from an end of a variable of the constraint that is refuted.
fn find_cut<R: Refuter>(
    refuter: &R,
    problem: &Problem,
    rule: &Constraint,
    store: &Store,
) -> Option<Cut>
    requires asked { IsAsked problem.now rule.now store.now.box }
    ensures none { IfNone result (IsTrue (list_all (keeps_argument rule.now store.now.box) rule.now.args)) }
    ensures some { IfSome result (λ k. IsCut rule.now store.now.box k) }
{
    for argument in arguments(rule) {
        if let Some(cut) = argument_cut(refuter, problem, rule, store, argument) {
            return Some(cut);
        }
    }
    None
}

// The cuts that a refuter finds.
#[derive(Drop)]
struct Ends<'r, R> {
    refuter: &'r R,
}

impl<'r, R: Refuter> Cutter for Ends<'r, R> {
    ghost serves = { λ ends rule. ⊤ };

    fn next_cut(&self, problem: &Problem, rule: &Constraint, store: &Store) -> Option<Cut> {
        find_cut(self.refuter, problem, rule, store)
    }
}

/// Removes ranges as the constraint c refutes them, until a domain is empty or the constraint refutes the box with none
/// of its variables at its least or greatest value.
pub fn filter_by_ends<R: Refuter>(
    refuter: &R,
    asked: Asked,
    store: &mut Store,
    steps: &mut StepList,
) -> Result<Filtered, AllocError>
    requires fits { Fits asked store.old }
    ensures pruning { Prunes asked.entry store.old store.new steps.old steps.new }
    ensures answer { Answers asked.entry store.new steps.old steps.new result }
{
    let ends = Ends { refuter };
    filter_by_cuts(&ends, asked, store, steps)
}
