//! A constraint that refutes the whole box.
ghost use Rattle.std.specs.Prelude.{◌≡◌, [], flat_map, IsTrue, IfNone, IfSome, IfOk};
ghost use Rattle.std.specs.List.{list_all};
ghost use Rattle.qc_model.specs.declared.problem.Arg.TheVariants.{Var};
ghost use Rattle.qc_model.specs.Arguments.{arg_variables, argument_variables, variables_of};
ghost use Rattle.qc_model.specs.Refuted.{refuted_by};
ghost use Rattle.qc_model.specs.Valid.{arg_sees, argument_sees};
ghost use Rattle.prop_base.specs.Filtering.{Answers, Fits, Prunes};
ghost use Rattle.prop_base.specs.Pruning.{IsAllOrNone};

use crate::answer::Filtered;
use crate::asked::Asked;
use crate::cuts::Cut;
use crate::removal::prune;
use fd_store::Store;
use model_arguments::arguments;
use proof_tree::StepList;
use qc_model::{Arg, Argument, Constraint, Problem, VarId};
use std::alloc::AllocError;

fn variable_among(problem: &Problem, rule: &Constraint, items: &[Arg]) -> Option<VarId>
    requires { IsTrue (list_all (arg_sees problem.now.variables rule.now.owner.0) items.now) }
    ensures none { IfNone result (flat_map arg_variables items.now ≡ []) }
    ensures some { IfSome result (λ x. IsTrue (arg_sees problem.now.variables rule.now.owner.0 (Var x))) }
{
    let _ = (problem.constraints(), rule.pred);
    for item in items {
        if let Arg::Var(x) = *item {
            return Some(x);
        }
    }
    None
}

fn variable_in(problem: &Problem, rule: &Constraint, argument: &Argument) -> Option<VarId>
    requires { IsTrue (argument_sees problem.now.variables rule.now.owner.0 argument.now) }
    ensures none { IfNone result (argument_variables argument.now ≡ []) }
    ensures some { IfSome result (λ x. IsTrue (arg_sees problem.now.variables rule.now.owner.0 (Var x))) }
{
    match argument {
        Argument::One(Arg::Var(x)) => Some(*x),
        Argument::One(Arg::Num(_)) => None,
        Argument::Many(items) => variable_among(problem, rule, items.items()),
        Argument::Numbers(_) => None,
        Argument::Members(_) => None,
    }
}

fn first_variable(problem: &Problem, rule: &Constraint) -> Option<VarId>
    requires { IsTrue (list_all (argument_sees problem.now.variables rule.now.owner.0) rule.now.args) }
    ensures none { IfNone result (variables_of rule.now.args ≡ []) }
    ensures some { IfSome result (λ x. IsTrue (arg_sees problem.now.variables rule.now.owner.0 (Var x))) }
{
    for argument in arguments(rule) {
        if let Some(x) = variable_in(problem, rule, argument) {
            return Some(x);
        }
    }
    None
}

/// The last variable among x and the items, in the order of the problem's.
fn last_among(problem: &Problem, rule: &Constraint, items: &[Arg], x: VarId) -> VarId
    requires items { IsTrue (list_all (arg_sees problem.now.variables rule.now.owner.0) items.now) }
    requires x { IsTrue (arg_sees problem.now.variables rule.now.owner.0 (Var x)) }
    ensures { IsTrue (arg_sees problem.now.variables rule.now.owner.0 (Var result)) }
{
    let _ = (problem.constraints(), rule.pred);
    let mut last = x;
    for item in items {
        if let Arg::Var(y) = *item
            && y.0 > last.0
        {
            last = y;
        }
    }
    last
}

/// So among x and the argument's variables.
fn last_in(problem: &Problem, rule: &Constraint, argument: &Argument, x: VarId) -> VarId
    requires argument { IsTrue (argument_sees problem.now.variables rule.now.owner.0 argument.now) }
    requires x { IsTrue (arg_sees problem.now.variables rule.now.owner.0 (Var x)) }
    ensures { IsTrue (arg_sees problem.now.variables rule.now.owner.0 (Var result)) }
{
    match argument {
        Argument::One(Arg::Var(y)) if y.0 > x.0 => *y,
        Argument::Many(items) => last_among(problem, rule, items.items(), x),
        _ => x,
    }
}

/// The last variable among the arguments of the constraint, in the order of the problem's. None comes exactly where it has
/// none.
pub fn last_variable(problem: &Problem, rule: &Constraint) -> Option<VarId>
    requires { IsTrue (list_all (argument_sees problem.now.variables rule.now.owner.0) rule.now.args) }
    ensures none { IfNone result (variables_of rule.now.args ≡ []) }
    ensures some { IfSome result (λ x. IsTrue (arg_sees problem.now.variables rule.now.owner.0 (Var x))) }
{
    let mut last = first_variable(problem, rule)?;
    for argument in arguments(rule) {
        last = last_in(problem, rule, argument, last);
    }
    Some(last)
}

/// Takes all values of the last variable of a constraint that refutes the box, where it has one: what is known of variables
/// further ahead then still holds, so that the same lines stand wherever the constraint sees the same of those before.
pub fn empty_last(
    asked: Asked,
    store: &mut Store,
    steps: &mut StepList,
) -> Result<Filtered, AllocError>
    requires fits { Fits asked store.old }
    requires refuted { IsTrue (refuted_by asked.rule.now store.old.box) }
    ensures pruning { Prunes asked.entry store.old store.new steps.old steps.new }
    ensures answer { Answers asked.entry store.new steps.old steps.new result }
    ensures whole { IfOk result IsAllOrNone }
{
    asked.problem.known();
    let Some(x) = last_variable(asked.problem, asked.rule) else {
        return Ok(Filtered::Stable);
    };
    let cut = Cut {
        x,
        lo: -1_000_000_000,
        hi: 1_000_000_000,
    };
    prune(asked, cut, store, steps)?;
    Ok(Filtered::Emptied)
}
