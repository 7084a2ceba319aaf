//! Which steps are kept.
ghost use Rattle.std.specs.Prelude.{◌≡◌, ◌++◌, ◌∷◌, List, IfOk, OnOk, cond, slice_get};
ghost use Rattle.qc_model.specs.Arguments.{last_of};
ghost use Rattle.proof_tree.specs.declared.tree.Step.{Step};
ghost use Rattle.search_trim.specs.Slice.{wanting_all, wanting_last, rule_variables, step_variable, with_step, slice_of};
ghost use Rattle.search_trim.specs.Trims.{Trims};

use crate::wanted::{is_wanted, want, want_all};
use model_arguments::arguments;
use proof_tree::{Step, StepList};
use qc_model::limits::VARIABLES;
use qc_model::{ConId, Problem, VarId};
use std::alloc::{AllocError, Global};

fn variable_of(step: Step) -> VarId
    ensures { result.0 ≡ step_variable step }
{
    match step {
        Step::Prune { x, .. } | Step::Bound { x, .. } => x,
    }
}

// The last step's variable is wanted, where there is one.
fn want_last(marks: &mut [bool], steps: &[Step])
    ensures { marks.new ≡ wanting_last marks.old (last_of steps.now) }
{
    if let Some(last) = steps.last() {
        want(marks, variable_of(*last));
    }
}

// All variables of the constraint are wanted; where none has this number nothing more is.
fn want_constraint(problem: &Problem, marks: &mut [bool], c: ConId)
    ensures { marks.new ≡ wanting_all marks.old (rule_variables (slice_get problem.now.constraints c.0)) }
{
    if (c.0 as usize) < problem.constraints() {
        want_all(marks, arguments(problem.constraint(c)));
    }
}

// Keeps the step, and then wants what it depends on, or leaves it out; whether it is kept.
fn keep(problem: &Problem, marks: &mut [bool], step: Step) -> bool
    ensures { (less : List Step) → with_step problem.now step (record { marks = marks.old; less = less }) ≡ record { marks = marks.new; less = cond result (step ∷ less) less } }
{
    match step {
        Step::Bound { x, .. } => {
            want(marks, x);
            true
        }
        Step::Prune { x, c, .. } => {
            let kept = is_wanted(marks, x);
            if kept {
                want_constraint(problem, marks, c);
            }
            kept
        }
    }
}

// The steps that are kept, found last to first.
fn slice(problem: &Problem, steps: &[Step], into: &mut Vec<Step>) -> Result<(), AllocError>
    ensures { OnOk result (into.new.items ≡ slice_of problem.now steps.now) }
{
    into.clear();
    let mut marks = [false; VARIABLES];
    want_last(&mut marks, steps);
    let mut k = steps.len();
    while k > 0 {
        k -= 1;
        if keep(problem, &mut marks, steps[k]) {
            into.push(steps[k])?;
        }
    }
    into.reverse();
    Ok(())
}

/// Puts into `into`, whose earlier content goes, the steps without those that don't matter for the empty domain with
/// which they end. Where they end with none the result means nothing, but for that it has no other steps.
///
/// It asks for no memory but room in `into` for the steps that are kept, and fails only where that is refused; then
/// `into` has some of the steps.
pub fn trim(problem: &Problem, steps: &[Step], into: &mut Vec<Step>) -> Result<(), AllocError>
    ensures kept { OnOk result (into.new.items ≡ slice_of problem.now steps.now) }
    ensures right { OnOk result (Trims problem.now steps.now into.new.items) }
{
    slice(problem, steps, into)
}

fn append(list: &mut StepList, steps: &[Step]) -> Result<(), AllocError>
    ensures { OnOk result (list.new ≡ list.old ++ steps.now) }
{
    for step in steps {
        list.push(*step)?;
    }
    Ok(())
}

/// A new list of the steps that `trim` keeps. It fails only where memory is refused.
pub fn trimmed(alloc: Global, problem: &Problem, steps: &[Step]) -> Result<StepList, AllocError>
    ensures kept { IfOk result (λ list. list ≡ slice_of problem.now steps.now) }
    ensures right { IfOk result (λ list. Trims problem.now steps.now list) }
{
    let mut needed = Vec::new(alloc);
    trim(problem, steps, &mut needed)?;
    let mut list = StepList::new(alloc);
    append(&mut list, needed.as_slice())?;
    Ok(list)
}
