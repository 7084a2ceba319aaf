//! The lines that tell how a tree of choices begins.
ghost use Rattle.std.specs.Prelude.{◌≡◌, ◌++◌, codes, IfOk, OnOk};
ghost use Rattle.std.specs.Fmt.{signed_decimal};
ghost use Rattle.proof_tree.specs.Text.{outcome_text};
ghost use Rattle.qc_play.specs.Shape.{plan_of, tree_of_counter};
ghost use Rattle.qc_play.specs.Sides.{kind_of, choices_of};
ghost use Rattle.tell_commands.specs.Opening.{named_lines, choice_lines, opening_by, opening_lines};

use itoa::Buffer;
use proof_tree::Outcome;
use qc_model::{Kind, Problem, ScopeId, Variable};
use qc_play::{Counter, Plan, Side};
use qecode_commands::outcome_line;
use std::alloc::{AllocError, Global};

// The line of a variable.
fn put_named(out: &mut Vec<u8>, variable: &Variable, value: i64) -> Result<(), AllocError>
    ensures { OnOk result (out.new.items ≡ out.old.items ++ (variable.now.name ++ (codes " = " ++ (signed_decimal value ++ codes "\n")))) }
{
    let mut buffer = Buffer::new();
    out.extend_from_slice(variable.name.text().as_bytes())?;
    out.extend_from_slice(b" = ")?;
    out.extend_from_slice(buffer.format(value).as_bytes())?;
    out.extend_from_slice(b"\n")
}

// A line for each variable, with its value.
fn put_all(out: &mut Vec<u8>, variables: &[Variable], values: &[i64]) -> Result<(), AllocError>
    ensures { OnOk result (out.new.items ≡ out.old.items ++ named_lines variables.now values.now) }
{
    let count = variables.len().min(values.len());
    for k in 0..count {
        put_named(out, &variables[k], values[k])?;
    }
    Ok(())
}

// What a strategy chooses first.
fn put_plan(out: &mut Vec<u8>, variables: &[Variable], plan: &Plan) -> Result<(), AllocError>
    ensures { OnOk result (out.new.items ≡ out.old.items ++ choice_lines variables.now (plan_of plan.now)) }
{
    match plan {
        Plan::End => Ok(()),
        Plan::Choose(tuple, _after) => put_all(out, variables, tuple.items()),
        Plan::Answer(_list) => Ok(()),
    }
}

// What a counterstrategy chooses first.
fn put_counter(
    out: &mut Vec<u8>,
    variables: &[Variable],
    counter: &Counter,
) -> Result<(), AllocError>
    ensures { OnOk result (out.new.items ≡ out.old.items ++ choice_lines variables.now (tree_of_counter counter.now)) }
{
    match counter {
        Counter::End => Ok(()),
        Counter::Take(tuple, _after) => put_all(out, variables, tuple.items()),
        Counter::Reply(_list) => Ok(()),
    }
}

// How the tree begins where the first scope is of this kind.
fn put_by(
    out: &mut Vec<u8>,
    kind: Kind,
    variables: &[Variable],
    side: Side<'_>,
) -> Result<(), AllocError>
    ensures { OnOk result (out.new.items ≡ out.old.items ++ opening_by (kind_of side.entry) kind variables.now (choices_of side.entry)) }
{
    match side {
        Side::Plan(plan) => match kind {
            Kind::Exists => put_plan(out, variables, plan),
            Kind::Forall => out.extend_from_slice(b"the opponent moves first\n"),
        },
        Side::Counter(counter) => match kind {
            Kind::Exists => out.extend_from_slice(b"the player moves first\n"),
            Kind::Forall => put_counter(out, variables, counter),
        },
    }
}

fn put_opening(out: &mut Vec<u8>, problem: &Problem, side: Side<'_>) -> Result<(), AllocError>
    ensures { OnOk result (out.new.items ≡ out.old.items ++ opening_lines problem.now (kind_of side.entry) (choices_of side.entry)) }
{
    problem.known();
    if problem.scopes() == 0 {
        return Ok(());
    }
    let kind = problem.scope(ScopeId(0)).kind;
    put_by(out, kind, problem.variables_of(0), side)
}

/// The line that repeats what the certificate states, and how the tree begins.
pub(crate) fn opening(
    alloc: Global,
    problem: &Problem,
    outcome: Outcome,
    optimum: Option<i64>,
    side: Side<'_>,
) -> Result<Vec<u8>, AllocError>
    ensures { IfOk result (λ text. text.items ≡ codes "yes " ++ (outcome_text outcome optimum ++ opening_lines problem.now (kind_of side.entry) (choices_of side.entry))) }
{
    let line = outcome_line(alloc, outcome, optimum)?;
    let mut text = Vec::new(alloc);
    text.extend_from_slice(b"yes ")?;
    text.extend_from_slice(line.as_str().as_bytes())?;
    put_opening(&mut text, problem, side)?;
    Ok(text)
}
