//! Which variables constraints have, from which scope on.
ghost use Rattle.std.specs.Prelude.{◌≡◌, ◌==◌, ◌&&◌, nat_lt, IfOk, OnOk};
ghost use Rattle.std.specs.List.{list_any};
ghost use Rattle.model_arguments.specs.Written.{variable_numbers};
ghost use Rattle.proof_alike.specs.Alike.{is_among};
ghost use Rattle.dense_alike.specs.Marked.{has_from, AddsMarks, AreMarksOf};

use model_arguments::{arguments, own_variables};
use qc_model::{ConId, Constraint, Problem, VarId};
use std::alloc::{AllocError, Global};

/// Has x marked from each scope before `stop`. A variable without a place has no mark.
fn raise(stops: &mut [u8], x: VarId, stop: u8)
    ensures { AddsMarks (λ i y. nat_lt i stop && (x.0 == y)) stops.old stops.new }
{
    let at = x.0 as usize;
    if at < stops.len() && stops[at] < stop {
        stops[at] = stop;
    }
}

/// The same of each of these variables.
fn raise_all(stops: &mut [u8], xs: &[VarId], stop: u8)
    ensures { AddsMarks (λ i y. nat_lt i stop && is_among (variable_numbers xs.now) y) stops.old stops.new }
{
    for x in xs {
        raise(stops, *x, stop);
    }
}

/// Has the constraint's variables marked from its scope on, and from each earlier one.
fn mark_constraint(alloc: Global, rule: &Constraint, stops: &mut [u8]) -> Result<(), AllocError>
    ensures { OnOk result (AddsMarks (λ i y. has_from i y rule.now) stops.old stops.new) }
{
    let variables = own_variables(alloc, arguments(rule))?;
    raise_all(stops, &variables, rule.owner.0.saturating_add(1));
    Ok(())
}

/// For each variable the number after the last scope from which on some constraint has it, or 0.
pub(crate) fn marks_of(alloc: Global, problem: &Problem) -> Result<Vec<u8>, AllocError>
    ensures { IfOk result (λ stops. AreMarksOf problem.now stops.items) }
{
    problem.known();
    let mut stops = vec![in alloc; 0u8; problem.variables()]?;
    mark_constraints(alloc, problem, &mut stops)?;
    Ok(stops)
}

/// Has the variables of each constraint marked from its scope on, and from each earlier one.
fn mark_constraints(alloc: Global, problem: &Problem, stops: &mut [u8]) -> Result<(), AllocError>
    ensures { OnOk result (AddsMarks (λ i y. list_any (has_from i y) problem.now.constraints) stops.old stops.new) }
{
    problem.known();
    for k in 0..problem.constraints() {
        mark_constraint(alloc, problem.constraint(ConId(k as u16)), stops)?;
    }
    Ok(())
}
