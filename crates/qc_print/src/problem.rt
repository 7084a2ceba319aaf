//! Scopes, their items, and the goal.
ghost use Rattle.std.specs.Prelude.{◌≡◌, ◌++◌, ◌<◌, ◌^◌, ◌==◌, OnOk, IfOk, codes, flat_map, filter, length, slice_get, drop};
ghost use Rattle.std.specs.Option.{option_copied};
ghost use Rattle.qc_model.specs.Canonical.{constraint_text, variable_text, target_name, fold_text, aggregate_text, condition_text, kind_text, constraints_text, scope_text, text_from, canonical_text};
ghost use Rattle.qc_syntax.specs.Reads.{Reads};

use crate::arguments::{put_constraint, put_name};
use crate::parts::{put_domain, put_number};
use qc_model::{
    Aggregate, Condition, Constraint, Fold, Kind, Problem, Scope, ScopeId, Sense, Target, Variable,
};
use std::alloc::{AllocError, Global};
use text_reread::printed_text_is_read_again;

/// The canonical text of a problem. Read again, it is that problem.
///
/// It takes memory for the text, and fails only where memory runs out.
pub fn print_problem(alloc: Global, problem: &Problem) -> Result<Vec<u8>, AllocError>
    ensures text { IfOk result (λ v. v.items ≡ canonical_text problem.now) }
    ensures read_again { IfOk result (λ v. Reads v.items problem.now) }
{
    problem.known();
    printed_text_is_read_again();
    write_problem(alloc, problem)
}

fn write_problem(alloc: Global, problem: &Problem) -> Result<Vec<u8>, AllocError>
    ensures { IfOk result (λ v. v.items ≡ canonical_text problem.now) }
{
    problem.known();
    let mut out = Vec::new(alloc);
    let scopes = problem.scopes();
    for i in 0..scopes {
        put_scope(&mut out, problem, i, problem.scope(ScopeId(i as u8)))?;
    }
    out.extend_from_slice(b"goal;\n")?;
    put_constraints(&mut out, problem, scopes)?;
    out.extend_from_slice(b"solve;\n")?;
    Ok(out)
}

fn put_scope(
    out: &mut Vec<u8>,
    problem: &Problem,
    i: usize,
    scope: &Scope,
) -> Result<(), AllocError>
    requires { i < 2 ^ 63 }
    ensures { OnOk result (out.new.items ≡ out.old.items ++ scope_text problem.now i scope.now) }
{
    put_kind(out, scope.kind)?;
    put_condition(out, problem, scope.condition)?;
    out.extend_from_slice(b";\n")?;
    put_variables(out, problem.variables_of(i))?;
    put_aggregates(out, problem, problem.aggregates_in(i))?;
    put_constraints(out, problem, i)?;
    Ok(())
}

fn put_kind(out: &mut Vec<u8>, kind: Kind) -> Result<(), AllocError>
    ensures { OnOk result (out.new.items ≡ out.old.items ++ kind_text kind) }
{
    match kind {
        Kind::Exists => out.extend_from_slice(b"exists"),
        Kind::Forall => out.extend_from_slice(b"forall"),
    }
}

fn put_condition(
    out: &mut Vec<u8>,
    problem: &Problem,
    condition: Option<Condition>,
) -> Result<(), AllocError>
    ensures { OnOk result (out.new.items ≡ out.old.items ++ condition_text problem.now condition) }
{
    match condition {
        None => Ok(()),
        Some(condition) => {
            match condition.sense {
                Sense::Min => out.extend_from_slice(b" minimize ")?,
                Sense::Max => out.extend_from_slice(b" maximize ")?,
            }
            put_target(out, problem, condition.target)?;
            Ok(())
        }
    }
}

fn put_target(out: &mut Vec<u8>, problem: &Problem, target: Target) -> Result<(), AllocError>
    ensures { OnOk result (out.new.items ≡ out.old.items ++ target_name problem.now target) }
{
    match target {
        Target::Var(x) => put_name(out, problem.all_variables().get(x.0 as usize)),
        Target::Aggregate(q) => match problem.all_aggregates().get(q.0 as usize) {
            Some(aggregate) => out.extend_from_slice(aggregate.name.text().as_bytes()),
            None => Ok(()),
        },
    }
}

fn put_variables(out: &mut Vec<u8>, variables: &[Variable]) -> Result<(), AllocError>
    ensures { OnOk result (out.new.items ≡ out.old.items ++ flat_map variable_text variables.now) }
{
    for variable in variables {
        put_variable(out, variable)?;
    }
    Ok(())
}

fn put_variable(out: &mut Vec<u8>, variable: &Variable) -> Result<(), AllocError>
    ensures { OnOk result (out.new.items ≡ out.old.items ++ variable_text variable.now) }
{
    out.extend_from_slice(b"var ")?;
    put_domain(out, &variable.domain)?;
    out.extend_from_slice(b": ")?;
    out.extend_from_slice(variable.name.text().as_bytes())?;
    out.extend_from_slice(b";\n")?;
    Ok(())
}

fn put_aggregates(
    out: &mut Vec<u8>,
    problem: &Problem,
    aggregates: &[Aggregate],
) -> Result<(), AllocError>
    ensures { OnOk result (out.new.items ≡ out.old.items ++ flat_map (aggregate_text problem.now) aggregates.now) }
{
    for aggregate in aggregates {
        put_aggregate(out, problem, aggregate)?;
    }
    Ok(())
}

fn put_aggregate(
    out: &mut Vec<u8>,
    problem: &Problem,
    aggregate: &Aggregate,
) -> Result<(), AllocError>
    ensures { OnOk result (out.new.items ≡ out.old.items ++ aggregate_text problem.now aggregate.now) }
{
    out.extend_from_slice(b"aggregate ")?;
    out.extend_from_slice(aggregate.name.text().as_bytes())?;
    out.extend_from_slice(b" = ")?;
    put_fold(out, problem, aggregate.fold, aggregate.target)?;
    out.extend_from_slice(b";\n")?;
    Ok(())
}

fn put_fold(
    out: &mut Vec<u8>,
    problem: &Problem,
    fold: Fold,
    target: Target,
) -> Result<(), AllocError>
    ensures { OnOk result (out.new.items ≡ out.old.items ++ fold_text fold (target_name problem.now target)) }
{
    match fold {
        Fold::Sum => {
            out.extend_from_slice(b"sum(")?;
            put_target(out, problem, target)?;
            out.extend_from_slice(b")")?;
            Ok(())
        }
        Fold::Least(otherwise) => {
            out.extend_from_slice(b"least(")?;
            put_target(out, problem, target)?;
            out.extend_from_slice(b") else ")?;
            put_number(out, otherwise)?;
            Ok(())
        }
        Fold::Greatest(otherwise) => {
            out.extend_from_slice(b"greatest(")?;
            put_target(out, problem, target)?;
            out.extend_from_slice(b") else ")?;
            put_number(out, otherwise)?;
            Ok(())
        }
    }
}

fn put_constraints(out: &mut Vec<u8>, problem: &Problem, i: usize) -> Result<(), AllocError>
    requires { i < 2 ^ 63 }
    ensures { OnOk result (out.new.items ≡ out.old.items ++ constraints_text problem.now i) }
{
    put_restriction(out, problem.all_variables(), problem.restriction(i))
}

fn put_restriction(
    out: &mut Vec<u8>,
    variables: &[Variable],
    constraints: &[Constraint],
) -> Result<(), AllocError>
    ensures { OnOk result (out.new.items ≡ out.old.items ++ flat_map (constraint_text variables.now) constraints.now) }
{
    for constraint in constraints {
        put_constraint(out, variables, constraint)?;
    }
    Ok(())
}
