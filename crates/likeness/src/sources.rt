//! What looks at a variable: its own scope, constraints, conditions and aggregates.
ghost use Rattle.std.specs.Prelude.{◌≡◌, ◌++◌, ◌∷◌, [], cond, filter, map, IfOk, OnOk};
ghost use Rattle.std.specs.List.{list_any};
ghost use Rattle.qc_model.specs.Demands.{target_within as target_within_of};
ghost use Rattle.proof_alike.specs.Alike.{constrains, mentions, condition_mentions, is_seen};
ghost use Rattle.likeness.specs.Marks.{AddsMarks};
ghost use Rattle.likeness.specs.Seeing.{tells};

use crate::marks::{EVERY_SCOPE, raise, raise_all};
use crate::reading::{is_telling, reading_of, variables_by_value};
use model_arguments::arguments;
use qc_model::{ConId, Condition, Constraint, Problem, ScopeId, Target, VarId};
use std::alloc::{AllocError, Global};

/// The scope of each variable.
pub(crate) fn own_scopes(alloc: Global, problem: &Problem) -> Result<Vec<u8>, AllocError>
    ensures { IfOk result (λ upto. upto.items ≡ map (λ x. x.scope.0) problem.now.variables) }
{
    let mut upto = Vec::with_capacity(alloc, problem.variables())?;
    for variable in problem.all_variables() {
        upto.push(variable.scope.0)?;
    }
    Ok(upto)
}

/// Has the variables that the constraint reads by value looked at from its scope on.
fn mark_constraint(alloc: Global, rule: &Constraint, upto: &mut [u8]) -> Result<(), AllocError>
    ensures { OnOk result (AddsMarks (λ i y. constrains i y rule.now) upto.old upto.new) }
{
    let variables = variables_by_value(alloc, reading_of(rule), arguments(rule))?;
    raise_all(upto, &variables, rule.owner.0);
    Ok(())
}

/// Has the variables that each constraint reads by value looked at from its scope on.
fn mark_constraints(alloc: Global, problem: &Problem, upto: &mut [u8]) -> Result<(), AllocError>
    ensures { OnOk result (AddsMarks (λ i y. list_any (constrains i y) problem.now.constraints) upto.old upto.new) }
{
    problem.known();
    for k in 0..problem.constraints() {
        mark_constraint(alloc, problem.constraint(ConId(k as u16)), upto)?;
    }
    Ok(())
}

/// The target, or an aggregate's own.
fn target_within(problem: &Problem, target: Target) -> Target
    ensures { result ≡ target_within_of problem.now target }
{
    match target {
        Target::Var(x) => Target::Var(x),
        Target::Aggregate(q) => match problem.all_aggregates().get(q.0 as usize) {
            Some(aggregate) => aggregate.target,
            None => Target::Var(VarId(0)),
        },
    }
}

fn mark_target(problem: &Problem, target: Target, upto: &mut [u8])
    ensures { AddsMarks (λ i y. mentions problem.now y target) upto.old upto.new }
{
    if let Target::Var(x) = target_within(problem, target) {
        raise(upto, x, EVERY_SCOPE);
    }
}

fn mark_condition(problem: &Problem, condition: Option<Condition>, upto: &mut [u8])
    ensures { AddsMarks (λ i y. condition_mentions problem.now y condition) upto.old upto.new }
{
    if let Some(condition) = condition {
        mark_target(problem, condition.target, upto);
    }
}

/// Has the variables of all conditions looked at from every scope on.
fn mark_conditions(problem: &Problem, upto: &mut [u8])
    ensures { AddsMarks (λ i y. list_any (λ s. condition_mentions problem.now y s.condition) problem.now.scopes) upto.old upto.new }
{
    problem.known();
    for k in 0..problem.scopes() {
        mark_condition(problem, problem.scope(ScopeId(k as u8)).condition, upto);
    }
}

/// Has the variables of all aggregates looked at from every scope on.
fn mark_aggregates(problem: &Problem, upto: &mut [u8])
    ensures { AddsMarks (λ i y. list_any (λ q. mentions problem.now y q.target) problem.now.aggregates) upto.old upto.new }
{
    for aggregate in problem.all_aggregates() {
        mark_target(problem, aggregate.target, upto);
    }
}

/// Has each variable looked at from where a constraint reads its value, or a condition or an aggregate mentions it.
pub(crate) fn mark_seen(alloc: Global, problem: &Problem, upto: &mut [u8]) -> Result<(), AllocError>
    ensures { OnOk result (AddsMarks (λ i y. is_seen problem.now i y) upto.old upto.new) }
{
    mark_constraints(alloc, problem, upto)?;
    mark_conditions(problem, upto);
    mark_aggregates(problem, upto);
    Ok(())
}

/// Appends the constraint where it sees values other than by themselves.
fn push_telling<'p>(rules: &mut Vec<&'p Constraint>, rule: &'p Constraint) -> Result<(), AllocError>
    ensures { OnOk result (map (λ r. r.now) rules.new.items ≡ map (λ r. r.now) rules.old.items ++ cond (tells rule.now) (rule.now ∷ []) []) }
{
    if is_telling(reading_of(rule)) {
        rules.push(rule)?;
    }
    Ok(())
}

/// The constraints that see values other than by themselves: sums, a + b = c, and clauses.
pub(crate) fn telling_rules<'p>(
    alloc: Global,
    problem: &'p Problem,
) -> Result<Vec<&'p Constraint>, AllocError>
    ensures { IfOk result (λ rules. map (λ r. r.now) rules.items ≡ filter tells problem.now.constraints) }
{
    problem.known();
    let mut rules = Vec::new(alloc);
    for k in 0..problem.constraints() {
        push_telling(&mut rules, problem.constraint(ConId(k as u16)))?;
    }
    Ok(rules)
}
