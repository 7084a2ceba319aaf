//! The draft of the game with opposing scopes.
ghost use Rattle.std.specs.Prelude.{◌≡◌, ◌≤◌, ◌<◌, ◌==◌, ◌++◌, map, length, IfOk, OnOk, IsTrue, slice_get};
ghost use Rattle.qc_pessimist.specs.Worst.{chosen_wish as wish_of};
ghost use Rattle.qc_pessimist.specs.Opposed.{added, with_opposing, move_variable, move_aggregate, move_rule, opposed as opposed_of};
ghost use Rattle.qc_pessimist.specs.Refusals.{is_chosen as is_chosen_of};
ghost use Rattle.qc_pessimist.specs.Table.{places_from, place_in};

use crate::reading::Places;
use model_copies::{copy_arguments, copy_domain, copy_name};
use qc_model::{
    Aggregate, ConId, Condition, Constraint, Kind, Problem, Scope, ScopeId, Sense, Variable,
};
use std::alloc::{AllocError, Global};

fn is_chosen(places: Places, number: u8) -> bool
    ensures { result ≡ is_chosen_of places number }
{
    match places {
        Places::One(i) => number == i.0,
        Places::All => true,
    }
}

/// The condition of the scope with this number, where it is chosen.
pub(crate) fn chosen_wish(places: Places, number: u8, scope: &Scope) -> Option<Condition>
    ensures { result ≡ wish_of (is_chosen_of places number) scope.now.kind scope.now.condition }
{
    if !is_chosen(places, number) {
        return None;
    }
    match scope.kind {
        Kind::Exists => scope.condition,
        Kind::Forall => None,
    }
}

/// The same target, in the other sense.
fn opposed(condition: Condition) -> Condition
    ensures { result ≡ opposed_of condition }
{
    Condition {
        sense: match condition.sense {
            Sense::Min => Sense::Max,
            Sense::Max => Sense::Min,
        },
        target: condition.target,
    }
}

/// How many scopes are added for the wish.
fn added_for(wish: Option<Condition>) -> u8
    ensures counts { result ≡ length (added wish) }
    ensures few { result ≤ 1 }
{
    match wish {
        Some(_) => 1,
        None => 0,
    }
}

fn push_opposing(scopes: &mut Vec<Scope>, wish: Option<Condition>) -> Result<(), AllocError>
    ensures { OnOk result (scopes.new.items ≡ scopes.old.items ++ added wish) }
{
    if let Some(condition) = wish {
        scopes.push(Scope {
            kind: Kind::Exists,
            condition: Some(opposed(condition)),
        })?;
    }
    Ok(())
}

/// The scopes, with an opposing one after each chosen one.
pub(crate) fn opposed_scopes(
    alloc: Global,
    problem: &Problem,
    places: Places,
) -> Result<Vec<Scope>, AllocError>
    ensures { IfOk result (λ scopes. scopes.items ≡ with_opposing (is_chosen_of places) 0 problem.now.scopes) }
{
    problem.known();
    let mut scopes = Vec::new(alloc);
    for i in 0..problem.scopes() {
        let scope = problem.scope(ScopeId(i as u8));
        scopes.push(*scope)?;
        push_opposing(&mut scopes, chosen_wish(places, i as u8, scope))?;
    }
    Ok(scopes)
}

/// The new place of each scope, and last of the goal.
pub(crate) fn new_places(
    alloc: Global,
    problem: &Problem,
    places: Places,
) -> Result<Vec<u8>, AllocError>
    ensures { IfOk result (λ table. table.items ≡ places_from (is_chosen_of places) 0 problem.now.scopes 0) }
{
    problem.known();
    let mut table = Vec::new(alloc);
    let mut place = 0_u8;
    for i in 0..problem.scopes() {
        table.push(place)?;
        let scope = problem.scope(ScopeId(i as u8));
        place += 1 + added_for(chosen_wish(places, i as u8, scope));
    }
    table.push(place)?;
    Ok(table)
}

fn place(table: &[u8], scope: ScopeId) -> ScopeId
    ensures { result.0 ≡ place_in table.now scope.0 }
{
    match table.get(scope.0 as usize) {
        Some(place) => ScopeId(*place),
        // Each scope has a place.
        None => ScopeId(0),
    }
}

pub(crate) fn moved_variables(
    alloc: Global,
    table: &[u8],
    variables: &[Variable],
) -> Result<Vec<Variable>, AllocError>
    ensures { IfOk result (λ moved. moved.items ≡ map (move_variable (place_in table.now)) variables.now) }
{
    let mut moved = Vec::new(alloc);
    for variable in variables {
        moved.push(Variable {
            name: copy_name(alloc, &variable.name)?,
            scope: place(table, variable.scope),
            domain: copy_domain(alloc, &variable.domain)?,
        })?;
    }
    Ok(moved)
}

pub(crate) fn moved_aggregates(
    alloc: Global,
    table: &[u8],
    aggregates: &[Aggregate],
) -> Result<Vec<Aggregate>, AllocError>
    ensures { IfOk result (λ moved. moved.items ≡ map (move_aggregate (place_in table.now)) aggregates.now) }
{
    let mut moved = Vec::new(alloc);
    for aggregate in aggregates {
        moved.push(Aggregate {
            name: copy_name(alloc, &aggregate.name)?,
            scope: place(table, aggregate.scope),
            fold: aggregate.fold,
            target: aggregate.target,
        })?;
    }
    Ok(moved)
}

fn moved_constraint(
    alloc: Global,
    table: &[u8],
    constraint: &Constraint,
) -> Result<Constraint, AllocError>
    ensures { IfOk result (λ moved. moved ≡ move_rule (place_in table.now) constraint.now) }
{
    Ok(Constraint {
        owner: place(table, constraint.owner),
        pred: constraint.pred,
        args: copy_arguments(alloc, constraint.args.as_slice())?,
    })
}

pub(crate) fn moved_constraints(
    alloc: Global,
    table: &[u8],
    problem: &Problem,
) -> Result<Vec<Constraint>, AllocError>
    ensures { IfOk result (λ moved. moved.items ≡ map (move_rule (place_in table.now)) problem.now.constraints) }
{
    problem.known();
    let mut moved = Vec::new(alloc);
    for c in 0..problem.constraints() {
        let constraint = problem.constraint(ConId(c as u16));
        moved.push(moved_constraint(alloc, table, constraint)?)?;
    }
    Ok(moved)
}
