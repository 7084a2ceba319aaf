//! Which drafts are problems.
//!
//! The counts are looked at first and the order next, so that a draft far beyond the limits is
//! refused before its names, domains and constraints are walked.
ghost use Rattle.std.specs.Prelude.{◌≡◌, ◌↔◌, ◌≤◌, ◌+◌, [], IfSome, IsSome, IsTrue, length, map, sum_by, ◌&&◌};
ghost use Rattle.std.specs.List.{list_all};
ghost use Rattle.qc_model.specs.Names.{is_name, names_differ as all_differ};
ghost use Rattle.qc_model.specs.Sees.{SeesRight};
ghost use Rattle.qc_model.specs.Valid.{IsValid, declared_names, domain_width, is_aggregate_of, is_constraint as is_constraint_of, is_domain, is_in_order, is_scope as is_scope_of};

mod arguments;
mod domains;
mod names;
mod order;
mod sight;

use crate::demands::bottlenecks_last;
use crate::limits;
use crate::problem::{Constraint, Draft, Variable};
use crate::valid_problem::Problem;
use crate::validity::arguments::is_constraint;
use crate::validity::domains::{are_domains, total_width};
use crate::validity::names::{are_names, names_differ};
use crate::validity::order::{aggregates_in_order, constraints_in_order, variables_in_order};
use crate::validity::sight::{is_aggregate, is_scope, scopes_see};

fn are_few(draft: &Draft) -> bool
    ensures { IsTrue result ↔ ((length draft.now.scopes ≤ 64) × (length draft.now.variables ≤ 500) × (length draft.now.aggregates ≤ 255) × (length draft.now.constraints ≤ 20000)) }
{
    draft.scopes.len() <= limits::SCOPES
        && draft.variables.len() <= limits::VARIABLES
        && draft.aggregates.len() <= limits::AGGREGATES
        && draft.constraints.len() <= limits::CONSTRAINTS
}

fn are_in_order(draft: &Draft) -> bool
    ensures { result ≡ (is_in_order (length draft.now.scopes) (map (λ x. x.scope.0) draft.now.variables) && is_in_order (length draft.now.scopes + 1) (map (λ c. c.owner.0) draft.now.constraints) && is_in_order (length draft.now.scopes) (map (λ q. q.scope.0) draft.now.aggregates)) }
{
    let scopes = draft.scopes.len();
    variables_in_order(scopes, draft.variables.as_slice())
        && constraints_in_order(scopes + 1, draft.constraints.as_slice())
        && aggregates_in_order(scopes, draft.aggregates.as_slice())
}

fn are_named(draft: &Draft) -> bool
    ensures { result ≡ (list_all is_name (declared_names draft.now) && all_differ (declared_names draft.now)) }
{
    let variables = draft.variables.as_slice();
    let aggregates = draft.aggregates.as_slice();
    are_names(variables, aggregates) && names_differ(variables, aggregates)
}

fn have_domains(variables: &[Variable]) -> bool
    requires { length variables.now ≤ 500 }
    ensures { IsTrue result ↔ (IsTrue (list_all (λ x. is_domain x.domain) variables.now) × (sum_by (λ x. domain_width x.domain) variables.now ≤ 4194304)) }
{
    are_domains(variables) && total_width(variables) <= limits::TOTAL_WIDTH
}

fn are_scopes(draft: &Draft) -> bool
    ensures { result ≡ list_all (is_scope_of draft.now.variables) draft.now.scopes }
{
    let variables = draft.variables.as_slice();
    draft.scopes.iter().all(|scope| is_scope(variables, scope))
}

fn are_aggregates(draft: &Draft) -> bool
    ensures { result ≡ list_all (is_aggregate_of draft.now) draft.now.aggregates }
{
    draft
        .aggregates
        .iter()
        .all(|aggregate| is_aggregate(draft, aggregate))
}

fn are_constraints(variables: &[Variable], constraints: &[Constraint]) -> bool
    ensures { result ≡ list_all (is_constraint_of variables.now) constraints.now }
{
    constraints
        .iter()
        .all(|constraint| is_constraint(variables, constraint))
}

fn is_valid(draft: &Draft) -> bool
    ensures { IsTrue result ↔ IsValid draft.now }
{
    if !are_few(draft) {
        return false;
    }
    if !are_in_order(draft) {
        return false;
    }
    if !are_named(draft) {
        return false;
    }
    if !have_domains(draft.variables.as_slice()) {
        return false;
    }
    if !are_scopes(draft) {
        return false;
    }
    if !are_aggregates(draft) {
        return false;
    }
    if !scopes_see(draft, draft.scopes.as_slice(), 0) {
        return false;
    }
    if !bottlenecks_last(draft) {
        return false;
    }
    are_constraints(draft.variables.as_slice(), draft.constraints.as_slice())
}

/// The problem with this content, where the draft is valid.
///
/// A draft is valid where:
/// - scopes, variables, aggregates, constraints, numbers, domains, sets and arrays are within the limits of
///   `limits`, and no domain is empty;
/// - variables, aggregates and constraints stand in the order of their scopes; the goal's constraints
///   come last;
/// - names are words that aren't reserved, and all differ;
/// - each domain and set has its one form;
/// - each constraint's arguments have the sorts and lengths of its predicate, and no variable is of
///   a later scope than the constraint's own;
/// - conditions stand in existential scopes and aggregates in universal ones, and what they name is
///   seen there: an integer variable of a scope before the next universal scope, or an aggregate of
///   that scope;
/// - no universal scope is asked for an aggregate by least or greatest and, after it, for a different
///   one.
///
/// It takes no memory.
pub fn build(draft: Draft) -> Option<Problem>
    ensures content { IfSome result (λ problem. problem ≡ draft) }
    ensures exact { IsSome result ↔ IsValid draft }
{
    if is_valid(&draft) {
        Some(Problem::new(draft))
    } else {
        None
    }
}
