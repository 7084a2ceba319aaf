//! Whether values are an allowed tuple of a scope.
ghost use Rattle.std.specs.Prelude.{◌≡◌, ◌<◌, ◌++◌, ◌&&◌, int_le, true, length, map, drop, IfOk, IsTrue};
ghost use Rattle.std.specs.List.{list_all};
ghost use Rattle.qc_model.specs.Domains.{domain_values, has_value as is_value_of};
ghost use Rattle.qc_model.specs.Game.{scope_domains};
ghost use Rattle.qc_model.specs.Valid.{is_domain, is_number};
ghost use Rattle.qc_play.specs.Play.{lies_in as lies_in_all, is_move as is_move_of};

use model_levels::all_hold;
use qc_model::{Domain, Problem, Variable};
use std::alloc::AllocError;

fn is_between(low: i64, value: i64, high: i64) -> bool
    ensures { result ≡ (int_le low value && int_le value high) }
{
    low <= value && value <= high
}

/// Whether the domain has the value.
fn has_value(domain: &Domain, value: i64) -> bool
    requires { IsTrue (is_domain domain.now) }
    ensures { result ≡ is_value_of (domain_values domain.now) value }
{
    match domain {
        Domain::Bits => value == 0 || value == 1,
        Domain::Range(low, high) => is_between(*low, value, *high),
        Domain::Listed(numbers) => numbers.items().iter().any(|n| *n == value),
    }
}

/// Whether each value is one of its variable.
fn lie_in(variables: &[Variable], tuple: &[i64]) -> bool
    requires domains { IsTrue (list_all (λ x. is_domain x.domain) variables.now) }
    requires each { length tuple.now ≡ length variables.now }
    ensures { result ≡ lies_in_all tuple.now (map (λ x. domain_values x.domain) variables.now) }
{
    for k in 0..tuple.len() {
        if !has_value(&variables[k].domain, tuple[k]) {
            return false;
        }
    }
    true
}

/// The variables of scope i.
fn variables_of(problem: &Problem, i: usize) -> &[Variable]
    requires { i < length problem.now.scopes }
    ensures domains { IsTrue (list_all (λ x. is_domain x.domain) result.now) }
    ensures values { map (λ x. domain_values x.domain) result.now ≡ scope_domains problem.now i }
{
    problem.known();
    problem.variables_of(i)
}

/// How many variables scope i has.
pub(crate) fn width(problem: &Problem, i: usize) -> usize
    requires { i < length problem.now.scopes }
    ensures { result ≡ length (scope_domains problem.now i) }
{
    variables_of(problem, i).len()
}

/// Whether the values are an allowed tuple of scope i. Where they are, they stand after the values before them.
pub(crate) fn take_tuple(
    problem: &Problem,
    i: usize,
    values: &mut Vec<i64>,
    tuple: &[i64],
) -> Result<bool, AllocError>
    requires scope { i < length problem.now.scopes }
    requires each { length tuple.now ≡ length (scope_domains problem.now i) }
    requires numbers { IsTrue (list_all is_number values.old.items) }
    ensures allowed { IfOk result (λ b. b ≡ is_move_of problem.now i values.old.items tuple.now) }
    ensures taken { IfOk result (λ b. b ≡ true → values.new.items ≡ values.old.items ++ tuple.now) }
{
    problem.known();
    if !lie_in(variables_of(problem, i), tuple) {
        return Ok(false);
    }
    values.extend_from_slice(tuple)?;
    Ok(all_hold(problem, problem.restriction(i), values.as_slice()))
}
