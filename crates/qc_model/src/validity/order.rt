//! Variables, aggregates and constraints in the order of their scopes.
ghost use Rattle.std.specs.Prelude.{◌≡◌, map};
ghost use Rattle.qc_model.specs.Valid.{is_in_order};

use crate::problem::{Aggregate, Constraint, Variable};

/// Whether the variables stand in the order of their scopes, which are below n.
pub(crate) fn variables_in_order(n: usize, variables: &[Variable]) -> bool
    ensures { result ≡ is_in_order n (map (λ x. x.scope.0) variables.now) }
{
    variables.is_sorted_by(|a, b| a.scope.0 <= b.scope.0)
        && match variables.last() {
            Some(x) => (x.scope.0 as usize) < n,
            None => true,
        }
}

/// Whether the constraints stand in the order of their scopes, which are below n.
pub(crate) fn constraints_in_order(n: usize, constraints: &[Constraint]) -> bool
    ensures { result ≡ is_in_order n (map (λ c. c.owner.0) constraints.now) }
{
    constraints.is_sorted_by(|a, b| a.owner.0 <= b.owner.0)
        && match constraints.last() {
            Some(c) => (c.owner.0 as usize) < n,
            None => true,
        }
}

/// Whether the aggregates stand in the order of their scopes, which are below n.
pub(crate) fn aggregates_in_order(n: usize, aggregates: &[Aggregate]) -> bool
    ensures { result ≡ is_in_order n (map (λ q. q.scope.0) aggregates.now) }
{
    aggregates.is_sorted_by(|a, b| a.scope.0 <= b.scope.0)
        && match aggregates.last() {
            Some(q) => (q.scope.0 as usize) < n,
            None => true,
        }
}
