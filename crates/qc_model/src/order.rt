//! Where the variables, the aggregates and the constraints of a scope begin: all stand in the order of their scopes.
ghost use Rattle.std.specs.Prelude.{◌≡◌, ◌≤◌, length, nat_lt, count_by};
ghost use Rattle.std.specs.List.Sorted.{IsNonDecreasingBy};

use crate::problem::{Aggregate, Constraint, Variable};

/// How many variables stand in scopes before i.
pub(crate) fn variables_below(all: &[Variable], i: usize) -> usize
    requires { IsNonDecreasingBy (λ x. x.scope.0) all.now }
    ensures bound { result ≤ length all.now }
    ensures count { result ≡ count_by (λ x. nat_lt x.scope.0 i) all.now }
{
    all.partition_point(|x| (x.scope.0 as usize) < i)
}

/// How many aggregates stand in scopes before i.
pub(crate) fn aggregates_below(all: &[Aggregate], i: usize) -> usize
    requires { IsNonDecreasingBy (λ q. q.scope.0) all.now }
    ensures bound { result ≤ length all.now }
    ensures count { result ≡ count_by (λ q. nat_lt q.scope.0 i) all.now }
{
    all.partition_point(|q| (q.scope.0 as usize) < i)
}

/// How many constraints belong to scopes before i.
pub(crate) fn constraints_below(all: &[Constraint], i: usize) -> usize
    requires { IsNonDecreasingBy (λ c. c.owner.0) all.now }
    ensures bound { result ≤ length all.now }
    ensures count { result ≡ count_by (λ c. nat_lt c.owner.0 i) all.now }
{
    all.partition_point(|c| (c.owner.0 as usize) < i)
}
