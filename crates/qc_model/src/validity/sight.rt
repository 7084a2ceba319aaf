//! What conditions and aggregates see.
ghost use Rattle.std.specs.Prelude.{◌≡◌, ◌↔◌, ◌+◌, ◌≤◌, ◌<◌, IsTrue, length, map, slice_get, suc};
ghost use Rattle.qc_model.specs.Sees.{stands_in as is_one_of, aggregates_in as aggregates_of_scope, IsVisible, IsVisibleHere, IsVisibleAtEnd, AggregatesSee, SeesRight, ScopeSees};
ghost use Rattle.qc_model.specs.Valid.{is_aggregate_of, is_condition as is_condition_of, is_fold as is_fold_of, is_in_order, is_scope as is_scope_of, is_target as is_target_of};

use crate::order::{aggregates_below, variables_below};
use crate::problem::{AggId, Aggregate, Condition, Draft, Fold, Kind, Scope, Target, Variable};
use crate::validity::arguments::is_integer_variable;
use crate::validity::domains::is_number;

fn is_target(variables: &[Variable], target: Target) -> bool
    ensures { result ≡ is_target_of variables.now target }
{
    match target {
        Target::Var(x) => is_integer_variable(variables, x),
        Target::Aggregate(_) => true,
    }
}

fn is_condition(variables: &[Variable], condition: Option<Condition>) -> bool
    ensures { result ≡ is_condition_of variables.now condition }
{
    match condition {
        Some(condition) => is_target(variables, condition.target),
        None => true,
    }
}

/// Whether a condition stands in an existential scope alone, and names an integer variable or an
/// aggregate.
pub(crate) fn is_scope(variables: &[Variable], scope: &Scope) -> bool
    ensures { result ≡ is_scope_of variables.now scope.now }
{
    match scope.kind {
        Kind::Exists => is_condition(variables, scope.condition),
        Kind::Forall => scope.condition.is_none(),
    }
}

fn is_fold(fold: Fold) -> bool
    ensures { result ≡ is_fold_of fold }
{
    match fold {
        Fold::Sum => true,
        Fold::Least(n) => is_number(n),
        Fold::Greatest(n) => is_number(n),
    }
}

/// Whether an aggregate stands in a universal scope, and folds an integer variable or an aggregate.
pub(crate) fn is_aggregate(draft: &Draft, aggregate: &Aggregate) -> bool
    ensures { result ≡ is_aggregate_of draft.now aggregate.now }
{
    let is_universal = match draft.scopes.get(aggregate.scope.0 as usize) {
        Some(scope) => match scope.kind {
            Kind::Exists => false,
            Kind::Forall => true,
        },
        None => false,
    };
    is_universal
        && is_fold(aggregate.fold)
        && is_target(draft.variables.as_slice(), aggregate.target)
}

/// Whether the aggregate q is one of scope i.
fn stands_in(aggregates: &[Aggregate], i: usize, q: AggId) -> bool
    ensures { result ≡ is_one_of i (slice_get aggregates.now q.0) }
{
    match aggregates.get(q.0 as usize) {
        Some(aggregate) => aggregate.scope.0 as usize == i,
        None => false,
    }
}

/// Whether the target is a variable of a scope before i, or an aggregate of scope i.
fn is_visible_here(draft: &Draft, i: usize, target: Target) -> bool
    requires { IsTrue (is_in_order (length draft.now.scopes) (map (λ x. x.scope.0) draft.now.variables)) }
    ensures { IsTrue result ↔ IsVisibleHere draft.now i target }
{
    match target {
        Target::Var(x) => (x.0 as usize) < variables_below(draft.variables.as_slice(), i),
        Target::Aggregate(q) => stands_in(draft.aggregates.as_slice(), i, q),
    }
}

/// Whether the target is a variable of a scope before i.
fn is_visible_at_end(draft: &Draft, i: usize, target: Target) -> bool
    requires { IsTrue (is_in_order (length draft.now.scopes) (map (λ x. x.scope.0) draft.now.variables)) }
    ensures { IsTrue result ↔ IsVisibleAtEnd draft.now i target }
{
    match target {
        Target::Var(x) => (x.0 as usize) < variables_below(draft.variables.as_slice(), i),
        Target::Aggregate(_) => false,
    }
}

/// Whether the target is seen from before scope i: `later` has the scopes from i on.
fn is_visible(draft: &Draft, later: &[Scope], i: usize, target: Target) -> bool
    requires in_order { IsTrue (is_in_order (length draft.now.scopes) (map (λ x. x.scope.0) draft.now.variables)) }
    requires room { i + length later.now ≤ 64 }
    ensures { IsTrue result ↔ IsVisible draft.now later.now i target }
{
    match later.split_first() {
        Some((scope, later)) => match scope.kind {
            Kind::Exists => is_visible(draft, later, i + 1, target),
            Kind::Forall => is_visible_here(draft, i, target),
        },
        None => is_visible_at_end(draft, i, target),
    }
}

/// Whether each of the aggregates sees its target: `later` has the scopes from i on.
fn aggregates_see(draft: &Draft, aggregates: &[Aggregate], later: &[Scope], i: usize) -> bool
    requires in_order { IsTrue (is_in_order (length draft.now.scopes) (map (λ x. x.scope.0) draft.now.variables)) }
    requires room { i + length later.now ≤ 64 }
    ensures { IsTrue result ↔ AggregatesSee draft.now later.now i aggregates.now }
{
    match aggregates.split_first() {
        Some((aggregate, rest)) => {
            is_visible(draft, later, i, aggregate.target) && aggregates_see(draft, rest, later, i)
        }
        None => true,
    }
}

/// The aggregates of scope i.
fn aggregates_in(draft: &Draft, i: usize) -> &[Aggregate]
    requires in_order { IsTrue (is_in_order (length draft.now.scopes) (map (λ q. q.scope.0) draft.now.aggregates)) }
    requires room { i < 64 }
    ensures { result.now ≡ aggregates_of_scope draft.now i }
{
    let all = draft.aggregates.as_slice();
    let from = aggregates_below(all, i);
    let to = aggregates_below(all, i + 1);
    let (_earlier, rest) = all.split_at(from);
    let (here, _later) = rest.split_at(to - from);
    here
}

/// Whether scope i sees its targets: `later` has the scopes after it.
fn scope_sees(draft: &Draft, scope: &Scope, later: &[Scope], i: usize) -> bool
    requires in_order { IsTrue (is_in_order (length draft.now.scopes) (map (λ x. x.scope.0) draft.now.variables)) }
    requires aggregate_order { IsTrue (is_in_order (length draft.now.scopes) (map (λ q. q.scope.0) draft.now.aggregates)) }
    requires room { i + length later.now < 64 }
    ensures { IsTrue result ↔ ScopeSees scope.now.kind draft.now later.now (suc i) scope.now.condition (aggregates_of_scope draft.now i) }
{
    match scope.kind {
        Kind::Exists => match scope.condition {
            Some(condition) => is_visible(draft, later, i + 1, condition.target),
            None => true,
        },
        Kind::Forall => aggregates_see(draft, aggregates_in(draft, i), later, i + 1),
    }
}

/// Whether each scope from i on sees its targets: `later` has these scopes.
pub(crate) fn scopes_see(draft: &Draft, later: &[Scope], i: usize) -> bool
    requires in_order { IsTrue (is_in_order (length draft.now.scopes) (map (λ x. x.scope.0) draft.now.variables)) }
    requires aggregate_order { IsTrue (is_in_order (length draft.now.scopes) (map (λ q. q.scope.0) draft.now.aggregates)) }
    requires room { i + length later.now ≤ 64 }
    ensures { IsTrue result ↔ SeesRight draft.now later.now i }
{
    match later.split_first() {
        Some((scope, later)) => {
            scope_sees(draft, scope, later, i) && scopes_see(draft, later, i + 1)
        }
        None => true,
    }
}
