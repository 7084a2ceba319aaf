//! What aggregates are worth against an opponent without a move.
ghost use Rattle.std.specs.Prelude.{◌≡◌, ◌≤◌, ◌||◌, [], drop, length, slice_get};
ghost use Rattle.qc_model.specs.Value.{aggregate_fold, inner_target as inner_target_of};
ghost use Rattle.zero_sum.specs.Stake.{is_as_good as is_as_good_as, is_free as is_free_in, defaults_from as defaults_from_of, defaults_fit as defaults_fit_in};

use crate::stake::only_wish;
use qc_model::{AggId, Fold, Kind, Problem, ScopeId, Sense, Target, VarId};

/// Whether x is at least as good as v.
fn is_as_good(sense: Sense, x: i64, v: i64) -> bool
    ensures { result ≡ is_as_good_as sense x v }
{
    match sense {
        Sense::Min => x <= v,
        Sense::Max => v <= x,
    }
}

/// The value of the aggregate over no branch.
fn default_value(problem: &Problem, q: AggId) -> i64
    ensures { result ≡ aggregate_fold (slice_get problem.now.aggregates q.0) [] }
{
    match problem.all_aggregates().get(q.0 as usize) {
        Some(aggregate) => match aggregate.fold {
            Fold::Sum => 0,
            Fold::Least(n) => n,
            Fold::Greatest(n) => n,
        },
        None => 0,
    }
}

/// What the aggregate folds.
fn inner_target(problem: &Problem, q: AggId) -> Target
    ensures { result ≡ inner_target_of (slice_get problem.now.aggregates q.0) }
{
    match problem.all_aggregates().get(q.0 as usize) {
        Some(aggregate) => aggregate.target,
        // A problem has each aggregate that it names.
        None => Target::Var(VarId(0)),
    }
}

/// Whether no constraint keeps the opponent of scope i from moving.
fn is_free(problem: &Problem, i: u8) -> bool
    ensures { result ≡ is_free_in problem.now i }
{
    problem.restriction(i as usize).is_empty()
}

/// Whether the aggregate q, of scope i, is at least as good as v where the opponent has no move there.
fn default_fits(problem: &Problem, sense: Sense, v: i64, i: u8, q: AggId) -> bool
    ensures { result ≡ (is_free_in problem.now i || is_as_good_as sense (aggregate_fold (slice_get problem.now.aggregates q.0) []) v) }
{
    is_free(problem, i) || is_as_good(sense, default_value(problem, q), v)
}

/// Whether each aggregate that the target comes to, from scope i on, is at least as good as v where the
/// opponent has no move.
fn defaults_from(problem: &Problem, sense: Sense, v: i64, i: u8, target: Target) -> bool
    requires { i ≤ length problem.now.scopes }
    ensures { result ≡ defaults_from_of problem.now sense v (drop i problem.now.scopes) i target }
{
    problem.known();
    if i as usize == problem.scopes() {
        return true;
    }
    match problem.scope(ScopeId(i)).kind {
        Kind::Exists => defaults_from(problem, sense, v, i + 1, target),
        Kind::Forall => match target {
            Target::Var(_) => true,
            Target::Aggregate(q) => {
                default_fits(problem, sense, v, i, q)
                    && defaults_from(problem, sense, v, i + 1, inner_target(problem, q))
            }
        },
    }
}

/// Whether, wherever the opponent may have no move, each aggregate that the first scope's condition comes
/// to is then at least as good as v. A scope of the opponent's without constraints always has a move.
pub fn defaults_fit(problem: &Problem, v: i64) -> bool
    ensures { result ≡ defaults_fit_in problem.now v }
{
    match only_wish(problem) {
        Some(wish) => defaults_from(problem, wish.sense, v, 0, wish.target),
        None => true,
    }
}
