//! What a game is about, where both sides care for one quantity.
ghost use Rattle.std.specs.Prelude.{◌≡◌, ◌≤◌, cond, drop, is_none, length, slice_get, None};
ghost use Rattle.std.specs.List.{list_all};
ghost use Rattle.qc_model.specs.Value.{inner_target};
ghost use Rattle.zero_sum.specs.Stake.{is_worst as is_worst_of, is_by_worst, only_wish as only_wish_of, stake_at as stake_at_of, stake_from as stake_from_of, stake_of as stake_in};

use qc_model::{AggId, Condition, Fold, Kind, Problem, ScopeId, Sense, Target, VarId};

/// What is at stake in each line of play: the variable, whether the player wants it small or great, and
/// the place where the player has to answer for it, a scope of its own or the goal.
#[derive(Clone, Copy, PartialEq, Eq)]
pub struct Stake {
    pub sense: Sense,
    pub variable: VarId,
    pub place: ScopeId,
}

/// Whether the fold counts the branch that is worst for the player.
fn is_worst(sense: Sense, fold: Fold) -> bool
    ensures { result ≡ is_worst_of sense fold }
{
    match sense {
        Sense::Min => match fold {
            Fold::Greatest(_) => true,
            Fold::Least(_) => false,
            Fold::Sum => false,
        },
        Sense::Max => match fold {
            Fold::Least(_) => true,
            Fold::Greatest(_) => false,
            Fold::Sum => false,
        },
    }
}

/// What the aggregate folds, where that is by the worst branch.
fn worst_target(problem: &Problem, sense: Sense, q: AggId) -> Option<Target>
    ensures { result ≡ cond (is_by_worst sense (slice_get problem.now.aggregates q.0)) (Some (inner_target (slice_get problem.now.aggregates q.0))) None }
{
    match problem.all_aggregates().get(q.0 as usize) {
        Some(aggregate) => {
            if is_worst(sense, aggregate.fold) {
                Some(aggregate.target)
            } else {
                None
            }
        }
        None => None,
    }
}

/// The stake, where there is a place.
fn stake_at(sense: Sense, variable: VarId, place: Option<u8>) -> Option<Stake>
    ensures { result ≡ stake_at_of sense variable place }
{
    match place {
        Some(place) => Some(Stake {
            sense,
            variable,
            place: ScopeId(place),
        }),
        None => None,
    }
}

/// What is at stake in the target from scope i on, where `place` is the player's last place since the
/// opponent moved.
fn stake_from(
    problem: &Problem,
    sense: Sense,
    i: u8,
    place: Option<u8>,
    target: Target,
) -> Option<Stake>
    requires { i ≤ length problem.now.scopes }
    ensures { result ≡ stake_from_of problem.now sense (drop i problem.now.scopes) i place target }
{
    problem.known();
    if i as usize == problem.scopes() {
        return match target {
            Target::Var(x) => stake_at(sense, x, Some(i)),
            Target::Aggregate(_) => None,
        };
    }
    match problem.scope(ScopeId(i)).kind {
        Kind::Exists => stake_from(problem, sense, i + 1, Some(i), target),
        Kind::Forall => match target {
            Target::Var(x) => stake_at(sense, x, place),
            Target::Aggregate(q) => match worst_target(problem, sense, q) {
                Some(inner) => stake_from(problem, sense, i + 1, None, inner),
                None => None,
            },
        },
    }
}

/// Whether no scope from i on has a condition.
fn are_plain_from(problem: &Problem, i: u8) -> bool
    requires { i ≤ length problem.now.scopes }
    ensures { result ≡ list_all (λ s. is_none s.condition) (drop i problem.now.scopes) }
{
    problem.known();
    if i as usize == problem.scopes() {
        return true;
    }
    problem.scope(ScopeId(i)).condition.is_none() && are_plain_from(problem, i + 1)
}

/// The condition of the first scope, where that is the player's and no later scope has one.
pub(crate) fn only_wish(problem: &Problem) -> Option<Condition>
    ensures { result ≡ only_wish_of problem.now.scopes }
{
    problem.known();
    if problem.scopes() == 0 {
        return None;
    }
    let first = problem.scope(ScopeId(0));
    match first.kind {
        Kind::Exists => {
            if are_plain_from(problem, 1) {
                first.condition
            } else {
                None
            }
        }
        Kind::Forall => None,
    }
}

/// What is at stake in the game, where both sides care for one quantity: only the first scope has a
/// condition, each aggregate that it comes to counts the branch that is worst for the player, and the
/// player can answer for the variable at the end of them, in the last scope of its own before the
/// opponent moves again, or in the goal where it doesn't.
pub fn stake_of(problem: &Problem) -> Option<Stake>
    ensures { result ≡ stake_in problem.now }
{
    match only_wish(problem) {
        Some(wish) => stake_from(problem, wish.sense, 0, None, wish.target),
        None => None,
    }
}
