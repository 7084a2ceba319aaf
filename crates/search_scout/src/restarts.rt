//! A search that begins again with other values where it takes long.
ghost use Rattle.std.specs.Prelude.{◌≡◌, ◌≤◌, IfOk, IsTrue, IsFalse};
ghost use Rattle.qc_model.specs.Domains.{has_empty};
ghost use Rattle.prop_engine.specs.Closing.{IsClosedFor, is_between};
ghost use Rattle.search_scout.specs.Ground.{IsSound, Went, CameBack};

use crate::closing::close_all;
use crate::diving::{Outcome, dive};
use crate::ground::Ground;
use crate::narrowing::keep_alone;
use model_levels::Level;
use prop_engine::Closed;
use qc_model::VarId;
use std::alloc::AllocError;

/// How many turns a run has at least.
const LEAST_TURNS: u64 = 100;

/// How many runs there are at most, each with the same share of the turns: many short ones find a tuple sooner than a few long
/// ones, since what goes astray at the first values does so for long.
const MOST_RUNS: u32 = 16;

/// How runs ended, and how many turns they left.
#[derive(Clone, Copy)]
pub(crate) struct Ended {
    pub(crate) outcome: Outcome,
    pub(crate) left: u64,
}

/// Gives the variables before the scope their values, and searches for a tuple of the scope.
#[tactic(auto, using(crate::proofs::Going::went_more, crate::proofs::Going::went_back))]
pub(crate) fn search_from(
    level: &Level,
    before: &[i64],
    turns: u64,
    ground: &mut Ground,
) -> Result<bool, AllocError>
    requires sound { IsSound level.now.problem.now ground.old.engine ground.old.store }
    requires full { IsFalse (has_empty ground.old.store.box) }
    ensures went { Went level.now.problem.now ground.old.store ground.new.engine ground.new.store }
{
    if !place_before(level, before, ground)? {
        return Ok(false);
    }
    match close_all(level, ground)? {
        Closed::Empty => Ok(false),
        Closed::Open => is_there_one(level, turns, ground),
    }
}

/// Whether a tuple is found in a box that is closed.
fn is_there_one(level: &Level, turns: u64, ground: &mut Ground) -> Result<bool, AllocError>
    requires sound { IsSound level.now.problem.now ground.old.engine ground.old.store }
    requires closed { IsClosedFor (is_between level.now.in_force.first level.now.in_force.end) level.now.problem.now ground.old.store.box }
    ensures back { CameBack level.now.problem.now ground.old.store ground.new.engine ground.new.store }
{
    let ended = with_restarts(level, turns, ground)?;
    Ok(is_found(ended.outcome))
}

pub(crate) fn is_found(outcome: Outcome) -> bool {
    matches!(outcome, Outcome::Found)
}

/// Gives the variables before the scope their values, and says whether these are left to them.
#[tactic(auto, using(crate::proofs::Going::went_same, crate::proofs::Going::went_more, crate::proofs::Going::went_narrowed))]
pub(crate) fn place_before(
    level: &Level,
    before: &[i64],
    ground: &mut Ground,
) -> Result<bool, AllocError>
    requires sound { IsSound level.now.problem.now ground.old.engine ground.old.store }
    requires full { IsFalse (has_empty ground.old.store.box) }
    ensures went { Went level.now.problem.now ground.old.store ground.new.engine ground.new.store }
    ensures full { IfOk result (λ some. IsTrue some → IsFalse (has_empty ground.new.store.box)) }
{
    level.problem.known();
    for at in 0..level.from {
        let Some(value) = before.get(at) else {
            return Ok(false);
        };
        if !keep_alone(&mut ground.store, VarId(at as u16), *value)? {
            return Ok(false);
        }
    }
    Ok(true)
}

/// Runs again and again, each time within its share of the turns, until a tuple is found, none is left, or all are spent. The
/// first run takes values in order.
#[tactic(auto, using(crate::proofs::Going::back_same, crate::proofs::Going::back_more, crate::proofs::Going::closed_back))]
pub(crate) fn with_restarts(
    level: &Level,
    turns: u64,
    ground: &mut Ground,
) -> Result<Ended, AllocError>
    requires sound { IsSound level.now.problem.now ground.old.engine ground.old.store }
    requires closed { IsClosedFor (is_between level.now.in_force.first level.now.in_force.end) level.now.problem.now ground.old.store.box }
    ensures back { CameBack level.now.problem.now ground.old.store ground.new.engine ground.new.store }
{
    let mut left = turns;
    let limit = (turns / u64::from(MOST_RUNS)).max(LEAST_TURNS);
    for round in 0..MOST_RUNS {
        if left == 0 {
            return Ok(spent());
        }
        ground.varies = round > 0;
        ground.turns = left.min(limit);
        left = left.saturating_sub(limit);
        let outcome = run(level, ground)?;
        left = left.saturating_add(ground.turns);
        if is_over(outcome) {
            return Ok(Ended { outcome, left });
        }
    }
    Ok(spent())
}

/// Whether it is known if there is a tuple.
fn is_over(outcome: Outcome) -> bool {
    !matches!(outcome, Outcome::Spent)
}

fn spent() -> Ended {
    Ended {
        outcome: Outcome::Spent,
        left: 0,
    }
}

/// One search within its turns. The store is as before.
#[tactic(auto, using(crate::proofs::Going::back_undone))]
fn run(level: &Level, ground: &mut Ground) -> Result<Outcome, AllocError>
    requires sound { IsSound level.now.problem.now ground.old.engine ground.old.store }
    requires closed { IsClosedFor (is_between level.now.in_force.first level.now.in_force.end) level.now.problem.now ground.old.store.box }
    ensures back { CameBack level.now.problem.now ground.old.store ground.new.engine ground.new.store }
{
    let mark = ground.store.mark();
    let outcome = dive(level, ground);
    ground.store.undo_to(mark);
    outcome
}
