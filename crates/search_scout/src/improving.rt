//! A search for tuples that get better and better.
ghost use Rattle.std.specs.Prelude.{◌≡◌, ◌<◌, IfOk, IsTrue, IsFalse};
ghost use Rattle.qc_model.specs.Domains.{has_empty};
ghost use Rattle.prop_engine.specs.Closing.{IsClosedFor, is_between};
ghost use Rattle.search_scout.specs.Ground.{IsSound, Went, CameBack};

use crate::closing::{close_after, close_all};
use crate::ground::{Ground, Wish};
use crate::narrowing::give_up;
use crate::restarts::{is_found, place_before, with_restarts};
use model_levels::Level;
use prop_engine::Closed;
use qc_model::{Sense, VarId};
use std::alloc::AllocError;

/// How many tuples are found at most.
const MOST_TUPLES: u32 = 10_000;

/// The best value of the objective that is found within the turns, where the variables before the scope have these values.
/// The store is as before.
#[tactic(auto, using(crate::proofs::Going::back_undone))]
pub(crate) fn best_from(
    level: &Level,
    before: &[i64],
    turns: u64,
    wish: Wish,
    ground: &mut Ground,
) -> Result<Option<i64>, AllocError>
    requires objective { wish.objective.0 < level.now.stop }
    requires sound { IsSound level.now.problem.now ground.old.engine ground.old.store }
    requires full { IsFalse (has_empty ground.old.store.box) }
    ensures back { CameBack level.now.problem.now ground.old.store ground.new.engine ground.new.store }
{
    let mark = ground.store.mark();
    let best = search_best(level, before, turns, wish, ground);
    ground.store.undo_to(mark);
    best
}

/// Gives the variables before the scope their values, and searches for tuples of the scope with better and better values of
/// the objective: the last of these values.
#[tactic(auto, using(crate::proofs::Going::went_more, crate::proofs::Going::went_back))]
fn search_best(
    level: &Level,
    before: &[i64],
    turns: u64,
    wish: Wish,
    ground: &mut Ground,
) -> Result<Option<i64>, AllocError>
    requires objective { wish.objective.0 < level.now.stop }
    requires sound { IsSound level.now.problem.now ground.old.engine ground.old.store }
    requires full { IsFalse (has_empty ground.old.store.box) }
    ensures went { Went level.now.problem.now ground.old.store ground.new.engine ground.new.store }
{
    if !place_before(level, before, ground)? {
        return Ok(None);
    }
    match close_all(level, ground)? {
        Closed::Empty => Ok(None),
        Closed::Open => better_and_better(level, turns, wish, ground),
    }
}

/// Goes on after each tuple with better values alone, until none is left or all turns are spent.
#[tactic(auto, using(crate::proofs::Going::went_same, crate::proofs::Going::went_more, crate::proofs::Going::went_back, crate::proofs::Going::closed_back))]
fn better_and_better(
    level: &Level,
    turns: u64,
    wish: Wish,
    ground: &mut Ground,
) -> Result<Option<i64>, AllocError>
    requires objective { wish.objective.0 < level.now.stop }
    requires sound { IsSound level.now.problem.now ground.old.engine ground.old.store }
    requires closed { IsClosedFor (is_between level.now.in_force.first level.now.in_force.end) level.now.problem.now ground.old.store.box }
    ensures went { Went level.now.problem.now ground.old.store ground.new.engine ground.new.store }
{
    let mut best = None;
    let mut left = turns;
    for _ in 0..MOST_TUPLES {
        let ended = with_restarts(level, left, ground)?;
        if !is_found(ended.outcome) {
            return Ok(best);
        }
        left = ended.left;
        let value = value_of(wish.objective, ground);
        best = Some(value);
        if !keep_better(level, wish, value, ground)? {
            return Ok(best);
        }
    }
    Ok(best)
}

/// The value of x in the tuple that was found last.
fn value_of(x: VarId, ground: &Ground) -> i64 {
    match ground.values.get(x.0 as usize) {
        Some(value) => *value,
        None => 0,
    }
}

/// Keeps the values of the objective that are better than this one, and says whether a tuple may have one.
#[tactic(auto, using(crate::proofs::Going::went_narrowed, crate::proofs::Going::went_more, crate::proofs::Narrower::kept_after))]
fn keep_better(
    level: &Level,
    wish: Wish,
    value: i64,
    ground: &mut Ground,
) -> Result<bool, AllocError>
    requires objective { wish.objective.0 < level.now.stop }
    requires sound { IsSound level.now.problem.now ground.old.engine ground.old.store }
    requires closed { IsClosedFor (is_between level.now.in_force.first level.now.in_force.end) level.now.problem.now ground.old.store.box }
    ensures went { Went level.now.problem.now ground.old.store ground.new.engine ground.new.store }
    ensures again { IfOk result (λ some. IsTrue some → IsClosedFor (is_between level.now.in_force.first level.now.in_force.end) level.now.problem.now ground.new.store.box) }
{
    level.problem.known();
    let (lo, hi) = match wish.sense {
        Sense::Min => (value, i64::MAX),
        Sense::Max => (i64::MIN, value),
    };
    if !give_up(&mut ground.store, wish.objective, lo, hi)? {
        return Ok(false);
    }
    match close_after(level, wish.objective, ground)? {
        Closed::Empty => Ok(false),
        Closed::Open => Ok(true),
    }
}
