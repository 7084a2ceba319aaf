//! Depth first over the variables of a scope, in a box that is closed.
ghost use Rattle.std.specs.Prelude.{◌≡◌, ◌<◌, ◌≤◌, None, length, IfOk};
ghost use Rattle.prop_engine.specs.Closing.{IsClosedFor, is_between};
ghost use Rattle.search_scout.specs.Ground.{IsSound, Went, CameBack};

use crate::choosing::{read_values, smallest, value_to_take};
use crate::closing::close_after;
use crate::ground::Ground;
use crate::narrowing::{give_up, keep_alone};
use model_levels::Level;
use prop_engine::Closed;
use qc_model::VarId;
use std::alloc::AllocError;

/// How a search ends: a tuple stands in the places of its variables, there is none, or no turn is left.
#[derive(Clone, Copy)]
pub(crate) enum Outcome {
    Found,
    Lost,
    Spent,
}

/// Takes and refuses values until one of the three is known.
#[tactic(auto, using(crate::proofs::Going::went_same, crate::proofs::Going::went_more))]
#[cycle(dive)]
pub(crate) fn dive(level: &Level, ground: &mut Ground) -> Result<Outcome, AllocError>
    requires sound { IsSound level.now.problem.now ground.old.engine ground.old.store }
    requires closed { IsClosedFor (is_between level.now.in_force.first level.now.in_force.end) level.now.problem.now ground.old.store.box }
    ensures went { Went level.now.problem.now ground.old.store ground.new.engine ground.new.store }
    ensures turns { ground.new.turns ≤ ground.old.turns }
{
    'steps: loop {
        match step(level, ground)? {
            None => {}
            Some(outcome) => return Ok(outcome),
        }
    }
}

/// Takes one value of one variable, searches below, and refuses the value where there is no tuple. None comes where the
/// search goes on without the value.
#[tactic(auto, using(crate::proofs::Going::went_same, crate::proofs::Going::went_more, crate::proofs::Going::went_back, crate::proofs::Going::closed_back))]
#[cycle(dive)]
fn step(level: &Level, ground: &mut Ground) -> Result<Option<Outcome>, AllocError>
    requires sound { IsSound level.now.problem.now ground.old.engine ground.old.store }
    requires closed { IsClosedFor (is_between level.now.in_force.first level.now.in_force.end) level.now.problem.now ground.old.store.box }
    ensures went { Went level.now.problem.now ground.old.store ground.new.engine ground.new.store }
    ensures turns { ground.new.turns ≤ ground.old.turns }
    ensures again { IfOk result (λ o. o ≡ None → IsClosedFor (is_between level.now.in_force.first level.now.in_force.end) level.now.problem.now ground.new.store.box) }
    ensures fewer { IfOk result (λ o. o ≡ None → ground.new.turns < ground.old.turns) }
{
    level.problem.known();
    let Some(x) = smallest(
        &ground.store,
        level.from,
        level.stop,
        ground.wish,
        ground.varies,
        &mut ground.chance,
    ) else {
        read_values(&ground.store, level.from, level.stop, &mut ground.values);
        return Ok(Some(Outcome::Found));
    };
    if ground.turns == 0 {
        return Ok(Some(Outcome::Spent));
    }
    ground.turns -= 1;
    let value = value_to_take(
        &ground.store,
        x,
        ground.wish,
        ground.varies,
        &mut ground.chance,
    );
    match with_value(level, x, value, ground)? {
        Outcome::Found => Ok(Some(Outcome::Found)),
        Outcome::Spent => Ok(Some(Outcome::Spent)),
        Outcome::Lost => without_value(level, x, value, ground),
    }
}

/// What the search comes to where x has this value. The store is as before.
#[tactic(auto, using(crate::proofs::Going::back_undone))]
#[cycle(dive)]
fn with_value(
    level: &Level,
    x: VarId,
    value: i64,
    ground: &mut Ground,
) -> Result<Outcome, AllocError>
    requires var { x.0 < length ground.old.store.box }
    requires sound { IsSound level.now.problem.now ground.old.engine ground.old.store }
    requires closed { IsClosedFor (is_between level.now.in_force.first level.now.in_force.end) level.now.problem.now ground.old.store.box }
    ensures back { CameBack level.now.problem.now ground.old.store ground.new.engine ground.new.store }
    ensures turns { ground.new.turns ≤ ground.old.turns }
{
    let mark = ground.store.mark();
    let outcome = below_value(level, x, value, ground);
    ground.store.undo_to(mark);
    outcome
}

#[tactic(auto, using(crate::proofs::Going::went_narrowed, crate::proofs::Going::went_more, crate::proofs::Narrower::kept_after))]
#[cycle(dive)]
fn below_value(
    level: &Level,
    x: VarId,
    value: i64,
    ground: &mut Ground,
) -> Result<Outcome, AllocError>
    requires var { x.0 < length ground.old.store.box }
    requires sound { IsSound level.now.problem.now ground.old.engine ground.old.store }
    requires closed { IsClosedFor (is_between level.now.in_force.first level.now.in_force.end) level.now.problem.now ground.old.store.box }
    ensures went { Went level.now.problem.now ground.old.store ground.new.engine ground.new.store }
    ensures turns { ground.new.turns ≤ ground.old.turns }
{
    if !keep_alone(&mut ground.store, x, value)? {
        return Ok(Outcome::Lost);
    }
    match close_after(level, x, ground)? {
        Closed::Empty => Ok(Outcome::Lost),
        Closed::Open => dive(level, ground),
    }
}

/// Refuses a value of x. None comes where the box is closed after it.
#[tactic(auto, using(crate::proofs::Going::went_narrowed, crate::proofs::Going::went_more, crate::proofs::Narrower::kept_after))]
fn without_value(
    level: &Level,
    x: VarId,
    value: i64,
    ground: &mut Ground,
) -> Result<Option<Outcome>, AllocError>
    requires var { x.0 < length ground.old.store.box }
    requires sound { IsSound level.now.problem.now ground.old.engine ground.old.store }
    requires closed { IsClosedFor (is_between level.now.in_force.first level.now.in_force.end) level.now.problem.now ground.old.store.box }
    ensures went { Went level.now.problem.now ground.old.store ground.new.engine ground.new.store }
    ensures turns { ground.new.turns ≡ ground.old.turns }
    ensures again { IfOk result (λ o. o ≡ None → IsClosedFor (is_between level.now.in_force.first level.now.in_force.end) level.now.problem.now ground.new.store.box) }
{
    if !give_up(&mut ground.store, x, value, value)? {
        return Ok(Some(Outcome::Lost));
    }
    match close_after(level, x, ground)? {
        Closed::Empty => Ok(Some(Outcome::Lost)),
        Closed::Open => Ok(None),
    }
}
