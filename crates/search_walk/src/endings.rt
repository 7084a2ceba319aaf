//! Nodes that have no tree of their own, and what a scope's tree comes to.
ghost use Rattle.std.specs.Prelude.{◌≡◌, length, IfOk, OnOk, IsTrue};
ghost use Rattle.proof_tree.specs.InPlace.{is_horizon};
ghost use Rattle.joins.specs.Joins.{game_of, KeepsAll};
ghost use Rattle.search_box.specs.Complete.{IsClosedAtGoal};
ghost use Rattle.search_box.specs.Entered.{IsEntered};
ghost use Rattle.search_box.specs.Looking.{scope_number};
ghost use Rattle.search_walk.specs.Put.{IsBack};
ghost use Rattle.search_walk.specs.Told.{EndsSo, GoalAnswers, JoinAnswers, NoLeafCounts, StuckAnswers};

use crate::rival::is_outdone;
use crate::stage::Stage;
use crate::walk::Walk;
use joins::{Found, Joins};
use model_levels::{Level, Levels};
use proof_tree::Line;
use qc_model::ScopeId;
use std::alloc::AllocError;

/// The goal, where each variable has its value, or where a horizon tells that it isn't passed.
pub(crate) fn at_goal(
    levels: &Levels,
    horizon: Option<ScopeId>,
    number: u8,
    walk: &mut Walk,
) -> Result<Found, AllocError>
    requires scope { number ≡ length levels.now.problem.now.scopes }
    requires here { IsEntered levels.now.problem.now number walk.old.remains }
    requires closed { IsClosedAtGoal levels.now.problem.now walk.old.remains.store.box }
    requires joins { game_of walk.old.joins ≡ levels.now.problem.now }
    ensures told { IfOk result (λ found. GoalAnswers levels.now.problem.now number horizon found walk.old walk.new) }
    ensures ended { IfOk result (λ found. EndsSo levels.now.problem.now number horizon found walk.old walk.new) }
    ensures back { OnOk result (IsBack levels.now.problem.now number walk.old walk.new) }
{
    levels.problem.known();
    walk.remains.known();
    if is_here(horizon, number) {
        walk.lines.put(Line::Stuck)?;
        return Ok(Found::Lost);
    }
    walk.lines.put(Line::Goal)?;
    let holds = walk.remains.goal_holds(levels);
    let values = walk.remains.all_values();
    Ok(walk.joins.goal(holds, values))
}

/// The node of a scope that nobody passes: its owner has no allowed tuple.
pub(crate) fn stuck(level: &Level, walk: &mut Walk) -> Result<Found, AllocError>
    requires here { IsEntered level.now.problem.now level.now.number walk.old.remains }
    requires joins { game_of walk.old.joins ≡ level.now.problem.now }
    ensures told { IfOk result (λ found. StuckAnswers level.now found walk.old walk.new) }
    ensures back { OnOk result (IsBack level.now.problem.now level.now.number walk.old walk.new) }
{
    level.problem.known();
    walk.remains.known();
    walk.lines.put(Line::Stuck)?;
    let number = ScopeId(level.number);
    let values = walk.remains.values_before(level);
    let found = walk.joins.stuck(number, values);
    // no leaf was seen, so the join tells no value of the scope's own
    walk.joins.clear(number);
    Ok(found)
}

/// Whether the horizon in force is at this scope: the node is stuck there.
pub fn is_here(horizon: Option<ScopeId>, number: u8) -> bool
    ensures { result ≡ is_horizon (scope_number horizon) number }
{
    match horizon {
        None => false,
        Some(scope) => scope.0 == number,
    }
}

/// What a node comes to whose own tree is done.
pub fn verdict(level: &Level, walk: &mut Walk) -> Found
    requires here { IsEntered level.now.problem.now level.now.number walk.old.remains }
    requires joins { game_of walk.old.joins ≡ level.now.problem.now }
    ensures verdict { JoinAnswers level.now result walk.old walk.new }
    ensures joins { KeepsAll walk.old.joins walk.new.joins }
    ensures game { game_of walk.new.joins ≡ game_of walk.old.joins }
    ensures remains { walk.new.remains ≡ walk.old.remains }
    ensures lines { walk.new.lines ≡ walk.old.lines }
    ensures left { walk.new.left ≡ walk.old.left }
{
    let values = walk.remains.values_before(level);
    walk.joins.finish(ScopeId(level.number), values)
}

/// Whether no further leaf of the scope counts: it is settled, or outdone by the scope right above.
pub(crate) fn is_ended(stage: &Stage, joins: &Joins) -> bool
    requires joins { game_of joins.now ≡ stage.now.level.now.problem.now }
    ensures { IsTrue result → NoLeafCounts stage.now joins.now }
{
    let number = ScopeId(stage.level.number);
    if joins.is_settled(number) {
        return true;
    }
    is_outdone(stage.rival, joins, number)
}
