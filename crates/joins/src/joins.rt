//! The joins of all scopes.
ghost use Rattle.std.specs.Prelude.{◌≤◌, length};
ghost use Rattle.joins.specs.ScopeJoins.{AreJoins, IsAtGoal};
ghost use Rattle.joins.specs.Props.{joins_prop, goal_prop};

use crate::scope_join::ScopeJoin;
use crate::{ForallJoin, Value};
use qc_model::Problem;

/// A join for each scope of a problem, and the vector that was handed out last.
#[derive(Drop)]
pub struct Joins<'p> {
    pub(crate) problem: &'p Problem,
    pub(crate) joins: Vec<ScopeJoin>,
    // the goal has no leaves: its vector is what an opponent's scope with the goal's list comes to without any
    pub(crate) goal: ForallJoin,
    pub(crate) out: Value,
    ghost joined: { AreJoins problem.now joins.items } by { joins_prop problem.now joins.items },
    ghost at_goal: { IsAtGoal problem.now goal } by { goal_prop problem.now goal },
    // a list has at most one entry for each scope
    ghost room: { length problem.now.scopes ≤ out.list.capacity },
}
