//! Nodes without an own tree: where the scope's owner is stuck, and the goal.
ghost use Rattle.std.specs.Prelude.{◌≡◌, ◌<◌, false, length, drop};
ghost use Rattle.qc_model.specs.Demands.{demands};
ghost use Rattle.qc_model.specs.Domains.{has_empty};
ghost use Rattle.qc_model.specs.declared.problem.Kind.TheVariants.{Exists as ByPlayer, Forall as ByOpponent};
ghost use Rattle.joins.specs.Joins.{out_of};
ghost use Rattle.proof_tree.specs.Finding.{stuck_finding, goal_finding};
ghost use Rattle.proof_tree.specs.Place.{position};
ghost use Rattle.qc_play.specs.Shape.{plan_of, tree_of_counter};
ghost use Rattle.qc_play.specs.Shown.{Shows};
ghost use Rattle.qc_play.specs.Stuck.{nothing_answered};
ghost use Rattle.qc_play.specs.Walk.{game_of, IsWithin, IsBack};

use crate::counter::{Counter, CounterList};
use crate::plan::{Plan, PlanList};
use crate::shown::Shown;
use crate::tables::Tables;
use crate::walk::Walk;
use check_box::goal_holds;
use check_lines::Found;
use qc_model::{Kind, ScopeId};
use std::alloc::Global;

/// The strategy where the owner of a scope is stuck.
fn stuck_plan(alloc: Global, kind: Kind) -> Plan
    ensures { plan_of result ≡ nothing_answered ByOpponent kind }
{
    match kind {
        Kind::Exists => Plan::End,
        Kind::Forall => Plan::Answer(PlanList::new(alloc)),
    }
}

/// The counterstrategy there.
fn stuck_counter(alloc: Global, kind: Kind) -> Counter
    ensures { tree_of_counter result ≡ nothing_answered ByPlayer kind }
{
    match kind {
        Kind::Exists => Counter::Reply(CounterList::new(alloc)),
        Kind::Forall => Counter::End,
    }
}

impl<'p> Walk<'p> {
    /// What scope i comes to where nobody passes it.
    fn stuck_scope(&mut self, tables: &Tables<'p>, i: ScopeId) -> Shown
        requires within { IsWithin (game_of tables.now) self.old i.0 }
        requires scope { i.0 < length (game_of tables.now).scopes }
        requires full { has_empty self.old.remains.box ≡ false }
        ensures back { IsBack (game_of tables.now) i.0 self.old self.new }
        ensures shows { Shows (stuck_finding (drop i.0 (game_of tables.now).scopes) (game_of tables.now) (demands (game_of tables.now) i.0) (position (game_of tables.now) i.0 self.old.remains.box)) (out_of self.new.joins) result }
    {
        let level = tables.levels.level(i);
        let found = self.joins.stuck(i, &self.values[..level.from]);
        Shown {
            found,
            plan: stuck_plan(tables.alloc, level.kind),
            counter: stuck_counter(tables.alloc, level.kind),
        }
    }

    /// What a node of scope i, or of the goal, comes to where nobody passes it.
    pub(crate) fn stuck(&mut self, tables: &Tables<'p>, i: ScopeId) -> Shown
        requires within { IsWithin (game_of tables.now) self.old i.0 }
        requires full { has_empty self.old.remains.box ≡ false }
        ensures back { IsBack (game_of tables.now) i.0 self.old self.new }
        ensures shows { Shows (stuck_finding (drop i.0 (game_of tables.now).scopes) (game_of tables.now) (demands (game_of tables.now) i.0) (position (game_of tables.now) i.0 self.old.remains.box)) (out_of self.new.joins) result }
    {
        if (i.0 as usize) < tables.levels.problem.scopes() {
            return self.stuck_scope(tables, i);
        }
        Shown {
            found: Found::Lost,
            plan: Plan::End,
            counter: Counter::End,
        }
    }

    /// What the goal comes to, which has the number i.
    pub(crate) fn goal(&mut self, tables: &Tables<'p>, i: ScopeId) -> Shown
        requires within { IsWithin (game_of tables.now) self.old i.0 }
        requires last { i.0 ≡ length (game_of tables.now).scopes }
        requires full { has_empty self.old.remains.box ≡ false }
        ensures back { IsBack (game_of tables.now) i.0 self.old self.new }
        ensures shows { Shows (goal_finding (game_of tables.now) i.0 (demands (game_of tables.now) i.0) (position (game_of tables.now) i.0 self.old.remains.box)) (out_of self.new.joins) result }
    {
        let _ = i;
        let holds = goal_holds(&tables.levels, self.values.as_slice());
        let found = self.joins.goal(holds, self.values.as_slice());
        Shown {
            found,
            plan: Plan::End,
            counter: Counter::End,
        }
    }
}
