//! Whether a scope's constraints hold on the values left, and the goal's.
//!
//! The box is closed for them. So where each constraint of the problem has a variable or holds without any, they hold on the
//! values that are left alone, and needn't be evaluated.
ghost use Rattle.std.specs.Prelude.{◌≡◌, true, false, suc, length, take};
ghost use Rattle.std.specs.List.{list_all};
ghost use Rattle.qc_model.specs.Domains.{box_values, has_empty, is_single};
ghost use Rattle.qc_model.specs.Game.{allows};
ghost use Rattle.model_arguments.specs.Asked.{is_box_of};
ghost use Rattle.proof_tree.specs.Place.{position};
ghost use Rattle.search_box.specs.Closes.{IsClosedAt};
ghost use Rattle.search_box.specs.Complete.{IsClosedAtGoal, each_shown, takes_goal_in};

use crate::reading::read_values;
use fd_store::Store;
use model_levels::{Level, Levels, all_hold};
use qc_model::{Kind, ScopeId};

/// Reads the values of the scope's variables into their places, and says whether its constraints hold on them and those
/// before, which stand in theirs.
pub(crate) fn read_tuple(level: &Level, all_shown: bool, store: &Store, values: &mut [i64]) -> bool
    requires declared { is_box_of level.now.problem.now store.now.box ≡ true }
    requires full { has_empty store.now.box ≡ false }
    requires fixed { list_all is_single (take level.now.stop store.now.box) ≡ true }
    requires closed { IsClosedAt level.now.problem.now level.now.number store.now.box }
    requires shown { all_shown ≡ each_shown level.now.problem.now.constraints }
    requires each { length values.old ≡ length level.now.problem.now.variables }
    requires stand { take level.now.from values.old ≡ box_values (take level.now.from store.now.box) }
    ensures allowed { result ≡ allows level.now.problem.now level.now.number (position level.now.problem.now (suc level.now.number) store.now.box) }
    ensures stand { take level.now.stop values.new ≡ box_values (take level.now.stop store.now.box) }
    ensures kept { take level.now.from values.new ≡ take level.now.from values.old }
    ensures each { length values.new ≡ length values.old }
{
    level.problem.known();
    read_values(store, level.from, level.stop, values);
    if all_shown {
        return true;
    }
    all_hold(level.problem, level.rules, &values[..level.stop])
}

/// Whether the last scope is existential.
fn takes_goal(levels: &Levels) -> bool
    ensures { result ≡ takes_goal_in levels.now.problem.now.scopes }
{
    levels.problem.known();
    let scopes = levels.problem.scopes();
    if scopes == 0 {
        return false;
    }
    match levels.level(ScopeId((scopes - 1) as u8)).kind {
        Kind::Exists => true,
        Kind::Forall => false,
    }
}

/// Whether the constraints of the goal hold, where the values of all variables stand in their places.
pub(crate) fn goal_is_met(levels: &Levels, all_shown: bool, store: &Store, values: &[i64]) -> bool
    requires declared { is_box_of levels.now.problem.now store.now.box ≡ true }
    requires full { has_empty store.now.box ≡ false }
    requires fixed { list_all is_single (take (length levels.now.problem.now.variables) store.now.box) ≡ true }
    requires closed { IsClosedAtGoal levels.now.problem.now store.now.box }
    requires shown { all_shown ≡ each_shown levels.now.problem.now.constraints }
    requires each { length values.now ≡ length levels.now.problem.now.variables }
    requires stand { take (length levels.now.problem.now.variables) values.now ≡ box_values (take (length levels.now.problem.now.variables) store.now.box) }
    ensures { result ≡ allows levels.now.problem.now (length levels.now.problem.now.scopes) (position levels.now.problem.now (length levels.now.problem.now.scopes) store.now.box) }
{
    let _ = store;
    levels.problem.known();
    if all_shown && takes_goal(levels) {
        return true;
    }
    all_hold(levels.problem, levels.goal_rules, values)
}
