//! The best value left to what is demanded first.
ghost use Rattle.std.specs.Prelude.{◌≡◌, ◌<◌, false, length};
ghost use Rattle.qc_model.specs.Content.{Game};
ghost use Rattle.qc_model.specs.Demands.{demands as demands_of};
ghost use Rattle.qc_model.specs.Domains.{has_empty, values_left};
ghost use Rattle.joins.specs.DemandLists.{HasLists};
ghost use Rattle.proof_tree.specs.Steps.{best_value};
ghost use Rattle.dense_tree.specs.InPlace.{list_best, target_best};
ghost use Rattle.dense_box.specs.Wished.{listed};

use fd_store::Store;
use joins::Demands;
use qc_model::{Condition, ScopeId, Sense, Target, VarId};

// The best value left to x; 0 where it is no variable.
fn best_of(store: &Store, sense: Sense, x: VarId) -> i64
    requires { has_empty store.now.box ≡ false }
    ensures { result ≡ best_value sense (values_left store.now.box x.0) }
{
    if x.0 as usize >= store.count() {
        return 0;
    }
    match sense {
        Sense::Min => store.min(x),
        Sense::Max => store.max(x),
    }
}

// The best value left to the target, where that is a variable.
fn best_of_target(store: &Store, sense: Sense, target: Target) -> Option<i64>
    requires { has_empty store.now.box ≡ false }
    ensures { listed result ≡ target_best sense target store.now.box }
{
    match target {
        Target::Aggregate(_) => None,
        Target::Var(x) => Some(best_of(store, sense, x)),
    }
}

// The best value left to the variable that the list begins with, where it does.
fn best_first(store: &Store, list: &[Condition]) -> Option<i64>
    requires { has_empty store.now.box ≡ false }
    ensures { listed result ≡ list_best list.now store.now.box }
{
    let entry = list.first()?;
    best_of_target(store, entry.sense, entry.target)
}

/// The best value left to the variable that is demanded first of scope i, or of the goal; None where nothing is demanded, or
/// an aggregate first. Each variable has a value left.
pub fn best_left(demands: &Demands, i: ScopeId, store: &Store) -> Option<i64>
    requires list { i.0 < length demands.now.lists.items }
    requires full { has_empty store.now.box ≡ false }
    ensures { (g : Game) → HasLists g demands.now → listed result ≡ list_best (demands_of g i.0) store.now.box }
{
    best_first(store, demands.list(i))
}
