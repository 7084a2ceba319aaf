//! What is found at a scope, with the store handed back.
ghost use Rattle.std.specs.Prelude.{◌≡◌, ◌<◌, ◌≤◌, suc, length, IsTrue, IsFalse, IfOk};
ghost use Rattle.qc_model.specs.Domains.{has_empty};
ghost use Rattle.model_arguments.specs.Asked.{is_box_of};
ghost use Rattle.prop_engine.specs.Watching.{IsReady};
ghost use Rattle.qc_cascade.specs.Ahead.{EachKnown, IsEntered};

use crate::cascade::first_empty;
use crate::entered::Entered;
use fd_store::Store;
use model_levels::Levels;
use prop_engine::{Engine, Filter};
use qc_model::ScopeId;
use std::alloc::{AllocError, Global};

// What is found from scope i to the number before `stop`.
#[tactic(auto, using(crate::proofs::Back::box_back, crate::proofs::Back::past_back))]
fn look_ahead<F: Filter>(
    filter: &F,
    alloc: Global,
    levels: &Levels,
    engine: &mut Engine,
    i: ScopeId,
    stop: usize,
    store: &mut Store,
) -> Result<Entered, AllocError>
    requires ready { IsReady levels.now.problem.now engine.old }
    requires known { EachKnown levels.now.problem.now F.knows }
    requires stop { stop ≤ suc (length levels.now.problem.now.scopes) }
    requires declared { IsTrue (is_box_of levels.now.problem.now store.old.box) }
    requires full { IsFalse (has_empty store.old.box) }
    ensures ready { IsReady levels.now.problem.now engine.new }
    ensures content { store.new.box ≡ store.old.box }
    ensures past { store.new.past ≡ store.old.past }
    ensures answer { IfOk result (λ e. IsEntered levels.now.problem.now i.0 stop store.old.box e.horizon e.steps) }
{
    let mark = store.mark();
    let entered = first_empty(filter, alloc, levels, engine, i, stop, store);
    store.undo_to(mark);
    entered
}

/// The least scope from i on, or the goal, that nobody passes, with removals that show it. It closes the joint stores of
/// scopes i to k for k from i up to the goal in turn, each in what the one before left: the box at entry, pruned by the
/// constraints of these scopes together, the goal's among them where k is the goal. The first that is empty is the
/// horizon. Each before it, and without a horizon each one, has a box that is closed and has no empty domain. The store is
/// handed back with the box, the trail and the past boxes that it had, also after a refusal; it fails only where memory
/// runs out.
pub fn enter<F: Filter>(
    filter: &F,
    alloc: Global,
    levels: &Levels,
    engine: &mut Engine,
    i: ScopeId,
    store: &mut Store,
) -> Result<Entered, AllocError>
    requires ready { IsReady levels.now.problem.now engine.old }
    requires known { EachKnown levels.now.problem.now F.knows }
    requires scope { i.0 < length levels.now.problem.now.scopes }
    requires declared { IsTrue (is_box_of levels.now.problem.now store.old.box) }
    requires full { IsFalse (has_empty store.old.box) }
    ensures ready { IsReady levels.now.problem.now engine.new }
    ensures content { store.new.box ≡ store.old.box }
    ensures past { store.new.past ≡ store.old.past }
    ensures answer { IfOk result (λ e. IsEntered levels.now.problem.now i.0 (suc (length levels.now.problem.now.scopes)) store.old.box e.horizon e.steps) }
{
    levels.problem.known();
    let stop = levels.problem.scopes() + 1;
    look_ahead(filter, alloc, levels, engine, i, stop, store)
}

/// As `enter`, where it is known that nobody passes `horizon`: only a nearer one is looked for, so the joint stores from
/// the horizon's on aren't closed again.
pub fn enter_under<F: Filter>(
    filter: &F,
    alloc: Global,
    levels: &Levels,
    engine: &mut Engine,
    i: ScopeId,
    horizon: ScopeId,
    store: &mut Store,
) -> Result<Entered, AllocError>
    requires ready { IsReady levels.now.problem.now engine.old }
    requires known { EachKnown levels.now.problem.now F.knows }
    requires scope { i.0 < length levels.now.problem.now.scopes }
    requires horizon { horizon.0 ≤ length levels.now.problem.now.scopes }
    requires declared { IsTrue (is_box_of levels.now.problem.now store.old.box) }
    requires full { IsFalse (has_empty store.old.box) }
    ensures ready { IsReady levels.now.problem.now engine.new }
    ensures content { store.new.box ≡ store.old.box }
    ensures past { store.new.past ≡ store.old.past }
    ensures answer { IfOk result (λ e. IsEntered levels.now.problem.now i.0 horizon.0 store.old.box e.horizon e.steps) }
{
    look_ahead(filter, alloc, levels, engine, i, horizon.0 as usize, store)
}
