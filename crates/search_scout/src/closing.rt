//! Closing the values left for the constraints in force at a scope.
ghost use Rattle.std.specs.Prelude.{◌≡◌, ◌∷◌, [], IfOk, IsFalse};
ghost use Rattle.qc_model.specs.Domains.{has_empty};
ghost use Rattle.prop_engine.specs.Closing.{IsClosing, is_between};
ghost use Rattle.prop_engine.specs.Watching.{WasKept};
ghost use Rattle.search_scout.specs.Ground.{IsSound, Went};

use crate::ground::Ground;
use model_levels::Level;
use prop_engine::Closed;
use prop_families::Families;
use qc_model::VarId;
use std::alloc::AllocError;

/// Runs the filters of all constraints in force.
pub(crate) fn close_all(level: &Level, ground: &mut Ground) -> Result<Closed, AllocError>
    requires sound { IsSound level.now.problem.now ground.old.engine ground.old.store }
    requires full { IsFalse (has_empty ground.old.store.box) }
    ensures went { Went level.now.problem.now ground.old.store ground.new.engine ground.new.store }
    ensures turns { ground.new.turns ≡ ground.old.turns }
    ensures answer { IfOk result (λ a. IsClosing a (is_between level.now.in_force.first level.now.in_force.end) level.now.problem.now ground.new.store.box) }
{
    level.problem.known();
    ground.steps.clear();
    ground.engine.close_span(
        &Families {},
        ground.alloc,
        level.problem,
        level.in_force,
        &mut ground.store,
        &mut ground.steps,
    )
}

/// The same, where a box was closed before in which x alone has changed since: only the constraints that mention x, and
/// those that removals wake, run.
pub(crate) fn close_after(
    level: &Level,
    x: VarId,
    ground: &mut Ground,
) -> Result<Closed, AllocError>
    requires sound { IsSound level.now.problem.now ground.old.engine ground.old.store }
    requires full { IsFalse (has_empty ground.old.store.box) }
    requires earlier { WasKept (is_between level.now.in_force.first level.now.in_force.end) level.now.problem.now (x ∷ []) ground.old.store.box }
    ensures went { Went level.now.problem.now ground.old.store ground.new.engine ground.new.store }
    ensures turns { ground.new.turns ≡ ground.old.turns }
    ensures answer { IfOk result (λ a. IsClosing a (is_between level.now.in_force.first level.now.in_force.end) level.now.problem.now ground.new.store.box) }
{
    level.problem.known();
    ground.steps.clear();
    ground.engine.close_changed(
        &Families {},
        ground.alloc,
        level.problem,
        level.in_force,
        &[x],
        &mut ground.store,
        &mut ground.steps,
    )
}
