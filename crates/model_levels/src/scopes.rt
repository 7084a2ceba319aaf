//! The levels of all scopes.
ghost use Rattle.std.specs.Prelude.{◌≡◌, ◌<◌, length, IfOk};
ghost use Rattle.model_levels.specs.Spans.{ArePlaces};
ghost use Rattle.model_levels.specs.Tables.{AreLevelsOf};

use crate::blocks::{block_stop, force_stop};
use crate::level::Level;
use crate::places::span_between;
use qc_model::{Problem, ScopeId};
use std::alloc::{AllocError, Global};

/// The level of a scope.
fn level_of<'p>(problem: &'p Problem, places: &[usize], number: u8) -> Level<'p>
    requires scope { number < length problem.now.scopes }
    requires places { ArePlaces problem.now places.now }
    ensures number { result.number ≡ number }
    ensures problem { result.problem.now ≡ problem.now }
{
    problem.known();
    let i = number as usize;
    let scope = problem.scope(ScopeId(number));
    let force = force_stop(problem, i, scope.kind);
    let reach = block_stop(problem, i + 1).min(problem.scopes());
    Level {
        problem,
        rules: problem.restriction(i),
        number,
        kind: scope.kind,
        from: problem.variables_before(i),
        stop: problem.variables_before(i + 1),
        constraints: span_between(problem, places, i, i + 1),
        in_force: span_between(problem, places, i, force),
        block_end: reach - 1,
        has_condition: scope.condition.is_some(),
    }
}

/// A level for each scope.
pub(crate) fn levels_of<'p>(
    alloc: Global,
    problem: &'p Problem,
    places: &[usize],
) -> Result<Vec<Level<'p>>, AllocError>
    requires { ArePlaces problem.now places.now }
    ensures { IfOk result (λ levels. AreLevelsOf problem.now levels.items) }
{
    problem.known();
    let mut levels = Vec::with_capacity(alloc, problem.scopes())?;
    for i in 0..problem.scopes() {
        levels.push(level_of(problem, places, i as u8))?;
    }
    Ok(levels)
}
