//! Where the constraints of each scope begin.
ghost use Rattle.std.specs.Prelude.{◌≡◌, ◌≤◌, ◌+◌, length, IfOk};
ghost use Rattle.model_levels.specs.Spans.{IsSpanOf, ArePlaces};

use model_arguments::Span;
use qc_model::Problem;
use std::alloc::{AllocError, Global};

/// Where the constraints of each scope begin, those of the goal, and where those end.
pub(crate) fn constraint_places(alloc: Global, problem: &Problem) -> Result<Vec<usize>, AllocError>
    ensures { IfOk result (λ places. ArePlaces problem.now places.items) }
{
    problem.known();
    let mut places = Vec::with_capacity(alloc, problem.scopes() + 2)?;
    let mut place = 0;
    places.push(place)?;
    for i in 0..problem.scopes() + 1 {
        place += problem.restriction(i).len();
        places.push(place)?;
    }
    Ok(places)
}

/// The constraints of the scopes, or the goal, from i to the one before stop.
pub(crate) fn span_between(problem: &Problem, places: &[usize], i: usize, stop: usize) -> Span
    requires places { ArePlaces problem.now places.now }
    requires order { i ≤ stop }
    requires bound { stop ≤ length problem.now.scopes + 1 }
    ensures { IsSpanOf problem.now i stop result.first result.end }
{
    problem.known();
    Span {
        first: places[i],
        end: places[stop],
    }
}
