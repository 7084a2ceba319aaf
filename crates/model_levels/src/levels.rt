//! All scopes of a problem, looked up once.
ghost use Rattle.std.specs.Prelude.{◌≡◌, ◌<◌, ◌≤◌, suc, length, IfOk};
ghost use Rattle.qc_model.specs.Game.{before, restriction};
ghost use Rattle.model_levels.specs.Spans.{IsSpanOf, ArePlaces};
ghost use Rattle.model_levels.specs.Tables.{AreLevelsOf};

use crate::level::Level;
use crate::places::{constraint_places, span_between};
use crate::scopes::levels_of;
use model_arguments::Span;
use qc_model::{Constraint, Problem, ScopeId};
use std::alloc::{AllocError, Global};

/// A problem beside what it says of each of its scopes and of the goal, looked up once, so that each
/// answer takes constant time and no memory.
#[derive(Drop)]
pub struct Levels<'p> {
    pub problem: &'p Problem,
    /// The constraints of the goal.
    pub goal_rules: &'p [Constraint],
    levels: Vec<Level<'p>>,
    places: Vec<usize>,
    pub ghost has_goal: { goal_rules.now ≡ restriction problem.now (length problem.now.scopes) },
    pub ghost has_all: { before problem.now (length problem.now.scopes) ≡ length problem.now.variables },
    ghost levels_are: { AreLevelsOf problem.now levels.items },
    ghost places_are: { ArePlaces problem.now places.items },
}

impl<'p> Levels<'p> {
    /// The table of this problem. It fails only where memory runs out.
    pub fn new(alloc: Global, problem: &'p Problem) -> Result<Levels<'p>, AllocError>
        ensures { IfOk result (λ levels. levels.problem.now ≡ problem.now) }
    {
        problem.known();
        let places = constraint_places(alloc, problem)?;
        let levels = levels_of(alloc, problem, &places)?;
        let goal_rules = problem.restriction(problem.scopes());
        Ok(Levels {
            problem,
            goal_rules,
            levels,
            places,
        })
    }

    /// What the problem says of scope i, which exists.
    pub fn level(&self, i: ScopeId) -> &Level<'p>
        requires { i.0 < length self.now.problem.now.scopes }
        ensures number { result.now.number ≡ i.0 }
        ensures problem { result.now.problem.now ≡ self.now.problem.now }
    {
        &self.levels[i.0 as usize]
    }

    /// The constraints of the scopes from i to k, where the goal has the number of scopes.
    pub fn constraints_between(&self, i: ScopeId, k: ScopeId) -> Span
        requires order { i.0 ≤ k.0 }
        requires scope { k.0 ≤ length self.now.problem.now.scopes }
        ensures { IsSpanOf self.now.problem.now i.0 (suc k.0) result.first result.end }
    {
        span_between(self.problem, &self.places, i.0 as usize, k.0 as usize + 1)
    }
}
