//! Joins of no leaf.
ghost use Rattle.std.specs.Prelude.{◌≡◌, ◌<◌, IfOk, Some, List, [], slice_get, length};
ghost use Rattle.qc_model.specs.declared.problem.Scope.{Scope as OneScope};
ghost use Rattle.joins.specs.DemandLists.{HasLists};
ghost use Rattle.joins.specs.ScopeJoins.{JoinsScope};

use crate::joins::Joins;
use crate::scope_join::ScopeJoin;
use crate::{Demands, ExistsJoin, ForallJoin, Value};
use qc_model::{Kind, Problem, ScopeId};
use std::alloc::{AllocError, Global};

/// The join of scope i.
fn scope_join(
    alloc: Global,
    problem: &Problem,
    demands: &Demands,
    i: ScopeId,
) -> Result<ScopeJoin, AllocError>
    requires scope { i.0 < length problem.now.scopes }
    requires lists { HasLists problem.now demands.now }
    ensures { IfOk result (λ join. (s : OneScope) → slice_get problem.now.scopes i.0 ≡ Some s → JoinsScope problem.now i.0 s join) }
{
    match problem.scope(i).kind {
        Kind::Exists => {
            let join = ExistsJoin::new(alloc, problem, demands, i)?;
            Ok(ScopeJoin::Exists(join))
        }
        Kind::Forall => {
            let join = ForallJoin::new(alloc, problem, demands, i)?;
            Ok(ScopeJoin::Forall(join))
        }
    }
}

impl<'p> Joins<'p> {
    ghost use Rattle.joins.specs.Joins.{game_of};

    /// The joins of a problem's scopes. No other call takes memory. What they stand for is said once they
    /// are cleared.
    pub fn new(alloc: Global, problem: &'p Problem) -> Result<Joins<'p>, AllocError>
        ensures same { IfOk result (λ joins. game_of joins ≡ problem.now) }
    {
        problem.known();
        let demands = Demands::new(alloc, problem)?;
        let count = problem.scopes();
        let mut joins = Vec::with_capacity(alloc, count)?;
        for i in 0..count {
            let join = scope_join(alloc, problem, &demands, ScopeId(i as u8))?;
            joins.push(join)?;
        }
        Ok(Joins {
            problem,
            joins,
            goal: ForallJoin::new(alloc, problem, &demands, ScopeId(count as u8))?,
            out: Value::new(alloc, count)?,
        })
    }
}
