//! Where the constraints of the scopes from one on begin.
ghost use Rattle.std.specs.Prelude.{IfOk};
ghost use Rattle.dense_alike.specs.Starts.{IsStart, AreStarts};

use qc_model::{ConId, Problem};
use std::alloc::{AllocError, Global};

/// The first constraint of a scope from i on, or of the goal, or their number.
fn start_from(problem: &Problem, i: usize) -> usize
    ensures { IsStart problem.now i result }
{
    problem.known();
    for k in 0..problem.constraints() {
        if i <= problem.constraint(ConId(k as u16)).owner.0 as usize {
            return k;
        }
    }
    problem.constraints()
}

/// That of each scope, and of the goal.
pub(crate) fn starts_of(alloc: Global, problem: &Problem) -> Result<Vec<usize>, AllocError>
    ensures { IfOk result (λ starts. AreStarts problem.now starts.items) }
{
    problem.known();
    let mut starts = Vec::with_capacity(alloc, problem.scopes() + 1)?;
    for i in 0..problem.scopes() + 1 {
        starts.push(start_from(problem, i))?;
    }
    Ok(starts)
}
