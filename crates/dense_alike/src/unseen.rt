//! From which scopes on no earlier variable is seen one by one.
ghost use Rattle.std.specs.Prelude.{◌≡◌, ◌≤◌, IfOk, IsTrue};
ghost use Rattle.qc_model.specs.Game.{before};
ghost use Rattle.dense_alike.specs.Unseen.{SeesNone, AreUnseen};

use crate::reads::Reads;
use qc_model::{Problem, ScopeId, VarId};
use std::alloc::{AllocError, Global};

/// Whether no variable before scope i is seen from it on.
fn sees_none(reads: &Reads, i: ScopeId, first: usize) -> bool
    requires first { first ≡ before reads.now i.0 }
    requires few { first ≤ 500 }
    ensures { IsTrue result → SeesNone reads.now i.0 }
{
    for k in 0..first {
        if reads.is_seen(i, VarId(k as u16)) {
            return false;
        }
    }
    true
}

/// The same of each scope, and of the goal.
pub(crate) fn unseen_of(
    alloc: Global,
    problem: &Problem,
    reads: &Reads,
) -> Result<Vec<bool>, AllocError>
    requires { reads.now ≡ problem.now }
    ensures { IfOk result (λ unseen. AreUnseen problem.now unseen.items) }
{
    problem.known();
    let mut unseen = Vec::with_capacity(alloc, problem.scopes() + 1)?;
    for i in 0..problem.scopes() + 1 {
        let first = problem.variables_before(i);
        unseen.push(sees_none(reads, ScopeId(i as u8), first))?;
    }
    Ok(unseen)
}
