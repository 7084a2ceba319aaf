//! Where blocks end.
ghost use Rattle.std.specs.Prelude.{◌≡◌, ◌≤◌, ◌<◌, ◌+◌, length, drop, Some};
ghost use Rattle.qc_model.specs.Block.{block_stop as block_stop_of, force_stop as force_stop_of};
ghost use Rattle.model_levels.specs.Spans.{kind_at};

use qc_model::{Kind, Problem, ScopeId};

/// The first number from i on that the block doesn't reach, if the scopes before i are all in it. A
/// block that reaches the goal takes it in.
pub(crate) fn block_stop(problem: &Problem, i: usize) -> usize
    requires { i ≤ length problem.now.scopes }
    ensures stop { result ≡ block_stop_of (drop i problem.now.scopes) i }
    ensures reaches { i ≤ result }
    ensures bound { result ≤ length problem.now.scopes + 1 }
{
    problem.known();
    for at in i..problem.scopes() {
        match problem.scope(ScopeId(at as u8)).kind {
            Kind::Exists => {}
            Kind::Forall => return at,
        }
    }
    problem.scopes() + 1
}

/// The first number from i on whose constraints aren't in force at scope i, which has this owner.
pub(crate) fn force_stop(problem: &Problem, i: usize, kind: Kind) -> usize
    requires scope { i < length problem.now.scopes }
    requires kind { kind_at problem.now i ≡ Some kind }
    ensures stop { result ≡ force_stop_of (drop i problem.now.scopes) i }
    ensures reaches { i ≤ result }
    ensures bound { result ≤ length problem.now.scopes + 1 }
{
    problem.known();
    match kind {
        Kind::Exists => block_stop(problem, i + 1),
        Kind::Forall => i + 1,
    }
}
