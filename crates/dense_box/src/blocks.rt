//! Where the constraints in force at a scope end, without joint closing.
ghost use Rattle.std.specs.Prelude.{◌≡◌, drop};
ghost use Rattle.qc_model.specs.Block.{force_stop as force_stop_of};

use model_levels::Level;
use qc_model::Kind;

/// The first number whose constraints aren't in force at the scope. A block that has the last scope takes in the goal.
pub(crate) fn force_stop(level: &Level) -> usize
    ensures { result ≡ force_stop_of (drop level.now.number level.now.problem.now.scopes) level.now.number }
{
    level.problem.known();
    let next = match level.kind {
        Kind::Forall => return level.number as usize + 1,
        Kind::Exists => level.block_end + 1,
    };
    if next == level.problem.scopes() {
        return next + 1;
    }
    next
}
