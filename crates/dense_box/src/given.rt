//! Whether a tuple may be given.
ghost use Rattle.std.specs.Prelude.{◌≡◌, ◌<◌, ◌&&◌, true, false, not, IsTrue, length, slice_get};
ghost use Rattle.qc_model.specs.Block.{of_kind};
ghost use Rattle.qc_model.specs.Domains.{declared_box};
ghost use Rattle.dense_tree.specs.Free.{is_universal, is_unrestricted};
ghost use Rattle.dense_tree.specs.Proves.{given_placed};
ghost use Rattle.dense_tree.specs.Tree.{Given};

use crate::allowed::is_always_allowed;
use check_box::Remains;
use model_levels::Levels;
use qc_model::{Kind, ScopeId};

/// Whether it is the opponent.
pub(crate) fn is_opponent(kind: Kind) -> bool
    ensures { result ≡ of_kind kind false true }
{
    match kind {
        Kind::Exists => false,
        Kind::Forall => true,
    }
}

// Whether there is a scope i, of the opponent and with a restriction.
fn may_be_stuck(levels: &Levels, i: ScopeId) -> bool
    ensures is { result ≡ (is_universal (slice_get levels.now.problem.now.scopes i.0) && not (is_unrestricted levels.now.problem.now i.0)) }
    ensures within { IsTrue result → i.0 < length levels.now.problem.now.scopes }
{
    levels.problem.known();
    if i.0 as usize >= levels.problem.scopes() {
        return false;
    }
    let level = levels.level(i);
    is_opponent(level.kind) && !level.rules.is_empty()
}

/// Whether the tuple may be given: the scope is of the opponent and has a restriction, and its owner can always take the
/// tuple. The box has the declared domains, and is left as it was.
pub fn may_give(levels: &Levels, scope: ScopeId, remains: &mut Remains, values: &[i64]) -> bool
    requires { remains.old.box ≡ declared_box levels.now.problem.now }
    ensures placed { (u : Given) → u.scope ≡ scope → u.tuple ≡ values.now → result ≡ given_placed levels.now.problem.now u }
    ensures within { IsTrue result → scope.0 < length levels.now.problem.now.scopes }
    ensures content { remains.new.box ≡ remains.old.box }
    ensures past { remains.new.past ≡ remains.old.past }
{
    if !may_be_stuck(levels, scope) {
        return false;
    }
    is_always_allowed(levels, scope, remains, values)
}
