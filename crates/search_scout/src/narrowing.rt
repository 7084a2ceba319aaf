//! Values taken out of a store.
ghost use Rattle.std.specs.Prelude.{◌<◌, length, IfOk, IsTrue, IsFalse};
ghost use Rattle.qc_model.specs.Domains.{has_empty};
ghost use Rattle.search_scout.specs.Narrowed.{IsNarrowed};

use fd_store::Store;
use qc_model::VarId;
use std::alloc::AllocError;

/// Takes the values from lo to hi out of x, and says whether x has some left.
pub(crate) fn give_up(store: &mut Store, x: VarId, lo: i64, hi: i64) -> Result<bool, AllocError>
    requires { x.0 < length store.old.box }
    ensures narrowed { IsNarrowed x.0 store.old store.new }
    ensures full { IfOk result (λ some. IsTrue some → IsFalse (has_empty store.old.box) → IsFalse (has_empty store.new.box)) }
{
    let need = store.trail_need(x, lo, hi);
    store.reserve_trail(need)?;
    let _ = store.remove(x, lo, hi);
    Ok(store.size(x) > 0)
}

/// Takes all values but v out of x, and says whether x has v left.
#[tactic(auto, using(crate::proofs::Narrower::narrowed_more))]
pub(crate) fn keep_alone(store: &mut Store, x: VarId, v: i64) -> Result<bool, AllocError>
    requires { x.0 < length store.old.box }
    ensures narrowed { IsNarrowed x.0 store.old store.new }
    ensures full { IfOk result (λ some. IsTrue some → IsFalse (has_empty store.old.box) → IsFalse (has_empty store.new.box)) }
{
    if !give_up(store, x, i64::MIN, v.saturating_sub(1))? {
        return Ok(false);
    }
    give_up(store, x, v.saturating_add(1), i64::MAX)
}
