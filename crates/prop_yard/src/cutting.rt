//! Taking values of a variable away.
ghost use Rattle.std.specs.Prelude.{◌≡◌, ◌<◌, length, OnOk, IfOk};
ghost use Rattle.qc_model.specs.Domains.{box_without, values_left, values_within, values_outside};
ghost use Rattle.fd_store.specs.Held.{Follows, removal};

use fd_store::{Removed, Store};
use qc_model::VarId;
use std::alloc::AllocError;

/// Takes the value v of x away.
pub(crate) fn take(x: VarId, v: i64, store: &mut Store) -> Result<Removed, AllocError>
    requires { x.0 < length store.old.box }
    ensures content { OnOk result (store.new.box ≡ box_without store.old.box x.0 v v) }
    ensures past { Follows store.old store.new }
    ensures answer { IfOk result (λ r. r ≡ removal (values_within v v (values_left store.old.box x.0)) (values_outside v v (values_left store.old.box x.0))) }
{
    let need = store.trail_need(x, v, v);
    store.reserve_trail(need)?;
    Ok(store.remove(x, v, v))
}

/// Takes the least and the greatest value of x away, so many times or until fewer than two are left.
pub(crate) fn cut_ends(x: VarId, rounds: u32, store: &mut Store) -> Result<(), AllocError>
    requires { x.0 < length store.old.box }
    ensures { OnOk result (length store.new.box ≡ length store.old.box) }
{
    for _ in 0..rounds {
        if store.size(x) < 2 {
            return Ok(());
        }
        let low = store.min(x);
        let high = store.max(x);
        take(x, low, store)?;
        take(x, high, store)?;
    }
    Ok(())
}
