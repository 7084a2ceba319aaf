//! Values taken out of a store.
ghost use Rattle.std.specs.Prelude.{◌≡◌, ◌<◌, ◌∷◌, [], length, ◌+ℤ◌, ◌-ℤ◌, pos, negsuc, IsTrue, OnOk, OnErr};
ghost use Rattle.qc_model.specs.Domains.{box_without, has_value, values_left};
ghost use Rattle.proof_tree.specs.Cover.{box_to};
ghost use Rattle.fd_store.specs.Held.{Follows};

use fd_store::Store;
use qc_model::VarId;
use std::alloc::AllocError;

/// Takes the values from lo to hi out of x. After a refusal the box is as before.
fn cut(store: &mut Store, x: VarId, lo: i64, hi: i64) -> Result<(), AllocError>
    requires { x.0 < length store.old.box }
    ensures content { OnOk result (store.new.box ≡ box_without store.old.box x.0 lo hi) }
    ensures past { Follows store.old store.new }
{
    let need = store.trail_need(x, lo, hi);
    store.reserve_trail(need)?;
    let _ = store.remove(x, lo, hi);
    Ok(())
}

// Takes the values below v out of x.
fn cut_below(store: &mut Store, x: VarId, v: i64) -> Result<(), AllocError>
    requires var { x.0 < length store.old.box }
    requires left { IsTrue (has_value (values_left store.old.box x.0) v) }
    ensures content { OnOk result (store.new.box ≡ box_without store.old.box x.0 (negsuc 999999999) (v -ℤ pos 1)) }
    ensures past { Follows store.old store.new }
{
    store.known(x);
    if v <= store.min(x) {
        return Ok(());
    }
    cut(store, x, -1_000_000_000, v - 1)?;
    Ok(())
}

// Takes the values above v out of x.
fn cut_above(store: &mut Store, x: VarId, v: i64) -> Result<(), AllocError>
    requires var { x.0 < length store.old.box }
    requires left { IsTrue (has_value (values_left store.old.box x.0) v) }
    ensures content { OnOk result (store.new.box ≡ box_without store.old.box x.0 (v +ℤ pos 1) (pos 1000000000)) }
    ensures past { Follows store.old store.new }
{
    store.known(x);
    if store.max(x) <= v {
        return Ok(());
    }
    cut(store, x, v + 1, 1_000_000_000)?;
    Ok(())
}

// Takes the values below v and those above it out of x.
fn cut_others(store: &mut Store, x: VarId, v: i64) -> Result<(), AllocError>
    requires var { x.0 < length store.old.box }
    requires left { IsTrue (has_value (values_left store.old.box x.0) v) }
    ensures content { OnOk result (store.new.box ≡ box_to store.old.box x.0 (v ∷ [])) }
    ensures past { Follows store.old store.new }
{
    store.known(x);
    cut_below(store, x, v)?;
    cut_above(store, x, v)?;
    Ok(())
}

/// Leaves x the value v alone, one that is left to it. After a refusal the box is as before.
pub(crate) fn keep_one(store: &mut Store, x: VarId, v: i64) -> Result<(), AllocError>
    requires var { x.0 < length store.old.box }
    requires left { IsTrue (has_value (values_left store.old.box x.0) v) }
    ensures content { OnOk result (store.new.box ≡ box_to store.old.box x.0 (v ∷ [])) }
    ensures same { OnErr result (store.new.box ≡ store.old.box) }
    ensures past { Follows store.old store.new }
{
    let mark = store.mark();
    match cut_others(store, x, v) {
        Ok(()) => Ok(()),
        Err(e) => {
            store.undo_to(mark);
            Err(e)
        }
    }
}
