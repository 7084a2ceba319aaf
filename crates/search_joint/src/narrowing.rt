//! Taking out of a store what another one doesn't have.
ghost use Rattle.std.specs.Prelude.{◌≡◌, ◌<◌, ℤ, int_le, length, IfOk, OnOk, IsTrue, IsFalse};
ghost use Rattle.qc_model.specs.Domains.{box_without, greatest_value, has_value, is_none_left, is_within, least_value, values_left};
ghost use Rattle.qc_model.specs.Valid.{is_number};
ghost use Rattle.search_joint.specs.Narrowed.{AreAmong, IsNarrowed};

use fd_store::Store;
use qc_model::VarId;
use std::alloc::AllocError;

// Takes the values from lo to hi out of x. A search does this at each node for each variable of the way, so it is inlined.
#[inline(always)]
fn cut(store: &mut Store, x: VarId, lo: i64, hi: i64) -> Result<(), AllocError>
    requires { x.0 < length store.old.box }
    ensures content { OnOk result (store.new.box ≡ box_without store.old.box x.0 lo hi) }
    ensures narrowed { IsNarrowed x.0 store.old store.new }
{
    let need = store.trail_need(x, lo, hi);
    store.reserve_trail(need)?;
    let _ = store.remove(x, lo, hi);
    Ok(())
}

// Takes the values below lo out of x.
fn cut_below(store: &mut Store, x: VarId, lo: i64) -> Result<(), AllocError>
    requires var { x.0 < length store.old.box }
    requires some { IsFalse (is_none_left (values_left store.old.box x.0)) }
    requires lo { IsTrue (is_number lo) }
    ensures narrowed { IsNarrowed x.0 store.old store.new }
    ensures above { OnOk result ((v : ℤ) → IsTrue (has_value (values_left store.new.box x.0) v) → IsTrue (int_le lo v)) }
{
    store.known(x);
    if lo <= store.min(x) {
        return Ok(());
    }
    cut(store, x, -1_000_000_000, lo - 1)?;
    Ok(())
}

// Takes the values above hi out of x, which has none above `most` and may have none at all.
fn cut_above(store: &mut Store, x: VarId, most: i64, hi: i64) -> Result<(), AllocError>
    requires var { x.0 < length store.old.box }
    requires most { (v : ℤ) → IsTrue (has_value (values_left store.old.box x.0) v) → IsTrue (int_le v most) }
    requires hi { IsTrue (is_number hi) }
    ensures narrowed { IsNarrowed x.0 store.old store.new }
    ensures below { OnOk result ((v : ℤ) → IsTrue (has_value (values_left store.new.box x.0) v) → IsTrue (int_le v hi)) }
{
    store.known(x);
    if most <= hi {
        return Ok(());
    }
    cut(store, x, hi + 1, 1_000_000_000)?;
    Ok(())
}

// Takes the values below lo and those above hi out of x, and says whether there are some.
fn keep_between(store: &mut Store, x: VarId, lo: i64, hi: i64) -> Result<bool, AllocError>
    requires var { x.0 < length store.old.box }
    requires some { IsFalse (is_none_left (values_left store.old.box x.0)) }
    requires lo { IsTrue (is_number lo) }
    requires hi { IsTrue (is_number hi) }
    ensures narrowed { IsNarrowed x.0 store.old store.new }
    ensures between { IfOk result (λ cut. (v : ℤ) → IsTrue (has_value (values_left store.new.box x.0) v) → IsTrue (is_within lo hi v)) }
    ensures same { IfOk result (λ cut. IsFalse cut → store.new.box ≡ store.old.box) }
{
    let most = store.max(x);
    if lo <= store.min(x) && most <= hi {
        return Ok(false);
    }
    cut_below(store, x, lo)?;
    cut_above(store, x, most, hi)?;
    Ok(true)
}

// Whether x has each value from its least to its greatest.
fn is_whole(store: &Store, x: VarId) -> bool
    requires var { x.0 < length store.now.box }
    requires some { IsFalse (is_none_left (values_left store.now.box x.0)) }
    ensures { IsTrue result → (v : ℤ) → IsTrue (is_within (least_value (values_left store.now.box x.0)) (greatest_value (values_left store.now.box x.0)) v) → IsTrue (has_value (values_left store.now.box x.0) v) }
{
    store.known(x);
    store.max(x) - store.min(x) < i64::from(store.size(x))
}

// Takes v out of x where the other store doesn't have it, and says whether that is so.
fn cut_missing(store: &mut Store, to: &Store, x: VarId, v: i64) -> Result<bool, AllocError>
    requires var { x.0 < length store.old.box }
    requires there { x.0 < length to.now.box }
    ensures narrowed { IsNarrowed x.0 store.old store.new }
    ensures missing { IfOk result (λ cut. IsTrue (has_value (values_left store.new.box x.0) v) → IsTrue (has_value (values_left to.now.box x.0) v)) }
    ensures same { IfOk result (λ cut. IsFalse cut → store.new.box ≡ store.old.box) }
{
    if to.has(x, v) {
        return Ok(false);
    }
    cut(store, x, v, v)?;
    Ok(true)
}

// Takes out of x, value by value, what the other store doesn't have, and says whether there is something.
fn keep_shared(store: &mut Store, to: &Store, x: VarId) -> Result<bool, AllocError>
    requires var { x.0 < length store.old.box }
    requires there { x.0 < length to.now.box }
    ensures narrowed { IsNarrowed x.0 store.old store.new }
    ensures among { IfOk result (λ cut. AreAmong (values_left store.new.box x.0) (values_left to.now.box x.0)) }
    ensures same { IfOk result (λ cut. IsFalse cut → store.new.box ≡ store.old.box) }
{
    store.known(x);
    let mut is_cut = false;
    let mut at = -1_000_000_000;
    while let Some(v) = store.next(x, at) {
        store.known(x);
        let missed = cut_missing(store, to, x, v)?;
        is_cut |= missed;
        at = v + 1;
    }
    Ok(is_cut)
}

/// Takes out of x what the other store doesn't have, and says whether there is something.
pub(crate) fn narrow(store: &mut Store, to: &Store, x: VarId) -> Result<bool, AllocError>
    requires var { x.0 < length store.old.box }
    requires there { x.0 < length to.now.box }
    requires some { IsFalse (is_none_left (values_left store.old.box x.0)) }
    requires some_there { IsFalse (is_none_left (values_left to.now.box x.0)) }
    ensures narrowed { IsNarrowed x.0 store.old store.new }
    ensures among { IfOk result (λ cut. AreAmong (values_left store.new.box x.0) (values_left to.now.box x.0)) }
    ensures same { IfOk result (λ cut. IsFalse cut → store.new.box ≡ store.old.box) }
{
    to.known(x);
    let outside = keep_between(store, x, to.min(x), to.max(x))?;
    if is_whole(to, x) {
        return Ok(outside);
    }
    let missed = keep_shared(store, to, x)?;
    Ok(outside || missed)
}
