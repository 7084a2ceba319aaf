//! What one place of a sum lets go, where the sum may be at most s above the least that it can be.
ghost use Rattle.std.specs.Prelude.{◌≡◌, ◌<◌, ◌≤◌, ◌+◌, ◌*◌, ◌^◌, IsTrue, IfNone, IfSome, length, pos, ◌+ℤ◌, ◌-ℤ◌, ◌<ℤ◌, ◌≤ℤ◌, unsigned_abs};
ghost use Rattle.qc_model.specs.Domains.{values_left};
ghost use Rattle.qc_model.specs.Valid.{is_number};
ghost use Rattle.qc_refuter.specs.Met.{is_domain_left};
ghost use Rattle.prop_linear.specs.Tightening.{IsNear, IsTightening};

use fd_store::Store;
use model_arguments::width;
use prop_base::Cut;
use qc_model::VarId;

// How many steps of a factor are within s.
fn steps_within(s: u128, factor: i64) -> u128
    requires { 0 < unsigned_abs factor }
    ensures most { unsigned_abs factor * result ≤ s }
    ensures next { s < unsigned_abs factor * (result + 1) }
{
    let size = factor.unsigned_abs();
    // mostly 64 bits are enough, and there a division is one instruction
    if s <= u64::MAX as u128 {
        return (s as u64 / size) as u128;
    }
    s / size as u128
}

/// How far a term of this factor moves over so many values.
pub(crate) fn moves(factor: i64, width: u32) -> u128
    requires { width ≤ 2000000000 }
    ensures { result ≡ unsigned_abs factor * width }
{
    factor.unsigned_abs() as u128 * width as u128
}

/// Whether a term of x moves by at most s.
#[inline]
pub(crate) fn is_near(factor: i64, x: VarId, s: u128, store: &Store) -> bool
    requires x { x.0 < length store.now.box }
    requires open { IsTrue (is_domain_left (values_left store.now.box x.0)) }
    ensures { IsTrue result → IsNear factor s (values_left store.now.box x.0) }
{
    moves(factor, width(store.min(x), store.max(x))) <= s
}

// The first number more than so many steps above another.
fn past(low: i64, steps: u128) -> i64
    requires low { IsTrue (is_number low) }
    requires steps { steps ≤ 2000000000 }
    ensures { result ≡ low +ℤ pos (steps + 1) }
{
    low + steps as i64 + 1
}

// The last number more than so many steps below another.
fn before(high: i64, steps: u128) -> i64
    requires high { IsTrue (is_number high) }
    requires steps { steps ≤ 2000000000 }
    ensures { result +ℤ pos (steps + 1) ≡ high }
{
    high - steps as i64 - 1
}

fn cut_high(factor: i64, x: VarId, s: u128, store: &Store) -> Option<Cut>
    requires factor { pos 0 <ℤ factor }
    requires x { x.0 < length store.now.box }
    requires open { IsTrue (is_domain_left (values_left store.now.box x.0)) }
    ensures none { IfNone result (IsNear factor s (values_left store.now.box x.0)) }
    ensures some { IfSome result (λ k. (k.x ≡ x) × IsTightening factor s (values_left store.now.box x.0) k.lo k.hi) }
{
    let low = store.min(x);
    let high = store.max(x);
    if moves(factor, width(low, high)) <= s {
        return None;
    }
    let steps = steps_within(s, factor);
    let lo = past(low, steps);
    Some(Cut { x, lo, hi: high })
}

fn cut_low(factor: i64, x: VarId, s: u128, store: &Store) -> Option<Cut>
    requires factor { factor <ℤ pos 0 }
    requires x { x.0 < length store.now.box }
    requires open { IsTrue (is_domain_left (values_left store.now.box x.0)) }
    ensures none { IfNone result (IsNear factor s (values_left store.now.box x.0)) }
    ensures some { IfSome result (λ k. (k.x ≡ x) × IsTightening factor s (values_left store.now.box x.0) k.lo k.hi) }
{
    let low = store.min(x);
    let high = store.max(x);
    if moves(factor, width(low, high)) <= s {
        return None;
    }
    let steps = steps_within(s, factor);
    let hi = before(high, steps);
    Some(Cut { x, lo: low, hi })
}

/// The values of x that make the sum more than s greater, where it is the variable of this factor.
pub(crate) fn place_cut(factor: i64, x: VarId, s: u128, store: &Store) -> Option<Cut>
    requires x { x.0 < length store.now.box }
    requires open { IsTrue (is_domain_left (values_left store.now.box x.0)) }
    ensures none { IfNone result (IsNear factor s (values_left store.now.box x.0)) }
    ensures some { IfSome result (λ k. (k.x ≡ x) × IsTightening factor s (values_left store.now.box x.0) k.lo k.hi) }
{
    if factor > 0 {
        return cut_high(factor, x, s, store);
    }
    if factor < 0 {
        return cut_low(factor, x, s, store);
    }
    None
}
