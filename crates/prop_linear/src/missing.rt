//! The one value of the last loose term with which a sum is a number.
ghost use Rattle.std.specs.Prelude.{◌≡◌, ◌≢◌, ◌<◌, ◌≤◌, ◌*◌, ◌^◌, ℕ, ℤ, IsTrue, IsFalse, IfNone, IfSome, length, true, pos, ◌+ℤ◌, ◌<ℤ◌, ◌≤ℤ◌, unsigned_abs};
ghost use Rattle.std.specs.Ordering.{int_eq};
ghost use Rattle.qc_model.specs.Domains.{values_left, has_value};
ghost use Rattle.qc_model.specs.Valid.{is_number};
ghost use Rattle.qc_refuter.specs.Met.{is_domain_left};
ghost use Rattle.prop_linear.specs.Unequal.{IsHit};

use crate::slacks::slack;
use fd_store::Store;
use model_arguments::width;
use qc_model::VarId;

// How many steps of a factor go into a number, where it is whole.
fn whole_steps(offset: u128, factor: i64) -> Option<u128>
    requires { 0 < unsigned_abs factor }
    ensures none { IfNone result ((e : ℕ) → offset ≢ unsigned_abs factor * e) }
    ensures some { IfSome result (λ e. offset ≡ unsigned_abs factor * e) }
{
    let size = factor.unsigned_abs() as u128;
    let steps = offset / size;
    if size * steps == offset {
        Some(steps)
    } else {
        None
    }
}

// So many steps from the end that makes the term of a factor least.
fn stepped(factor: i64, low: i64, high: i64, steps: u128) -> i64
    requires low { IsTrue (is_number low) }
    requires high { IsTrue (is_number high) }
    requires steps { (low +ℤ pos steps) ≤ℤ high }
    ensures up { pos 0 <ℤ factor → result ≡ low +ℤ pos steps }
    ensures down { factor <ℤ pos 0 → result +ℤ pos steps ≡ high }
{
    if factor > 0 {
        low + steps as i64
    } else {
        high - steps as i64
    }
}

/// The value left to x with which the sum is the bound, where the other terms are one number each.
pub(crate) fn missing_value(
    factor: i64,
    x: VarId,
    bound: i64,
    least: i128,
    store: &Store,
) -> Option<i64>
    requires factor { IsFalse (int_eq factor (pos 0)) }
    requires x { x.0 < length store.now.box }
    requires open { IsTrue (is_domain_left (values_left store.now.box x.0)) }
    requires least { unsigned_abs least ≤ 10 ^ 21 }
    ensures none { IfNone result ((v : ℤ) → IsTrue (has_value (values_left store.now.box x.0) v) → IsHit least factor (values_left store.now.box x.0) bound v → ⊥) }
    ensures some { IfSome result (λ v. IsTrue (has_value (values_left store.now.box x.0) v) × IsHit least factor (values_left store.now.box x.0) bound v) }
{
    if (bound as i128) < least {
        return None;
    }
    let Some(steps) = whole_steps(slack(bound, least), factor) else {
        return None;
    };
    let low = store.min(x);
    let high = store.max(x);
    if (width(low, high) as u128) < steps {
        return None;
    }
    let v = stepped(factor, low, high, steps);
    if store.has(x, v) { Some(v) } else { None }
}
