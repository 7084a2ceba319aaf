//! Quotients truncated towards 0, and remainders.
ghost use Rattle.std.specs.Prelude.{◌≡◌, ◌≢◌, ◌&&◌, IsTrue, int_rem, ℤ, neg_ℤ, ◌↔◌, pos, ◌≤ℤ◌, ◌<ℤ◌, unsigned_abs, ◌≤◌, IsNone, IfSome};
ghost use Rattle.std.specs.Int.{int_max};
ghost use Rattle.fd_interval.specs.Spans.{IsLeastSpan, IsIn};
ghost use Rattle.fd_interval.specs.Quotients.{IsQuotient, quotient_by_sign, least_positive, end_quotients, least_listed, greatest_listed};
ghost use Rattle.fd_interval.specs.Remainders.{IsRemainder, IsZero, is_single, lower_end, upper_end, farthest_remainder as farthest, remainder_lo, remainder_hi};

use crate::arithmetic::span_of;
use crate::span::Span;

/// The quotient by one of two divisors above 0, by the sign of `x`.
fn quotient(x: i128, if_negative: i128, otherwise: i128) -> i128
    requires negative_case { pos 0 <ℤ if_negative }
    requires other_case { pos 0 <ℤ otherwise }
    ensures value { result ≡ quotient_by_sign x if_negative otherwise }
    ensures smaller { unsigned_abs result ≤ unsigned_abs x }
{
    let divisor = if x < 0 { if_negative } else { otherwise };
    x / divisor
}

/// The quotients by the divisors of `b` above 0. The greater the divisor, the nearer to 0 is the
/// quotient.
fn by_positive(a: Span, b: Span) -> Span
    requires no_negative { pos 0 ≤ℤ b.lo }
    requires some { pos 0 <ℤ b.hi }
    ensures lo { result.lo ≡ quotient_by_sign a.lo (least_positive b) b.hi }
    ensures hi { result.hi ≡ quotient_by_sign a.hi b.hi (least_positive b) }
{
    let least = b.lo.max(1);
    span_of(quotient(a.lo, least, b.hi), quotient(a.hi, b.hi, least))
}

/// The members of `a` with the other sign.
fn opposite(a: Span) -> Span
    ensures lo { result.lo ≡ neg_ℤ a.hi }
    ensures hi { result.hi ≡ neg_ℤ a.lo }
{
    span_of(-a.hi, -a.lo)
}

/// The quotients by divisors on both sides of 0. Since 1 and -1 are among them, the end of `a` that is
/// farther from 0 is a quotient with either sign.
fn by_both_signs(a: Span) -> Span
    ensures lo { result.lo ≡ neg_ℤ (int_max a.hi (neg_ℤ a.lo)) }
    ensures hi { result.hi ≡ int_max a.hi (neg_ℤ a.lo) }
{
    let far = a.hi.max(-a.lo);
    span_of(-far, far)
}

/// The least span that holds each quotient of a member of `a` by a member of `b` other than 0,
/// truncated towards 0. None comes exactly where `b` is 0 to 0.
pub fn div(a: Span, b: Span) -> Option<Span>
    ensures none { IsNone result ↔ IsZero b }
    ensures least { IfSome result (IsLeastSpan (IsQuotient a b)) }
    ensures lo { IfSome result (λ s. s.lo ≡ least_listed (end_quotients a b)) }
    ensures hi { IfSome result (λ s. s.hi ≡ greatest_listed (end_quotients a b)) }
{
    if 0 < b.hi {
        Some(if b.lo < 0 {
            by_both_signs(a)
        } else {
            by_positive(a, b)
        })
    } else if b.lo < 0 {
        Some(by_positive(opposite(a), opposite(b)))
    } else {
        None
    }
}

/// Whether `b` is 0 to 0.
fn is_zero(b: Span) -> bool
    ensures { IsTrue result ↔ IsZero b }
{
    b.lo == 0 && b.hi == 0
}

/// Whether each of both holds one number.
fn are_single(a: Span, b: Span) -> bool
    ensures { result ≡ (is_single a && is_single b) }
{
    a.lo == a.hi && b.lo == b.hi
}

/// The one remainder, where each of both holds one number.
fn only_remainder(a: Span, b: Span) -> Span
    requires { b.lo ≢ pos 0 }
    ensures lo { result.lo ≡ int_rem a.lo b.lo }
    ensures hi { result.hi ≡ int_rem a.lo b.lo }
{
    let only = a.lo % b.lo;
    span_of(only, only)
}

/// The greater absolute value of the ends of `b`, less one.
fn farthest_remainder(b: Span) -> i128
    requires { ¬ IsZero b }
    ensures value { result ≡ farthest b }
    ensures not_negative { pos 0 ≤ℤ result }
{
    b.hi.max(-b.lo) - 1
}

/// How far remainders reach below 0, for dividends from `lo` and remainders at most `far` from 0.
fn least_remainder(lo: i128, far: i128) -> i128
    requires { pos 0 ≤ℤ far }
    ensures value { result ≡ lower_end lo far }
    ensures smaller { unsigned_abs result ≤ unsigned_abs lo }
    ensures not_positive { result ≤ℤ pos 0 }
{
    lo.min(0).max(-far)
}

/// How far remainders reach above 0, for dividends to `hi` and remainders at most `far` from 0.
fn greatest_remainder(hi: i128, far: i128) -> i128
    requires { pos 0 ≤ℤ far }
    ensures value { result ≡ upper_end hi far }
    ensures smaller { unsigned_abs result ≤ unsigned_abs hi }
    ensures not_negative { pos 0 ≤ℤ result }
{
    hi.max(0).min(far)
}

/// The remainders as far from 0 as the members of `a` and the divisors let them be.
fn by_size(a: Span, b: Span) -> Span
    requires { ¬ IsZero b }
    ensures lo { result.lo ≡ lower_end a.lo (farthest b) }
    ensures hi { result.hi ≡ upper_end a.hi (farthest b) }
{
    let far = farthest_remainder(b);
    span_of(least_remainder(a.lo, far), greatest_remainder(a.hi, far))
}

/// The span of the remainders: the one remainder where `a` and `b` hold one number each, otherwise as
/// far from 0 as the members of `a` and the divisors let it be. None comes exactly where `b` is 0 to 0.
pub fn rem(a: Span, b: Span) -> Option<Span>
    ensures none { IsNone result ↔ IsZero b }
    ensures lo { IfSome result (λ s. s.lo ≡ remainder_lo a b) }
    ensures hi { IfSome result (λ s. s.hi ≡ remainder_hi a b) }
    ensures holds { IfSome result (λ s. (n : ℤ) → IsRemainder a b n → IsIn s n) }
{
    if is_zero(b) {
        None
    } else if are_single(a, b) {
        Some(only_remainder(a, b))
    } else {
        Some(by_size(a, b))
    }
}
