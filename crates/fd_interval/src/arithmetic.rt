//! Sums, products, absolute values, the smaller and the greater of two, and whether two spans meet.
ghost use Rattle.std.specs.Prelude.{◌≡◌, ◌≤ℤ◌, ◌+ℤ◌, ◌*ℤ◌, ◌↔◌, IsTrue};
ghost use Rattle.std.specs.Int.{int_min, int_max};
ghost use Rattle.fd_interval.specs.Limit.{IsWithinLimit};
ghost use Rattle.fd_interval.specs.Spans.{IsResult, IsAbsolute, absolute_lo, absolute_hi, IsLeastSpan, ShareNumber, least_of_four, greatest_of_four};

use crate::span::Span;

/// The span from `lo` to `hi`.
pub fn span_of(lo: i128, hi: i128) -> Span
    requires ordered { lo ≤ℤ hi }
    requires lo_within { IsWithinLimit lo }
    requires hi_within { IsWithinLimit hi }
    ensures lo { result.lo ≡ lo }
    ensures hi { result.hi ≡ hi }
{
    Span { lo, hi }
}

/// The least span that holds each sum of a member of `a` and a member of `b`.
pub fn add(a: Span, b: Span) -> Span
    requires lo_within { IsWithinLimit (a.lo +ℤ b.lo) }
    requires hi_within { IsWithinLimit (a.hi +ℤ b.hi) }
    ensures least { IsLeastSpan (IsResult ◌+ℤ◌ a b) result }
    ensures lo { result.lo ≡ (a.lo +ℤ b.lo) }
    ensures hi { result.hi ≡ (a.hi +ℤ b.hi) }
{
    span_of(a.lo + b.lo, a.hi + b.hi)
}

/// The least span that holds each product of a member of `a` and a member of `b`.
pub fn mul(a: Span, b: Span) -> Span
    requires lo_lo_within { IsWithinLimit (a.lo *ℤ b.lo) }
    requires lo_hi_within { IsWithinLimit (a.lo *ℤ b.hi) }
    requires hi_lo_within { IsWithinLimit (a.hi *ℤ b.lo) }
    requires hi_hi_within { IsWithinLimit (a.hi *ℤ b.hi) }
    ensures least { IsLeastSpan (IsResult ◌*ℤ◌ a b) result }
    ensures lo { result.lo ≡ least_of_four (a.lo *ℤ b.lo) (a.lo *ℤ b.hi) (a.hi *ℤ b.lo) (a.hi *ℤ b.hi) }
    ensures hi { result.hi ≡ greatest_of_four (a.lo *ℤ b.lo) (a.lo *ℤ b.hi) (a.hi *ℤ b.lo) (a.hi *ℤ b.hi) }
{
    let lo_lo = a.lo * b.lo;
    let lo_hi = a.lo * b.hi;
    let hi_lo = a.hi * b.lo;
    let hi_hi = a.hi * b.hi;
    let lo = lo_lo.min(lo_hi.min(hi_lo.min(hi_hi)));
    let hi = lo_lo.max(lo_hi.max(hi_lo.max(hi_hi)));
    span_of(lo, hi)
}

/// The least span that holds each member of `a` without its sign.
pub fn abs(a: Span) -> Span
    ensures least { IsLeastSpan (IsAbsolute a) result }
    ensures lo { result.lo ≡ absolute_lo a }
    ensures hi { result.hi ≡ absolute_hi a }
{
    span_of(a.lo.max(-a.hi).max(0), a.hi.max(-a.lo))
}

/// The least span that holds the smaller of each member of `a` and each member of `b`.
pub fn least(a: Span, b: Span) -> Span
    ensures least { IsLeastSpan (IsResult int_min a b) result }
    ensures lo { result.lo ≡ int_min a.lo b.lo }
    ensures hi { result.hi ≡ int_min a.hi b.hi }
{
    span_of(a.lo.min(b.lo), a.hi.min(b.hi))
}

/// The least span that holds the greater of each member of `a` and each member of `b`.
pub fn greatest(a: Span, b: Span) -> Span
    ensures least { IsLeastSpan (IsResult int_max a b) result }
    ensures lo { result.lo ≡ int_max a.lo b.lo }
    ensures hi { result.hi ≡ int_max a.hi b.hi }
{
    span_of(a.lo.max(b.lo), a.hi.max(b.hi))
}

/// Whether some number is a member of both.
pub fn meets(a: Span, b: Span) -> bool
    ensures { IsTrue result ↔ ShareNumber a b }
{
    a.lo <= b.hi && b.lo <= a.hi
}
