//! Literals: when they hold, and whether a box keeps to them.
ghost use Rattle.std.specs.Prelude.{◌≡◌, ◌==◌, ◌&&◌, ◌<◌, ◌≤ℤ◌, ℤ, true, false, not, length, IsTrue, IfNone, IfSome};
ghost use Rattle.std.specs.List.{list_any, list_all};
ghost use Rattle.qc_model.specs.Domains.{is_within as is_within_in, values_left};
ghost use Rattle.qc_refuter.specs.Met.{is_domain_left};
ghost use Rattle.lemma_list.specs.Literals.{meets as meets_in, comes_after as comes_after_in, are_in_order as are_in_order_in};
ghost use Rattle.lemma_reasons.specs.Steps.{leads_on as leads_on_in};

use fd_store::Store;
use lemma_list::Literal;
use qc_model::VarId;

/// The greatest number that there is.
const MOST: i64 = 1_000_000_000;

fn is_within(lo: i64, hi: i64, v: i64) -> bool
    ensures { result ≡ is_within_in lo hi v }
{
    lo <= v && v <= hi
}

// Whether the literal is on x, and has the value.
fn is_of(literal: Literal, x: VarId, v: i64) -> bool
    ensures { result ≡ (literal.x.0 == x.0 && is_within_in literal.lo literal.hi v) }
{
    literal.x.0 == x.0 && is_within(literal.lo, literal.hi, v)
}

/// Whether the value is in the range of some literal on x.
pub fn meets(literals: &[Literal], x: VarId, v: i64) -> bool
    ensures { result ≡ meets_in literals.now x.0 v }
{
    for literal in literals {
        if is_of(*literal, x, v) {
            return true;
        }
    }
    false
}

// Whether the second is on a later variable, or on the same one and has a later range.
fn comes_after(first: Literal, second: Literal) -> bool
    ensures { result ≡ comes_after_in first second }
{
    first.x.0 < second.x.0 || (first.x.0 == second.x.0 && first.hi < second.lo)
}

// Whether a literal has values, and the one after it follows.
fn leads_on(first: Literal, later: &[Literal]) -> bool
    ensures { result ≡ leads_on_in first later.now }
{
    match later {
        [] => first.lo <= first.hi,
        [next, ..] => first.lo <= first.hi && comes_after(first, *next),
    }
}

/// Whether variables ascend, and so do the ranges of each.
pub fn are_in_order(literals: &[Literal]) -> bool
    ensures { result ≡ are_in_order_in literals.now }
{
    let mut rest = literals;
    while let [first, later @ ..] = rest {
        if !leads_on(*first, later) {
            return false;
        }
        rest = later;
    }
    true
}

// Whether some value from lo to hi is left to x.
fn has_within(x: VarId, lo: i64, hi: i64, store: &Store) -> bool
    requires { x.0 < length store.now.box }
    ensures { result ≡ list_any (is_within_in lo hi) (values_left store.now.box x.0) }
{
    match store.next(x, lo) {
        None => false,
        Some(v) => v <= hi,
    }
}

/// Whether all values that are left to a literal's variable are in its range.
pub(crate) fn covers(literal: Literal, store: &Store) -> bool
    requires { IsTrue (is_domain_left (values_left store.now.box literal.x.0)) }
    ensures { result ≡ true → list_all (is_within_in literal.lo literal.hi) (values_left store.now.box literal.x.0) ≡ true }
{
    let low = store.min(literal.x);
    let high = store.max(literal.x);
    if low < literal.lo {
        return false;
    }
    high <= literal.hi
}

// Whether the literal is on x, and has some value that is left to x.
fn allows_some(literal: Literal, x: VarId, store: &Store) -> bool
    requires { x.0 < length store.now.box }
    ensures { result ≡ list_any (λ v. literal.x.0 == x.0 && is_within_in literal.lo literal.hi v) (values_left store.now.box x.0) }
{
    literal.x.0 == x.0 && has_within(x, literal.lo, literal.hi, store)
}

/// Whether some value that is left to x meets the literals.
pub fn some_meets(literals: &[Literal], x: VarId, store: &Store) -> bool
    requires { x.0 < length store.now.box }
    ensures { result ≡ list_any (meets_in literals.now x.0) (values_left store.now.box x.0) }
{
    for literal in literals {
        if allows_some(*literal, x, store) {
            return true;
        }
    }
    false
}

// How far the values from v on meet the literals that v meets: up to the end of the first one's range.
fn met_to(literals: &[Literal], x: VarId, v: i64) -> Option<i64>
    ensures none { IfNone result (meets_in literals.now x.0 v ≡ false) }
    ensures some { IfSome result (λ h. (v ≤ℤ h) × ((w : ℤ) → v ≤ℤ w → w ≤ℤ h → meets_in literals.now x.0 w ≡ true)) }
{
    for literal in literals {
        if is_of(*literal, x, v) {
            return Some(literal.hi);
        }
    }
    None
}

/// Whether some value that is left to x doesn't meet the literals: from a value on to the end of what it meets, and from
/// there to the next value.
pub fn some_misses(literals: &[Literal], x: VarId, store: &Store) -> bool
    requires { IsTrue (is_domain_left (values_left store.now.box x.0)) }
    ensures { result ≡ list_any (λ v. not (meets_in literals.now x.0 v)) (values_left store.now.box x.0) }
{
    let mut from = store.min(x);
    while let Some(v) = store.next(x, from) {
        let Some(end) = met_to(literals, x, v) else {
            return true;
        };
        if end >= MOST {
            return false;
        }
        from = end + 1;
    }
    false
}
