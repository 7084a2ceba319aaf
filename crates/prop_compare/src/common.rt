//! The least and the greatest value that two arguments have in common, without a look at the values between.
ghost use Rattle.std.specs.Prelude.{◌≡◌, IsTrue, IfNone, IfSome};
ghost use Rattle.qc_model.specs.Domains.{misses};
ghost use Rattle.qc_model.specs.Refuted.{left_to};
ghost use Rattle.qc_refuter.specs.Met.{is_open};
ghost use Rattle.qc_refuter.specs.Commons.{AllAbove, AllBelow, IsGreatestCommon, IsLeastCommon, IsNext, IsPrevious};

use crate::reading::{greatest, least, next_of, previous_of};
use fd_store::Store;
use qc_model::Arg;

// From v to the second's next value, and from there to the first's.
fn next_both(a: Arg, b: Arg, v: i64, store: &Store) -> Option<i64>
    requires a { IsTrue (is_open store.now.box a) }
    requires b { IsTrue (is_open store.now.box b) }
    ensures none { IfNone result (AllBelow (left_to store.now.box a) (left_to store.now.box b) v) }
    ensures some { IfSome result (λ w. IsNext (left_to store.now.box a) (left_to store.now.box b) v w) }
{
    match next_of(b, v, store) {
        None => None,
        Some(u) => next_of(a, u, store),
    }
}

// From v to the second's previous value, and from there to the first's.
fn previous_both(a: Arg, b: Arg, v: i64, store: &Store) -> Option<i64>
    requires a { IsTrue (is_open store.now.box a) }
    requires b { IsTrue (is_open store.now.box b) }
    ensures none { IfNone result (AllAbove (left_to store.now.box a) (left_to store.now.box b) v) }
    ensures some { IfSome result (λ w. IsPrevious (left_to store.now.box a) (left_to store.now.box b) v w) }
{
    match previous_of(b, v, store) {
        None => None,
        Some(u) => previous_of(a, u, store),
    }
}

/// The least value left to both. None comes exactly where there is none.
pub fn least_common(a: Arg, b: Arg, store: &Store) -> Option<i64>
    requires a { IsTrue (is_open store.now.box a) }
    requires b { IsTrue (is_open store.now.box b) }
    ensures none { IfNone result (IsTrue (misses (left_to store.now.box a) (left_to store.now.box b))) }
    ensures some { IfSome result (λ v. IsLeastCommon (left_to store.now.box a) (left_to store.now.box b) v) }
{
    let mut v = least(a, store);
    while let Some(w) = next_both(a, b, v, store) {
        if w <= v {
            return Some(v);
        }
        v = w;
    }
    None
}

/// The greatest value left to both. None comes exactly where there is none.
pub fn greatest_common(a: Arg, b: Arg, store: &Store) -> Option<i64>
    requires a { IsTrue (is_open store.now.box a) }
    requires b { IsTrue (is_open store.now.box b) }
    ensures none { IfNone result (IsTrue (misses (left_to store.now.box a) (left_to store.now.box b))) }
    ensures some { IfSome result (λ v. IsGreatestCommon (left_to store.now.box a) (left_to store.now.box b) v) }
{
    let mut v = greatest(a, store);
    while let Some(w) = previous_both(a, b, v, store) {
        if v <= w {
            return Some(v);
        }
        v = w;
    }
    None
}
