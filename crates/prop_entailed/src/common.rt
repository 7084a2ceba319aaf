//! Values that two arguments have in common, without a look at the values between.
ghost use Rattle.std.specs.Prelude.{◌≡◌, not, IsTrue, IfNone, IfSome};
ghost use Rattle.qc_model.specs.Domains.{misses};
ghost use Rattle.qc_model.specs.Refuted.{left_to};
ghost use Rattle.qc_refuter.specs.Commons.{AllBelow, IsNext};
ghost use Rattle.qc_refuter.specs.Met.{is_open};

use crate::left::{least, next};
use fd_store::Store;
use qc_model::Arg;

// From v to the second's next value, and from there to the first's.
fn next_both(a: Arg, b: Arg, v: i64, store: &Store) -> Option<i64>
    requires a { IsTrue (is_open store.now.box a) }
    requires b { IsTrue (is_open store.now.box b) }
    ensures none { IfNone result (AllBelow (left_to store.now.box a) (left_to store.now.box b) v) }
    ensures some { IfSome result (λ w. IsNext (left_to store.now.box a) (left_to store.now.box b) v w) }
{
    match next(b, v, store) {
        None => None,
        Some(u) => next(a, u, store),
    }
}

/// Whether two arguments have a value in common.
pub(crate) fn meet(a: Arg, b: Arg, store: &Store) -> bool
    requires a { IsTrue (is_open store.now.box a) }
    requires b { IsTrue (is_open store.now.box b) }
    ensures { result ≡ not (misses (left_to store.now.box a) (left_to store.now.box b)) }
{
    let mut v = least(a, store);
    while let Some(w) = next_both(a, b, v, store) {
        if w <= v {
            return true;
        }
        v = w;
    }
    false
}
