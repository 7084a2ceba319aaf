//! Values that two arguments have in common, without a look at the values between.
ghost use Rattle.std.specs.Prelude.{◌≡◌, not, IsTrue, IfNone, IfSome};
ghost use Rattle.qc_model.specs.Domains.{misses};
ghost use Rattle.qc_model.specs.Refuted.{left_to};
ghost use Rattle.qc_refuter.specs.Commons.{AllBelow, IsNext};
ghost use Rattle.qc_refuter.specs.Met.{seen, is_open};

use crate::shown::View;
use crate::view::{least, next};
use qc_model::Arg;

// From v to the second's next value, and from there to the first's.
fn next_both(a: Arg, b: Arg, v: i64, view: &View) -> Option<i64>
    requires a { IsTrue (is_open (seen view.now) a) }
    requires b { IsTrue (is_open (seen view.now) b) }
    ensures none { IfNone result (AllBelow (left_to (seen view.now) a) (left_to (seen view.now) b) v) }
    ensures some { IfSome result (λ w. IsNext (left_to (seen view.now) a) (left_to (seen view.now) b) v w) }
{
    match next(b, v, view) {
        None => None,
        Some(u) => next(a, u, view),
    }
}

/// Whether two arguments have a value in common.
pub(crate) fn meet(a: Arg, b: Arg, view: &View) -> bool
    requires a { IsTrue (is_open (seen view.now) a) }
    requires b { IsTrue (is_open (seen view.now) b) }
    ensures { result ≡ not (misses (left_to (seen view.now) a) (left_to (seen view.now) b)) }
{
    let mut v = least(a, view);
    while let Some(w) = next_both(a, b, v, view) {
        if w <= v {
            return true;
        }
        v = w;
    }
    false
}
