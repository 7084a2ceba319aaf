//! Which values a case covers.
ghost use Rattle.std.specs.Prelude.{◌≡◌, ◌<◌, true, false, length, IfNone, IfSome};
ghost use Rattle.qc_model.specs.Domains.{values_left};
ghost use Rattle.proof_tree.specs.Cover.{is_cover};
ghost use Rattle.fd_store.specs.Held.{values_from};
ghost use Rattle.check_box.specs.Cases.{IsCase, has_above};

use fd_store::Store;
use qc_model::VarId;

/// The first and the last of the values that a case covers.
#[derive(Clone, Copy)]
pub struct Ends {
    /// The least of them.
    pub first: i64,
    /// The greatest of them.
    pub last: i64,
}

/// The ends of a case that has this upper value, or one value alone, and begins at the first of the values of x from `from`
/// on; None where there is no such value, or the upper value isn't one that comes after the first.
#[inline(always)]
pub fn case_ends(store: &Store, x: VarId, from: i64, upto: Option<i64>) -> Option<Ends>
    requires var { x.0 < length store.now.box }
    ensures none { IfNone result (is_cover upto (values_from from (values_left store.now.box x.0)) ≡ false) }
    ensures some { IfSome result (λ e. IsCase (values_left store.now.box x.0) from upto e.first e.last) }
{
    store.known(x);
    match store.next(x, from) {
        None => None,
        Some(first) => match upto {
            None => Some(Ends { first, last: first }),
            Some(high) => ranged_ends(store, x, first, high),
        },
    }
}

fn ranged_ends(store: &Store, x: VarId, first: i64, high: i64) -> Option<Ends>
    requires var { x.0 < length store.now.box }
    ensures none { IfNone result (has_above (values_left store.now.box x.0) first high ≡ false) }
    ensures some { IfSome result (λ e. (has_above (values_left store.now.box x.0) first high ≡ true) × (e.first ≡ first) × (e.last ≡ high)) }
{
    if first < high && store.has(x, high) {
        Some(Ends { first, last: high })
    } else {
        None
    }
}
