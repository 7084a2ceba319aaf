//! Which values a case of a tree in place covers.
ghost use Rattle.std.specs.Prelude.{◌≡◌, ◌<◌, true, length};
ghost use Rattle.qc_model.specs.Domains.{values_left};
ghost use Rattle.proof_tree.specs.Cover.{is_cover};
ghost use Rattle.fd_store.specs.Held.{values_from};
ghost use Rattle.check_box.specs.Cases.{IsCase};

use check_box::{Ends, case_ends};
use fd_store::Store;
use qc_model::VarId;

/// The first and the last of the values that a case covers, which begins at the first of the values of x from `from` on.
pub(crate) fn ends_of(store: &Store, x: VarId, from: i64, upto: Option<i64>) -> Ends
    requires var { x.0 < length store.now.box }
    requires begins { is_cover upto (values_from from (values_left store.now.box x.0)) ≡ true }
    ensures { IsCase (values_left store.now.box x.0) from upto result.first result.last }
{
    match case_ends(store, x, from, upto) {
        Some(ends) => ends,
        None => unreachable!(),
    }
}
