//! Ranges that reach no further than the values that are left.
ghost use Rattle.std.specs.Prelude.{◌≡◌, ◌≤ℤ◌, ℤ, int_le, IsTrue};
ghost use Rattle.qc_model.specs.Domains.{box_without};
ghost use Rattle.qc_model.specs.Valid.{is_number};
ghost use Rattle.prop_base.specs.Closed.{IsCut};

use crate::cuts::Cut;
use fd_store::Store;
use qc_model::Constraint;

// Where a range may begin instead, where no value is below the least.
fn begin_near(lo: i64, least: i64) -> i64
    ensures number { IsTrue (is_number lo) → IsTrue (is_number least) → IsTrue (is_number result) }
    ensures same { (v : ℤ) → least ≤ℤ v → int_le result v ≡ int_le lo v }
{
    if lo < least { least } else { lo }
}

// Where it may end instead, where no value is above the greatest.
fn end_near(hi: i64, greatest: i64) -> i64
    ensures number { IsTrue (is_number hi) → IsTrue (is_number greatest) → IsTrue (is_number result) }
    ensures same { (v : ℤ) → v ≤ℤ greatest → int_le v result ≡ int_le v hi }
{
    if greatest < hi { greatest } else { hi }
}

/// The same values, from the least of the variable at the earliest to the greatest at the latest: so a certificate tells
/// which go, in few digits, whatever range the filter named.
pub(crate) fn near_cut(rule: &Constraint, cut: Cut, store: &Store) -> Cut
    requires cut { IsCut rule.now store.now.box cut }
    ensures x { result.x ≡ cut.x }
    ensures cut { IsCut rule.now store.now.box result }
    ensures same { box_without store.now.box result.x.0 result.lo result.hi ≡ box_without store.now.box cut.x.0 cut.lo cut.hi }
{
    let _ = rule.pred;
    store.known(cut.x);
    Cut {
        x: cut.x,
        lo: begin_near(cut.lo, store.min(cut.x)),
        hi: end_near(cut.hi, store.max(cut.x)),
    }
}
