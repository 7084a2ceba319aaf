//! What a comparison lets both arguments keep, by their values alone.
ghost use Rattle.std.specs.Prelude.{◌≡◌, IsTrue, IfNone, IfSome, pos, ◌+ℤ◌, ◌-ℤ◌};
ghost use Rattle.qc_model.specs.Domains.{misses};
ghost use Rattle.qc_model.specs.Refuted.{left_to};
ghost use Rattle.qc_model.specs.Valid.{is_number, is_truth};
ghost use Rattle.qc_refuter.specs.Met.{is_open};
ghost use Rattle.prop_compare.specs.Compared.{is_over};
ghost use Rattle.prop_compare.specs.Keeping.{IsReduction};

use crate::common::{greatest_common, least_common};
use crate::keeping::{Ends, Keeping};
use crate::reading::{greatest, least};
use fd_store::Store;
use qc_model::Arg;

/// Both keep what lies between the least and the greatest common value. None comes where they have none in common.
pub(crate) fn equal_ranges(a: Arg, b: Arg, store: &Store) -> Option<Keeping>
    requires a { IsTrue (is_open store.now.box a) }
    requires b { IsTrue (is_open store.now.box b) }
    ensures none { IfNone result (IsTrue (misses (left_to store.now.box a) (left_to store.now.box b))) }
    ensures some { IfSome result (λ k. IsReduction misses (left_to store.now.box a) (left_to store.now.box b) k) }
{
    let Some(lo) = least_common(a, b, store) else {
        return None;
    };
    let Some(hi) = greatest_common(a, b, store) else {
        return None;
    };
    let both = Ends { lo, hi };
    Some(Keeping {
        first: both,
        second: both,
    })
}

/// A number, the gap higher.
pub(crate) fn raised(v: i64, gap: i64) -> i64
    requires number { IsTrue (is_number v) }
    requires gap { IsTrue (is_truth gap) }
    ensures { result ≡ v +ℤ gap }
{
    v + gap
}

// And the gap lower.
fn lowered(v: i64, gap: i64) -> i64
    requires number { IsTrue (is_number v) }
    requires gap { IsTrue (is_truth gap) }
    ensures { result ≡ v -ℤ gap }
{
    v - gap
}

/// The first keeps what is at least the gap below the second's greatest value, and the second what is at least the gap
/// above the first's least. None comes where the first is over the second.
pub(crate) fn ordered_ranges(a: Arg, b: Arg, gap: i64, store: &Store) -> Option<Keeping>
    requires a { IsTrue (is_open store.now.box a) }
    requires b { IsTrue (is_open store.now.box b) }
    requires gap { IsTrue (is_truth gap) }
    ensures none { IfNone result (IsTrue (is_over gap (left_to store.now.box a) (left_to store.now.box b))) }
    ensures some { IfSome result (λ k. IsReduction (is_over gap) (left_to store.now.box a) (left_to store.now.box b) k) }
{
    let low = least(a, store);
    let high = greatest(b, store);
    let floor = raised(low, gap);
    let ceiling = lowered(high, gap);
    if high < floor {
        return None;
    }
    Some(Keeping {
        first: Ends {
            lo: low,
            hi: ceiling,
        },
        second: Ends {
            lo: floor,
            hi: high,
        },
    })
}
