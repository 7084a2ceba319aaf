//! Whether a comparison holds of no two values left to both arguments, or of each two.
ghost use Rattle.std.specs.Prelude.{◌≡◌, IsTrue};
ghost use Rattle.qc_model.specs.Domains.{misses};
ghost use Rattle.qc_model.specs.Left.{are_one_value};
ghost use Rattle.qc_model.specs.Refuted.{left_to};
ghost use Rattle.qc_model.specs.Valid.{is_truth};
ghost use Rattle.qc_refuter.specs.Met.{is_open};
ghost use Rattle.prop_compare.specs.Compared.{is_over};
ghost use Rattle.prop_compare.specs.Telling.{entailing, refuting};

use crate::common::least_common;
use crate::comparing::Comparison;
use crate::ranges::raised;
use crate::reading::{greatest, is_fixed, least};
use fd_store::Store;
use qc_model::Arg;

/// Whether both have one value left, the same.
pub(crate) fn are_one(a: Arg, b: Arg, store: &Store) -> bool
    requires a { IsTrue (is_open store.now.box a) }
    requires b { IsTrue (is_open store.now.box b) }
    ensures { result ≡ are_one_value (left_to store.now.box a) (left_to store.now.box b) }
{
    is_fixed(a, store) && is_fixed(b, store) && least(a, store) == least(b, store)
}

/// Whether both have no value left in common.
pub fn are_apart(a: Arg, b: Arg, store: &Store) -> bool
    requires a { IsTrue (is_open store.now.box a) }
    requires b { IsTrue (is_open store.now.box b) }
    ensures { result ≡ misses (left_to store.now.box a) (left_to store.now.box b) }
{
    least_common(a, b, store).is_none()
}

// Whether no value of the first is at least the gap below one of the second.
fn are_over(a: Arg, b: Arg, gap: i64, store: &Store) -> bool
    requires a { IsTrue (is_open store.now.box a) }
    requires b { IsTrue (is_open store.now.box b) }
    requires gap { IsTrue (is_truth gap) }
    ensures { result ≡ is_over gap (left_to store.now.box a) (left_to store.now.box b) }
{
    greatest(b, store) < raised(least(a, store), gap)
}

pub(crate) fn is_refuted(comparison: Comparison, a: Arg, b: Arg, store: &Store) -> bool
    requires a { IsTrue (is_open store.now.box a) }
    requires b { IsTrue (is_open store.now.box b) }
    ensures { result ≡ refuting comparison (left_to store.now.box a) (left_to store.now.box b) }
{
    match comparison {
        Comparison::Equal => are_apart(a, b, store),
        Comparison::Different => are_one(a, b, store),
        Comparison::AtMost => are_over(a, b, 0, store),
        Comparison::Below => are_over(a, b, 1, store),
    }
}

pub(crate) fn is_entailed(comparison: Comparison, a: Arg, b: Arg, store: &Store) -> bool
    requires a { IsTrue (is_open store.now.box a) }
    requires b { IsTrue (is_open store.now.box b) }
    ensures { result ≡ entailing comparison (left_to store.now.box a) (left_to store.now.box b) }
{
    match comparison {
        Comparison::Equal => are_one(a, b, store),
        Comparison::Different => are_apart(a, b, store),
        Comparison::AtMost => are_over(b, a, 1, store),
        Comparison::Below => are_over(b, a, 0, store),
    }
}
