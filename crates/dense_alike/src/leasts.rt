//! What two boxes leave to the variables before a scope.
ghost use Rattle.std.specs.Prelude.{◌≡◌, ◌≤◌, ◌||◌, not, length, take, pos, slice_index_or, IsFalse, IsTrue};
ghost use Rattle.std.specs.Ordering.{int_eq};
ghost use Rattle.qc_model.specs.Domains.{box_values, has_empty};
ghost use Rattle.qc_model.specs.Game.{before};
ghost use Rattle.proof_alike.specs.Alike.{is_seen};
ghost use Rattle.dense_tree.specs.Alike.{each_below, reads_one_position};
ghost use Rattle.dense_alike.specs.Unseen.{SeesNone};

use crate::kept_box::KeptBox;
use crate::reads::Reads;
use crate::values::is_value_same;
use fd_store::Store;
use qc_model::{ScopeId, VarId};

/// Whether each variable before scope i that is read from it on has one value left.
pub(crate) fn is_read_once(reads: &Reads, i: ScopeId, first: usize, store: &Store) -> bool
    requires scope { i.0 ≤ length reads.now.scopes }
    requires first { first ≡ before reads.now i.0 }
    requires within { first ≤ length store.now.box }
    requires few { length store.now.box ≤ 500 }
    ensures { result ≡ reads_one_position reads.now i.0 store.now.box }
{
    for k in 0..first {
        let x = VarId(k as u16);
        if !store.is_fixed(x) && reads.is_read(i, x) {
            return false;
        }
    }
    true
}

/// The same of a box that was kept.
pub(crate) fn is_kept_once(reads: &Reads, i: ScopeId, first: usize, kept: &KeptBox) -> bool
    requires scope { i.0 ≤ length reads.now.scopes }
    requires first { first ≡ before reads.now i.0 }
    requires within { first ≤ length kept.now }
    requires few { length kept.now ≤ 500 }
    ensures { result ≡ reads_one_position reads.now i.0 kept.now }
{
    if first <= kept.fixed() {
        return true;
    }
    for k in 0..first {
        if reads.is_read(i, VarId(k as u16)) && !kept.is_single(k) {
            return false;
        }
    }
    true
}

/// Whether each variable before scope i that is seen from it on has the same value in both positions. It may be known that there is
/// none.
pub(crate) fn is_seen_same(
    reads: &Reads,
    i: ScopeId,
    first: usize,
    unseen: bool,
    here: &[i64],
    there: &[i64],
) -> bool
    requires scope { i.0 ≤ length reads.now.scopes }
    requires first { first ≡ before reads.now i.0 }
    requires few { first ≤ 500 }
    requires unseen { IsTrue unseen → SeesNone reads.now i.0 }
    ensures { result ≡ each_below first (λ x. not (is_seen reads.now i.0 x) || int_eq (slice_index_or here.now x (pos 0)) (slice_index_or there.now x (pos 0))) }
{
    if unseen {
        return true;
    }
    for k in 0..first {
        let x = VarId(k as u16);
        if reads.is_seen(i, x) && !is_value_same(x, here, there) {
            return false;
        }
    }
    true
}

/// Writes the least value left to each of the first variables into its place.
pub(crate) fn read_least(store: &Store, first: usize, values: &mut [i64])
    requires full { IsFalse (has_empty store.now.box) }
    requires places { first ≤ length values.old }
    requires within { first ≤ length store.now.box }
    requires few { length store.now.box ≤ 500 }
    ensures read { take first values.new ≡ box_values (take first store.now.box) }
    ensures places { length values.new ≡ length values.old }
{
    for k in 0..first {
        let x = VarId(k as u16);
        store.known(x);
        values[k] = store.min(x);
    }
}

/// The first of the values.
pub(crate) fn first_of(values: &[i64], first: usize) -> &[i64]
    requires { first ≤ length values.now }
    ensures { result.now ≡ take first values.now }
{
    &values[..first]
}
