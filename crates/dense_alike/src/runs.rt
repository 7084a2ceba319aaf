//! The values left to a variable, as ranges.
ghost use Rattle.std.specs.Prelude.{◌≡◌, ◌<◌, ◌++◌, pos, ◌+ℤ◌, false, length, IsTrue, IsFalse, OnOk, List, ℤ};
ghost use Rattle.qc_model.specs.Domains.{has_value, is_none_left, values_left};
ghost use Rattle.qc_model.specs.Lists.{same_values};
ghost use Rattle.qc_model.specs.Valid.{is_range};
ghost use Rattle.dense_alike.specs.Ranges.{IsRow, run, range_values, values_of, AddsValues};
ghost use Rattle.fd_store.specs.Held.{values_from};

use crate::range::Range;
use fd_store::Store;
use model_arguments::width;
use qc_model::VarId;
use std::alloc::AllocError;

/// The least number that can be a value.
const FIRST: i64 = -1_000_000_000;

/// Whether all values from the least to the greatest are left to x, by how many there are.
fn is_row(store: &Store, x: VarId) -> bool
    requires var { x.0 < length store.now.box }
    requires left { is_none_left (values_left store.now.box x.0) ≡ false }
    ensures { IsTrue result → IsRow (values_left store.now.box x.0) }
{
    store.known(x);
    width(store.min(x), store.max(x)) + 1 == store.size(x)
}

/// The end of the values in a row from v on, which is one of them, value by value.
fn walked_end(store: &Store, x: VarId, v: i64) -> i64
    requires var { x.0 < length store.now.box }
    requires there { IsTrue (has_value (values_left store.now.box x.0) v) }
    ensures range { IsTrue (is_range v result) }
    ensures run { values_from v (values_left store.now.box x.0) ≡ run v result ++ values_from (result +ℤ pos 1) (values_left store.now.box x.0) }
{
    store.known(x);
    let mut last = v;
    while store.has(x, last + 1) {
        last += 1;
    }
    last
}

/// The end of the values in a row from v on, which is one of them.
fn run_end(store: &Store, x: VarId, v: i64) -> i64
    requires var { x.0 < length store.now.box }
    requires there { IsTrue (has_value (values_left store.now.box x.0) v) }
    ensures range { IsTrue (is_range v result) }
    ensures run { values_from v (values_left store.now.box x.0) ≡ run v result ++ values_from (result +ℤ pos 1) (values_left store.now.box x.0) }
{
    store.known(x);
    if is_row(store, x) {
        return store.max(x);
    }
    walked_end(store, x, v)
}

/// Appends the values left to x, in ranges.
pub(crate) fn push_left(ranges: &mut Vec<Range>, store: &Store, x: VarId) -> Result<(), AllocError>
    requires var { x.0 < length store.now.box }
    ensures { OnOk result (AddsValues ranges.old.items ranges.new.items (values_left store.now.box x.0)) }
{
    store.known(x);
    let mut from = FIRST;
    while let Some(first) = store.next(x, from) {
        let last = run_end(store, x, first);
        ranges.push(Range { first, last })?;
        from = last + 1;
    }
    Ok(())
}

/// Whether the values left to x from a number on begin with those of the range.
fn has_run(store: &Store, x: VarId, from: i64, range: Range) -> bool
    requires var { x.0 < length store.now.box }
    ensures begins { IsTrue result → values_from from (values_left store.now.box x.0) ≡ range_values range ++ values_from (range.last +ℤ pos 1) (values_left store.now.box x.0) }
    ensures differs { IsFalse result → (rest : List ℤ) → same_values (values_from from (values_left store.now.box x.0)) (range_values range ++ rest) ≡ false }
{
    store.known(x);
    let Some(first) = store.next(x, from) else {
        return false;
    };
    if !range.begins_with(first) {
        return false;
    }
    if is_row(store, x) {
        return range.last <= store.max(x);
    }
    let mut v = range.first;
    while v < range.last {
        v += 1;
        if !store.has(x, v) {
            return false;
        }
    }
    true
}

/// Whether the values left to x are those of the ranges, in order.
pub(crate) fn has_ranges(store: &Store, x: VarId, ranges: &[Range]) -> bool
    requires var { x.0 < length store.now.box }
    ensures { result ≡ same_values (values_left store.now.box x.0) (values_of ranges.now) }
{
    store.known(x);
    let mut from = FIRST;
    for range in ranges {
        if !has_run(store, x, from, *range) {
            return false;
        }
        from = range.last + 1;
    }
    store.next(x, from).is_none()
}
