//! A box that is kept.
ghost use Rattle.std.specs.Prelude.{◌≡◌, ◌<◌, ◌≤◌, ◌-◌, length, take, drop, IfOk};
ghost use Rattle.qc_model.specs.Domains.{box_values, is_single, least_value, values_left};
ghost use Rattle.qc_model.specs.Lists.{same_values};
ghost use Rattle.dense_alike.specs.Ranges.{domains, start_of, values_of, AreSingle, Rises};

use crate::range::Range;
use crate::runs::{has_ranges, push_left};
use fd_store::Store;
use qc_model::VarId;
use std::alloc::{AllocError, Global};
use std::marker::Model;

/// What was left to each variable, in ranges. A contract sees the box.
#[derive(Drop)]
pub(crate) struct KeptBox {
    /// The ranges of all variables, one after the other.
    ranges: Vec<Range>,
    /// For each variable where its ranges end.
    ends: Vec<usize>,
    /// The least value of each variable, 0 where none was left.
    least: Vec<i64>,
    /// How many variables from the first on had one value each.
    fixed: usize,
}

impl Model for KeptBox {
    ghost use Rattle.qc_model.specs.Domains.{Box};
    ghost use Rattle.dense_alike.specs.Ranges.{domains, AreKept};

    ghost Value = { Box };

    ghost view = { λ k. domains k.ranges.items 0 k.ends.items };

    ghost invariant = { λ k. AreKept k.ranges.items k.ends.items k.least.items k.fixed };
}

/// The least value left to x, or 0 where there is none.
fn least_left(store: &Store, x: VarId) -> i64
    requires { x.0 < length store.now.box }
    ensures { result ≡ least_value (values_left store.now.box x.0) }
{
    store.known(x);
    if store.size(x) == 0 { 0 } else { store.min(x) }
}

/// How many variables from the first on have one value each.
fn count_fixed(store: &Store) -> usize
    requires { length store.now.box ≤ 500 }
    ensures { AreSingle store.now.box result }
{
    for x in 0..store.count() {
        if !store.is_fixed(VarId(x as u16)) {
            return x;
        }
    }
    store.count()
}

/// Whether the ranges have one value.
fn is_one(ranges: &[Range]) -> bool
    ensures { result ≡ is_single (values_of ranges.now) }
{
    match ranges {
        [range] => range.is_one(),
        _ => false,
    }
}

/// Where the ranges of x begin.
fn start_at(ends: &[usize], x: usize) -> usize
    requires { x < length ends.now }
    ensures { result ≡ start_of 0 ends.now x }
{
    if x == 0 {
        return 0;
    }
    ends[x - 1]
}

/// The ranges from one place to the one before another.
fn part(ranges: &[Range], from: usize, end: usize) -> &[Range]
    requires order { from ≤ end }
    requires within { end ≤ length ranges.now }
    ensures { result.now ≡ take (end - from) (drop from ranges.now) }
{
    &ranges[from..end]
}

/// The ranges of x.
fn ranges_at<'a>(ranges: &'a [Range], ends: &[usize], x: usize) -> &'a [Range]
    requires var { x < length ends.now }
    requires rises { Rises 0 ends.now (length ranges.now) }
    ensures { values_of result.now ≡ values_left (domains ranges.now 0 ends.now) x }
{
    part(ranges, start_at(ends, x), ends[x])
}

impl KeptBox {
    /// What the store has left. It fails only where memory runs out.
    pub(crate) fn new(alloc: Global, store: &Store) -> Result<KeptBox, AllocError>
        requires { length store.now.box ≤ 500 }
        ensures { IfOk result (λ kept. kept ≡ store.now.box) }
    {
        let count = store.count();
        let mut ranges = Vec::with_capacity(alloc, count)?;
        let mut ends = Vec::with_capacity(alloc, count)?;
        let mut least = Vec::with_capacity(alloc, count)?;
        for x in 0..count {
            push_left(&mut ranges, store, VarId(x as u16))?;
            ends.push(ranges.len())?;
            least.push(least_left(store, VarId(x as u16)))?;
        }
        Ok(KeptBox {
            ranges,
            ends,
            least,
            fixed: count_fixed(store),
        })
    }

    /// How many variables from the first on have one value each.
    pub(crate) fn fixed(&self) -> usize
        ensures { AreSingle self.now result }
    {
        self.fixed
    }

    /// The least value of each variable.
    pub(crate) fn values(&self) -> &[i64]
        ensures { result.now ≡ box_values self.now }
    {
        &self.least
    }

    /// The ranges of x.
    fn ranges_of(&self, x: usize) -> &[Range]
        requires { x < length self.now }
        ensures { values_of result.now ≡ values_left self.now x }
    {
        ranges_at(&self.ranges, &self.ends, x)
    }

    /// Whether x has one value.
    pub(crate) fn is_single(&self, x: usize) -> bool
        requires { x < length self.now }
        ensures { result ≡ is_single (values_left self.now x) }
    {
        is_one(self.ranges_of(x))
    }

    /// Whether the store has as much left to x.
    pub(crate) fn is_left(&self, x: VarId, store: &Store) -> bool
        requires kept { x.0 < length self.now }
        requires left { x.0 < length store.now.box }
        ensures { result ≡ same_values (values_left store.now.box x.0) (values_left self.now x.0) }
    {
        has_ranges(store, x, self.ranges_of(x.0 as usize))
    }
}
