//! Ranges from an end of a domain, as wide as the constraint refutes them.
//!
//! Whether a range is refuted is asked of the table, range by range: each time one that has twice as many numbers more
//! than are known to go, until one is not refuted, and then the middle of what is in doubt. So a range of n numbers takes
//! some 2 log n questions. Where a box that loses values stays refuted, as for every predicate, the range that is found is
//! the widest; that it may go rests on the table's answer for this very range alone.
ghost use Rattle.std.specs.Prelude.{◌≡◌, ◌<◌, ◌≤◌, ◌+◌, IsTrue, IsFalse, pos, ◌+ℤ◌, ◌≤ℤ◌};
ghost use Rattle.qc_model.specs.Valid.{is_number};
ghost use Rattle.model_arguments.specs.Asked.{IsAsked};
ghost use Rattle.prop_base.specs.Closed.{IsCut};
ghost use Rattle.prop_base.specs.Wider.{wider, refutes_range};

use crate::cuts::Cut;
use crate::refuting::Refuter;
use fd_store::Store;
use qc_model::{Constraint, Problem};

// The range with so many numbers more, after it or before it.
fn widened(range: Cut, after: bool, more: u32) -> Cut
    requires low { IsTrue (is_number range.lo) }
    requires high { IsTrue (is_number range.hi) }
    requires more { more ≤ 2000000000 }
    ensures { result ≡ wider after range more }
{
    if after {
        Cut {
            x: range.x,
            lo: range.lo,
            hi: range.hi + more as i64,
        }
    } else {
        Cut {
            x: range.x,
            lo: range.lo - more as i64,
            hi: range.hi,
        }
    }
}

// Whether the constraint refutes the range with so many numbers more.
fn refutes_wider<R: Refuter>(
    refuter: &R,
    problem: &Problem,
    rule: &Constraint,
    store: &Store,
    range: Cut,
    after: bool,
    more: u32,
) -> bool
    requires asked { IsAsked problem.now rule.now store.now.box }
    requires range { IsCut rule.now store.now.box range }
    requires more { more ≤ 2000000000 }
    ensures { result ≡ refutes_range rule.now store.now.box (wider after range more) }
{
    let next = widened(range, after, more);
    refuter.refutes_in(problem, rule, store, next.x, next.lo, next.hi)
}

// How many of the numbers in doubt to add to those that are refuted: one more than these, and half of those at most.
fn stride(refuted: u32, doubted: u32) -> u32
    requires some { 0 < doubted }
    ensures some { 0 < result }
    ensures most { result ≤ doubted }
{
    let half = doubted - doubted / 2;
    if refuted < half { refuted + 1 } else { half }
}

// By how many numbers the range can grow and stay refuted, with room for so many.
fn reach<R: Refuter>(
    refuter: &R,
    problem: &Problem,
    rule: &Constraint,
    store: &Store,
    range: Cut,
    after: bool,
    room: u32,
) -> u32
    requires asked { IsAsked problem.now rule.now store.now.box }
    requires range { IsCut rule.now store.now.box range }
    requires room { room ≤ 2000000000 }
    requires low { IsTrue (is_number (wider after range room).lo) }
    requires high { IsTrue (is_number (wider after range room).hi) }
    ensures room { result ≤ room }
    ensures cut { IsCut rule.now store.now.box (wider after range result) }
    ensures widest { result < room → IsFalse (refutes_range rule.now store.now.box (wider after range (result + 1))) }
{
    let mut refuted = 0;
    let mut doubted = room;
    while doubted > 0 {
        let step = stride(refuted, doubted);
        if refutes_wider(refuter, problem, rule, store, range, after, refuted + step) {
            refuted += step;
            doubted -= step;
        } else {
            doubted = step - 1;
        }
    }
    refuted
}

/// The range with as many numbers more, after it or before it, as it can have and stay refuted, with room for so many.
pub(crate) fn widest<R: Refuter>(
    refuter: &R,
    problem: &Problem,
    rule: &Constraint,
    store: &Store,
    range: Cut,
    after: bool,
    room: u32,
) -> Cut
    requires asked { IsAsked problem.now rule.now store.now.box }
    requires range { IsCut rule.now store.now.box range }
    requires room { room ≤ 2000000000 }
    requires low { IsTrue (is_number (wider after range room).lo) }
    requires high { IsTrue (is_number (wider after range room).hi) }
    ensures { IsCut rule.now store.now.box result }
{
    let more = reach(refuter, problem, rule, store, range, after, room);
    widened(range, after, more)
}
