//! Full ranges: so many numbers from one on, among which as many items lie.
//!
//! The items that begin at the first number or after it are counted by where they end, for as many numbers as there are
//! items. The sum of the first n counts is how many items lie among the first n numbers. So all ranges that begin at one
//! number take two walks; longer ones have room for all items anyway.
ghost use Rattle.std.specs.Prelude.{◌≡◌, ◌≤◌, ◌<◌, ◌+◌, ℕ, IsTrue, IsFalse, IfNone, IfSome, length, map, cond, get_or, count_by, pos, ◌+ℤ◌, ◌≤ℤ◌, int_le};
ghost use Rattle.std.specs.List.{list_all};
ghost use Rattle.qc_model.specs.Domains.{least_value, greatest_value};
ghost use Rattle.qc_model.specs.Refuted.{left_to};
ghost use Rattle.qc_model.specs.Valid.{is_number};
ghost use Rattle.model_arguments.specs.Asked.{IsAsked};
ghost use Rattle.qc_refuter.specs.Met.{seen, is_open};
ghost use Rattle.qc_refuter.specs.Full.{held, ends_past, first_sum, AreWidest};

use crate::shown::View;
use crate::view::{greatest, least, whole};
use fd_store::Store;
use model_arguments::width;
use qc_model::{Arg, Constraint, Problem};

fn clear(counts: &mut [u16])
    ensures length { length counts.new ≡ length counts.old }
    ensures zero { (k : ℕ) → k < length counts.new → get_or counts.new k 0 ≡ 0 }
{
    for k in 0..counts.len() {
        counts[k] = 0;
    }
}

// How far past the number the argument ends, if it doesn't begin before.
fn end_past(arg: Arg, low: i64, view: &View) -> Option<usize>
    requires arg { IsTrue (is_open (seen view.now) arg) }
    requires low { IsTrue (is_number low) }
    ensures none { IfNone result (IsFalse (int_le low (least_value (left_to (seen view.now) arg)))) }
    ensures some { IfSome result (λ k. IsTrue (int_le low (least_value (left_to (seen view.now) arg))) × (greatest_value (left_to (seen view.now) arg) ≡ low +ℤ pos k)) }
{
    if least(arg, view) < low {
        return None;
    }
    Some(width(low, greatest(arg, view)) as usize)
}

fn count_end(arg: Arg, low: i64, view: &View, counts: &mut [u16])
    requires arg { IsTrue (is_open (seen view.now) arg) }
    requires low { IsTrue (is_number low) }
    requires small { (k : ℕ) → k < length counts.old → get_or counts.old k 0 < 1000 }
    ensures length { length counts.new ≡ length counts.old }
    ensures counts { (k : ℕ) → k < length counts.new → get_or counts.new k 0 ≡ get_or counts.old k 0 + cond (ends_past low k (left_to (seen view.now) arg)) 1 0 }
{
    let Some(past) = end_past(arg, low, view) else {
        return;
    };
    if past >= counts.len() {
        return;
    }
    counts[past] += 1;
}

// At each place how many items begin at the first one's least value or after it, and end so far past it.
fn count_ends(items: &[Arg], first: Arg, view: &View, counts: &mut [u16])
    requires items { IsTrue (list_all (is_open (seen view.now)) items.now) }
    requires few { length items.now ≤ 1000 }
    requires first { IsTrue (is_open (seen view.now) first) }
    ensures length { length counts.new ≡ length counts.old }
    ensures counts { (k : ℕ) → k < length counts.new → get_or counts.new k 0 ≡ count_by (ends_past (least_value (left_to (seen view.now) first)) k) (map (left_to (seen view.now)) items.now) }
{
    let low = least(first, view);
    clear(counts);
    for item in items {
        count_end(*item, low, view, counts);
    }
}

// Puts in place of the counts how many numbers the widest full range before each has. None where a range holds more
// items than numbers.
fn widest_of(counts: &mut [u16]) -> Option<usize>
    requires few { length counts.old ≤ 1000 }
    ensures length { length counts.new ≡ length counts.old }
    ensures none { IfNone result ((n : ℕ) × (n ≤ length counts.old) × (n < first_sum counts.old n)) }
    ensures some { IfSome result (λ t. AreWidest (first_sum counts.old) counts.new t) }
{
    let mut sum: u32 = 0;
    let mut widest: u16 = 0;
    for k in 0..counts.len() {
        sum += counts[k] as u32;
        counts[k] = widest;
        if sum > k as u32 + 1 {
            return None;
        }
        if sum == k as u32 + 1 {
            widest = k as u16 + 1;
        }
    }
    Some(widest as usize)
}

/// Puts for each k below the number of items how many numbers the widest full range has, of those that begin at the
/// least value of the first argument and have at most k numbers; the result is that for as many numbers as there are
/// items. None where a range that begins there holds more items than numbers.
pub(crate) fn widest_seen(
    items: &[Arg],
    first: Arg,
    view: &View,
    widest: &mut [u16],
) -> Option<usize>
    requires items { IsTrue (list_all (is_open (seen view.now)) items.now) }
    requires few { length items.now ≤ 1000 }
    requires first { IsTrue (is_open (seen view.now) first) }
    requires room { length widest.old ≡ length items.now }
    ensures length { length widest.new ≡ length items.now }
    ensures none { IfNone result ((n : ℕ) × (n < held (map (left_to (seen view.now)) items.now) (least_value (left_to (seen view.now) first)) n)) }
    ensures some { IfSome result (λ t. AreWidest (held (map (left_to (seen view.now)) items.now) (least_value (left_to (seen view.now) first))) widest.new t) }
{
    count_ends(items, first, view, widest);
    widest_of(widest)
}

/// The same on the box of a store: for each k below the number of items how many numbers the widest full range has, of
/// those that begin at the least value of the first argument and have at most k numbers. It takes no memory.
pub fn widest_full(
    problem: &Problem,
    rule: &Constraint,
    items: &[Arg],
    first: Arg,
    store: &Store,
    widest: &mut [u16],
) -> Option<usize>
    requires asked { IsAsked problem.now rule.now store.now.box }
    requires items { IsTrue (list_all (is_open store.now.box) items.now) }
    requires few { length items.now ≤ 1000 }
    requires first { IsTrue (is_open store.now.box first) }
    requires room { length widest.old ≡ length items.now }
    ensures length { length widest.new ≡ length items.now }
    ensures none { IfNone result ((n : ℕ) × (n < held (map (left_to store.now.box) items.now) (least_value (left_to store.now.box first)) n)) }
    ensures some { IfSome result (λ t. AreWidest (held (map (left_to store.now.box) items.now) (least_value (left_to store.now.box first))) widest.new t) }
{
    problem.known();
    let _ = rule.pred;
    let view = whole(store);
    widest_seen(items, first, &view, widest)
}
