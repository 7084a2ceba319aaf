//! Items that are to differ, and too many of them within a few numbers.
ghost use Rattle.std.specs.Prelude.{◌≡◌, ◌≤◌, ◌<◌, ℕ, [], IsTrue, length, map, get_or, true, false};
ghost use Rattle.std.specs.List.{list_all};
ghost use Rattle.std.specs.List.Sorted.{IsPermutation, IsNonDecreasingBy};
ghost use Rattle.qc_model.specs.Left.{has_crowd as has_crowd_in};
ghost use Rattle.qc_model.specs.Meaning.{all_different as AllDifferent};
ghost use Rattle.qc_model.specs.Refuted.{left_to, refuted_as};
ghost use Rattle.qc_refuter.specs.Full.{lies_in};
ghost use Rattle.qc_refuter.specs.Met.{seen, lefts, are_met, is_open};
ghost use Rattle.qc_refuter.specs.Stretches.{AreEndsOf};

use crate::reading::items_met;
use crate::shown::View;
use crate::stretches::{Ends, MOST_ITEMS, are_too_many};
use crate::view::{greatest, least};
use model_arguments::width;
use qc_model::{Arg, Argument};

/// Up to so many items have buffers of their own, since all places of a buffer are filled before it is used.
const FEW_ITEMS: usize = 32;

/// The least number that there is.
const LEAST: i64 = -1_000_000_000;

fn ends_of(item: Arg, view: &View) -> Ends
    requires { IsTrue (is_open (seen view.now) item) }
    ensures { AreEndsOf (left_to (seen view.now) item) result }
{
    Ends {
        low: width(LEAST, least(item, view)),
        high: width(LEAST, greatest(item, view)),
    }
}

fn read_ends(items: &[Arg], view: &View, ends: &mut [Ends], lows: &mut [u32])
    requires items { IsTrue (list_all (is_open (seen view.now)) items.now) }
    requires ends { length ends.old ≡ length items.now }
    requires lows { length lows.old ≡ length items.now }
    ensures length_ends { length ends.new ≡ length items.now }
    ensures length_lows { length lows.new ≡ length items.now }
    ensures ends { (k : ℕ) (e : Ends) → k < length items.now → AreEndsOf (get_or (map (left_to (seen view.now)) items.now) k []) (get_or ends.new k e) }
    ensures lows { (k : ℕ) (e : Ends) → k < length items.now → get_or lows.new k 0 ≡ (get_or ends.new k e).low }
{
    for k in 0..items.len() {
        let item = ends_of(items[k], view);
        ends[k] = item;
        lows[k] = item.low;
    }
}

fn sort_ends(ends: &mut [Ends])
    ensures length { length ends.new ≡ length ends.old }
    ensures same { IsPermutation ends.old ends.new }
    ensures sorted { IsNonDecreasingBy (λ (e : Ends). e.high) ends.new }
{
    ends.sort_unstable_by_key(|item| item.high);
}

fn sort_lows(lows: &mut [u32])
    ensures length { length lows.new ≡ length lows.old }
    ensures same { IsPermutation lows.old lows.new }
    ensures sorted { IsNonDecreasingBy (λ (low : ℕ). low) lows.new }
{
    lows.sort_unstable();
}

// In the order of n log n for n items, with a place for each in all buffers.
fn are_crowded(
    items: &[Arg],
    view: &View,
    ends: &mut [Ends],
    lows: &mut [u32],
    free: &mut [u32],
    skips: &mut [u16],
) -> bool
    requires items { IsTrue (list_all (is_open (seen view.now)) items.now) }
    requires few { length items.now ≤ 1000 }
    requires ends { length ends.old ≡ length items.now }
    requires lows { length lows.old ≡ length items.now }
    requires free { length free.old ≡ length items.now }
    requires skips { length skips.old ≡ length items.now }
    ensures { result ≡ has_crowd_in (map (left_to (seen view.now)) items.now) }
{
    read_ends(items, view, ends, lows);
    sort_ends(ends);
    sort_lows(lows);
    are_too_many(ends, lows, free, skips)
}

// Both are not inlined: their buffers would be paid for at each question to the table.
#[inline(never)]
fn are_few_crowded(items: &[Arg], view: &View) -> bool
    requires items { IsTrue (list_all (is_open (seen view.now)) items.now) }
    requires few { length items.now ≤ 32 }
    ensures { result ≡ has_crowd_in (map (left_to (seen view.now)) items.now) }
{
    let mut buffer = [Ends { low: 0, high: 0 }; FEW_ITEMS];
    let mut starts = [0u32; FEW_ITEMS];
    let mut numbers = [0u32; FEW_ITEMS];
    let mut links = [0u16; FEW_ITEMS];
    let count = items.len();
    are_crowded(
        items,
        view,
        &mut buffer[..count],
        &mut starts[..count],
        &mut numbers[..count],
        &mut links[..count],
    )
}

#[inline(never)]
fn are_many_crowded(items: &[Arg], view: &View) -> bool
    requires items { IsTrue (list_all (is_open (seen view.now)) items.now) }
    requires few { length items.now ≤ 1000 }
    ensures { result ≡ has_crowd_in (map (left_to (seen view.now)) items.now) }
{
    let mut buffer = [Ends { low: 0, high: 0 }; MOST_ITEMS];
    let mut starts = [0u32; MOST_ITEMS];
    let mut numbers = [0u32; MOST_ITEMS];
    let mut links = [0u16; MOST_ITEMS];
    let count = items.len();
    are_crowded(
        items,
        view,
        &mut buffer[..count],
        &mut starts[..count],
        &mut numbers[..count],
        &mut links[..count],
    )
}

fn has_crowd(items: &[Arg], view: &View) -> bool
    requires items { IsTrue (list_all (is_open (seen view.now)) items.now) }
    requires few { length items.now ≤ 1000 }
    ensures { result ≡ has_crowd_in (map (left_to (seen view.now)) items.now) }
{
    if items.len() <= FEW_ITEMS {
        are_few_crowded(items, view)
    } else {
        are_many_crowded(items, view)
    }
}

// Whether the first number of the view is all that is left to the item.
fn has_first_alone(item: Arg, view: &View) -> bool
    requires { IsTrue (is_open (seen view.now) item) }
    ensures { result ≡ true → IsTrue (lies_in view.now.lo 1 (left_to (seen view.now) item)) }
{
    least(item, view) == view.lo && greatest(item, view) == view.lo
}

// Whether two items have the first number of the view alone, as where it was removed since another item has it. No other
// reason is as common, and this takes one pass.
fn two_have_first(items: &[Arg], view: &View) -> bool
    requires { IsTrue (list_all (is_open (seen view.now)) items.now) }
    ensures { result ≡ true → IsTrue (has_crowd_in (map (left_to (seen view.now)) items.now)) }
{
    let mut met = false;
    for item in items {
        if !has_first_alone(*item, view) {
            continue;
        }
        if met {
            return true;
        }
        met = true;
    }
    false
}

fn is_refuted(items: &[Arg], view: &View) -> bool
    requires items { IsTrue (list_all (is_open (seen view.now)) items.now) }
    requires few { length items.now ≤ 1000 }
    ensures { result ≡ has_crowd_in (map (left_to (seen view.now)) items.now) }
{
    if view.lo == view.hi && two_have_first(items, view) {
        return true;
    }
    has_crowd(items, view)
}

pub(crate) fn all_different_refuted(args: &[Argument], view: &View) -> bool
    requires { IsTrue (are_met (seen view.now) args.now) }
    ensures { result ≡ refuted_as AllDifferent (lefts (seen view.now) args.now) }
{
    is_refuted(items_met(args, 0, view), view)
}
