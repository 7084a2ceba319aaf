//! Ranges by the ends of what is left.
ghost use Rattle.std.specs.Prelude.{◌≡◌, ◌≤◌, IsTrue, map, pos};
ghost use Rattle.std.specs.List.{list_all};
ghost use Rattle.std.specs.Int.{int_min, int_max};
ghost use Rattle.qc_model.specs.Left.{span, range_at, least_range as least_range_of, greatest_range as greatest_range_of, least_item_range, greatest_item_range};
ghost use Rattle.qc_model.specs.Meaning.{minimum as Minimum, maximum as Maximum, both as Both, either as Either, smaller as Smaller, greater as Greater, all_items as AllItems, some_item as SomeItem};
ghost use Rattle.qc_model.specs.Ranges.{range_of, ranges_miss, smaller_range, greater_range};
ghost use Rattle.qc_model.specs.Refuted.{left_to, refuted_as};
ghost use Rattle.qc_refuter.specs.Met.{seen, lefts, are_met, is_open};

use crate::reading::{greatest_at, items_met, least_at};
use crate::shown::View;
use crate::view::{greatest, least};
use qc_model::{Arg, Argument};

/// The numbers from one to another.
#[derive(Clone, Copy)]
pub(crate) struct Reach {
    pub(crate) from: i64,
    pub(crate) to: i64,
}

// Whether a range has no number in common with that of an argument.
fn misses_at(reach: Reach, args: &[Argument], place: usize, view: &View) -> bool
    requires { IsTrue (are_met (seen view.now) args.now) }
    ensures { result ≡ ranges_miss (range_of reach.from reach.to) (range_at (lefts (seen view.now) args.now) place) }
{
    reach.to < least_at(args, place, view) || greatest_at(args, place, view) < reach.from
}

fn reach_of(arg: Arg, view: &View) -> Reach
    requires { IsTrue (is_open (seen view.now) arg) }
    ensures { range_of result.from result.to ≡ span (left_to (seen view.now) arg) }
{
    Reach {
        from: least(arg, view),
        to: greatest(arg, view),
    }
}

fn smaller(a: Reach, b: Reach) -> Reach
    ensures { range_of result.from result.to ≡ smaller_range (range_of a.from a.to) (range_of b.from b.to) }
{
    Reach {
        from: a.from.min(b.from),
        to: a.to.min(b.to),
    }
}

fn greater(a: Reach, b: Reach) -> Reach
    ensures { range_of result.from result.to ≡ greater_range (range_of a.from a.to) (range_of b.from b.to) }
{
    Reach {
        from: a.from.max(b.from),
        to: a.to.max(b.to),
    }
}

// The smaller of the first two can't be the third.
pub(crate) fn smaller_refuted(args: &[Argument], view: &View) -> bool
    requires { IsTrue (are_met (seen view.now) args.now) }
    ensures smaller { result ≡ refuted_as Smaller (lefts (seen view.now) args.now) }
    ensures both { result ≡ refuted_as Both (lefts (seen view.now) args.now) }
{
    let reach = Reach {
        from: least_at(args, 0, view).min(least_at(args, 1, view)),
        to: greatest_at(args, 0, view).min(greatest_at(args, 1, view)),
    };
    misses_at(reach, args, 2, view)
}

// The greater of the first two can't be the third.
pub(crate) fn greater_refuted(args: &[Argument], view: &View) -> bool
    requires { IsTrue (are_met (seen view.now) args.now) }
    ensures greater { result ≡ refuted_as Greater (lefts (seen view.now) args.now) }
    ensures either { result ≡ refuted_as Either (lefts (seen view.now) args.now) }
{
    let reach = Reach {
        from: least_at(args, 0, view).max(least_at(args, 1, view)),
        to: greatest_at(args, 0, view).max(greatest_at(args, 1, view)),
    };
    misses_at(reach, args, 2, view)
}

// Where the least of a number from the range and the items can be.
fn least_range(first: Reach, items: &[Arg], view: &View) -> Reach
    requires { IsTrue (list_all (is_open (seen view.now)) items.now) }
    ensures { range_of result.from result.to ≡ least_range_of (range_of first.from first.to) (map (left_to (seen view.now)) items.now) }
{
    let mut reach = first;
    for item in items {
        reach = smaller(reach, reach_of(*item, view));
    }
    reach
}

// Where the greatest of a number from the range and the items can be.
fn greatest_range(first: Reach, items: &[Arg], view: &View) -> Reach
    requires { IsTrue (list_all (is_open (seen view.now)) items.now) }
    ensures { range_of result.from result.to ≡ greatest_range_of (range_of first.from first.to) (map (left_to (seen view.now)) items.now) }
{
    let mut reach = first;
    for item in items {
        reach = greater(reach, reach_of(*item, view));
    }
    reach
}

fn least_item(items: &[Arg], view: &View) -> Reach
    requires { IsTrue (list_all (is_open (seen view.now)) items.now) }
    ensures { range_of result.from result.to ≡ least_item_range (map (left_to (seen view.now)) items.now) }
{
    match items.split_first() {
        Some((item, later)) => least_range(reach_of(*item, view), later, view),
        None => Reach { from: 0, to: 0 },
    }
}

fn greatest_item(items: &[Arg], view: &View) -> Reach
    requires { IsTrue (list_all (is_open (seen view.now)) items.now) }
    ensures { range_of result.from result.to ≡ greatest_item_range (map (left_to (seen view.now)) items.now) }
{
    match items.split_first() {
        Some((item, later)) => greatest_range(reach_of(*item, view), later, view),
        None => Reach { from: 0, to: 0 },
    }
}

// The least item can't be the first argument.
pub(crate) fn minimum_refuted(args: &[Argument], view: &View) -> bool
    requires { IsTrue (are_met (seen view.now) args.now) }
    ensures { result ≡ refuted_as Minimum (lefts (seen view.now) args.now) }
{
    misses_at(least_item(items_met(args, 1, view), view), args, 0, view)
}

// The greatest item can't be the first argument.
pub(crate) fn maximum_refuted(args: &[Argument], view: &View) -> bool
    requires { IsTrue (are_met (seen view.now) args.now) }
    ensures { result ≡ refuted_as Maximum (lefts (seen view.now) args.now) }
{
    misses_at(greatest_item(items_met(args, 1, view), view), args, 0, view)
}

// The second argument can't say whether all items are 1.
pub(crate) fn all_items_refuted(args: &[Argument], view: &View) -> bool
    requires { IsTrue (are_met (seen view.now) args.now) }
    ensures { result ≡ refuted_as AllItems (lefts (seen view.now) args.now) }
{
    let ones = Reach { from: 1, to: 1 };
    misses_at(
        least_range(ones, items_met(args, 0, view), view),
        args,
        1,
        view,
    )
}

// The second argument can't say whether some item is 1.
pub(crate) fn some_item_refuted(args: &[Argument], view: &View) -> bool
    requires { IsTrue (are_met (seen view.now) args.now) }
    ensures { result ≡ refuted_as SomeItem (lefts (seen view.now) args.now) }
{
    let zeros = Reach { from: 0, to: 0 };
    misses_at(
        greatest_range(zeros, items_met(args, 0, view), view),
        args,
        1,
        view,
    )
}
