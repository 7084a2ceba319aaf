//! What is left to the arguments of a constraint, by their place. One of another kind counts as the number 0 or as empty.
ghost use Rattle.std.specs.Prelude.{◌≡◌, ◌≤◌, IsTrue, length, map, pos, ◌≤ℤ◌};
ghost use Rattle.std.specs.List.{list_all};
ghost use Rattle.qc_model.specs.Arguments.{numbers as numbers_in};
ghost use Rattle.qc_model.specs.Domains.{least_value, greatest_value};
ghost use Rattle.qc_model.specs.Left.{left_at, lefts_at, last_left};
ghost use Rattle.qc_model.specs.Refuted.{left_to};
ghost use Rattle.qc_model.specs.Valid.{is_number};
ghost use Rattle.qc_refuter.specs.Met.{seen, lefts, are_met, is_open};

use crate::shown::View;
use crate::view::{greatest, least};
use qc_model::{Arg, Argument};

/// A variable or a number.
pub(crate) fn arg_met(args: &[Argument], place: usize, view: &View) -> Arg
    requires { IsTrue (are_met (seen view.now) args.now) }
    ensures left { left_to (seen view.now) result ≡ left_at (lefts (seen view.now) args.now) place }
    ensures open { IsTrue (is_open (seen view.now) result) }
{
    match args.get(place) {
        Some(Argument::One(arg)) => *arg,
        _ => Arg::Num(0),
    }
}

/// The last argument.
pub(crate) fn last_met(args: &[Argument], view: &View) -> Arg
    requires { IsTrue (are_met (seen view.now) args.now) }
    ensures left { left_to (seen view.now) result ≡ last_left (lefts (seen view.now) args.now) }
    ensures open { IsTrue (is_open (seen view.now) result) }
{
    arg_met(args, args.len().saturating_sub(1), view)
}

#[inline(always)]
pub(crate) fn least_at(args: &[Argument], place: usize, view: &View) -> i64
    requires { IsTrue (are_met (seen view.now) args.now) }
    ensures { result ≡ least_value (left_at (lefts (seen view.now) args.now) place) }
{
    match args.get(place) {
        Some(Argument::One(arg)) => least(*arg, view),
        _ => 0,
    }
}

#[inline(always)]
pub(crate) fn greatest_at(args: &[Argument], place: usize, view: &View) -> i64
    requires { IsTrue (are_met (seen view.now) args.now) }
    ensures { result ≡ greatest_value (left_at (lefts (seen view.now) args.now) place) }
{
    match args.get(place) {
        Some(Argument::One(arg)) => greatest(*arg, view),
        _ => 0,
    }
}

/// The items of an array that may hold variables.
#[inline(always)]
pub(crate) fn items_met<'a>(args: &'a [Argument], place: usize, view: &View) -> &'a [Arg]
    requires { IsTrue (are_met (seen view.now) args.now) }
    ensures items { map (left_to (seen view.now)) result.now ≡ lefts_at (lefts (seen view.now) args.now) place }
    ensures few { length result.now ≤ 1000 }
    ensures open { IsTrue (list_all (is_open (seen view.now)) result.now) }
{
    match args.get(place) {
        Some(Argument::Many(items)) => items.items(),
        _ => &[],
    }
}

#[inline(always)]
pub(crate) fn numbers_met<'a>(args: &'a [Argument], place: usize, view: &View) -> &'a [i64]
    requires { IsTrue (are_met (seen view.now) args.now) }
    ensures items { result.now ≡ numbers_in (lefts (seen view.now) args.now) place }
    ensures small { IsTrue (list_all is_number result.now) }
{
    match args.get(place) {
        Some(Argument::Numbers(items)) => items.items(),
        _ => &[],
    }
}
