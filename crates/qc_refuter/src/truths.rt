//! Truth values, where 1 is true and 0 is false.
ghost use Rattle.std.specs.Prelude.{◌≡◌, ◌≤◌, ◌&&◌, IsTrue, length, map, pos, true, false};
ghost use Rattle.std.specs.List.{list_any, list_all};
ghost use Rattle.qc_model.specs.Domains.{is_single, least_value};
ghost use Rattle.qc_model.specs.Entailed.{entailed_as};
ghost use Rattle.qc_model.specs.Holds.{odd_ones};
ghost use Rattle.qc_model.specs.Left.{is_only, left_at};
ghost use Rattle.qc_model.specs.Meaning.{exactly_one as ExactlyOne, odd_items as OddItems, clause as Clause};
ghost use Rattle.qc_model.specs.Refuted.{left_to, refuted_as};
ghost use Rattle.qc_refuter.specs.Met.{seen, lefts, are_met, is_open};

use crate::reading::{arg_met, items_met, least_at};
use crate::shown::View;
use crate::view::{is_fixed, least};
use qc_model::{Arg, Argument};

fn is_fixed_at(args: &[Argument], place: usize, view: &View) -> bool
    requires { IsTrue (are_met (seen view.now) args.now) }
    ensures { result ≡ is_single (left_at (lefts (seen view.now) args.now) place) }
{
    is_fixed(arg_met(args, place, view), view)
}

// The three have one value each, and the third doesn't say whether the others differ.
pub(crate) fn exactly_one_refuted(args: &[Argument], view: &View) -> bool
    requires { IsTrue (are_met (seen view.now) args.now) }
    ensures { result ≡ refuted_as ExactlyOne (lefts (seen view.now) args.now) }
{
    if !is_fixed_at(args, 0, view) {
        return false;
    }
    if !is_fixed_at(args, 1, view) {
        return false;
    }
    if !is_fixed_at(args, 2, view) {
        return false;
    }
    let differ = least_at(args, 0, view) != least_at(args, 1, view);
    let said = least_at(args, 2, view) == 1;
    said != differ
}

fn all_fixed(items: &[Arg], view: &View) -> bool
    requires { IsTrue (list_all (is_open (seen view.now)) items.now) }
    ensures { result ≡ list_all is_single (map (left_to (seen view.now)) items.now) }
{
    for item in items {
        if !is_fixed(*item, view) {
            return false;
        }
    }
    true
}

// Whether an odd number of the least values are 1.
fn odd_least(items: &[Arg], view: &View) -> bool
    requires { IsTrue (list_all (is_open (seen view.now)) items.now) }
    ensures { result ≡ odd_ones (map least_value (map (left_to (seen view.now)) items.now)) }
{
    let mut odd = false;
    for item in items {
        odd = odd != (least(*item, view) == 1);
    }
    odd
}

pub(crate) fn odd_items_refuted(args: &[Argument], view: &View) -> bool
    requires { IsTrue (are_met (seen view.now) args.now) }
    ensures { result ≡ refuted_as OddItems (lefts (seen view.now) args.now) }
{
    let items = items_met(args, 0, view);
    all_fixed(items, view) && !odd_least(items, view)
}

// Whether the number is the only value of an argument.
fn has_only(arg: Arg, number: i64, view: &View) -> bool
    requires { IsTrue (is_open (seen view.now) arg) }
    ensures { result ≡ is_only number (left_to (seen view.now) arg) }
{
    is_fixed(arg, view) && least(arg, view) == number
}

fn all_only(items: &[Arg], number: i64, view: &View) -> bool
    requires { IsTrue (list_all (is_open (seen view.now)) items.now) }
    ensures { result ≡ list_all (is_only number) (map (left_to (seen view.now)) items.now) }
{
    for item in items {
        if !has_only(*item, number, view) {
            return false;
        }
    }
    true
}

fn some_only(items: &[Arg], number: i64, view: &View) -> bool
    requires { IsTrue (list_all (is_open (seen view.now)) items.now) }
    ensures { result ≡ list_any (is_only number) (map (left_to (seen view.now)) items.now) }
{
    for item in items {
        if has_only(*item, number, view) {
            return true;
        }
    }
    false
}

// Every item of the first array can only be 0, and every item of the second only 1.
pub(crate) fn clause_refuted(args: &[Argument], view: &View) -> bool
    requires { IsTrue (are_met (seen view.now) args.now) }
    ensures { result ≡ refuted_as Clause (lefts (seen view.now) args.now) }
{
    all_only(items_met(args, 0, view), 0, view) && all_only(items_met(args, 1, view), 1, view)
}

// Some item of the first array can only be 1, or some item of the second only 0.
pub(crate) fn clause_entailed(args: &[Argument], view: &View) -> bool
    requires { IsTrue (are_met (seen view.now) args.now) }
    ensures { result ≡ entailed_as Clause (lefts (seen view.now) args.now) }
{
    some_only(items_met(args, 0, view), 1, view) || some_only(items_met(args, 1, view), 0, view)
}
