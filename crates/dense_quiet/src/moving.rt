//! How far the room of a sum lets each of its variables move.
//!
//! How far a sum is from its bound tells by one division how far each of its variables can go: with any value past it, whatever the
//! others are, the sum is past its bound. Of a sum that is to be at most a number each variable can go that far, and keeps the value with
//! which its term is least.
ghost use Rattle.std.specs.Prelude.{◌≢◌, true, false, ◌≡◌, pos, ◌+ℤ◌, ◌*ℤ◌, neg_ℤ, ◌≤ℤ◌, ◌<ℤ◌, int_lt, slice_get, Some, IsTrue};
ghost use Rattle.qc_model.specs.declared.problem.Arg.TheVariants.{Var};
ghost use Rattle.qc_model.specs.Valid.{is_number};
ghost use Rattle.model_arguments.specs.Written.{args_at, ints_at};
ghost use Rattle.dense_quiet.specs.Slack.{IsTermOf, IsMeasured, IsLong, IsPast, IsFar};

use crate::slack::{Room, are_close, least_room};
use crate::stretch::Stretch;
use crate::summing::product;
use model_arguments::{arguments, items_at};
use qc_model::{Arg, Argument, Constraint, VarId};

// How many steps of this size fit into the room, or as many as the width has.
fn steps(room: i64, size: i64, width: i64) -> i64
    requires room { pos 0 ≤ℤ room }
    requires size { pos 0 <ℤ size }
    requires width { pos 0 ≤ℤ width }
    ensures low { pos 0 ≤ℤ result }
    ensures high { result ≤ℤ width }
    ensures past { result <ℤ width → room <ℤ (size *ℤ (result +ℤ pos 1)) }
    ensures fits { (size *ℤ result) ≤ℤ room }
{
    let count = room / size;
    if count < width { count } else { width }
}

// How many steps the room lets a variable with this factor go up from its least value.
fn steps_up(factor: i64, room: Room, width: i64) -> i64
    requires factor { IsTrue (is_number factor) }
    requires some { factor ≢ pos 0 }
    requires room { IsLong room }
    requires width { pos 0 ≤ℤ width }
    ensures low { pos 0 ≤ℤ result }
    ensures high { result ≤ℤ width }
    ensures falling { int_lt factor (pos 0) ≡ true → result <ℤ width → room.over <ℤ (neg_ℤ factor *ℤ (result +ℤ pos 1)) }
    ensures rising { int_lt factor (pos 0) ≡ false → result <ℤ width → room.under <ℤ (factor *ℤ (result +ℤ pos 1)) }
{
    if factor < 0 {
        steps(room.over, -factor, width)
    } else {
        steps(room.under, factor, width)
    }
}

// How many steps it lets it go down from its greatest.
fn steps_down(factor: i64, room: Room, width: i64) -> i64
    requires factor { IsTrue (is_number factor) }
    requires some { factor ≢ pos 0 }
    requires room { IsLong room }
    requires width { pos 0 ≤ℤ width }
    ensures low { pos 0 ≤ℤ result }
    ensures high { result ≤ℤ width }
    ensures falling { int_lt factor (pos 0) ≡ true → result <ℤ width → room.under <ℤ (neg_ℤ factor *ℤ (result +ℤ pos 1)) }
    ensures rising { int_lt factor (pos 0) ≡ false → result <ℤ width → room.over <ℤ (factor *ℤ (result +ℤ pos 1)) }
{
    if factor < 0 {
        steps(room.under, -factor, width)
    } else {
        steps(room.over, factor, width)
    }
}

/// The values from least to greatest that are farther from the least than the room lets a variable with this factor go.
pub fn past_least(factor: i64, room: Room, least: i64, greatest: i64) -> Stretch
    requires measured { IsMeasured factor least greatest }
    requires room { IsLong room }
    ensures { IsPast room factor least result.low result.high }
{
    let up = steps_up(factor, room, greatest - least);
    Stretch {
        low: least + up + 1,
        high: greatest,
    }
}

/// Those that are farther from the greatest.
pub fn past_greatest(factor: i64, room: Room, least: i64, greatest: i64) -> Stretch
    requires measured { IsMeasured factor least greatest }
    requires room { IsLong room }
    ensures { IsPast room factor greatest result.low result.high }
{
    let down = steps_down(factor, room, greatest - least);
    Stretch {
        low: least,
        high: greatest - down - 1,
    }
}

// How many steps so much room lets a variable with a negative factor go down.
fn steps_back(factor: i64, room: i64, width: i64) -> i64
    requires factor { IsTrue (is_number factor) }
    requires falling { int_lt factor (pos 0) ≡ true }
    requires room { pos 0 ≤ℤ room }
    requires width { pos 0 ≤ℤ width }
    ensures low { pos 0 ≤ℤ result }
    ensures high { result ≤ℤ width }
    ensures past { result <ℤ width → room <ℤ (neg_ℤ factor *ℤ (result +ℤ pos 1)) }
    ensures fits { (neg_ℤ factor *ℤ result) ≤ℤ room }
{
    steps(room, -factor, width)
}

// The values from least to greatest that are farther above the least than so much room lets a variable with a positive factor go.
fn far_up(factor: i64, room: i64, least: i64, greatest: i64) -> Stretch
    requires measured { IsMeasured factor least greatest }
    requires rising { int_lt factor (pos 0) ≡ false }
    requires room { pos 0 ≤ℤ room }
    ensures { IsFar room factor least greatest result.low result.high }
{
    let most = steps(room, factor, greatest - least);
    Stretch {
        low: least + most + 1,
        high: greatest,
    }
}

// Those that are farther below the greatest than it lets one with a negative factor go.
fn far_down(factor: i64, room: i64, least: i64, greatest: i64) -> Stretch
    requires measured { IsMeasured factor least greatest }
    requires falling { int_lt factor (pos 0) ≡ true }
    requires room { pos 0 ≤ℤ room }
    ensures { IsFar room factor least greatest result.low result.high }
{
    let most = steps_back(factor, room, greatest - least);
    Stretch {
        low: least,
        high: greatest - most - 1,
    }
}

/// Of the values from least to greatest those with which a term with this factor is more than so much room above the least that it can
/// be.
pub fn past_room(factor: i64, room: i64, least: i64, greatest: i64) -> Stretch
    requires measured { IsMeasured factor least greatest }
    requires room { pos 0 ≤ℤ room }
    ensures { IsFar room factor least greatest result.low result.high }
{
    if factor < 0 {
        far_down(factor, room, least, greatest)
    } else {
        far_up(factor, room, least, greatest)
    }
}

/// Whether the room lets a variable with this factor go from its least value to its greatest.
pub fn is_free(factor: i64, room: Room, least: i64, greatest: i64) -> bool
    requires { IsMeasured factor least greatest }
{
    are_close(
        product(factor, least),
        product(factor, greatest),
        least_room(room),
    )
}

/// The factor of x, which is the item at this place, or at a later one where numbers stand among the items; 0 where it is none of
/// these.
pub fn factor_at(rule: &Constraint, place: usize, x: VarId) -> i64
    ensures { result ≢ pos 0 → IsTermOf rule.now result x }
{
    let args = arguments(rule);
    for k in place..items_at(args, 1).len() {
        if is_item(args, k, x) {
            return number_at(args, k);
        }
    }
    0
}

// The number at this place of those that stand first, or 0.
fn number_at(args: &[Argument], place: usize) -> i64
    ensures { result ≢ pos 0 → slice_get (ints_at args.now 0) place ≡ Some result }
{
    match args.get(0) {
        Some(Argument::Numbers(items)) => match items.items().get(place) {
            Some(factor) => *factor,
            None => 0,
        },
        _ => 0,
    }
}

// Whether the item at this place is x.
fn is_item(args: &[Argument], place: usize, x: VarId) -> bool
    ensures { IsTrue result → slice_get (args_at args.now 1) place ≡ Some (Var x) }
{
    match args.get(1) {
        Some(Argument::Many(items)) => match items.items().get(place) {
            Some(Arg::Var(y)) => y.0 == x.0,
            _ => false,
        },
        _ => false,
    }
}
