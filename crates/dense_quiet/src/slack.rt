//! Sums that have so much room that no end of a variable breaks them.
//!
//! Whether a sum refutes an end takes as long as to read the sum, so to hold one against all its ends takes the square of that.
//! Where the ends of each term are nearer to each other than the sum is to its bound, it refutes none, which one reading tells.
//! Terms whose variables the sum may not take don't count. Where there isn't such room, the same reading tells how far each variable
//! can go (`trimming`). It speaks of sums in which no variable stands twice.
ghost use Rattle.std.specs.Prelude.{◌≡◌, ◌⊎◌, ◌≤◌, ◌^◌, IsTrue, IsFalse, false, cond, pos, ◌*ℤ◌, ◌+ℤ◌, ◌≤ℤ◌, ◌<ℤ◌, unsigned_abs};
ghost use Rattle.std.specs.List.{list_all};
ghost use Rattle.qc_model.specs.declared.problem.Arg.TheVariants.{Num};
ghost use Rattle.qc_model.specs.declared.problem.Pred.TheVariants.{IntLinEq, IntLinLe};
ghost use Rattle.qc_model.specs.Arguments.{variables_of};
ghost use Rattle.qc_model.specs.Lists.{Distinct};
ghost use Rattle.qc_model.specs.Refuted.{left_to};
ghost use Rattle.qc_model.specs.Valid.{is_number};
ghost use Rattle.model_arguments.specs.Asked.{IsAsked};
ghost use Rattle.model_arguments.specs.Written.{arg_at, ints_at};
ghost use Rattle.qc_refuter.specs.Met.{is_open, are_met};
ghost use Rattle.dense_quiet.specs.Slack.{IsNear, is_taken, AreNear, AllNear, SparesTaken, most_room, RoomTells, HasRoom, IsLong};
ghost use Rattle.dense_quiet.specs.Taking.{takes_of};

use crate::reading::{items_met, may_take_item};
use crate::summing::{product, read_sum};
use crate::taking::Taking;
use fd_store::Store;
use model_arguments::{arguments, one_at};
use qc_model::{Arg, Argument, Constraint, Pred, Problem};
use qc_refuter::Extent;

/// As much room as is told at most.
const MOST: i64 = 4_000_000_000_000_000_000;

// The factors of a sum.
fn factors_met<'a>(args: &'a [Argument], store: &Store) -> &'a [i64]
    requires { IsTrue (are_met store.now.box args.now) }
    ensures is { result.now ≡ ints_at args.now 0 }
    ensures small { IsTrue (list_all is_number result.now) }
{
    match args.get(0) {
        Some(Argument::Numbers(items)) => items.items(),
        _ => &[],
    }
}

// Whether the ends of a term are at most s apart.
fn is_near(factor: i64, item: Arg, s: i64, store: &Store) -> bool
    requires factor { IsTrue (is_number factor) }
    requires open { IsTrue (is_open store.now.box item) }
    requires room { pos 0 ≤ℤ s }
    ensures { IsTrue result → IsNear s factor (left_to store.now.box item) }
{
    match item {
        Arg::Num(_) => true,
        Arg::Var(x) => {
            let low = product(factor, store.min(x));
            let high = product(factor, store.max(x));
            are_close(low, high, s)
        }
    }
}

/// Whether two products are at most s apart.
pub(crate) fn are_close(a: i64, b: i64, s: i64) -> bool
    requires a { unsigned_abs a ≤ 10 ^ 18 }
    requires b { unsigned_abs b ≤ 10 ^ 18 }
    ensures up { IsTrue result → b ≤ℤ (a +ℤ s) }
    ensures down { IsTrue result → a ≤ℤ (b +ℤ s) }
{
    b - a <= s && a - b <= s
}

/// Whether the ends of a term are, or the constraint may not take the item.
pub fn is_quiet_term(
    problem: &Problem,
    taking: Taking,
    rule: &Constraint,
    factor: i64,
    item: Arg,
    s: i64,
    store: &Store,
) -> bool
    requires factor { IsTrue (is_number factor) }
    requires open { IsTrue (is_open store.now.box item) }
    requires room { pos 0 ≤ℤ s }
    ensures near { IsTrue result → IsTrue (is_taken (takes_of taking problem.now rule.now) item) → IsNear s factor (left_to store.now.box item) }
    ensures taken { IsFalse result → IsTrue (is_taken (takes_of taking problem.now rule.now) item) }
{
    if is_near(factor, item, s, store) {
        return true;
    }
    !may_take_item(problem, taking, rule, item)
}

// Whether the ends of each term are.
fn are_near(
    problem: &Problem,
    taking: Taking,
    rule: &Constraint,
    factors: &[i64],
    items: &[Arg],
    s: i64,
    store: &Store,
) -> bool
    requires factors { IsTrue (list_all is_number factors.now) }
    requires open { IsTrue (list_all (is_open store.now.box) items.now) }
    requires room { pos 0 ≤ℤ s }
    ensures { IsTrue result → AreNear (takes_of taking problem.now rule.now) s factors.now items.now store.now.box }
{
    for k in 0..factors.len().min(items.len()) {
        if !is_quiet_term(problem, taking, rule, factors[k], items[k], s, store) {
            return false;
        }
    }
    true
}

/// How far a sum is from its bound, or `MOST` where that is less: from below, and where they are to be equal from above too. A
/// negative number tells that it is past its bound.
#[derive(Clone, Copy)]
pub struct Room {
    pub under: i64,
    pub over: i64,
}

/// What one reading tells of a constraint: whether it is a sum that a number bounds, whether that has room for all that it may take,
/// and how much room there is.
#[derive(Clone, Copy)]
pub(crate) struct Slack {
    pub(crate) sum: bool,
    pub(crate) roomy: bool,
    pub(crate) room: Room,
}

// Nothing is told.
fn unknown() -> Slack
    ensures roomy { result.roomy ≡ false }
    ensures sum { result.sum ≡ false }
{
    Slack {
        sum: false,
        roomy: false,
        room: Room {
            under: -1,
            over: -1,
        },
    }
}

// The room of a sum.
fn room_of(is_equal: bool, bound: i64, extent: Extent) -> Room
    requires from { unsigned_abs extent.from ≤ 10 ^ 21 }
    requires to { unsigned_abs extent.to ≤ 10 ^ 21 }
    ensures under { pos 0 ≤ℤ result.under → (extent.from +ℤ result.under) ≤ℤ bound }
    ensures over { pos 0 ≤ℤ result.over → IsTrue is_equal → (bound +ℤ result.over) ≤ℤ extent.to }
    ensures tight_under { result.under <ℤ most_room → bound ≤ℤ (extent.from +ℤ result.under) }
    ensures tight_over { result.over <ℤ most_room → IsTrue is_equal × (extent.to ≤ℤ (bound +ℤ result.over)) }
{
    let under = clamped(bound as i128 - extent.from);
    if is_equal {
        let over = clamped(extent.to - bound as i128);
        Room { under, over }
    } else {
        Room { under, over: MOST }
    }
}

/// The lesser of both.
pub(crate) fn least_room(room: Room) -> i64
    ensures under { result ≤ℤ room.under }
    ensures over { result ≤ℤ room.over }
{
    if room.over < room.under {
        room.over
    } else {
        room.under
    }
}

/// Whether there is none.
pub(crate) fn is_short(room: Room) -> bool
    ensures short { IsTrue result → (room.under <ℤ pos 0) ⊎ (room.over <ℤ pos 0) }
    ensures long { IsFalse result → IsLong room }
{
    room.under < 0 || room.over < 0
}

// The number, or a lesser one within 64 bits; a negative one may become a greater one that is negative too.
fn clamped(n: i128) -> i64
    ensures less { pos 0 ≤ℤ result → result ≤ℤ n }
    ensures tight { result <ℤ most_room → n ≤ℤ result }
{
    if n < 0 {
        return -1;
    }
    if n > MOST as i128 {
        return MOST;
    }
    n as i64
}

// Whether those of each term that the constraint may take are, where it may not take all: else it is told by the widest.
fn are_others_near(
    problem: &Problem,
    taking: Taking,
    rule: &Constraint,
    factors: &[i64],
    items: &[Arg],
    s: i64,
    store: &Store,
) -> bool
    requires factors { IsTrue (list_all is_number factors.now) }
    requires open { IsTrue (list_all (is_open store.now.box) items.now) }
    requires room { pos 0 ≤ℤ s }
    ensures { IsTrue result → AreNear (takes_of taking problem.now rule.now) s factors.now items.now store.now.box }
{
    match taking {
        Taking::All => false,
        Taking::Owners => are_near(problem, taking, rule, factors, items, s, store),
    }
}

// Whether the terms, of which this is the widest, have such room.
fn has_room(
    problem: &Problem,
    taking: Taking,
    rule: &Constraint,
    factors: &[i64],
    items: &[Arg],
    widest: i64,
    s: i64,
    store: &Store,
) -> bool
    requires factors { IsTrue (list_all is_number factors.now) }
    requires open { IsTrue (list_all (is_open store.now.box) items.now) }
    requires near { AllNear widest factors.now items.now store.now.box }
    ensures room { IsTrue result → pos 0 ≤ℤ s }
    ensures near { IsTrue result → AreNear (takes_of taking problem.now rule.now) s factors.now items.now store.now.box }
{
    if s < 0 {
        return false;
    }
    if widest <= s {
        return true;
    }
    are_others_near(problem, taking, rule, factors, items, s, store)
}

// What a reading tells of a sum that a number bounds.
fn slack_below(
    problem: &Problem,
    taking: Taking,
    rule: &Constraint,
    is_equal: bool,
    bound: i64,
    store: &Store,
) -> Slack
    requires asked { IsAsked problem.now rule.now store.now.box }
    requires pred { rule.now.pred ≡ cond is_equal IntLinEq IntLinLe }
    requires bound { arg_at rule.now.args 2 ≡ Num bound }
    requires apart { Distinct (variables_of rule.now.args) }
    ensures roomy { IsTrue result.roomy → SparesTaken (takes_of taking problem.now) rule.now store.now.box }
    ensures tells { IsTrue result.sum → RoomTells rule.now result.room store.now.box }
    ensures fits { IsTrue result.sum → HasRoom rule.now result.room.under store.now.box }
{
    problem.known();
    let args = arguments(rule);
    let factors = factors_met(args, store);
    let items = items_met(args, 1, store);
    let reading = read_sum(factors, items, store);
    let room = room_of(is_equal, bound, reading.extent);
    Slack {
        sum: true,
        roomy: has_room(
            problem,
            taking,
            rule,
            factors,
            items,
            reading.widest,
            least_room(room),
            store,
        ),
        room,
    }
}

fn slack_of_sum(
    problem: &Problem,
    taking: Taking,
    rule: &Constraint,
    is_equal: bool,
    store: &Store,
) -> Slack
    requires asked { IsAsked problem.now rule.now store.now.box }
    requires pred { rule.now.pred ≡ cond is_equal IntLinEq IntLinLe }
    requires apart { Distinct (variables_of rule.now.args) }
    ensures roomy { IsTrue result.roomy → SparesTaken (takes_of taking problem.now) rule.now store.now.box }
    ensures tells { IsTrue result.sum → RoomTells rule.now result.room store.now.box }
    ensures fits { IsTrue result.sum → HasRoom rule.now result.room.under store.now.box }
{
    match one_at(arguments(rule), 2) {
        Arg::Var(_) => unknown(),
        Arg::Num(bound) => slack_below(problem, taking, rule, is_equal, bound, store),
    }
}

/// What one reading tells of a constraint: where it is a sum that a number bounds and has room, it refutes neither end of any of its
/// variables that it may take, nor the box. It takes time in the order of the sum's length.
pub(crate) fn slack_of(problem: &Problem, taking: Taking, rule: &Constraint, store: &Store) -> Slack
    requires asked { IsAsked problem.now rule.now store.now.box }
    requires apart { Distinct (variables_of rule.now.args) }
    ensures roomy { IsTrue result.roomy → SparesTaken (takes_of taking problem.now) rule.now store.now.box }
    ensures tells { IsTrue result.sum → RoomTells rule.now result.room store.now.box }
    ensures fits { IsTrue result.sum → HasRoom rule.now result.room.under store.now.box }
{
    match rule.pred {
        Pred::IntLinLe => slack_of_sum(problem, taking, rule, false, store),
        Pred::IntLinEq => slack_of_sum(problem, taking, rule, true, store),
        _ => unknown(),
    }
}
