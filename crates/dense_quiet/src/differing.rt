//! Items that are to differ, and numbers that some of them fill.
//!
//! Where as many items lie in a range as it has numbers, they take all of these, and the range is full: no other item can have any of
//! them. Where no range holds more items than numbers, and no full range has an end of an item that doesn't lie in it, the constraint
//! refutes neither the box nor an end of any item. To ask it of each end takes the number of items times as long.
//!
//! The ranges that begin at one number are read at once: the items that begin there or after it are counted by where they end, for as
//! many numbers as there are items, and the sum of the first counts is how many items lie among the first numbers.
ghost use Rattle.std.specs.Prelude.{◌≡◌, ◌≤◌, ◌<◌, ◌+◌, ◌^◌, ℕ, ℤ, IsTrue, IsFalse, IfNone, IfSome, List, [], length, map, cond, get_or, count_by};
ghost use Rattle.std.specs.List.{list_all};
ghost use Rattle.qc_model.specs.declared.problem.Pred.TheVariants.{AllDifferentInt};
ghost use Rattle.qc_model.specs.Arguments.{variables_of};
ghost use Rattle.qc_model.specs.Domains.{Values, least_value, greatest_value};
ghost use Rattle.qc_model.specs.Lists.{Distinct};
ghost use Rattle.qc_model.specs.Left.{has_crowd};
ghost use Rattle.qc_model.specs.Refuted.{left_to, refuted_by};
ghost use Rattle.model_arguments.specs.Asked.{IsAsked};
ghost use Rattle.qc_refuter.specs.Full.{first_sum, AreWidest};
ghost use Rattle.qc_refuter.specs.Met.{is_open};
ghost use Rattle.dense_closing.specs.Takes.{Takes};
ghost use Rattle.dense_quiet.specs.Differing.{StandsFor, AreEndsOf, HaveEnds, ends_at, IsLeftAlone, IsQuiet, AllQuiet, IsRoom, AreRooms, Tells};
ghost use Rattle.dense_quiet.specs.Slack.{SparesTaken};

use crate::reading::items_met;
use crate::stretch::Stretch;
use fd_store::Store;
use model_arguments::{arguments, width};
use qc_model::{Arg, Constraint, Pred, Problem};

/// Up to so many items have buffers of their own, since all places of a buffer are filled before it is used.
const FEW_ITEMS: usize = 64;

/// As many items as an array has at most.
const MOST_ITEMS: usize = 1000;

/// The least number that there is.
const LEAST: i64 = -1_000_000_000;

/// The least and the greatest value left to an item, counted from the least number that there is.
#[derive(Clone, Copy)]
pub(crate) struct Ends {
    pub(crate) low: u32,
    pub(crate) high: u32,
}

/// What was seen of the items: that the constraint refutes no end of any; or that it refutes the box; or numbers that some of them fill,
/// with an end of another; or nothing that tells.
#[derive(Clone, Copy)]
pub(crate) enum Sight {
    Quiet,
    Crowded,
    Filled(Stretch),
    Unknown,
}

/// The least value left to the item.
pub(crate) fn least(item: Arg, store: &Store) -> i64
    requires { IsTrue (is_open store.now.box item) }
    ensures { result ≡ least_value (left_to store.now.box item) }
{
    match item {
        Arg::Num(n) => n,
        Arg::Var(x) => store.min(x),
    }
}

/// The greatest one.
pub(crate) fn greatest(item: Arg, store: &Store) -> i64
    requires { IsTrue (is_open store.now.box item) }
    ensures { result ≡ greatest_value (left_to store.now.box item) }
{
    match item {
        Arg::Num(n) => n,
        Arg::Var(x) => store.max(x),
    }
}

fn ends_of(item: Arg, store: &Store) -> Ends
    requires { IsTrue (is_open store.now.box item) }
    ensures { AreEndsOf (left_to store.now.box item) result }
{
    Ends {
        low: width(LEAST, least(item, store)),
        high: width(LEAST, greatest(item, store)),
    }
}

fn read_ends(items: &[Arg], store: &Store, ends: &mut [Ends])
    requires items { IsTrue (list_all (is_open store.now.box) items.now) }
    requires ends { length ends.old ≡ length items.now }
    ensures { HaveEnds (map (left_to store.now.box) items.now) ends.new }
{
    for k in 0..items.len() {
        ends[k] = ends_of(items[k], store);
    }
}

fn clear(counts: &mut [u16])
    ensures length { length counts.new ≡ length counts.old }
    ensures zero { (k : ℕ) → k < length counts.new → get_or counts.new k 0 ≡ 0 }
{
    for k in 0..counts.len() {
        counts[k] = 0;
    }
}

// Counts the item where it ends past the number, if it doesn't begin before.
fn count_end(e: Ends, low: u32, counts: &mut [u16])
    requires small { (k : ℕ) → k < length counts.old → get_or counts.old k 0 < 1000 }
    ensures length { length counts.new ≡ length counts.old }
    ensures counts { (k : ℕ) → k < length counts.new → get_or counts.new k 0 ≡ get_or counts.old k 0 + cond (ends_at low k e) 1 0 }
{
    if e.low < low {
        return;
    }
    if e.high < low {
        return;
    }
    let past = (e.high - low) as usize;
    if past >= counts.len() {
        return;
    }
    counts[past] += 1;
}

// At each place how many items begin at the number or after it, and end so far past it.
fn count_ends(ends: &[Ends], low: u32, counts: &mut [u16])
    requires few { length ends.now ≤ 1000 }
    ensures length { length counts.new ≡ length counts.old }
    ensures counts { (k : ℕ) → k < length counts.new → get_or counts.new k 0 ≡ count_by (ends_at low k) ends.now }
{
    clear(counts);
    for e in ends {
        count_end(*e, low, counts);
    }
}

// Puts in place of the counts how many numbers the widest full range before each has. None where a range holds more items than
// numbers.
fn widest_of(counts: &mut [u16]) -> Option<usize>
    requires few { length counts.old ≤ 1000 }
    ensures length { length counts.new ≡ length counts.old }
    ensures none { IfNone result ((n : ℕ) × (n ≤ length counts.old) × (n < first_sum counts.old n)) }
    ensures some { IfSome result (λ t. AreWidest (first_sum counts.old) counts.new t) }
{
    let mut sum: u32 = 0;
    let mut widest: u16 = 0;
    for k in 0..counts.len() {
        sum += counts[k] as u32;
        counts[k] = widest;
        if sum > k as u32 + 1 {
            return None;
        }
        if sum == k as u32 + 1 {
            widest = k as u16 + 1;
        }
    }
    Some(widest as usize)
}

// How many numbers the widest full range has that ends before the number so far past its first.
fn room_before(past: usize, rooms: &[u16], last: usize) -> usize
    requires small { last ≤ 1000 }
    ensures small { result < 2 ^ 16 }
    ensures room { (f : ℕ → ℕ) → AreWidest f rooms.now last → IsRoom f (length rooms.now) past result }
{
    if past < rooms.len() {
        rooms[past] as usize
    } else {
        last
    }
}

// How many numbers a full range has that begins at the number, and in which an end of the item lies, but not the item: 0 where there
// is none.
fn room_around(e: Ends, low: u32, rooms: &[u16], last: usize) -> usize
    requires small { last ≤ 1000 }
    ensures small { result < 2 ^ 16 }
    ensures alone { result ≡ 0 → (ds : List Values) (v : ℤ) (d : Values) → StandsFor low v → AreEndsOf d e → AreRooms ds v rooms.now last → IsLeftAlone ds v d }
{
    if e.high < low {
        return 0;
    }
    let past = (e.high - low) as usize;
    if e.low < low {
        if past < last {
            return last;
        }
        return 0;
    }
    let room = room_before(past, rooms, last);
    if ((e.low - low) as usize) < room {
        return room;
    }
    0
}

// The same for the first item of which there is one.
fn first_room(ends: &[Ends], low: u32, rooms: &[u16], last: usize) -> usize
    requires small { last ≤ 1000 }
    ensures small { result < 2 ^ 16 }
    ensures alone { result ≡ 0 → (ds : List Values) (v : ℤ) → StandsFor low v → HaveEnds ds ends.now → AreRooms ds v rooms.now last → (k : ℕ) → k < length ds → IsLeftAlone ds v (get_or ds k []) }
{
    for k in 0..ends.len() {
        let room = room_around(ends[k], low, rooms, last);
        if room != 0 {
            return room;
        }
    }
    0
}

// So many numbers from one on, if any.
fn filled(low: u32, room: usize) -> Sight
    requires small { room < 2 ^ 16 }
    ensures { Tells result (room ≡ 0) ⊥ }
{
    if room == 0 {
        return Sight::Quiet;
    }
    let first = LEAST + low as i64;
    Sight::Filled(Stretch {
        low: first,
        high: first + room as i64 - 1,
    })
}

// What the ranges from the number on tell.
fn sight_from(ends: &[Ends], low: u32, counts: &mut [u16]) -> Sight
    requires few { length ends.now ≤ 1000 }
    requires room { length counts.old ≡ length ends.now }
    ensures length { length counts.new ≡ length counts.old }
    ensures told { Tells result ((ds : List Values) (v : ℤ) → StandsFor low v → HaveEnds ds ends.now → IsQuiet ds v) ((ds : List Values) (v : ℤ) → StandsFor low v → HaveEnds ds ends.now → IsTrue (has_crowd ds)) }
{
    count_ends(ends, low, counts);
    match widest_of(counts) {
        None => Sight::Crowded,
        Some(last) => {
            // No range is full.
            if last == 0 {
                return Sight::Quiet;
            }
            filled(low, first_room(ends, low, counts, last))
        }
    }
}

// What those from the least value of each item on tell.
fn sight_of(ends: &[Ends], counts: &mut [u16]) -> Sight
    requires few { length ends.now ≤ 1000 }
    requires room { length counts.old ≡ length ends.now }
    ensures { Tells result ((ds : List Values) → HaveEnds ds ends.now → AllQuiet ds) ((ds : List Values) → HaveEnds ds ends.now → IsTrue (has_crowd ds)) }
{
    for k in 0..ends.len() {
        match sight_from(ends, ends[k].low, counts) {
            Sight::Quiet => {}
            Sight::Crowded => return Sight::Crowded,
            Sight::Filled(s) => return Sight::Filled(s),
            Sight::Unknown => return Sight::Unknown,
        }
    }
    Sight::Quiet
}

// In the order of the square of the number of items, with a place for each in both buffers.
fn sight_in(items: &[Arg], store: &Store, ends: &mut [Ends], counts: &mut [u16]) -> Sight
    requires items { IsTrue (list_all (is_open store.now.box) items.now) }
    requires few { length items.now ≤ 1000 }
    requires ends { length ends.old ≡ length items.now }
    requires counts { length counts.old ≡ length items.now }
    ensures { Tells result (AllQuiet (map (left_to store.now.box) items.now)) (IsTrue (has_crowd (map (left_to store.now.box) items.now))) }
{
    read_ends(items, store, ends);
    sight_of(ends, counts)
}

// Both are not inlined: their buffers would be paid for at each constraint.
#[inline(never)]
fn sight_of_few(items: &[Arg], store: &Store) -> Sight
    requires items { IsTrue (list_all (is_open store.now.box) items.now) }
    requires few { length items.now ≤ 64 }
    ensures { Tells result (AllQuiet (map (left_to store.now.box) items.now)) (IsTrue (has_crowd (map (left_to store.now.box) items.now))) }
{
    let mut buffer = [Ends { low: 0, high: 0 }; FEW_ITEMS];
    let mut numbers = [0u16; FEW_ITEMS];
    let count = items.len();
    sight_in(items, store, &mut buffer[..count], &mut numbers[..count])
}

#[inline(never)]
fn sight_of_many(items: &[Arg], store: &Store) -> Sight
    requires items { IsTrue (list_all (is_open store.now.box) items.now) }
    requires few { length items.now ≤ 1000 }
    ensures { Tells result (AllQuiet (map (left_to store.now.box) items.now)) (IsTrue (has_crowd (map (left_to store.now.box) items.now))) }
{
    let mut buffer = [Ends { low: 0, high: 0 }; MOST_ITEMS];
    let mut numbers = [0u16; MOST_ITEMS];
    let count = items.len();
    sight_in(items, store, &mut buffer[..count], &mut numbers[..count])
}

fn sight_of_items(items: &[Arg], store: &Store) -> Sight
    requires items { IsTrue (list_all (is_open store.now.box) items.now) }
    requires few { length items.now ≤ 1000 }
    ensures { Tells result (AllQuiet (map (left_to store.now.box) items.now)) (IsTrue (has_crowd (map (left_to store.now.box) items.now))) }
{
    if items.len() <= FEW_ITEMS {
        sight_of_few(items, store)
    } else {
        sight_of_many(items, store)
    }
}

// What is seen of a constraint by which all items differ.
fn look_at_items(problem: &Problem, rule: &Constraint, store: &Store) -> Sight
    requires asked { IsAsked problem.now rule.now store.now.box }
    requires pred { rule.now.pred ≡ AllDifferentInt }
    requires apart { Distinct (variables_of rule.now.args) }
    ensures { Tells result ((takes : Takes) → SparesTaken takes rule.now store.now.box) (IsTrue (refuted_by rule.now store.now.box)) }
{
    problem.known();
    sight_of_items(items_met(arguments(rule), 0, store), store)
}

/// What is seen of a constraint in which no variable stands twice. Where it is quiet, the constraint refutes neither the box nor an end
/// of any of its variables, and where it is crowded, it refutes the box; numbers that are filled are advice. Only where the items are to
/// differ is anything told, which takes time in the order of the square of their number.
pub(crate) fn look(problem: &Problem, rule: &Constraint, store: &Store) -> Sight
    requires asked { IsAsked problem.now rule.now store.now.box }
    requires apart { Distinct (variables_of rule.now.args) }
    ensures { Tells result ((takes : Takes) → SparesTaken takes rule.now store.now.box) (IsTrue (refuted_by rule.now store.now.box)) }
{
    match rule.pred {
        Pred::AllDifferentInt => look_at_items(problem, rule, store),
        _ => Sight::Unknown,
    }
}
