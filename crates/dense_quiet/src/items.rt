//! Items of arrays that may hold variables, by their places.
ghost use Rattle.std.specs.Prelude.{◌≡◌, ◌<◌, ◌+◌, ◌&&◌, IsTrue, IsFalse, Some, [], ◌∷◌, map, pos};
ghost use Rattle.std.specs.List.{list_all};
ghost use Rattle.qc_model.specs.Arguments.{variables_of};
ghost use Rattle.qc_model.specs.Domains.{least_value, greatest_value, has_value, misses};
ghost use Rattle.qc_model.specs.Left.{some_item_meets};
ghost use Rattle.qc_model.specs.Lists.{Distinct};
ghost use Rattle.qc_model.specs.Meaning.{meaning_of, variable_element};
ghost use Rattle.qc_model.specs.Refuted.{left_to};
ghost use Rattle.qc_model.specs.Valid.{is_number};
ghost use Rattle.model_arguments.specs.Asked.{IsAsked};
ghost use Rattle.model_arguments.specs.Repeats.{same_variable};
ghost use Rattle.qc_refuter.specs.Met.{is_open};
ghost use Rattle.dense_closing.specs.Takes.{Takes};
ghost use Rattle.dense_quiet.specs.Quiet.{item_at as item_in};
ghost use Rattle.dense_quiet.specs.Slack.{SparesTaken};

use crate::ends::Ends;
use crate::reading::{arg_met, ends_of, has, items_met};
use fd_store::Store;
use model_arguments::{arguments, is_same};
use qc_model::{Arg, Constraint, Problem};

// The item at this place, counted from 1.
fn item_at(place: i64, items: &[Arg], store: &Store) -> Option<Arg>
    requires place { IsTrue (is_number place) }
    requires items { IsTrue (list_all (is_open store.now.box) items.now) }
    ensures is { result ≡ item_in items.now place }
    ensures open { (item : Arg) → result ≡ Some item → IsTrue (is_open store.now.box item) }
{
    if place < 1 {
        return None;
    }
    let k = place as usize - 1;
    if k >= items.len() {
        return None;
    }
    Some(items[k])
}

/// Whether both have a value in common, where their least ones tell.
pub(crate) fn have_common(one: Arg, other: Arg, store: &Store) -> bool
    requires one { IsTrue (is_open store.now.box one) }
    requires other { IsTrue (is_open store.now.box other) }
    ensures { IsTrue result → IsFalse (misses (left_to store.now.box one) (left_to store.now.box other)) }
{
    if has(other, ends_of(one, store).least, store) {
        return true;
    }
    has(one, ends_of(other, store).least, store)
}

// Whether place k, counted from 0, is left to b, and the value to its item.
fn place_holds(b: Arg, k: usize, item: Arg, value: i64, store: &Store) -> bool
    requires k { k < 4611686018427387904 }
    requires b { IsTrue (is_open store.now.box b) }
    requires item { IsTrue (is_open store.now.box item) }
    ensures { result ≡ (has_value (left_to store.now.box item) value && has_value (left_to store.now.box b) (pos (k + 1))) }
{
    has(item, value, store) && has(b, k as i64 + 1, store)
}

// Whether the value is left to some item whose place is left to b.
fn is_held(b: Arg, places: Ends, items: &[Arg], value: i64, store: &Store) -> bool
    requires b { IsTrue (is_open store.now.box b) }
    requires items { IsTrue (list_all (is_open store.now.box) items.now) }
    ensures { IsTrue result → IsTrue (some_item_meets (pos 1) (left_to store.now.box b) (map (left_to store.now.box) items.now) (value ∷ [])) }
{
    if places.least < 1 {
        return false;
    }
    let first = places.least as usize - 1;
    let end = items.len().min(places.greatest as usize);
    for k in first..end {
        if place_holds(b, k, items[k], value, store) {
            return true;
        }
    }
    false
}

// At the one place that is left the item has the same ends left as the number.
fn is_quiet_at_one(first: Arg, c: Arg, store: &Store) -> bool
    requires first { IsTrue (is_open store.now.box first) }
    requires c { IsTrue (is_open store.now.box c) }
    ensures least { IsTrue result → least_value (left_to store.now.box first) ≡ least_value (left_to store.now.box c) }
    ensures greatest { IsTrue result → greatest_value (left_to store.now.box first) ≡ greatest_value (left_to store.now.box c) }
{
    let item = ends_of(first, store);
    let left = ends_of(c, store);
    if item.least != left.least {
        return false;
    }
    item.greatest == left.greatest
}

// Where several places are left, those at the ends have different items that can be the number, and each end of the number is left to
// an item. So whichever variable has one of its ends alone, some item can be the number.
fn is_quiet_between(
    b: Arg,
    places: Ends,
    items: &[Arg],
    first: Arg,
    last: Arg,
    c: Arg,
    store: &Store,
) -> bool
    requires b { IsTrue (is_open store.now.box b) }
    requires items { IsTrue (list_all (is_open store.now.box) items.now) }
    requires first { IsTrue (is_open store.now.box first) }
    requires last { IsTrue (is_open store.now.box last) }
    requires c { IsTrue (is_open store.now.box c) }
    ensures apart { IsTrue result → IsFalse (same_variable first last) }
    ensures first { IsTrue result → IsFalse (misses (left_to store.now.box first) (left_to store.now.box c)) }
    ensures last { IsTrue result → IsFalse (misses (left_to store.now.box last) (left_to store.now.box c)) }
    ensures least { IsTrue result → IsTrue (some_item_meets (pos 1) (left_to store.now.box b) (map (left_to store.now.box) items.now) (least_value (left_to store.now.box c) ∷ [])) }
    ensures greatest { IsTrue result → IsTrue (some_item_meets (pos 1) (left_to store.now.box b) (map (left_to store.now.box) items.now) (greatest_value (left_to store.now.box c) ∷ [])) }
{
    if is_same(first, last) {
        return false;
    }
    if !have_common(first, c, store) {
        return false;
    }
    if !have_common(last, c, store) {
        return false;
    }
    let left = ends_of(c, store);
    if !is_held(b, places, items, left.least, store) {
        return false;
    }
    is_held(b, places, items, left.greatest, store)
}

/// Whether an array of variables refutes neither what is left to its items, to a place and to the number there nor an end of any.
pub(crate) fn is_quiet_variable_element(problem: &Problem, rule: &Constraint, store: &Store) -> bool
    requires asked { IsAsked problem.now rule.now store.now.box }
    requires apart { Distinct (variables_of rule.now.args) }
    requires meaning { meaning_of rule.now.pred ≡ variable_element }
    ensures { IsTrue result → (takes : Takes) → SparesTaken takes rule.now store.now.box }
{
    problem.known();
    let args = arguments(rule);
    let b = arg_met(args, 0, store);
    let c = arg_met(args, 2, store);
    let items = items_met(args, 1, store);
    let places = ends_of(b, store);
    let Some(first) = item_at(places.least, items, store) else {
        return false;
    };
    let Some(last) = item_at(places.greatest, items, store) else {
        return false;
    };
    if places.least == places.greatest {
        return is_quiet_at_one(first, c, store);
    }
    is_quiet_between(b, places, items, first, last, c, store)
}
