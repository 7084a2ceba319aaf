//! What is taken where a number is to be the least of an array.
ghost use Rattle.std.specs.Prelude.{◌≡◌, ◌<◌, IsTrue, IfNone, IfSome, length, true, false, ◌&&◌};
ghost use Rattle.std.specs.List.{list_all};
ghost use Rattle.qc_model.specs.declared.problem.Pred.TheVariants.{ArrayIntMinimum};
ghost use Rattle.qc_model.specs.Closed.{keeps_ends};
ghost use Rattle.qc_model.specs.Domains.{least_value, greatest_value};
ghost use Rattle.qc_model.specs.Refuted.{left_to};
ghost use Rattle.model_arguments.specs.Asked.{IsAsked};
ghost use Rattle.qc_refuter.specs.Met.{is_open};
ghost use Rattle.prop_base.specs.Closed.{IsCut, keeps_arg};
ghost use Rattle.model_arguments.specs.Repeats.{same_variable};
ghost use Rattle.prop_element.specs.Extremes.{IsLeast, IsLowestAt, IsLeastReady, IsAloneLow, HasOtherLow, item_at};

use crate::hulls::{any_cut, arg_cut};
use fd_store::Store;
use model_arguments::{arguments, is_same, items_at, one_at};
use prop_base::Cut;
use prop_compare::{greatest, least};
use qc_model::{Arg, Constraint, Problem};

// The place of an item with the least least value.
fn lowest(items: &[Arg], store: &Store) -> usize
    requires some { 0 < length items.now }
    requires open { IsTrue (list_all (is_open store.now.box) items.now) }
    ensures { IsLowestAt (λ x. least_value (left_to store.now.box x)) items.now result }
{
    let mut best = 0;
    for k in 1..items.len() {
        if least(items[k], store) < least(items[best], store) {
            best = k;
        }
    }
    best
}

// The place of an item with the least greatest value.
fn lowest_top(items: &[Arg], store: &Store) -> usize
    requires some { 0 < length items.now }
    requires open { IsTrue (list_all (is_open store.now.box) items.now) }
    ensures { IsLowestAt (λ x. greatest_value (left_to store.now.box x)) items.now result }
{
    let mut best = 0;
    for k in 1..items.len() {
        if greatest(items[k], store) < greatest(items[best], store) {
            best = k;
        }
    }
    best
}

// Whether all items but that at a place are above the greatest value of m.
fn is_alone(items: &[Arg], p: usize, m: Arg, store: &Store) -> bool
    requires place { p < length items.now }
    requires open { IsTrue (list_all (is_open store.now.box) items.now) }
    requires first { IsTrue (is_open store.now.box m) }
    ensures alone { result ≡ true → IsAloneLow store.now.box items.now p (greatest_value (left_to store.now.box m)) }
    ensures other { result ≡ false → HasOtherLow store.now.box items.now p (greatest_value (left_to store.now.box m)) }
{
    let top = greatest(m, store);
    let one = items[p];
    for k in 0..items.len() {
        if !is_same(one, items[k]) {
            if least(items[k], store) <= top {
                return false;
            }
        }
    }
    true
}

// Whether the item is the one variable that may be as low as m.
fn is_only(alone: bool, one: Arg, item: Arg) -> bool
    ensures { result ≡ (alone && same_variable one item) }
{
    alone && is_same(one, item)
}

fn item_cut(
    rule: &Constraint,
    m: Arg,
    items: &[Arg],
    p: usize,
    k: usize,
    alone: bool,
    store: &Store,
) -> Option<Cut>
    requires place { k < length items.now }
    requires first { IsTrue (is_open store.now.box m) }
    requires open { IsTrue (list_all (is_open store.now.box) items.now) }
    requires least { IsLeast rule.now m items.now }
    requires ready { IsLeastReady rule.now store.now.box m items.now p }
    requires alone { alone ≡ true → IsAloneLow store.now.box items.now p (greatest_value (left_to store.now.box m)) }
    requires other { alone ≡ false → HasOtherLow store.now.box items.now p (greatest_value (left_to store.now.box m)) }
    ensures none { IfNone result (IsTrue (keeps_arg rule.now store.now.box (item_at items.now k))) }
    ensures some { IfSome result (λ cut. IsCut rule.now store.now.box cut) }
{
    let item = items[k];
    let low = least(m, store);
    if is_only(alone, items[p], item) {
        let high = greatest(m, store);
        return arg_cut(rule, item, low, high, store);
    }
    arg_cut(rule, item, low, 1_000_000_000, store)
}

fn items_cut(
    rule: &Constraint,
    m: Arg,
    items: &[Arg],
    p: usize,
    alone: bool,
    store: &Store,
) -> Option<Cut>
    requires first { IsTrue (is_open store.now.box m) }
    requires open { IsTrue (list_all (is_open store.now.box) items.now) }
    requires least { IsLeast rule.now m items.now }
    requires ready { IsLeastReady rule.now store.now.box m items.now p }
    requires alone { alone ≡ true → IsAloneLow store.now.box items.now p (greatest_value (left_to store.now.box m)) }
    requires other { alone ≡ false → HasOtherLow store.now.box items.now p (greatest_value (left_to store.now.box m)) }
    ensures none { IfNone result (IsTrue (list_all (keeps_arg rule.now store.now.box) items.now)) }
    ensures some { IfSome result (λ cut. IsCut rule.now store.now.box cut) }
{
    for k in 0..items.len() {
        if let Some(cut) = item_cut(rule, m, items, p, k, alone, store) {
            return Some(cut);
        }
    }
    None
}

// What m can't keep, then what the items can't.
fn least_cut(
    problem: &Problem,
    rule: &Constraint,
    m: Arg,
    items: &[Arg],
    store: &Store,
) -> Option<Cut>
    requires asked { IsAsked problem.now rule.now store.now.box }
    requires first { IsTrue (is_open store.now.box m) }
    requires open { IsTrue (list_all (is_open store.now.box) items.now) }
    requires least { IsLeast rule.now m items.now }
    ensures none { IfNone result (IsTrue (keeps_ends store.now.box rule.now)) }
    ensures some { IfSome result (λ cut. IsCut rule.now store.now.box cut) }
{
    let p = lowest(items, store);
    let q = lowest_top(items, store);
    let low = least(items[p], store);
    let high = greatest(items[q], store);
    if greatest(m, store) < low {
        return any_cut(problem, rule, m, items, store);
    }
    if high < least(m, store) {
        return any_cut(problem, rule, m, items, store);
    }
    if let Some(cut) = arg_cut(rule, m, low, high, store) {
        return Some(cut);
    }
    let alone = is_alone(items, p, m, store);
    items_cut(rule, m, items, p, alone, store)
}

/// What a constraint that its first argument is the least of its array takes next.
pub(crate) fn minimum_cut(problem: &Problem, rule: &Constraint, store: &Store) -> Option<Cut>
    requires pred { rule.now.pred ≡ ArrayIntMinimum }
    requires asked { IsAsked problem.now rule.now store.now.box }
    ensures none { IfNone result (IsTrue (keeps_ends store.now.box rule.now)) }
    ensures some { IfSome result (λ cut. IsCut rule.now store.now.box cut) }
{
    problem.known();
    let args = arguments(rule);
    let m = one_at(args, 0);
    let items = items_at(args, 1);
    least_cut(problem, rule, m, items, store)
}
