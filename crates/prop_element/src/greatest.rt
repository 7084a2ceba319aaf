//! What is taken where a number is to be the greatest of an array.
ghost use Rattle.std.specs.Prelude.{◌≡◌, ◌<◌, IsTrue, IfNone, IfSome, length, true, false, ◌&&◌};
ghost use Rattle.std.specs.List.{list_all};
ghost use Rattle.qc_model.specs.declared.problem.Pred.TheVariants.{ArrayIntMaximum};
ghost use Rattle.qc_model.specs.Closed.{keeps_ends};
ghost use Rattle.qc_model.specs.Domains.{greatest_value, least_value};
ghost use Rattle.qc_model.specs.Refuted.{left_to};
ghost use Rattle.model_arguments.specs.Asked.{IsAsked};
ghost use Rattle.qc_refuter.specs.Met.{is_open};
ghost use Rattle.prop_base.specs.Closed.{IsCut, keeps_arg};
ghost use Rattle.model_arguments.specs.Repeats.{same_variable};
ghost use Rattle.prop_element.specs.Extremes.{IsGreatest, IsHighestAt, IsGreatestReady, IsAloneHigh, HasOtherHigh, item_at};

use crate::hulls::{any_cut, arg_cut};
use fd_store::Store;
use model_arguments::{arguments, is_same, items_at, one_at};
use prop_base::Cut;
use prop_compare::{greatest, least};
use qc_model::{Arg, Constraint, Problem};

// The place of an item with the greatest greatest value.
fn highest(items: &[Arg], store: &Store) -> usize
    requires some { 0 < length items.now }
    requires open { IsTrue (list_all (is_open store.now.box) items.now) }
    ensures { IsHighestAt (λ x. greatest_value (left_to store.now.box x)) items.now result }
{
    let mut best = 0;
    for k in 1..items.len() {
        if greatest(items[best], store) < greatest(items[k], store) {
            best = k;
        }
    }
    best
}

// The place of an item with the greatest least value.
fn highest_bottom(items: &[Arg], store: &Store) -> usize
    requires some { 0 < length items.now }
    requires open { IsTrue (list_all (is_open store.now.box) items.now) }
    ensures { IsHighestAt (λ x. least_value (left_to store.now.box x)) items.now result }
{
    let mut best = 0;
    for k in 1..items.len() {
        if least(items[best], store) < least(items[k], store) {
            best = k;
        }
    }
    best
}

// Whether all items but that at a place are below the least value of m.
fn is_alone(items: &[Arg], p: usize, m: Arg, store: &Store) -> bool
    requires place { p < length items.now }
    requires open { IsTrue (list_all (is_open store.now.box) items.now) }
    requires first { IsTrue (is_open store.now.box m) }
    ensures alone { result ≡ true → IsAloneHigh store.now.box items.now p (least_value (left_to store.now.box m)) }
    ensures other { result ≡ false → HasOtherHigh store.now.box items.now p (least_value (left_to store.now.box m)) }
{
    let bottom = least(m, store);
    let one = items[p];
    for k in 0..items.len() {
        if !is_same(one, items[k]) {
            if bottom <= greatest(items[k], store) {
                return false;
            }
        }
    }
    true
}

// Whether the item is the one variable that may be as high as m.
fn is_only(alone: bool, one: Arg, item: Arg) -> bool
    ensures { result ≡ (alone && same_variable one item) }
{
    alone && is_same(one, item)
}

fn item_cut(
    rule: &Constraint,
    m: Arg,
    items: &[Arg],
    p: usize,
    k: usize,
    alone: bool,
    store: &Store,
) -> Option<Cut>
    requires place { k < length items.now }
    requires first { IsTrue (is_open store.now.box m) }
    requires open { IsTrue (list_all (is_open store.now.box) items.now) }
    requires greatest { IsGreatest rule.now m items.now }
    requires ready { IsGreatestReady rule.now store.now.box m items.now p }
    requires alone { alone ≡ true → IsAloneHigh store.now.box items.now p (least_value (left_to store.now.box m)) }
    requires other { alone ≡ false → HasOtherHigh store.now.box items.now p (least_value (left_to store.now.box m)) }
    ensures none { IfNone result (IsTrue (keeps_arg rule.now store.now.box (item_at items.now k))) }
    ensures some { IfSome result (λ cut. IsCut rule.now store.now.box cut) }
{
    let item = items[k];
    let high = greatest(m, store);
    if is_only(alone, items[p], item) {
        let low = least(m, store);
        return arg_cut(rule, item, low, high, store);
    }
    arg_cut(rule, item, -1_000_000_000, high, store)
}

fn items_cut(
    rule: &Constraint,
    m: Arg,
    items: &[Arg],
    p: usize,
    alone: bool,
    store: &Store,
) -> Option<Cut>
    requires first { IsTrue (is_open store.now.box m) }
    requires open { IsTrue (list_all (is_open store.now.box) items.now) }
    requires greatest { IsGreatest rule.now m items.now }
    requires ready { IsGreatestReady rule.now store.now.box m items.now p }
    requires alone { alone ≡ true → IsAloneHigh store.now.box items.now p (least_value (left_to store.now.box m)) }
    requires other { alone ≡ false → HasOtherHigh store.now.box items.now p (least_value (left_to store.now.box m)) }
    ensures none { IfNone result (IsTrue (list_all (keeps_arg rule.now store.now.box) items.now)) }
    ensures some { IfSome result (λ cut. IsCut rule.now store.now.box cut) }
{
    for k in 0..items.len() {
        if let Some(cut) = item_cut(rule, m, items, p, k, alone, store) {
            return Some(cut);
        }
    }
    None
}

// What m can't keep, then what the items can't.
fn greatest_cut(
    problem: &Problem,
    rule: &Constraint,
    m: Arg,
    items: &[Arg],
    store: &Store,
) -> Option<Cut>
    requires asked { IsAsked problem.now rule.now store.now.box }
    requires first { IsTrue (is_open store.now.box m) }
    requires open { IsTrue (list_all (is_open store.now.box) items.now) }
    requires greatest { IsGreatest rule.now m items.now }
    ensures none { IfNone result (IsTrue (keeps_ends store.now.box rule.now)) }
    ensures some { IfSome result (λ cut. IsCut rule.now store.now.box cut) }
{
    let p = highest(items, store);
    let q = highest_bottom(items, store);
    let high = greatest(items[p], store);
    let low = least(items[q], store);
    if high < least(m, store) {
        return any_cut(problem, rule, m, items, store);
    }
    if greatest(m, store) < low {
        return any_cut(problem, rule, m, items, store);
    }
    if let Some(cut) = arg_cut(rule, m, low, high, store) {
        return Some(cut);
    }
    let alone = is_alone(items, p, m, store);
    items_cut(rule, m, items, p, alone, store)
}

/// What a constraint that its first argument is the greatest of its array takes next.
pub(crate) fn maximum_cut(problem: &Problem, rule: &Constraint, store: &Store) -> Option<Cut>
    requires pred { rule.now.pred ≡ ArrayIntMaximum }
    requires asked { IsAsked problem.now rule.now store.now.box }
    ensures none { IfNone result (IsTrue (keeps_ends store.now.box rule.now)) }
    ensures some { IfSome result (λ cut. IsCut rule.now store.now.box cut) }
{
    problem.known();
    let args = arguments(rule);
    let m = one_at(args, 0);
    let items = items_at(args, 1);
    greatest_cut(problem, rule, m, items, store)
}
