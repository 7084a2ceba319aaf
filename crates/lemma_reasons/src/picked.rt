//! Elements of arrays of variables, by the item that the index picks.
ghost use Rattle.std.specs.Prelude.{◌≡◌, ◌≤◌, IsTrue, length, map, pos};
ghost use Rattle.std.specs.List.{list_all};
ghost use Rattle.qc_model.specs.Left.{left_at, lefts_at, are_one_value as are_one_value_in};
ghost use Rattle.qc_model.specs.Meaning.{variable_element as VariableElement, meaning_of as meaning_in};
ghost use Rattle.qc_model.specs.Refuted.{left_to};
ghost use Rattle.model_arguments.specs.Asked.{IsAsked};
ghost use Rattle.qc_refuter.specs.Met.{lefts, are_met, is_open};
ghost use Rattle.lemma_list.specs.Entailment.{is_picked as is_picked_in, entailed_by_index as entailed_by_index_in};

use fd_store::Store;
use model_arguments::arguments;
use prop_entailed::{is_fixed, least};
use qc_model::{Arg, Argument, Constraint, Pred, Problem};

// A variable or a number.
fn arg_met(args: &[Argument], place: usize, store: &Store) -> Arg
    requires { IsTrue (are_met store.now.box args.now) }
    ensures left { left_to store.now.box result ≡ left_at (lefts store.now.box args.now) place }
    ensures open { IsTrue (is_open store.now.box result) }
{
    match args.get(place) {
        Some(Argument::One(arg)) => *arg,
        _ => Arg::Num(0),
    }
}

// The items of an array that may hold variables.
fn items_met<'a>(args: &'a [Argument], place: usize, store: &Store) -> &'a [Arg]
    requires { IsTrue (are_met store.now.box args.now) }
    ensures items { map (left_to store.now.box) result.now ≡ lefts_at (lefts store.now.box args.now) place }
    ensures few { length result.now ≤ 1000 }
    ensures open { IsTrue (list_all (is_open store.now.box) result.now) }
{
    match args.get(place) {
        Some(Argument::Many(items)) => items.items(),
        _ => &[],
    }
}

// Whether one value is left to both arguments, the same.
fn are_one_value(a: Arg, b: Arg, store: &Store) -> bool
    requires a { IsTrue (is_open store.now.box a) }
    requires b { IsTrue (is_open store.now.box b) }
    ensures { result ≡ are_one_value_in (left_to store.now.box a) (left_to store.now.box b) }
{
    is_fixed(a, store) && is_fixed(b, store) && least(a, store) == least(b, store)
}

// Whether the index b has one value, at whose place, counted from 1, an item stands that has the one value of c.
fn is_picked(b: Arg, items: &[Arg], c: Arg, store: &Store) -> bool
    requires b { IsTrue (is_open store.now.box b) }
    requires few { length items.now ≤ 1000 }
    requires items { IsTrue (list_all (is_open store.now.box) items.now) }
    requires c { IsTrue (is_open store.now.box c) }
    ensures { result ≡ is_picked_in (pos 1) (left_to store.now.box b) (map (left_to store.now.box) items.now) (left_to store.now.box c) }
{
    if !is_fixed(b, store) {
        return false;
    }
    let place = least(b, store);
    if place < 1 {
        return false;
    }
    if place > items.len() as i64 {
        return false;
    }
    are_one_value(items[place as usize - 1], c, store)
}

// Whether an element with these arguments is entailed so.
fn element_entailed(args: &[Argument], store: &Store) -> bool
    requires { IsTrue (are_met store.now.box args.now) }
    ensures { result ≡ entailed_by_index_in VariableElement (lefts store.now.box args.now) }
{
    let b = arg_met(args, 0, store);
    let c = arg_met(args, 2, store);
    is_picked(b, items_met(args, 1, store), c, store)
}

fn entailed_by_index_met(rule: &Constraint, store: &Store) -> bool
    requires { IsTrue (are_met store.now.box rule.now.args) }
    ensures { result ≡ entailed_by_index_in (meaning_in rule.now.pred) (lefts store.now.box rule.now.args) }
{
    let args = arguments(rule);
    match rule.pred {
        Pred::ArrayVarIntElement => element_entailed(args, store),
        Pred::ArrayVarBoolElement => element_entailed(args, store),
        _ => false,
    }
}

/// Whether the box of a store entails an element by the item that its index picks. Of other constraints it says no.
pub(crate) fn entailed_by_index(problem: &Problem, rule: &Constraint, store: &Store) -> bool
    requires { IsAsked problem.now rule.now store.now.box }
    ensures { result ≡ entailed_by_index_in (meaning_in rule.now.pred) (lefts store.now.box rule.now.args) }
{
    problem.known();
    entailed_by_index_met(rule, store)
}
