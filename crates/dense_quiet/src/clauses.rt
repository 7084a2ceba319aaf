//! Clauses: enough literals don't fail, whichever variable has one of its ends alone.
ghost use Rattle.std.specs.Prelude.{◌≡◌, ◌<◌, true, false, length, IsTrue};
ghost use Rattle.std.specs.List.{list_all};
ghost use Rattle.qc_model.specs.Meaning.{meaning_of, clause};
ghost use Rattle.model_arguments.specs.Asked.{IsAsked};
ghost use Rattle.model_arguments.specs.Written.{args_at};
ghost use Rattle.qc_refuter.specs.Met.{is_open, are_met};
ghost use Rattle.dense_closing.specs.Takes.{Takes};
ghost use Rattle.dense_quiet.specs.declared.clauses.Found.TheVariants.{Enough};
ghost use Rattle.dense_quiet.specs.Clauses.{IsSpare, FoundTells};
ghost use Rattle.dense_quiet.specs.Slack.{SparesTaken};

use crate::reading::{ends_of, items_met};
use fd_store::Store;
use model_arguments::{arguments, is_same};
use qc_model::{Arg, Argument, Constraint, Problem};

/// What the literals tell that were read: nothing, since all of them fail; or one of them doesn't; or enough don't.
#[derive(Clone, Copy)]
pub(crate) enum Found {
    Nothing,
    Spare(Arg),
    Enough,
}

fn is_enough(found: Found) -> bool
    ensures { IsTrue result → found ≡ Enough }
{
    match found {
        Found::Enough => true,
        _ => false,
    }
}

// With one more that doesn't fail. Two of them are enough, since no variable is both.
fn with_spare(found: Found, item: Arg, rule: &Constraint, store: &Store) -> Found
    requires meaning { meaning_of rule.now.pred ≡ clause }
    requires found { FoundTells found rule.now store.now.box }
    requires spare { IsSpare rule.now store.now.box item }
    ensures { FoundTells result rule.now store.now.box }
{
    match found {
        Found::Nothing => Found::Spare(item),
        Found::Enough => Found::Enough,
        Found::Spare(other) => {
            if is_same(other, item) {
                return Found::Spare(item);
            }
            Found::Enough
        }
    }
}

// With the item at place k of the first array, which fails at 0, or of the second, which fails at 1. One that fails at neither end of
// its values is enough.
fn with_item(
    found: Found,
    array: usize,
    items: &[Arg],
    k: usize,
    rule: &Constraint,
    store: &Store,
) -> Found
    requires meaning { meaning_of rule.now.pred ≡ clause }
    requires array { array < 2 }
    requires items { items.now ≡ args_at rule.now.args array }
    requires open { IsTrue (list_all (is_open store.now.box) items.now) }
    requires k { k < length items.now }
    requires found { FoundTells found rule.now store.now.box }
    ensures { FoundTells result rule.now store.now.box }
{
    let item = items[k];
    let ends = ends_of(item, store);
    let wrong = array as i64;
    if ends.least != wrong && ends.greatest != wrong {
        return Found::Enough;
    }
    if ends.least == ends.greatest {
        return found;
    }
    with_spare(found, item, rule, store)
}

// With the items of an array.
fn with_array(
    found: Found,
    array: usize,
    args: &[Argument],
    rule: &Constraint,
    store: &Store,
) -> Found
    requires meaning { meaning_of rule.now.pred ≡ clause }
    requires array { array < 2 }
    requires args { args.now ≡ rule.now.args }
    requires met { IsTrue (are_met store.now.box args.now) }
    requires found { FoundTells found rule.now store.now.box }
    ensures { FoundTells result rule.now store.now.box }
{
    let items = items_met(args, array, store);
    let mut seen = found;
    for k in 0..items.len() {
        seen = with_item(seen, array, items, k, rule, store);
        if is_enough(seen) {
            return seen;
        }
    }
    seen
}

/// Whether a clause refutes neither what is left to its literals nor an end of any.
pub(crate) fn is_quiet_clause(problem: &Problem, rule: &Constraint, store: &Store) -> bool
    requires asked { IsAsked problem.now rule.now store.now.box }
    requires meaning { meaning_of rule.now.pred ≡ clause }
    ensures { IsTrue result → (takes : Takes) → SparesTaken takes rule.now store.now.box }
{
    problem.known();
    let args = arguments(rule);
    let found = with_array(Found::Nothing, 0, args, rule, store);
    if is_enough(found) {
        return true;
    }
    is_enough(with_array(found, 1, args, rule, store))
}
