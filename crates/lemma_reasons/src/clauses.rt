//! Clauses that the winner may make false.
ghost use Rattle.std.specs.Prelude.{◌≡◌, IsTrue};
ghost use Rattle.std.specs.List.{list_any, list_all};
ghost use Rattle.qc_model.specs.Left.{is_only};
ghost use Rattle.qc_model.specs.Refuted.{left_to};
ghost use Rattle.model_arguments.specs.Asked.{IsAsked};
ghost use Rattle.qc_refuter.specs.Met.{is_open};
ghost use Rattle.lemma_list.specs.Reasons.{is_item, answered, comes_to as comes_to_in, is_falsified as is_falsified_in};
ghost use Rattle.lemma_reasons.specs.Answering.{answered_by};

use crate::answers::{Answers, may_answer};
use crate::forms::items_met;
use crate::rules::pred_of;
use fd_store::Store;
use model_arguments::arguments;
use prop_entailed::{has, is_fixed, least};
use qc_model::{Arg, Constraint, Pred, Problem, VarId};

// Whether one of the items is the variable.
fn stands_among(x: VarId, items: &[Arg]) -> bool
    ensures { result ≡ list_any (is_item x.0) items.now }
{
    for item in items {
        if is_variable(x, *item) {
            return true;
        }
    }
    false
}

fn is_variable(x: VarId, item: Arg) -> bool
    ensures { result ≡ is_item x.0 item }
{
    match item {
        Arg::Var(y) => x.0 == y.0,
        Arg::Num(_) => false,
    }
}

// Whether the number is the only value of an item.
fn has_only(item: Arg, number: i64, store: &Store) -> bool
    requires { IsTrue (is_open store.now.box item) }
    ensures { result ≡ is_only number (left_to store.now.box item) }
{
    is_fixed(item, store) && least(item, store) == number
}

// Whether the winner may answer with the number for an item that isn't one of the others.
fn is_answered(
    problem: &Problem,
    answers: Answers,
    others: &[Arg],
    number: i64,
    item: Arg,
    store: &Store,
) -> bool
    requires { IsTrue (is_open store.now.box item) }
    ensures { result ≡ answered (answered_by problem.now answers) store.now.box others.now number item }
{
    match item {
        Arg::Num(_) => false,
        Arg::Var(y) => {
            may_answer(problem, answers, y) && has(item, number, store) && !stands_among(y, others)
        }
    }
}

// Whether an item comes to the number.
fn comes_to(
    problem: &Problem,
    answers: Answers,
    others: &[Arg],
    number: i64,
    item: Arg,
    store: &Store,
) -> bool
    requires { IsTrue (is_open store.now.box item) }
    ensures { result ≡ comes_to_in (answered_by problem.now answers) store.now.box others.now number item }
{
    has_only(item, number, store) || is_answered(problem, answers, others, number, item, store)
}

// Whether all items do.
fn all_come_to(
    problem: &Problem,
    answers: Answers,
    others: &[Arg],
    number: i64,
    items: &[Arg],
    store: &Store,
) -> bool
    requires { IsTrue (list_all (is_open store.now.box) items.now) }
    ensures { result ≡ list_all (comes_to_in (answered_by problem.now answers) store.now.box others.now number) items.now }
{
    for item in items {
        if !comes_to(problem, answers, others, number, *item, store) {
            return false;
        }
    }
    true
}

/// Whether a constraint is a clause each of whose items is false, or may be made so by the winner.
pub(crate) fn is_falsified(
    problem: &Problem,
    rule: &Constraint,
    answers: Answers,
    store: &Store,
) -> bool
    requires { IsAsked problem.now rule.now store.now.box }
    ensures { result ≡ is_falsified_in (answered_by problem.now answers) rule.now store.now.box }
{
    problem.known();
    match pred_of(rule) {
        Pred::BoolClause => {
            let args = arguments(rule);
            let xs = items_met(args, 0, store);
            let ys = items_met(args, 1, store);
            all_come_to(problem, answers, ys, 0, xs, store)
                && all_come_to(problem, answers, xs, 1, ys, store)
        }
        _ => false,
    }
}
