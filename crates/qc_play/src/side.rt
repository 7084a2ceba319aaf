//! The side that plays by a tree.
ghost use Rattle.std.specs.Prelude.{◌≡◌, Some, None, MatchOption, IfSome};
ghost use Rattle.qc_model.specs.declared.problem.Kind.TheVariants.{Exists, Forall};
ghost use Rattle.qc_model.specs.Lists.{same_values};
ghost use Rattle.qc_model.specs.Plan.{choose};
ghost use Rattle.qc_play.specs.Shape.{plan_of, tree_of_counter, entries_of, replies_of, all_entries, all_replies};
ghost use Rattle.qc_play.specs.Play.{reply_to, answers_of};
ghost use Rattle.qc_play.specs.Sides.{kind_of, choices_of, HasNoChoice, has_entries};

use crate::counter::{Counter, CounterEntry};
use crate::plan::{Plan, PlanEntry};
use qc_model::Numbers;

/// The side whose scopes are played by a tree: the player's, by a strategy, or the opponent's, by a counterstrategy.
#[derive(Clone, Copy)]
pub enum Side<'a> {
    Plan(&'a Plan),
    Counter(&'a Counter),
}

/// A tuple that a tree chooses, and the tree after it.
#[derive(Clone, Copy)]
pub(crate) struct Chosen<'a> {
    pub(crate) tuple: &'a Numbers,
    pub(crate) after: Side<'a>,
}

fn plan_choice<'a>(plan: &'a Plan) -> Option<Chosen<'a>>
    ensures tree { MatchOption result (HasNoChoice (plan_of plan.now)) (λ c. plan_of plan.now ≡ choose c.tuple.now (choices_of c.after)) }
    ensures kind { IfSome result (λ c. kind_of c.after ≡ Exists) }
{
    match plan {
        Plan::End => None,
        Plan::Choose(tuple, after) => Some(Chosen {
            tuple,
            after: Side::Plan(after),
        }),
        Plan::Answer(_list) => None,
    }
}

fn counter_choice<'a>(counter: &'a Counter) -> Option<Chosen<'a>>
    ensures tree { MatchOption result (HasNoChoice (tree_of_counter counter.now)) (λ c. tree_of_counter counter.now ≡ choose c.tuple.now (choices_of c.after)) }
    ensures kind { IfSome result (λ c. kind_of c.after ≡ Forall) }
{
    match counter {
        Counter::End => None,
        Counter::Take(tuple, after) => Some(Chosen {
            tuple,
            after: Side::Counter(after),
        }),
        Counter::Reply(_list) => None,
    }
}

/// What the tree chooses, where it chooses.
pub(crate) fn choice<'a>(side: Side<'a>) -> Option<Chosen<'a>>
    ensures tree { MatchOption result (HasNoChoice (choices_of side.entry)) (λ c. choices_of side.entry ≡ choose c.tuple.now (choices_of c.after)) }
    ensures kind { IfSome result (λ c. kind_of c.after ≡ kind_of side.entry) }
{
    match side {
        Side::Plan(plan) => plan_choice(plan),
        Side::Counter(counter) => counter_choice(counter),
    }
}

fn some_plan(entries: &[PlanEntry]) -> bool
    ensures { result ≡ has_entries (all_entries entries.now) }
{
    match entries {
        [] => false,
        [_first, ..] => true,
    }
}

fn some_counter(entries: &[CounterEntry]) -> bool
    ensures { result ≡ has_entries (all_replies entries.now) }
{
    match entries {
        [] => false,
        [_first, ..] => true,
    }
}

fn plan_answers(plan: &Plan) -> bool
    ensures { result ≡ has_entries (answers_of (plan_of plan.now)) }
{
    match plan {
        Plan::End => false,
        Plan::Choose(_tuple, _after) => false,
        Plan::Answer(list) => some_plan(list.items()),
    }
}

fn counter_replies(counter: &Counter) -> bool
    ensures { result ≡ has_entries (answers_of (tree_of_counter counter.now)) }
{
    match counter {
        Counter::End => false,
        Counter::Take(_tuple, _after) => false,
        Counter::Reply(list) => some_counter(list.items()),
    }
}

/// Whether the tree has an entry for some tuple.
pub(crate) fn has_answers(side: Side<'_>) -> bool
    ensures { result ≡ has_entries (answers_of (choices_of side.entry)) }
{
    match side {
        Side::Plan(plan) => plan_answers(plan),
        Side::Counter(counter) => counter_replies(counter),
    }
}

fn is_tuple(tuple: &Numbers, values: &[i64]) -> bool
    ensures { result ≡ same_values tuple.now values.now }
{
    tuple.items() == values
}

fn plan_among<'a>(entries: &'a [PlanEntry], tuple: &[i64]) -> Option<&'a Plan>
    ensures { MatchOption result (reply_to tuple.now (all_entries entries.now) ≡ None) (λ p. reply_to tuple.now (all_entries entries.now) ≡ Some (plan_of p.now)) }
{
    for entry in entries {
        if is_tuple(&entry.tuple, tuple) {
            return Some(&entry.plan);
        }
    }
    None
}

fn counter_among<'a>(entries: &'a [CounterEntry], tuple: &[i64]) -> Option<&'a Counter>
    ensures { MatchOption result (reply_to tuple.now (all_replies entries.now) ≡ None) (λ c. reply_to tuple.now (all_replies entries.now) ≡ Some (tree_of_counter c.now)) }
{
    for entry in entries {
        if is_tuple(&entry.tuple, tuple) {
            return Some(&entry.counter);
        }
    }
    None
}

fn plan_reply<'a>(plan: &'a Plan, tuple: &[i64]) -> Option<&'a Plan>
    ensures { MatchOption result (reply_to tuple.now (answers_of (plan_of plan.now)) ≡ None) (λ p. reply_to tuple.now (answers_of (plan_of plan.now)) ≡ Some (plan_of p.now)) }
{
    match plan {
        Plan::End => None,
        Plan::Choose(_tuple, _after) => None,
        Plan::Answer(list) => plan_among(list.items(), tuple),
    }
}

fn counter_reply<'a>(counter: &'a Counter, tuple: &[i64]) -> Option<&'a Counter>
    ensures { MatchOption result (reply_to tuple.now (answers_of (tree_of_counter counter.now)) ≡ None) (λ c. reply_to tuple.now (answers_of (tree_of_counter counter.now)) ≡ Some (tree_of_counter c.now)) }
{
    match counter {
        Counter::End => None,
        Counter::Take(_tuple, _after) => None,
        Counter::Reply(list) => counter_among(list.items(), tuple),
    }
}

/// The tree after a tuple of the other side, where it has an entry for it.
pub(crate) fn reply<'a>(side: Side<'a>, tuple: &[i64]) -> Option<Side<'a>>
    ensures tree { MatchOption result (reply_to tuple.now (answers_of (choices_of side.entry)) ≡ None) (λ s. reply_to tuple.now (answers_of (choices_of side.entry)) ≡ Some (choices_of s)) }
    ensures kind { IfSome result (λ s. kind_of s ≡ kind_of side.entry) }
{
    match side {
        Side::Plan(plan) => match plan_reply(plan, tuple) {
            None => None,
            Some(after) => Some(Side::Plan(after)),
        },
        Side::Counter(counter) => match counter_reply(counter, tuple) {
            None => None,
            Some(after) => Some(Side::Counter(after)),
        },
    }
}
