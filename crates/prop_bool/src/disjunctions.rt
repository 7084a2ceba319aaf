//! The filter of constraints that say that a head holds where some literal does, and fails where none does.
ghost use Rattle.std.specs.Prelude.{◌≡◌, ◌≤◌, ◌<◌, ◌+◌, IsTrue, IfOk, OnOk, length, take, true, false};
ghost use Rattle.std.specs.List.{list_all, list_any};
ghost use Rattle.model_arguments.specs.Asked.{IsAsked};
ghost use Rattle.prop_base.specs.Filtering.{Answers, Fits, Prunes};
ghost use Rattle.prop_bool.specs.Findings.{IsFinding, answer_after};
ghost use Rattle.prop_bool.specs.Literals.{IsDisjunction, IsUnfixed, literals, surely_fails, surely_holds};

use crate::acting::{act, lose};
use crate::chances::{Chance, chance_of};
use crate::findings::Finding;
use crate::literals::{Literal, Standing, literal_at, standing_of};
use crate::outcomes::{is_opposed_by, outcome_of};
use fd_store::Store;
use proof_tree::StepList;
use prop_base::{Asked, Filtered};
use qc_model::{Arg, Constraint, Problem};
use std::alloc::AllocError;

// Where the head holds, the last literal that can hold has to.
fn when_true(
    problem: &Problem,
    rule: &Constraint,
    plain: &[Arg],
    negated: &[Arg],
    head: Literal,
    store: &Store,
) -> Finding
    requires asked { IsAsked problem.now rule.now store.now.box }
    requires says { IsDisjunction problem.now rule.now (literals plain.now negated.now) head }
    requires few { length plain.now + length negated.now ≤ 2000 }
    requires holds { IsTrue (surely_holds store.now.box head) }
    ensures { IsFinding result rule.now store.now.box }
{
    let _ = (problem.constraints(), rule.pred, head.positive);
    match chance_of(plain, negated, store) {
        Chance::Free => Finding::Nothing,
        Chance::Lost => Finding::Refuted,
        Chance::Last(literal) => match literal.arg {
            Arg::Var(x) => Finding::Loses(x, !literal.positive),
            Arg::Num(_) => Finding::Unknown,
        },
    }
}

// Where the head is unfixed, it goes by what the literals come to.
fn when_unfixed(
    problem: &Problem,
    rule: &Constraint,
    plain: &[Arg],
    negated: &[Arg],
    head: Literal,
    store: &Store,
) -> Finding
    requires asked { IsAsked problem.now rule.now store.now.box }
    requires says { IsDisjunction problem.now rule.now (literals plain.now negated.now) head }
    requires few { length plain.now + length negated.now ≤ 2000 }
    requires unfixed { IsUnfixed store.now.box head }
    ensures { IsFinding result rule.now store.now.box }
{
    let _ = (problem.constraints(), rule.pred);
    let Arg::Var(x) = head.arg else {
        return Finding::Unknown;
    };
    match outcome_of(plain, negated, store) {
        Standing::Holds => Finding::Loses(x, !head.positive),
        Standing::Fails => Finding::Loses(x, head.positive),
        Standing::Unfixed => {
            if is_opposed_by(plain, negated, head) {
                return Finding::Unknown;
            }
            Finding::Nothing
        }
    }
}

// Makes a literal fail, and answers whether that could be: it can't where the literal holds.
fn fail_one(
    asked: Asked,
    plain: &[Arg],
    negated: &[Arg],
    head: Literal,
    k: usize,
    store: &mut Store,
    steps: &mut StepList,
) -> Result<bool, AllocError>
    requires fits { Fits asked store.old }
    requires says { IsDisjunction asked.problem.now asked.rule.now (literals plain.now negated.now) head }
    requires place { k < length plain.now + length negated.now }
    requires fails { IsTrue (surely_fails store.old.box head) }
    ensures pruning { Prunes asked.entry store.old store.new steps.old steps.new }
    ensures fits { OnOk result (Fits asked.entry store.new) }
    ensures fails { OnOk result (IsTrue (surely_fails store.new.box head)) }
    ensures failed { IfOk result (λ b. b ≡ true → IsTrue (list_all (surely_fails store.old.box) (take k (literals plain.now negated.now))) → IsTrue (list_all (surely_fails store.new.box) (take (k + 1) (literals plain.now negated.now)))) }
    ensures holds { IfOk result (λ b. b ≡ false → IsTrue (list_any (surely_holds store.new.box) (literals plain.now negated.now))) }
{
    let literal = literal_at(plain, negated, k);
    match standing_of(literal, store) {
        Standing::Holds => Ok(false),
        Standing::Fails => Ok(true),
        Standing::Unfixed => match literal.arg {
            Arg::Num(_) => Ok(true),
            Arg::Var(x) => {
                lose(asked, x, literal.positive, store, steps)?;
                Ok(true)
            }
        },
    }
}

// Makes all literals fail, up to one that holds.
fn fail_each(
    asked: Asked,
    plain: &[Arg],
    negated: &[Arg],
    head: Literal,
    store: &mut Store,
    steps: &mut StepList,
) -> Result<Finding, AllocError>
    requires fits { Fits asked store.old }
    requires says { IsDisjunction asked.problem.now asked.rule.now (literals plain.now negated.now) head }
    requires few { length plain.now + length negated.now ≤ 2000 }
    requires fails { IsTrue (surely_fails store.old.box head) }
    ensures pruning { Prunes asked.entry store.old store.new steps.old steps.new }
    ensures fits { OnOk result (Fits asked.entry store.new) }
    ensures found { IfOk result (λ f. IsFinding f asked.entry.rule.now store.new.box) }
{
    for k in 0..plain.len() + negated.len() {
        if !fail_one(asked, plain, negated, head, k, store, steps)? {
            return Ok(Finding::Refuted);
        }
    }
    Ok(Finding::Nothing)
}

// What is answered where something was removed before.
fn answered(moved: bool, filtered: Filtered) -> Filtered
    ensures { result ≡ answer_after moved filtered }
{
    match filtered {
        Filtered::Emptied => Filtered::Emptied,
        Filtered::Stable => {
            if moved {
                return Filtered::Changed;
            }
            Filtered::Stable
        }
        Filtered::Changed => Filtered::Changed,
    }
}

// Where the head fails, all literals have to.
fn filter_false(
    asked: Asked,
    plain: &[Arg],
    negated: &[Arg],
    head: Literal,
    store: &mut Store,
    steps: &mut StepList,
) -> Result<Filtered, AllocError>
    requires fits { Fits asked store.old }
    requires says { IsDisjunction asked.problem.now asked.rule.now (literals plain.now negated.now) head }
    requires few { length plain.now + length negated.now ≤ 2000 }
    requires fails { IsTrue (surely_fails store.old.box head) }
    ensures pruning { Prunes asked.entry store.old store.new steps.old steps.new }
    ensures answer { Answers asked.entry store.new steps.old steps.new result }
{
    let before = steps.items().len();
    let finding = fail_each(asked, plain, negated, head, store, steps)?;
    let filtered = act(asked, finding, store, steps)?;
    let moved = before != steps.items().len();
    Ok(answered(moved, filtered))
}

/// The literals are the items of the first array and the negated items of the second.
pub(crate) fn filter_disjunction(
    asked: Asked,
    plain: &[Arg],
    negated: &[Arg],
    head: Literal,
    store: &mut Store,
    steps: &mut StepList,
) -> Result<Filtered, AllocError>
    requires fits { Fits asked store.old }
    requires says { IsDisjunction asked.problem.now asked.rule.now (literals plain.now negated.now) head }
    requires few { length plain.now + length negated.now ≤ 2000 }
    ensures pruning { Prunes asked.entry store.old store.new steps.old steps.new }
    ensures answer { Answers asked.entry store.new steps.old steps.new result }
{
    match standing_of(head, store) {
        Standing::Holds => {
            let finding = when_true(asked.problem, asked.rule, plain, negated, head, store);
            act(asked, finding, store, steps)
        }
        Standing::Fails => filter_false(asked, plain, negated, head, store, steps),
        Standing::Unfixed => {
            let finding = when_unfixed(asked.problem, asked.rule, plain, negated, head, store);
            act(asked, finding, store, steps)
        }
    }
}
