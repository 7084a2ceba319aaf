//! What is taken where an argument tells whether another one is a member of a set.
//!
//! What is told is read anew each time, so nothing has to be known of the boxes that earlier cuts left.
ghost use Rattle.std.specs.Prelude.{◌≡◌, [], ◌∷◌, pos, IsTrue, IfNone, IfSome};
ghost use Rattle.std.specs.List.{list_all};
ghost use Rattle.qc_model.specs.declared.problem.Arg.TheVariants.{Var};
ghost use Rattle.qc_model.specs.declared.problem.Pred.TheVariants.{SetInReif};
ghost use Rattle.qc_model.specs.Closed.{keeps_ends};
ghost use Rattle.qc_model.specs.Domains.{values_left};
ghost use Rattle.qc_model.specs.Refuted.{left_to};
ghost use Rattle.qc_model.specs.Valid.{is_set, is_truth};
ghost use Rattle.model_arguments.specs.Asked.{IsAsked};
ghost use Rattle.qc_refuter.specs.Met.{is_open};
ghost use Rattle.prop_base.specs.Closed.{IsCut};
ghost use Rattle.prop_compare.specs.Telling.{truth_of};
ghost use Rattle.prop_compare.specs.Untold.{RefutesNone};
ghost use Rattle.prop_element.specs.Members.{is_wanted, IsToldMember, IsFirst, IsLast, NonePasses};

use crate::hulls::{any_cut, arg_cut};
use crate::members::{first_member, last_member};
use crate::others::{first_other, last_other};
use fd_store::Store;
use model_arguments::{arguments, last_one, members_at, one_at};
use prop_base::{Cut, Refuter};
use prop_compare::{Table, what_is_told};
use qc_model::{Arg, Constraint, Problem, Set, VarId};

// The least value left that is a member, or that isn't, as is told.
fn first_wanted(set: &Set, told: bool, a: Arg, store: &Store) -> Option<i64>
    requires open { IsTrue (is_open store.now.box a) }
    requires set { IsTrue (is_set set.now) }
    ensures none { IfNone result (NonePasses (is_wanted told set.now) (left_to store.now.box a)) }
    ensures some { IfSome result (λ v. IsFirst (is_wanted told set.now) (left_to store.now.box a) v) }
{
    if told {
        first_member(set, a, store)
    } else {
        first_other(set, a, store)
    }
}

// The greatest such value.
fn last_wanted(set: &Set, told: bool, a: Arg, store: &Store) -> Option<i64>
    requires open { IsTrue (is_open store.now.box a) }
    requires set { IsTrue (is_set set.now) }
    ensures none { IfNone result (NonePasses (is_wanted told set.now) (left_to store.now.box a)) }
    ensures some { IfSome result (λ v. IsLast (is_wanted told set.now) (left_to store.now.box a) v) }
{
    if told {
        last_member(set, a, store)
    } else {
        last_other(set, a, store)
    }
}

// Where one answer is left: what the argument can't keep below its first value that agrees with it or above the last one;
// where none does, all of a variable.
fn known_cut(
    problem: &Problem,
    rule: &Constraint,
    a: Arg,
    set: &Set,
    r: Arg,
    told: bool,
    store: &Store,
) -> Option<Cut>
    requires asked { IsAsked problem.now rule.now store.now.box }
    requires open { IsTrue (is_open store.now.box a) }
    requires last { IsTrue (is_open store.now.box r) }
    requires set { IsTrue (is_set set.now) }
    requires member { IsToldMember rule.now a set.now r }
    requires answer { left_to store.now.box r ≡ truth_of told ∷ [] }
    ensures none { IfNone result (IsTrue (keeps_ends store.now.box rule.now)) }
    ensures some { IfSome result (λ k. IsCut rule.now store.now.box k) }
{
    let _ = (problem.constraints(), rule.pred);
    let Some(first) = first_wanted(set, told, a, store) else {
        return any_cut(problem, rule, a, &[r], store);
    };
    let Some(last) = last_wanted(set, told, a, store) else {
        return any_cut(problem, rule, a, &[r], store);
    };
    arg_cut(rule, a, first, last, store)
}

// Where both answers are left to x: 1 goes if no value of the argument is a member, and 0 if all of them are.
fn answer_cut(problem: &Problem, rule: &Constraint, x: VarId, store: &Store) -> Option<Cut>
    requires asked { IsAsked problem.now rule.now store.now.box }
    requires both { values_left store.now.box x.0 ≡ pos 0 ∷ pos 1 ∷ [] }
    requires none { RefutesNone rule.now store.now.box (Var x) }
    ensures none { IfNone result (IsTrue (keeps_ends store.now.box rule.now)) }
    ensures some { IfSome result (λ k. IsCut rule.now store.now.box k) }
{
    let table = Table {};
    if table.refutes_in(problem, rule, store, x, 1, 1) {
        return Some(Cut { x, lo: 1, hi: 1 });
    }
    if table.refutes_in(problem, rule, store, x, 0, 0) {
        return Some(Cut { x, lo: 0, hi: 0 });
    }
    None
}

// By what the last argument tells, if it tells one of both.
fn told_set_cut(
    problem: &Problem,
    rule: &Constraint,
    a: Arg,
    set: &Set,
    r: Arg,
    store: &Store,
) -> Option<Cut>
    requires asked { IsAsked problem.now rule.now store.now.box }
    requires open { IsTrue (is_open store.now.box a) }
    requires last { IsTrue (is_open store.now.box r) }
    requires truths { IsTrue (list_all is_truth (left_to store.now.box r)) }
    requires set { IsTrue (is_set set.now) }
    requires member { IsToldMember rule.now a set.now r }
    requires none { RefutesNone rule.now store.now.box r }
    ensures none { IfNone result (IsTrue (keeps_ends store.now.box rule.now)) }
    ensures some { IfSome result (λ k. IsCut rule.now store.now.box k) }
{
    match what_is_told(r, store) {
        Some(told) => known_cut(problem, rule, a, set, r, told, store),
        None => match r {
            Arg::Num(_) => None,
            Arg::Var(x) => answer_cut(problem, rule, x, store),
        },
    }
}

/// What a constraint that its last argument tells whether the first is in its set takes next.
pub(crate) fn told_member_cut(problem: &Problem, rule: &Constraint, store: &Store) -> Option<Cut>
    requires pred { rule.now.pred ≡ SetInReif }
    requires asked { IsAsked problem.now rule.now store.now.box }
    ensures none { IfNone result (IsTrue (keeps_ends store.now.box rule.now)) }
    ensures some { IfSome result (λ k. IsCut rule.now store.now.box k) }
{
    problem.known();
    let args = arguments(rule);
    let a = one_at(args, 0);
    let r = last_one(args);
    match members_at(args, 1) {
        Some(set) => told_set_cut(problem, rule, a, set, r, store),
        None => None,
    }
}
