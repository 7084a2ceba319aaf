//! The least and the greatest member of a set that is left, without a look at what lies between.
ghost use Rattle.std.specs.Prelude.{◌≡◌, ◌≤◌, ◌<◌, ℕ, IsTrue, IfNone, IfSome, length, get_or, pos, ◌<ℤ◌};
ghost use Rattle.qc_model.specs.declared.problem.Pred.TheVariants.{SetIn};
ghost use Rattle.qc_model.specs.declared.problem.Set.TheVariants.{Range as SetRange, Listed as SetListed};
ghost use Rattle.qc_model.specs.Closed.{keeps_ends};
ghost use Rattle.qc_model.specs.Domains.{is_ascending, set_has};
ghost use Rattle.qc_model.specs.Refuted.{left_to};
ghost use Rattle.qc_model.specs.Valid.{is_set};
ghost use Rattle.model_arguments.specs.Asked.{IsAsked};
ghost use Rattle.qc_refuter.specs.Met.{is_open};
ghost use Rattle.prop_base.specs.Closed.{IsCut, keeps_arg};
ghost use Rattle.prop_element.specs.Members.{IsMembership, IsFirst, IsLast, NonePasses};

use crate::hulls::{arg_cut, whole_cut};
use fd_store::Store;
use model_arguments::{arguments, members_at, one_at};
use prop_base::Cut;
use prop_compare::{greatest, has, least, next_of, previous_of};
use qc_model::{Arg, Constraint, Problem, Set};

fn first_in_range(low: i64, high: i64, a: Arg, store: &Store) -> Option<i64>
    requires open { IsTrue (is_open store.now.box a) }
    ensures none { IfNone result (NonePasses (set_has (SetRange low high)) (left_to store.now.box a)) }
    ensures some { IfSome result (λ v. IsFirst (set_has (SetRange low high)) (left_to store.now.box a) v) }
{
    match next_of(a, low, store) {
        Some(v) if v <= high => Some(v),
        _ => None,
    }
}

fn last_in_range(low: i64, high: i64, a: Arg, store: &Store) -> Option<i64>
    requires open { IsTrue (is_open store.now.box a) }
    ensures none { IfNone result (NonePasses (set_has (SetRange low high)) (left_to store.now.box a)) }
    ensures some { IfSome result (λ v. IsLast (set_has (SetRange low high)) (left_to store.now.box a) v) }
{
    match previous_of(a, high, store) {
        Some(v) if low <= v => Some(v),
        _ => None,
    }
}

// The place of the first number that isn't below v.
fn place_from(numbers: &[i64], v: i64) -> usize
    requires ascending { IsTrue (is_ascending numbers.now) }
    ensures most { result ≤ length numbers.now }
    ensures before { (j : ℕ) → j < result → get_or numbers.now j (pos 0) <ℤ v }
{
    match numbers.binary_search(&v) {
        Ok(k) => k,
        Err(k) => k,
    }
}

// The place past the last number that isn't above v.
fn place_past(numbers: &[i64], v: i64) -> usize
    requires ascending { IsTrue (is_ascending numbers.now) }
    ensures most { result ≤ length numbers.now }
    ensures after { (j : ℕ) → result ≤ j → j < length numbers.now → v <ℤ get_or numbers.now j (pos 0) }
{
    match numbers.binary_search(&v) {
        Ok(k) => k + 1,
        Err(k) => k,
    }
}

fn first_listed(numbers: &[i64], a: Arg, store: &Store) -> Option<i64>
    requires open { IsTrue (is_open store.now.box a) }
    requires ascending { IsTrue (is_ascending numbers.now) }
    ensures none { IfNone result (NonePasses (set_has (SetListed numbers.now)) (left_to store.now.box a)) }
    ensures some { IfSome result (λ v. IsFirst (set_has (SetListed numbers.now)) (left_to store.now.box a) v) }
{
    let start = place_from(numbers, least(a, store));
    for k in start..numbers.len() {
        if has(a, numbers[k], store) {
            return Some(numbers[k]);
        }
    }
    None
}

fn last_listed(numbers: &[i64], a: Arg, store: &Store) -> Option<i64>
    requires open { IsTrue (is_open store.now.box a) }
    requires ascending { IsTrue (is_ascending numbers.now) }
    ensures none { IfNone result (NonePasses (set_has (SetListed numbers.now)) (left_to store.now.box a)) }
    ensures some { IfSome result (λ v. IsLast (set_has (SetListed numbers.now)) (left_to store.now.box a) v) }
{
    let mut k = place_past(numbers, greatest(a, store));
    while k > 0 {
        k -= 1;
        if has(a, numbers[k], store) {
            return Some(numbers[k]);
        }
    }
    None
}

/// The least value left that is a member.
pub(crate) fn first_member(set: &Set, a: Arg, store: &Store) -> Option<i64>
    requires open { IsTrue (is_open store.now.box a) }
    requires set { IsTrue (is_set set.now) }
    ensures none { IfNone result (NonePasses (set_has set.now) (left_to store.now.box a)) }
    ensures some { IfSome result (λ v. IsFirst (set_has set.now) (left_to store.now.box a) v) }
{
    match set {
        Set::Range(low, high) => first_in_range(*low, *high, a, store),
        Set::Listed(numbers) => first_listed(numbers.items(), a, store),
    }
}

/// The greatest value left that is a member.
pub(crate) fn last_member(set: &Set, a: Arg, store: &Store) -> Option<i64>
    requires open { IsTrue (is_open store.now.box a) }
    requires set { IsTrue (is_set set.now) }
    ensures none { IfNone result (NonePasses (set_has set.now) (left_to store.now.box a)) }
    ensures some { IfSome result (λ v. IsLast (set_has set.now) (left_to store.now.box a) v) }
{
    match set {
        Set::Range(low, high) => last_in_range(*low, *high, a, store),
        Set::Listed(numbers) => last_listed(numbers.items(), a, store),
    }
}

// What the argument can't keep below its first member or above its last one; all of it, where there is no member.
fn set_cut(problem: &Problem, rule: &Constraint, a: Arg, set: &Set, store: &Store) -> Option<Cut>
    requires asked { IsAsked problem.now rule.now store.now.box }
    requires open { IsTrue (is_open store.now.box a) }
    requires set { IsTrue (is_set set.now) }
    requires member { IsMembership rule.now a set.now }
    ensures none { IfNone result (IsTrue (keeps_arg rule.now store.now.box a)) }
    ensures some { IfSome result (λ k. IsCut rule.now store.now.box k) }
{
    let _ = (problem.constraints(), rule.pred);
    let Some(first) = first_member(set, a, store) else {
        return whole_cut(problem, rule, a, store);
    };
    let Some(last) = last_member(set, a, store) else {
        return whole_cut(problem, rule, a, store);
    };
    arg_cut(rule, a, first, last, store)
}

/// What a constraint that its first argument is in its set takes next.
pub(crate) fn member_cut(problem: &Problem, rule: &Constraint, store: &Store) -> Option<Cut>
    requires pred { rule.now.pred ≡ SetIn }
    requires asked { IsAsked problem.now rule.now store.now.box }
    ensures none { IfNone result (IsTrue (keeps_ends store.now.box rule.now)) }
    ensures some { IfSome result (λ k. IsCut rule.now store.now.box k) }
{
    problem.known();
    let args = arguments(rule);
    let a = one_at(args, 0);
    match members_at(args, 1) {
        Some(set) => set_cut(problem, rule, a, set, store),
        None => None,
    }
}
