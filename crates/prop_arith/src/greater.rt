//! The greater of two integers, by the ends of all three at once.
//!
//! By their ends alone such a constraint refutes: the third lies above what the first two reach, or below what one of them
//! has at least. So six numbers tell which each of the three may keep, from one to another, and all others below or above go
//! in one removal. A variable that stands twice, and a third one with a gap, go end by end.
ghost use Rattle.std.specs.Prelude.{◌≡◌, ◌||◌, IsTrue, IfNone, IfSome};
ghost use Rattle.qc_model.specs.declared.problem.Arg.TheVariants.{Var};
ghost use Rattle.qc_model.specs.declared.problem.Pred.TheVariants.{IntMax};
ghost use Rattle.qc_model.specs.declared.problem.VarId.{VarId as Variable};
ghost use Rattle.qc_model.specs.Closed.{keeps_ends};
ghost use Rattle.qc_model.specs.Refuted.{left_to, refuted_by};
ghost use Rattle.model_arguments.specs.Asked.{IsAsked};
ghost use Rattle.model_arguments.specs.Written.{arg_at};
ghost use Rattle.qc_refuter.specs.Met.{is_open};
ghost use Rattle.prop_base.specs.Closed.{IsCut, keeps_arg};
ghost use Rattle.prop_base.specs.Filtering.{Answers, Fits, Prunes};
ghost use Rattle.prop_arith.specs.Greater.{AreOpen, IsGreater, IsGreaterRule, IsHull, ends_beside, ends_left, ends_miss, greater_ends, has_twice, misses_some};

use fd_store::Store;
use model_arguments::{arguments, is_same, one_at};
use proof_tree::StepList;
use prop_base::{Asked, Cut, Cutter, Filtered, filter_by_cuts, filter_by_ends};
use prop_compare::{Table, greatest, least};
use qc_model::{Arg, Constraint, Problem};
use std::alloc::AllocError;

/// The third is to be the greater of the first two.
#[derive(Clone, Copy)]
pub struct Greater {
    pub first: Arg,
    pub second: Arg,
    pub third: Arg,
}

/// The numbers from the least to the greatest.
#[derive(Clone, Copy)]
pub struct Ends {
    pub least: i64,
    pub greatest: i64,
}

fn greater_of(rule: &Constraint) -> Greater
    ensures first { result.first ≡ arg_at rule.now.args 0 }
    ensures second { result.second ≡ arg_at rule.now.args 1 }
    ensures third { result.third ≡ arg_at rule.now.args 2 }
{
    let args = arguments(rule);
    Greater {
        first: one_at(args, 0),
        second: one_at(args, 1),
        third: one_at(args, 2),
    }
}

// Whether some two of the three are the same variable.
fn stands_twice(t: Greater) -> bool
    ensures { result ≡ has_twice t }
{
    is_same(t.first, t.second) || (is_same(t.first, t.third) || is_same(t.second, t.third))
}

// Whether an argument lacks a number between its least and its greatest.
fn has_gap(a: Arg, store: &Store) -> bool
    requires { IsTrue (is_open store.now.box a) }
    ensures { result ≡ misses_some (left_to store.now.box a) }
{
    match a {
        Arg::Num(_) => false,
        Arg::Var(x) => {
            store.known(x);
            i64::from(store.size(x)) <= store.max(x) - store.min(x)
        }
    }
}

fn goes_by_ends(t: Greater, store: &Store) -> bool
    requires { IsTrue (is_open store.now.box t.third) }
    ensures { result ≡ (has_twice t || misses_some (left_to store.now.box t.third)) }
{
    stands_twice(t) || has_gap(t.third, store)
}

fn ends_of(a: Arg, store: &Store) -> Ends
    requires { IsTrue (is_open store.now.box a) }
    ensures { result ≡ ends_left (left_to store.now.box a) }
{
    Ends {
        least: least(a, store),
        greatest: greatest(a, store),
    }
}

// What the greater of two may be.
fn greater_ends_of(a: Ends, b: Ends) -> Ends
    ensures { result ≡ greater_ends a b }
{
    Ends {
        least: a.least.max(b.least),
        greatest: a.greatest.max(b.greatest),
    }
}

// Whether they share no number.
fn are_apart(a: Ends, b: Ends) -> bool
    ensures { result ≡ ends_miss a b }
{
    a.greatest < b.least || b.greatest < a.least
}

// What one of the first two may keep beside the other and the third. It alone reaches the third's least where the other
// doesn't.
fn kept_beside(other: Ends, third: Ends) -> Ends
    ensures { result ≡ ends_beside other third }
{
    if other.greatest < third.least {
        third
    } else {
        Ends {
            least: -1_000_000_000,
            greatest: third.greatest,
        }
    }
}

// Values of the argument, which has these ends, below or above what it may keep, where there are some.
#[inline(always)]
fn cut_beyond(rule: &Constraint, a: Arg, have: Ends, keep: Ends, store: &Store) -> Option<Cut>
    requires open { IsTrue (is_open store.now.box a) }
    requires have { have ≡ ends_left (left_to store.now.box a) }
    requires hull { (x : Variable) → a ≡ Var x → IsHull rule.now store.now.box x.0 keep.least keep.greatest }
    ensures none { IfNone result (IsTrue (keeps_arg rule.now store.now.box a)) }
    ensures some { IfSome result (λ k. IsCut rule.now store.now.box k) }
{
    let _ = (rule.pred, store.count());
    match a {
        Arg::Num(_) => None,
        Arg::Var(x) => {
            if have.least < keep.least {
                return Some(Cut {
                    x,
                    lo: have.least,
                    hi: keep.least - 1,
                });
            }
            if keep.greatest < have.greatest {
                return Some(Cut {
                    x,
                    lo: keep.greatest + 1,
                    hi: have.greatest,
                });
            }
            None
        }
    }
}

// All values of the argument, where it is a variable and the constraint refutes the whole box.
fn whole_cut(problem: &Problem, rule: &Constraint, a: Arg, store: &Store) -> Option<Cut>
    requires asked { IsAsked problem.now rule.now store.now.box }
    requires open { IsTrue (is_open store.now.box a) }
    requires refuted { IsTrue (refuted_by rule.now store.now.box) }
    ensures none { IfNone result (IsTrue (keeps_arg rule.now store.now.box a)) }
    ensures some { IfSome result (λ k. IsCut rule.now store.now.box k) }
{
    let _ = (rule.pred, store.count());
    problem.known();
    match a {
        Arg::Num(_) => None,
        Arg::Var(x) => Some(Cut {
            x,
            lo: -1_000_000_000,
            hi: 1_000_000_000,
        }),
    }
}

// All values of the third, or of one of the others where that is a number.
fn any_cut(problem: &Problem, rule: &Constraint, t: Greater, store: &Store) -> Option<Cut>
    requires asked { IsAsked problem.now rule.now store.now.box }
    requires open { AreOpen store.now.box t }
    requires greater { IsGreater rule.now t }
    requires refuted { IsTrue (refuted_by rule.now store.now.box) }
    ensures none { IfNone result (IsTrue (keeps_ends store.now.box rule.now)) }
    ensures some { IfSome result (λ k. IsCut rule.now store.now.box k) }
{
    if let Some(cut) = whole_cut(problem, rule, t.third, store) {
        return Some(cut);
    }
    if let Some(cut) = whole_cut(problem, rule, t.first, store) {
        return Some(cut);
    }
    whole_cut(problem, rule, t.second, store)
}

// What the third loses, then what the others lose.
fn greater_cut(problem: &Problem, rule: &Constraint, t: Greater, store: &Store) -> Option<Cut>
    requires asked { IsAsked problem.now rule.now store.now.box }
    requires open { AreOpen store.now.box t }
    requires greater { IsGreater rule.now t }
    ensures none { IfNone result (IsTrue (keeps_ends store.now.box rule.now)) }
    ensures some { IfSome result (λ k. IsCut rule.now store.now.box k) }
{
    let first = ends_of(t.first, store);
    let second = ends_of(t.second, store);
    let third = ends_of(t.third, store);
    let greater = greater_ends_of(first, second);
    if are_apart(greater, third) {
        return any_cut(problem, rule, t, store);
    }
    if let Some(cut) = cut_beyond(rule, t.third, third, greater, store) {
        return Some(cut);
    }
    let keep = kept_beside(second, third);
    if let Some(cut) = cut_beyond(rule, t.first, first, keep, store) {
        return Some(cut);
    }
    let keep = kept_beside(first, third);
    cut_beyond(rule, t.second, second, keep, store)
}

impl Cutter for Greater {
    ghost serves = { IsGreaterRule };

    fn next_cut(&self, problem: &Problem, rule: &Constraint, store: &Store) -> Option<Cut> {
        problem.known();
        greater_cut(problem, rule, *self, store)
    }
}

/// The third integer is the greater of the first two.
pub(crate) fn filter_greater(
    asked: Asked,
    store: &mut Store,
    steps: &mut StepList,
) -> Result<Filtered, AllocError>
    requires pred { asked.rule.now.pred ≡ IntMax }
    requires fits { Fits asked store.old }
    ensures pruning { Prunes asked.entry store.old store.new steps.old steps.new }
    ensures answer { Answers asked.entry store.new steps.old steps.new result }
{
    asked.problem.known();
    let greater = greater_of(asked.rule);
    if goes_by_ends(greater, store) {
        return filter_by_ends(&Table {}, asked, store, steps);
    }
    filter_by_cuts(&greater, asked, store, steps)
}
