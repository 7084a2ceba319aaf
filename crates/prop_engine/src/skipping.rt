//! The constraints that remove nothing whatever the box, in runs, so that closing passes over many of them at once.
//!
//! A constraint without variables refutes no end of one, and a clause is never refuted where a number among its literals
//! holds. Which these are is found once for a problem.
ghost use Rattle.std.specs.Prelude.{◌≡◌, ◌<◌, ◌≤◌, ◌+◌, length, IsTrue, IsFalse, IfOk};
ghost use Rattle.std.specs.List.{list_all};
ghost use Rattle.qc_model.specs.Domains.{Box};
ghost use Rattle.qc_model.specs.Left.{is_only};
ghost use Rattle.qc_model.specs.Refuted.{left_to};
ghost use Rattle.qc_model.specs.Valid.{argument_sees};
ghost use Rattle.prop_engine.specs.Literals.{failing};
ghost use Rattle.prop_engine.specs.Skipping.{AlwaysKeeps, ArePassed, IsSkipOf, next_of};

use model_arguments::{arguments, items_at};
use prop_base::last_variable;
use qc_model::{Arg, ConId, Constraint, Pred, Problem};
use std::alloc::{AllocError, Global};
use std::marker::Model;

/// From each constraint on, the first that may remove something.
#[derive(Drop)]
pub(crate) struct Skips {
    next: Vec<u16>,
}

impl Model for Skips {
    ghost use Rattle.std.specs.Prelude.{List, ℕ};

    ghost Value = { List ℕ };

    ghost view = { λ a. a.next.items };
}

// Whether a number among the literals holds, which are plain or negated.
fn some_holds(items: &[Arg], positive: bool) -> bool
    ensures { IsTrue result → (box : Box) → IsFalse (list_all (λ a. is_only (failing positive) (left_to box a)) items.now) }
{
    for item in items {
        if let Arg::Num(n) = *item {
            if (n == 1) == positive {
                return true;
            }
        }
    }
    false
}

// Whether the constraint is a clause with a number that holds.
fn is_held_clause(rule: &Constraint) -> bool
    ensures { IsTrue result → AlwaysKeeps rule.now }
{
    if let Pred::BoolClause = rule.pred {
        if some_holds(items_at(arguments(rule), 0), true) {
            return true;
        }
        return some_holds(items_at(arguments(rule), 1), false);
    }
    false
}

// Whether the constraint has no variable, or is a clause with a number that holds.
fn is_always_idle(problem: &Problem, rule: &Constraint) -> bool
    requires sees { IsTrue (list_all (argument_sees problem.now.variables rule.now.owner.0) rule.now.args) }
    ensures { IsTrue result → AlwaysKeeps rule.now }
{
    match last_variable(problem, rule) {
        None => true,
        Some(_) => is_held_clause(rule),
    }
}

// The first from k on that may remove something, where the first behind k is known.
fn first_from(problem: &Problem, k: u16, later: u16) -> u16
    requires k { k < length problem.now.constraints }
    requires later { k < later }
    requires passed { ArePassed problem.now (k + 1) later }
    ensures forward { k ≤ result }
    ensures most { result ≤ later }
    ensures passed { ArePassed problem.now k result }
{
    problem.known();
    if is_always_idle(problem, problem.constraint(ConId(k))) {
        later
    } else {
        k
    }
}

impl Skips {
    /// Those of the problem's constraints.
    pub(crate) fn of_problem(alloc: Global, problem: &Problem) -> Result<Skips, AllocError>
        ensures { IfOk result (λ s. IsSkipOf problem.now s) }
    {
        problem.known();
        let count = problem.constraints();
        let mut next = vec![in alloc; 0; count]?;
        let mut k = count as u16;
        let mut first = k;
        while k > 0 {
            k -= 1;
            first = first_from(problem, k, first);
            next[k as usize] = first;
        }
        Ok(Skips { next })
    }

    /// The first constraint from k on that may remove something, or a number past the last.
    #[inline(always)]
    pub(crate) fn from(&self, k: usize) -> usize
        ensures { result ≡ next_of self.now k }
    {
        match self.next.get(k) {
            Some(first) => *first as usize,
            None => k,
        }
    }
}
