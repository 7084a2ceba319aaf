//! The terms of each variable.
ghost use Rattle.std.specs.Prelude.{◌≡◌, ◌==◌, ◌<◌, ◌++◌, ℕ, nat_lt, [], true, length, IfOk, OnOk};
ghost use Rattle.std.specs.List.{list_all};
ghost use Rattle.model_arguments.specs.Repeats.{has_place};
ghost use Rattle.model_arguments.specs.Written.{variable_numbers};
ghost use Rattle.qc_model.specs.Valid.{is_constraint};
ghost use Rattle.check_assignment.specs.Balance.{test_of as test_in_spec};
ghost use Rattle.check_assignment.specs.Terms.{terms_at, term_if, item_terms, zero_terms, rule_terms};

use crate::term::Term;
use crate::test::Test;
use model_arguments::{arguments, items_at, numbers_at, own_variables};
use qc_model::{Arg, Constraint, Problem, VarId};
use std::alloc::{AllocError, Global};
use std::marker::Model;

/// The terms of one variable.
#[derive(Drop)]
struct TermList {
    items: Vec<Term>,
}

impl Model for TermList {
    ghost use Rattle.std.specs.Prelude.{List};
    ghost use Rattle.check_assignment.specs.declared.term.Term.{Term};

    ghost Value = { List Term };

    ghost view = { λ a. a.items.items };
}

/// The terms of each variable, in the order of their constraints.
#[derive(Drop)]
pub(crate) struct Terms {
    lists: Vec<TermList>,
}

impl Model for Terms {
    ghost use Rattle.check_assignment.specs.Terms.{Terms};

    ghost Value = { Terms };

    ghost view = { λ a. a.lists.items };
}

impl Terms {
    /// No terms, of so many variables.
    pub(crate) fn new(alloc: Global, count: usize) -> Result<Terms, AllocError>
        ensures count { IfOk result (λ w. length w ≡ count) }
        ensures empty { IfOk result (λ w. (x : ℕ) → terms_at w x ≡ []) }
    {
        let mut lists = Vec::with_capacity(alloc, count)?;
        for _ in 0..count {
            lists.push(TermList {
                items: Vec::new(alloc),
            })?;
        }
        Ok(Terms { lists })
    }

    /// The terms of x.
    #[inline(always)]
    pub(crate) fn of(&self, x: VarId) -> &[Term]
        requires { x.0 < length self.now }
        ensures { result.now ≡ terms_at self.now x.0 }
    {
        self.lists[x.0 as usize].items.as_slice()
    }

    fn push(&mut self, x: VarId, rule: u16, factor: i64) -> Result<(), AllocError>
        requires { x.0 < length self.old }
        ensures length { length self.new ≡ length self.old }
        ensures pushed { OnOk result ((y : ℕ) → terms_at self.new y ≡ terms_at self.old y ++ term_if (x.0 == y) rule factor) }
    {
        self.lists[x.0 as usize].items.push(Term { rule, factor })?;
        Ok(())
    }

    fn add_items(&mut self, rule: u16, factors: &[i64], items: &[Arg]) -> Result<(), AllocError>
        requires { list_all (has_place (length self.old)) items.now ≡ true }
        ensures length { length self.new ≡ length self.old }
        ensures added { OnOk result ((y : ℕ) → terms_at self.new y ≡ terms_at self.old y ++ item_terms rule y factors.now items.now) }
    {
        let count = factors.len().min(items.len());
        for k in 0..count {
            match items[k] {
                Arg::Var(x) => self.push(x, rule, factors[k])?,
                Arg::Num(_) => {}
            }
        }
        Ok(())
    }

    fn add_variables(&mut self, rule: u16, own: &[VarId]) -> Result<(), AllocError>
        requires { list_all (λ x. nat_lt x (length self.old)) (variable_numbers own.now) ≡ true }
        ensures length { length self.new ≡ length self.old }
        ensures added { OnOk result ((y : ℕ) → terms_at self.new y ≡ terms_at self.old y ++ zero_terms rule y (variable_numbers own.now)) }
    {
        for x in own {
            self.push(*x, rule, 0)?;
        }
        Ok(())
    }

    /// Adds the terms of a constraint of this number.
    pub(crate) fn add_rule(
        &mut self,
        alloc: Global,
        problem: &Problem,
        rule: &Constraint,
        number: u16,
        test: Test,
    ) -> Result<(), AllocError>
        requires count { length self.old ≡ length problem.now.variables }
        requires constraint { is_constraint problem.now.variables rule.now ≡ true }
        requires test { test ≡ test_in_spec rule.now }
        ensures length { length self.new ≡ length self.old }
        ensures added { OnOk result ((y : ℕ) → terms_at self.new y ≡ terms_at self.old y ++ rule_terms number rule.now y) }
    {
        let _ = problem.variables();
        let args = arguments(rule);
        match test {
            Test::Other => {
                let own = own_variables(alloc, args)?;
                self.add_variables(number, own.as_slice())
            }
            _ => self.add_items(number, numbers_at(args, 0), items_at(args, 1)),
        }
    }
}
