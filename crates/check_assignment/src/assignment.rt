//! The assignment.
ghost use Rattle.std.specs.Prelude.{◌≡◌, ◌≤◌, ◌<◌, ◌-◌, true, length, set, take, drop, slice_get, Some};
ghost use Rattle.std.specs.List.{list_all};
ghost use Rattle.qc_model.specs.Content.{Rule};
ghost use Rattle.qc_model.specs.Holds.{holds_on};
ghost use Rattle.qc_model.specs.Valid.{is_number};

use crate::standing::{Standing, move_terms};
use crate::terms::Terms;
use crate::test::Test;
use model_arguments::Span;
use model_evaluation::satisfies;
use qc_model::{ConId, Problem, VarId};
use std::marker::Model;

/// A value for each variable of a problem, and what is known of the constraints on them.
#[derive(Drop)]
pub struct Assignment<'p> {
    pub(crate) problem: &'p Problem,
    pub(crate) values: Vec<i64>,
    pub(crate) terms: Terms,
    pub(crate) standings: Vec<Standing>,
}

impl<'p> Model for Assignment<'p> {
    ghost use Rattle.check_assignment.specs.Assigned.{Assigned};
    ghost use Rattle.check_assignment.specs.Keeping.{Keeps};

    ghost Value = { Assigned };

    ghost view = { λ a. record { game = a.problem.now; items = a.values.items } };

    ghost invariant = { λ a. Keeps a.problem.now a.values.items a.terms a.standings.items };
}

impl<'p> Assignment<'p> {
    /// Tells clauses that there is a value within the number limit for each variable.
    pub fn known(&self)
        ensures each { length self.now.items ≡ length self.now.game.variables }
        ensures numbers { list_all is_number self.now.items ≡ true }
    {
        let _ = &self.values;
    }

    /// The values, one for each variable.
    pub fn values(&self) -> &[i64]
        ensures { result.now ≡ self.now.items }
    {
        self.values.as_slice()
    }

    /// Gives x this value.
    #[inline(always)]
    pub fn set(&mut self, x: VarId, value: i64)
        requires var { x.0 < length self.old.items }
        requires number { is_number value ≡ true }
        ensures game { self.new.game ≡ self.old.game }
        ensures items { self.new.items ≡ set self.old.items x.0 value }
    {
        self.problem.known();
        let last = self.values[x.0 as usize];
        if last == value {
            return;
        }
        self.values[x.0 as usize] = value;
        move_terms(
            self.terms.of(x),
            value - last,
            self.standings.as_mut_slice(),
        );
    }

    /// Whether constraint k holds on the values.
    fn holds(&self, k: u16) -> bool
        requires { k < length self.now.game.constraints }
        ensures { (c : Rule) → slice_get self.now.game.constraints k ≡ Some c → result ≡ holds_on c self.now.items }
    {
        self.problem.known();
        let standing = self.standings[k as usize];
        match standing.test {
            Test::Equal => standing.total == 0,
            Test::Different => standing.total != 0,
            Test::AtMost => standing.total <= 0,
            Test::Other => satisfies(
                self.problem,
                self.problem.constraint(ConId(k)),
                self.values.as_slice(),
            ),
        }
    }

    /// Whether constraint k holds on the values. It is evaluated only where it isn't known to hold, and is known to hold
    /// from then on.
    #[inline(always)]
    fn still_holds(&mut self, k: usize) -> bool
        requires { k < length self.old.game.constraints }
        ensures holds { (c : Rule) → slice_get self.old.game.constraints k ≡ Some c → result ≡ holds_on c self.old.items }
        ensures same { self.new ≡ self.old }
    {
        self.problem.known();
        if !self.standings[k].holds {
            if !self.holds(k as u16) {
                return false;
            }
            self.standings[k].holds = true;
        }
        true
    }

    /// Whether the constraints of the span all hold on the values. It stops at the first that doesn't.
    pub fn all_hold(&mut self, span: Span) -> bool
        requires { span.end ≤ length self.old.game.constraints }
        ensures holds { result ≡ list_all (λ c. holds_on c self.old.items) (take (span.end - span.first) (drop span.first self.old.game.constraints)) }
        ensures same { self.new ≡ self.old }
    {
        for k in span.first..span.end {
            if !self.still_holds(k) {
                return false;
            }
        }
        true
    }
}
