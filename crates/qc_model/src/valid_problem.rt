//! A problem: a draft that is valid, behind calls that keep it so.
ghost use Rattle.std.specs.Prelude.{◌≡◌, ◌+◌, ◌<◌, ◌≤◌, ◌^◌, ◌==◌, filter, length, slice_get};
ghost use Rattle.qc_model.specs.Demands.{demands_after as demands_after_of};
ghost use Rattle.qc_model.specs.Game.{before, restriction as restriction_of};
ghost use Rattle.qc_model.specs.Sees.{aggregates_in as aggregates_of_scope};
ghost use Rattle.qc_model.specs.Valid.{IsValid};

use crate::demands::{DemandedList, demands_after};
use crate::order::{aggregates_below, constraints_below, variables_below};
use crate::problem::{
    Aggregate, ConId, Condition, Constraint, Draft, Scope, ScopeId, VarId, Variable,
};
use std::marker::Model;

/// A valid draft. Only `build` makes one.
#[derive(Drop)]
pub struct Problem {
    draft: Draft,
}

impl Model for Problem {
    ghost use Rattle.qc_model.specs.Content.{Game};
    ghost use Rattle.qc_model.specs.Valid.{IsValid};

    ghost Value = { Game };

    ghost view = { λ a. a.draft };

    ghost invariant = { λ a. IsValid a.draft };
}

impl Problem {
    /// The problem with this content.
    pub(crate) fn new(draft: Draft) -> Problem
        requires { IsValid draft }
        ensures { result ≡ draft }
    {
        Problem { draft }
    }

    /// Every problem is valid.
    pub fn known(&self)
        ensures { IsValid self.now }
    {
        let _ = &self.draft;
    }

    /// All variables, in order.
    pub fn all_variables(&self) -> &[Variable]
        ensures { result.now ≡ self.now.variables }
    {
        self.draft.variables.as_slice()
    }

    /// All aggregates, in order.
    pub fn all_aggregates(&self) -> &[Aggregate]
        ensures { result.now ≡ self.now.aggregates }
    {
        self.draft.aggregates.as_slice()
    }

    pub(crate) fn all_constraints(&self) -> &[Constraint]
        ensures { result.now ≡ self.now.constraints }
    {
        self.draft.constraints.as_slice()
    }

    pub(crate) fn all_scopes(&self) -> &[Scope]
        ensures { result.now ≡ self.now.scopes }
    {
        self.draft.scopes.as_slice()
    }

    /// The number of scopes, at most 64. It is the goal's own number too.
    pub fn scopes(&self) -> usize
        ensures { result ≡ length self.now.scopes }
    {
        self.draft.scopes.len()
    }

    /// The number of variables, at most 500.
    pub fn variables(&self) -> usize
        ensures { result ≡ length self.now.variables }
    {
        self.draft.variables.len()
    }

    /// The number of constraints, the goal's included, at most 20,000.
    pub fn constraints(&self) -> usize
        ensures { result ≡ length self.now.constraints }
    {
        self.draft.constraints.len()
    }

    /// The number of aggregates, at most 255.
    pub fn aggregates(&self) -> usize
        ensures { result ≡ length self.now.aggregates }
    {
        self.draft.aggregates.len()
    }

    /// The scope with this number, which exists.
    pub fn scope(&self, i: ScopeId) -> &Scope
        requires { i.0 < length self.now.scopes }
        ensures { slice_get self.now.scopes i.0 ≡ Some result.now }
    {
        &self.draft.scopes[i.0 as usize]
    }

    /// The variable with this number, which exists.
    pub fn variable(&self, x: VarId) -> &Variable
        requires { x.0 < length self.now.variables }
        ensures { slice_get self.now.variables x.0 ≡ Some result.now }
    {
        &self.draft.variables[x.0 as usize]
    }

    /// The constraint with this number, which exists. Those of the goal come last.
    pub fn constraint(&self, c: ConId) -> &Constraint
        requires { c.0 < length self.now.constraints }
        ensures { slice_get self.now.constraints c.0 ≡ Some result.now }
    {
        &self.draft.constraints[c.0 as usize]
    }

    /// How many variables stand in scopes before i. Variables stand in the order of their scopes, so
    /// those of scope i begin at that place.
    pub fn variables_before(&self, i: usize) -> usize
        ensures count { result ≡ before self.now i }
        ensures bound { result ≤ length self.now.variables }
    {
        self.known();
        variables_below(self.all_variables(), i)
    }

    /// The variables of scope i.
    pub fn variables_of(&self, i: usize) -> &[Variable]
        requires { i < 2 ^ 63 }
        ensures { result.now ≡ filter (λ x. x.scope.0 == i) self.now.variables }
    {
        self.known();
        let all = self.all_variables();
        let from = variables_below(all, i);
        let to = variables_below(all, i + 1);
        let (_earlier, rest) = all.split_at(from);
        let (here, _later) = rest.split_at(to - from);
        here
    }

    /// The aggregates of scope i, which is universal where there are any.
    pub fn aggregates_in(&self, i: usize) -> &[Aggregate]
        requires { i < 2 ^ 63 }
        ensures { result.now ≡ aggregates_of_scope self.now i }
    {
        self.known();
        let all = self.all_aggregates();
        let from = aggregates_below(all, i);
        let to = aggregates_below(all, i + 1);
        let (_earlier, rest) = all.split_at(from);
        let (here, _later) = rest.split_at(to - from);
        here
    }

    /// The demanded list after a scope, where `entries` is that of the scope itself.
    pub fn list_after(&self, scope: &Scope, entries: &[Condition]) -> DemandedList
        requires { length entries.now < 64 }
        ensures list { result ≡ demands_after_of self.now scope.now.kind scope.now.condition entries.now }
        ensures room { length result ≤ length entries.now + 1 }
    {
        demands_after(&self.draft, scope, entries)
    }

    /// The constraints of scope i, or of the goal where i is the number of scopes.
    pub fn restriction(&self, i: usize) -> &[Constraint]
        requires { i < 2 ^ 63 }
        ensures { result.now ≡ restriction_of self.now i }
    {
        self.known();
        let all = self.all_constraints();
        let from = constraints_below(all, i);
        let to = constraints_below(all, i + 1);
        let (_earlier, rest) = all.split_at(from);
        let (here, _later) = rest.split_at(to - from);
        here
    }
}
