//! What is asked of a problem again and again, looked up once.
use crate::gathering::{gathered_rules, gathered_scopes, gathered_variables, gathered_wakers};
use crate::sums::Linear;
use qc_model::{ConId, Kind, Problem, VarId};
use std::alloc::{AllocError, Global};

/// The value that makes an item of a clause true.
#[derive(Clone, Copy, PartialEq, Eq)]
pub struct TruthOf {
    pub x: VarId,
    pub value: i64,
}

/// A variable: its scope, whose owner chooses it, and the ends of its domain.
#[derive(Clone, Copy)]
pub(crate) struct OfVariable {
    pub(crate) scope: usize,
    pub(crate) side: Kind,
    pub(crate) least: i64,
    pub(crate) greatest: i64,
}

/// A constraint: its scope, or the number of scopes for the goal, who has to keep it, its variables, each once and
/// ascending, its items where it is a clause of variables alone, each once, and its sum where it is linear.
#[derive(Drop)]
pub(crate) struct OfRule {
    pub(crate) scope: usize,
    pub(crate) side: Kind,
    pub(crate) own: Vec<VarId>,
    pub(crate) items: Vec<TruthOf>,
    pub(crate) linear: Option<Linear>,
}

/// A scope, or the goal: who owns it, its variables and constraints, from the first to the one before `.._end`, and the first
/// scope that nobody's word passes from here: of the player's constraints and lemmas, and of the opponent's.
#[derive(Clone, Copy)]
pub(crate) struct OfScope {
    pub(crate) side: Kind,
    pub(crate) first: usize,
    pub(crate) end: usize,
    pub(crate) rules_first: usize,
    pub(crate) rules_end: usize,
    pub(crate) reach_exists: usize,
    pub(crate) reach_forall: usize,
}

/// When a constraint has to be looked at again: once the variable's least value rises, once its greatest falls, or always.
#[derive(Clone, Copy, PartialEq, Eq)]
pub enum Wakes {
    Raised,
    Lowered,
    Changed,
}

/// A constraint that mentions a variable.
#[derive(Clone, Copy)]
pub struct Waker {
    pub c: ConId,
    pub when: Wakes,
}

/// What is asked of a problem again and again. A variable, constraint or scope that isn't there counts as the player's, of the
/// first scope, and without anything of its own.
#[derive(Drop)]
pub struct Facts {
    variables: Vec<OfVariable>,
    rules: Vec<OfRule>,
    scopes: Vec<OfScope>,
    wakers: Vec<Vec<Waker>>,
}

/// The side that a side plays against.
pub fn other_side(side: Kind) -> Kind {
    match side {
        Kind::Exists => Kind::Forall,
        Kind::Forall => Kind::Exists,
    }
}

impl Facts {
    /// The facts of this problem. It fails only where memory runs out.
    pub fn new(alloc: Global, problem: &Problem) -> Result<Facts, AllocError> {
        let scopes = gathered_scopes(alloc, problem)?;
        let variables = gathered_variables(alloc, problem, &scopes)?;
        let rules = gathered_rules(alloc, problem, &scopes)?;
        let wakers = gathered_wakers(alloc, problem, &rules)?;
        Ok(Facts {
            variables,
            rules,
            scopes,
            wakers,
        })
    }

    /// How many variables there are.
    pub fn variables(&self) -> usize {
        self.variables.len()
    }

    /// How many constraints there are.
    pub fn rules(&self) -> usize {
        self.rules.len()
    }

    /// How many scopes there are, which is the goal's number.
    pub fn goal(&self) -> usize {
        self.scopes.len().saturating_sub(1)
    }

    /// The scope of a variable.
    pub fn scope_of(&self, x: VarId) -> usize {
        self.variables.get(x.0 as usize).map_or(0, |it| it.scope)
    }

    /// Who chooses a variable.
    pub fn side_of(&self, x: VarId) -> Kind {
        match self.variables.get(x.0 as usize) {
            Some(it) => it.side,
            None => Kind::Exists,
        }
    }

    /// The least value of a variable's domain.
    pub fn least_of(&self, x: VarId) -> i64 {
        self.variables.get(x.0 as usize).map_or(0, |it| it.least)
    }

    /// The greatest value of a variable's domain.
    pub fn greatest_of(&self, x: VarId) -> i64 {
        self.variables.get(x.0 as usize).map_or(0, |it| it.greatest)
    }

    /// The scope of a constraint.
    pub fn rule_scope(&self, c: ConId) -> usize {
        self.rules.get(c.0 as usize).map_or(0, |it| it.scope)
    }

    /// Who has to keep a constraint.
    pub fn rule_side(&self, c: ConId) -> Kind {
        match self.rules.get(c.0 as usize) {
            Some(it) => it.side,
            None => Kind::Exists,
        }
    }

    /// The variables of a constraint, each once and ascending.
    pub fn own_of(&self, c: ConId) -> &[VarId] {
        match self.rules.get(c.0 as usize) {
            Some(it) => it.own.as_slice(),
            None => &[],
        }
    }

    /// The items of a clause of variables alone, each of which stands once. Of other constraints none.
    pub fn items_of(&self, c: ConId) -> &[TruthOf] {
        match self.rules.get(c.0 as usize) {
            Some(it) => it.items.as_slice(),
            None => &[],
        }
    }

    /// Whether it is such a clause.
    pub fn is_clause(&self, c: ConId) -> bool {
        !self.items_of(c).is_empty()
    }

    /// The sum of a linear constraint.
    pub fn linear_of(&self, c: ConId) -> Option<&Linear> {
        match self.rules.get(c.0 as usize) {
            Some(it) => it.linear.as_ref(),
            None => None,
        }
    }

    /// Who owns a scope. The goal is the player's.
    pub fn side_at(&self, scope: usize) -> Kind {
        match self.scopes.get(scope) {
            Some(it) => it.side,
            None => Kind::Exists,
        }
    }

    /// The first variable of a scope, and the one after its last.
    pub fn variables_at(&self, scope: usize) -> (usize, usize) {
        self.scopes
            .get(scope)
            .map_or((0, 0), |it| (it.first, it.end))
    }

    /// The first constraint of a scope or the goal, and the one after its last.
    pub fn rules_at(&self, scope: usize) -> (usize, usize) {
        self.scopes
            .get(scope)
            .map_or((0, 0), |it| (it.rules_first, it.rules_end))
    }

    /// Whether a scope has a restriction.
    pub fn is_restricted(&self, scope: usize) -> bool {
        let (first, end) = self.rules_at(scope);
        first < end
    }

    /// From this scope on, the scope after the last one whose constraints speak for a loser of this side: what comes later
    /// waits until the other side has kept its restrictions.
    pub fn reach_from(&self, side: Kind, scope: usize) -> usize {
        match self.scopes.get(scope) {
            Some(it) => match side {
                Kind::Exists => it.reach_exists,
                Kind::Forall => it.reach_forall,
            },
            None => 0,
        }
    }

    /// The constraints that mention a variable.
    pub fn wakers_of(&self, x: VarId) -> &[Waker] {
        match self.wakers.get(x.0 as usize) {
            Some(it) => it.as_slice(),
            None => &[],
        }
    }
}

/// The variable with this number.
pub fn variable_at(k: usize) -> VarId {
    VarId(u16::try_from(k).unwrap_or(u16::MAX))
}

/// The constraint with this number.
pub fn rule_at(k: usize) -> ConId {
    ConId(u16::try_from(k).unwrap_or(u16::MAX))
}
