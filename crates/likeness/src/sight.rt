//! What is looked at, told from one number for each variable.
ghost use Rattle.std.specs.Prelude.{◌≡◌, nat_le, map, IfOk, IsTrue};
ghost use Rattle.proof_alike.specs.Alike.{is_looked_at, sees};
ghost use Rattle.qc_model.specs.Content.{Rule};
ghost use Rattle.qc_model.specs.Lists.{Among};
ghost use Rattle.likeness.specs.Seeing.{SeeAlike};

use crate::clauses::are_clauses_alike;
use crate::pluses::are_pluses_alike;
use crate::reading::{Reading, reading_of};
use crate::sources::{mark_seen, own_scopes, telling_rules};
use crate::sums::are_sums_alike;
use model_arguments::arguments;
use model_levels::Levels;
use qc_model::{Constraint, Problem, ScopeId, VarId};
use std::alloc::{AllocError, Global};
use std::marker::Model;

/// Which variables are looked at from each scope on: its own and later ones, those that a constraint from there on, or
/// of the goal, reads by value, and those of conditions and aggregates; and what sums and clauses see of the others. A
/// contract sees the game.
#[derive(Drop)]
pub struct Sight<'p> {
    problem: &'p Problem,
    // For each variable the last scope from which on it is looked at.
    upto: Vec<u8>,
    // The sums and clauses, in order.
    telling: Vec<&'p Constraint>,
}

impl<'p> Model for Sight<'p> {
    ghost use Rattle.qc_model.specs.Content.{Game};
    ghost use Rattle.likeness.specs.Seeing.{IsSightOf};

    ghost Value = { Game };

    ghost view = { λ s. s.problem.now };

    ghost invariant = { λ s. IsSightOf s.problem.now s.upto.items s.telling.items };
}

impl<'p> Sight<'p> {
    /// What is looked at in this problem, found in one pass over it. It fails only where memory runs out.
    pub fn new(alloc: Global, levels: &Levels<'p>) -> Result<Sight<'p>, AllocError>
        ensures { IfOk result (λ sight. sight ≡ levels.now.problem.now) }
    {
        let problem = levels.problem;
        problem.known();
        let mut upto = own_scopes(alloc, problem)?;
        mark_seen(alloc, problem, &mut upto)?;
        let telling = telling_rules(alloc, problem)?;
        Ok(Sight {
            problem,
            upto,
            telling,
        })
    }

    /// Whether x is looked at from scope i on. It takes constant time and no memory.
    pub fn looks_at(&self, i: ScopeId, x: VarId) -> bool
        ensures { result ≡ is_looked_at self.now i.0 x.0 }
    {
        match self.upto.get(x.0 as usize) {
            Some(last) => i.0 <= *last,
            None => true,
        }
    }

    /// Whether each constraint of a scope from i on, or of the goal, sees the same of both values of the first variables,
    /// besides what it reads by value: a sum comes to the same, and so does a + b = c, and a clause is satisfied by both, or
    /// by neither and has the same values. A sum that overflows 128 bits counts as different. It takes no memory.
    pub fn sees_alike(&self, i: ScopeId, kept: &[i64], here: &[i64]) -> bool
        ensures { IsTrue result → SeeAlike self.now i.0 kept.now here.now }
    {
        are_rules_alike(self, i, &self.telling, kept, here)
    }
}

/// Whether the constraint sees the same of both values.
fn is_rule_alike(sight: &Sight, i: ScopeId, rule: &Constraint, kept: &[i64], here: &[i64]) -> bool
    ensures { IsTrue result → sees sight.now i.0 kept.now rule.now ≡ sees sight.now i.0 here.now rule.now }
{
    match reading_of(rule) {
        Reading::Sum => are_sums_alike(arguments(rule), kept, here),
        Reading::Plus => are_pluses_alike(arguments(rule), kept, here),
        Reading::Clause => are_clauses_alike(sight, i, rule, kept, here),
        Reading::Value => true,
    }
}

/// Whether each of these constraints that is of a scope from i on, or of the goal, sees the same of both values.
fn are_rules_alike(
    sight: &Sight,
    i: ScopeId,
    rules: &[&Constraint],
    kept: &[i64],
    here: &[i64],
) -> bool
    ensures { IsTrue result → (c : Rule) → Among c (map (λ r. r.now) rules.now) → IsTrue (nat_le i.0 c.owner.0) → sees sight.now i.0 kept.now c ≡ sees sight.now i.0 here.now c }
{
    for rule in rules {
        if i.0 <= rule.owner.0 && !is_rule_alike(sight, i, rule, kept, here) {
            return false;
        }
    }
    true
}
