//! Whether a position looks like another one: the same of each variable that is looked at from the scope on, and the same to
//! each constraint from there on.
//!
//! A number of what is seen tells most positions apart at once. It is a hash, so nothing rests on it.
ghost use Rattle.std.specs.Prelude.{◌≡◌, ◌<◌, ℕ, slice_index_or, pos, IfOk, IsTrue};
ghost use Rattle.proof_alike.specs.Alike.{is_looked_at};
ghost use Rattle.likeness.specs.Likeness.{ask_nothing, line_looks, SeenAlike};

use crate::Sight;
use crate::residues::{Residues, mixed};
use model_levels::{Level, Levels};
use proof_tree::Line;
use qc_model::{Problem, ScopeId, VarId};
use std::alloc::{AllocError, Global};
use std::marker::Model;

/// Whether no scope has a condition.
pub fn asks_nothing(problem: &Problem) -> bool
    ensures { IsTrue result → IsTrue (ask_nothing problem.now.scopes) }
{
    problem.known();
    for i in 0..problem.scopes() {
        if problem.scope(ScopeId(i as u8)).condition.is_some() {
            return false;
        }
    }
    true
}

/// What positions are compared by in a problem. A contract sees the game.
#[derive(Drop)]
pub struct Likeness<'p> {
    problem: &'p Problem,
    sight: Sight<'p>,
    residues: Residues,
}

impl<'p> Model for Likeness<'p> {
    ghost use Rattle.qc_model.specs.Content.{Game};
    ghost use Rattle.std.specs.Prelude.{◌≡◌};

    ghost Value = { Game };

    ghost view = { λ l. l.problem.now };

    ghost invariant = { λ l. l.sight ≡ l.problem.now };
}

impl<'p> Likeness<'p> {
    /// What positions of this problem are compared by, all scopes but the first with numbers. It fails only where memory runs
    /// out.
    pub fn new(alloc: Global, levels: &Levels<'p>) -> Result<Likeness<'p>, AllocError>
        ensures { IfOk result (λ likeness. likeness ≡ levels.now.problem.now) }
    {
        let wanted = later_scopes(alloc, levels.problem)?;
        let residues = Residues::new(alloc, levels, wanted.as_slice())?;
        let sight = Sight::new(alloc, levels)?;
        Ok(Likeness {
            problem: levels.problem,
            sight,
            residues,
        })
    }

    /// Whether x is looked at from scope i on. It takes constant time and no memory.
    pub fn looks_at(&self, i: ScopeId, x: VarId) -> bool
        ensures { result ≡ is_looked_at self.now i.0 x.0 }
    {
        self.sight.looks_at(i, x)
    }

    /// A number of the scope's position below this horizon, where the variables before the scope have these values. It is the
    /// same where positions look the same. None comes where the scope has no number.
    pub fn number(&self, level: &Level, horizon: Option<u8>, values: &[i64]) -> Option<u64> {
        level.problem.known();
        let mut number = mixed(self.residues.number(level, values)?, number_of(horizon));
        // the number of the residues is the same for some values of variables that are looked at, such as those of a set in
        // any order
        for x in 0..level.from {
            if self.looks_at(ScopeId(level.number), VarId(x as u16)) {
                number = mixed(number, value_at(values, x));
            }
        }
        Some(number)
    }

    /// Whether both have the same value in the place of each variable before the scope that is looked at from it on.
    fn agree(&self, level: &Level, kept: &[i64], here: &[i64]) -> bool
        ensures { IsTrue result → (x : ℕ) → x < level.now.from → IsTrue (is_looked_at self.now level.now.number x) → slice_index_or kept.now x (pos 0) ≡ slice_index_or here.now x (pos 0) }
    {
        level.problem.known();
        for x in 0..level.from {
            let is_seen = self.looks_at(ScopeId(level.number), VarId(x as u16));
            if is_seen && value_at(kept, x) != value_at(here, x) {
                return false;
            }
        }
        true
    }

    /// Whether both positions of the scope, the values of the variables before it, look the same from it on. It takes no
    /// memory.
    pub fn is_like(&self, level: &Level, kept: &[i64], here: &[i64]) -> bool
        requires game { level.now.problem.now ≡ self.now }
        ensures { IsTrue result → SeenAlike self.now level.now.number kept.now here.now }
    {
        self.agree(level, kept, here) && self.sight.sees_alike(ScopeId(level.number), kept, here)
    }

    /// Whether the line, where it removes values, removes those of a variable that is looked at from the scope on.
    pub fn is_line_looking(&self, level: &Level, line: Line) -> bool
        requires game { level.now.problem.now ≡ self.now }
        ensures { result ≡ line_looks level.now.problem.now level.now.number line }
    {
        match line {
            Line::Prune { x, .. } => self.looks_at(ScopeId(level.number), x),
            _ => true,
        }
    }
}

fn value_at(values: &[i64], x: usize) -> i64
    ensures { result ≡ slice_index_or values.now x (pos 0) }
{
    match values.get(x) {
        Some(value) => *value,
        None => 0,
    }
}

/// A number for each horizon, and one for none.
fn number_of(horizon: Option<u8>) -> i64 {
    match horizon {
        None => -1,
        Some(scope) => scope as i64,
    }
}

/// Every scope but the first, which has one node.
fn later_scopes(alloc: Global, problem: &Problem) -> Result<Vec<bool>, AllocError> {
    let mut wanted = vec![in alloc; true; problem.scopes()]?;
    if let Some(first) = wanted.get_mut(0) {
        *first = false;
    }
    Ok(wanted)
}
