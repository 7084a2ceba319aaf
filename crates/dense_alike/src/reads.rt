//! Which earlier variables are read, and which are seen.
ghost use Rattle.std.specs.Prelude.{◌≡◌, ◌<◌, ◌≤◌, length, IfOk};
ghost use Rattle.qc_model.specs.Game.{before};
ghost use Rattle.proof_alike.specs.Alike.{is_looked_at, is_seen};
ghost use Rattle.dense_tree.specs.Alike.{is_read};

use crate::marks::marks_of;
use likeness::Sight;
use model_levels::Levels;
use qc_model::{Problem, ScopeId, VarId};
use std::alloc::{AllocError, Global};
use std::marker::Model;

/// Which earlier variables are read from each scope on: by a constraint of that scope or a later one, or of the goal, or by a
/// condition or an aggregate; and which are seen one by one. A contract sees the game.
#[derive(Drop)]
pub(crate) struct Reads<'p> {
    problem: &'p Problem,
    sight: Sight<'p>,
    /// For each variable the number after the last scope from which on some constraint has it.
    stops: Vec<u8>,
}

impl<'p> Model for Reads<'p> {
    ghost use Rattle.std.specs.Prelude.{◌≡◌};
    ghost use Rattle.qc_model.specs.Content.{Game};
    ghost use Rattle.dense_alike.specs.Marked.{AreMarksOf};

    ghost Value = { Game };

    ghost view = { λ r. r.problem.now };

    ghost invariant = { λ r. (r.sight ≡ r.problem.now) × AreMarksOf r.problem.now r.stops.items };
}

impl<'p> Reads<'p> {
    /// What is read in this problem, found in two passes over it. It fails only where memory runs out.
    pub(crate) fn new(alloc: Global, levels: &Levels<'p>) -> Result<Reads<'p>, AllocError>
        ensures { IfOk result (λ reads. reads ≡ levels.now.problem.now) }
    {
        let sight = Sight::new(alloc, levels)?;
        let stops = marks_of(alloc, levels.problem)?;
        Ok(Reads {
            problem: levels.problem,
            sight,
            stops,
        })
    }

    /// Whether x is looked at from scope i on. It takes constant time and no memory.
    pub(crate) fn looks_at(&self, i: ScopeId, x: VarId) -> bool
        ensures { result ≡ is_looked_at self.now i.0 x.0 }
    {
        self.sight.looks_at(i, x)
    }

    /// Whether x, a variable of an earlier scope, is seen from scope i on.
    pub(crate) fn is_seen(&self, i: ScopeId, x: VarId) -> bool
        requires { x.0 < before self.now i.0 }
        ensures { result ≡ is_seen self.now i.0 x.0 }
    {
        self.sight.looks_at(i, x)
    }

    /// Whether x, a variable of an earlier scope, is read from scope i on.
    pub(crate) fn is_read(&self, i: ScopeId, x: VarId) -> bool
        requires scope { i.0 ≤ length self.now.scopes }
        requires early { x.0 < before self.now i.0 }
        ensures { result ≡ is_read self.now i.0 x.0 }
    {
        self.problem.known();
        i.0 < self.stops[x.0 as usize] || self.sight.looks_at(i, x)
    }
}
