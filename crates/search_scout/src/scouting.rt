//! The scout as its callers see it.
ghost use Rattle.std.specs.Prelude.{◌≡◌, IfOk};

use crate::chance::Chance;
use crate::ground::{Ground, Wish};
use crate::improving::best_from;
use crate::restarts::search_from;
use fd_store::Store;
use model_levels::Levels;
use proof_tree::StepList;
use prop_engine::Engine;
use qc_model::{Problem, ScopeId, Sense, VarId};
use std::alloc::{AllocError, Global};
use std::marker::Model;

/// Looks for tuples of a problem's scopes, on a store of its own.
///
/// A clause sees the game alone. A look takes memory only for the trail, whose pages are kept, and for what filters
/// remove.
#[derive(Drop)]
pub struct Scout<'p> {
    levels: Levels<'p>,
    ground: Ground,
}

impl<'p> Model for Scout<'p> {
    ghost use Rattle.qc_model.specs.Content.{Game};
    ghost use Rattle.search_scout.specs.Ground.{IsAtRest};

    ghost Value = { Game };

    ghost view = { λ s. s.levels.problem.now };

    ghost invariant = { λ s. IsAtRest s.levels.problem.now s.ground.engine s.ground.store };
}

impl<'p> Scout<'p> {
    /// A scout for this problem. It fails only where memory runs out.
    pub fn new(alloc: Global, problem: &'p Problem) -> Result<Scout<'p>, AllocError>
        ensures { IfOk result (λ s. s ≡ problem.now) }
    {
        problem.known();
        let levels = Levels::new(alloc, problem)?;
        let store = Store::new(alloc, problem)?;
        let engine = Engine::new(alloc, problem)?;
        let values = vec![in alloc; 0i64; problem.variables()]?;
        let ground = Ground {
            alloc,
            store,
            engine,
            values,
            steps: StepList::new(alloc),
            turns: 0,
            varies: false,
            wish: None,
            chance: Chance::new(),
        };
        Ok(Scout { levels, ground })
    }

    /// Looks for a tuple of the scope that the constraints in force there allow, where the variables before the scope have
    /// these values, and says whether it found one: its values then stand in the places of the scope's variables. At most
    /// so many values are taken.
    pub fn look(&mut self, scope: ScopeId, before: &[i64], turns: u64) -> Result<bool, AllocError>
        ensures { self.new ≡ self.old }
    {
        if scope.0 as usize >= self.levels.problem.scopes() {
            return Ok(false);
        }
        let level = self.levels.level(scope);
        self.ground.wish = None;
        let mark = self.ground.store.mark();
        let found = search_from(level, before, turns, &mut self.ground);
        self.ground.store.undo_to(mark);
        found
    }

    /// Looks for tuples of the scope as `look` does, with better and better values of the objective, which is a variable of
    /// the scope: the best value that it found. The tuple then stands in the places of the scope's variables.
    pub fn look_best(
        &mut self,
        scope: ScopeId,
        before: &[i64],
        turns: u64,
        sense: Sense,
        objective: VarId,
    ) -> Result<Option<i64>, AllocError>
        ensures { self.new ≡ self.old }
    {
        let scopes = self.levels.problem.scopes();
        if scopes <= scope.0 as usize {
            return Ok(None);
        }
        let level = self.levels.level(scope);
        let at = objective.0 as usize;
        if at < level.from || at >= level.stop {
            return Ok(None);
        }
        let wish = Wish { sense, objective };
        self.ground.wish = Some(wish);
        best_from(level, before, turns, wish, &mut self.ground)
    }

    /// The values in the places of all variables.
    pub fn values(&self) -> &[i64] {
        self.ground.values.as_slice()
    }
}
