//! The boxes on the way as their callers see them.
ghost use Rattle.std.specs.Prelude.{◌≡◌, ◌≤◌, [], suc, length, IfOk, IsTrue, IsFalse};
ghost use Rattle.qc_model.specs.Domains.{has_empty};
ghost use Rattle.model_arguments.specs.Asked.{is_box_of};
ghost use Rattle.qc_cascade.specs.Ahead.{IsOpen};

use crate::entry::Entry;
use crate::seeing::see_within;
use fd_store::Store;
use model_levels::Levels;
use proof_tree::StepList;
use prop_engine::Engine;
use prop_families::Families;
use qc_model::{Problem, ScopeId, VarId};
use std::alloc::{AllocError, Global};
use std::marker::Model;

/// Boxes that are closed for the constraints of all scopes ahead, along the way to a node.
///
/// A clause sees the game alone. The box that is found at a node of one scope is where the search for one begins at the nodes
/// below: only what changed since is narrowed, and only the constraints that this wakes run. Nodes are to be asked for in the
/// order in which they are gone through, for speed alone: a box found at a node of scope i is given up at the next node of a
/// scope that isn't later.
#[derive(Drop)]
pub struct Joint<'p> {
    problem: &'p Problem,
    alloc: Global,
    store: Store,
    engine: Engine,
    changed: Vec<VarId>,
    entries: Vec<Entry>,
    // Room for the steps of a closing, which nobody asks for.
    steps: StepList,
}

impl<'p> Model for Joint<'p> {
    ghost use Rattle.qc_model.specs.Content.{Game};
    ghost use Rattle.search_joint.specs.Stacked.{IsAtRest};

    ghost Value = { Game };

    ghost view = { λ j. j.problem.now };

    ghost invariant = { λ j. IsAtRest j.problem.now j.engine j.store j.entries.items };
}

impl<'p> Joint<'p> {
    /// No box on the way yet. It fails only where memory runs out.
    pub fn new(alloc: Global, problem: &'p Problem) -> Result<Joint<'p>, AllocError>
        ensures { IfOk result (λ j. j ≡ problem.now) }
    {
        problem.known();
        let store = Store::new(alloc, problem)?;
        let engine = Engine::new(alloc, problem)?;
        Ok(Joint {
            problem,
            alloc,
            store,
            engine,
            changed: Vec::new(alloc),
            entries: Vec::new(alloc),
            steps: StepList::new(alloc),
        })
    }

    /// Whether a box within this one is found that is closed for the constraints of the scopes from i to the one before
    /// `stop`, where the goal has the number of scopes, and has no empty domain. `false` says nothing. It fails only where
    /// memory runs out.
    pub fn sees_through(
        &mut self,
        levels: &Levels,
        i: ScopeId,
        stop: usize,
        within: &Store,
    ) -> Result<bool, AllocError>
        requires game { self.old ≡ levels.now.problem.now }
        requires stop { stop ≤ suc (length levels.now.problem.now.scopes) }
        requires declared { IsTrue (is_box_of levels.now.problem.now within.now.box) }
        requires full { IsFalse (has_empty within.now.box) }
        ensures seen { IfOk result (λ ok. IsTrue ok → IsOpen levels.now.problem.now i.0 stop within.now.box []) }
        ensures game { self.new ≡ self.old }
    {
        if stop <= i.0 as usize {
            return Ok(true);
        }
        see_within(
            &Families {},
            self.alloc,
            levels,
            i,
            stop,
            within,
            &mut self.changed,
            &mut self.entries,
            &mut self.engine,
            &mut self.store,
            &mut self.steps,
        )
    }
}
