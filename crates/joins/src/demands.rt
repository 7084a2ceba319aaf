//! The demanded lists of a problem.
ghost use Rattle.std.specs.Prelude.{◌≡◌, ◌≤◌, ◌<◌, length, IfOk};
ghost use Rattle.qc_model.specs.Content.{Game};
ghost use Rattle.qc_model.specs.Demands.{demands as demands_of};

use qc_model::{Condition, Problem, ScopeId};
use std::alloc::{AllocError, Global};

/// The demanded list of each scope, and of the goal.
#[derive(Drop)]
pub struct Demands {
    pub(crate) lists: Vec<Vec<Condition>>,
}

impl Demands {
    ghost use Rattle.joins.specs.DemandLists.{HasLists};

    /// The lists of a problem.
    pub fn new(alloc: Global, problem: &Problem) -> Result<Demands, AllocError>
        ensures { IfOk result (HasLists problem.now) }
    {
        problem.known();
        let count = problem.scopes();
        let mut lists = Vec::with_capacity(alloc, count + 1)?;
        lists.push(Vec::new(alloc))?;
        for i in 0..count {
            let list = problem.list_after(problem.scope(ScopeId(i as u8)), lists[i].as_slice());
            lists.push(Vec::from_slice(alloc, list.entries())?)?;
        }
        Ok(Demands { lists })
    }

    /// The list of a scope, or of the goal.
    pub fn list(&self, i: ScopeId) -> &[Condition]
        requires { i.0 < length self.now.lists.items }
        ensures { (g : Game) → HasLists g self.now → result.now ≡ demands_of g i.0 }
    {
        self.lists[i.0 as usize].as_slice()
    }
}
