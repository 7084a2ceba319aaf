//! What a walk over a tree reads of a problem, and never changes.
ghost use Rattle.std.specs.Prelude.{◌≡◌, IfOk};
ghost use Rattle.joins.specs.DemandLists.{HasLists};

use joins::Demands;
use model_levels::Levels;
use qc_model::Problem;
use std::alloc::{AllocError, Global};

/// A problem beside its scopes and what is demanded of each, looked up once.
#[derive(Drop)]
pub(crate) struct Tables<'p> {
    pub(crate) alloc: Global,
    pub(crate) levels: Levels<'p>,
    pub(crate) demands: Demands,
}

impl<'p> Tables<'p> {
    /// The tables of a problem. It fails only where memory runs out.
    pub(crate) fn new(alloc: Global, problem: &'p Problem) -> Result<Tables<'p>, AllocError>
        ensures same { IfOk result (λ t. t.levels.problem.now ≡ problem.now) }
        ensures lists { IfOk result (λ t. HasLists problem.now t.demands) }
    {
        let levels = Levels::new(alloc, problem)?;
        let demands = Demands::new(alloc, problem)?;
        Ok(Tables {
            alloc,
            levels,
            demands,
        })
    }
}
