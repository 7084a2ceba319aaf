//! The machine before the first line.
ghost use Rattle.std.specs.Prelude.{◌≡◌, IfOk};
ghost use Rattle.dense_ledger.specs.Ledger.{first_ledger};
ghost use Rattle.dense_check.specs.Telling.{game_of, Tells};

use crate::machine::DenseMachine;
use dense_alike::Positions;
use dense_box::{Freedom, Wishes};
use dense_close::Closer;
use dense_nest::Nest;
use qc_model::Problem;
use std::alloc::{AllocError, Global};

impl<'p> DenseMachine<'p> {
    /// The machine of a problem before the first line. It fails only where memory runs out.
    pub fn new(alloc: Global, problem: &'p Problem) -> Result<DenseMachine<'p>, AllocError>
        ensures tells { IfOk result (λ m. Tells m (first_ledger problem.now)) }
        ensures same { IfOk result (λ m. game_of m ≡ problem.now) }
    {
        let wishes = Wishes::new(alloc, problem)?;
        let nest = Nest::new(alloc, problem)?;
        let freedom = Freedom::new(alloc, &nest.levels)?;
        let positions = Positions::new(alloc, &nest.levels)?;
        // last, since it has most to let go where a later one fails
        let closer = Closer::new(alloc, problem)?;
        Ok(DenseMachine {
            nest,
            closer,
            freedom,
            wishes,
            positions,
        })
    }
}
