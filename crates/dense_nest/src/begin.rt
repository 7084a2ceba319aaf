//! A nest before the first line, and what it says after the last.
ghost use Rattle.std.specs.Prelude.{◌≡◌, [], IfOk};
ghost use Rattle.dense_ledger.specs.Ledger.{first_ledger};
ghost use Rattle.dense_nest.specs.Telling.{game_of, Tells};

use crate::nest::Nest;
use crate::opened::Opened;
use crate::place::{Due, Entry, Spot};
use crate::told::Tally;
use check_box::Remains;
use joins::{Demands, Found, Joins};
use model_levels::Levels;
use qc_model::Problem;
use std::alloc::{AllocError, Global};

impl<'p> Nest<'p> {
    /// The nest of a problem before the first line. It fails only where memory runs out.
    pub fn new(alloc: Global, problem: &'p Problem) -> Result<Nest<'p>, AllocError>
        ensures tells { IfOk result (λ m. Tells m [] [] (first_ledger problem.now)) }
        ensures same { IfOk result (λ m. game_of m ≡ problem.now) }
    {
        problem.known();
        // those that have most to let go where a later one fails come last
        let tallies = vec![in alloc; Tally {
            size: 0,
            best: None,
            mixed: false
        }; problem.scopes()]?;
        let values = vec![in alloc; 0; problem.variables()]?;
        let levels = Levels::new(alloc, problem)?;
        let demands = Demands::new(alloc, problem)?;
        let remains = Remains::new(alloc, problem)?;
        let joins = Joins::new(alloc, problem)?;
        let spot = Spot {
            number: 0,
            horizon: None,
            loose: false,
            bounded: false,
        };
        let entry = Entry {
            spot,
            horizon: None,
            mark: remains.mark(),
            named: None,
            chosen: false,
        };
        Ok(Nest {
            alloc,
            levels,
            demands,
            remains,
            due: Due::Given,
            entry,
            named: Vec::new(alloc),
            joins,
            tallies,
            open: Opened::new(alloc),
            values,
            found: Found::Unknown,
            own: None,
            turns: 0,
            has_open: false,
        })
    }
}
