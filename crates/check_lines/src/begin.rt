//! The machine before the first line, and lines in a row.
ghost use Rattle.std.specs.Prelude.{◌≡◌, ◌+◌, ◌≤◌, ℕ, Some, IfOk, length, Option as Maybe};
ghost use Rattle.check_lines.specs.Ledger.{Ledger as Kept};
ghost use Rattle.check_lines.specs.LedgerHeld.{first_ledger, goes_through};
ghost use Rattle.check_lines.specs.Machine.{game_of, base_of, CanBegin, IsReady};
ghost use Rattle.check_lines.specs.Telling.{TellsAfter};

use crate::bounds::Bounds;
use crate::machine::Machine;
use crate::nesting::Nesting;
use crate::open::Due;
use crate::reads::Reads;
use check_assignment::Assignment;
use check_box::Remains;
use joins::{Found, Joins};
use model_levels::Levels;
use proof_tree::Line;
use qc_model::Problem;
use std::alloc::{AllocError, Global};

impl<'p> Machine<'p> {
    /// The machine of a problem before the first line. It takes all memory, and fails only where that runs out.
    pub fn new(alloc: Global, problem: &'p Problem) -> Result<Machine<'p>, AllocError>
        ensures tells { IfOk result (λ m. TellsAfter 0 m (Some (first_ledger problem.now))) }
        ensures ready { IfOk result (λ m. IsReady m) }
        ensures same { IfOk result (λ m. game_of m ≡ problem.now) }
        ensures begins { IfOk result (λ m. CanBegin m) }
    {
        problem.known();
        // what owns most is made last: each `?` lets go of all that is there by then, which the proof pays for
        let nesting = Nesting::new(alloc)?;
        let reads = Reads::new(alloc, problem.variables())?;
        let bounds = Bounds::new(alloc, problem)?;
        let levels = Levels::new(alloc, problem)?;
        let values = Assignment::new(alloc, problem)?;
        let remains = Remains::new(alloc, problem)?;
        let joins = Joins::new(alloc, problem)?;
        Ok(Machine {
            levels,
            bounds,
            remains,
            joins,
            values,
            reads,
            nesting,
            due: Due::Node,
            number: 0,
            horizon: None,
            found: Found::Unknown,
            own: None,
            turns: 0,
            has_open: false,
        })
    }

    /// Begins again, before the first line, whatever lines were taken. It takes no memory.
    pub fn restart(&mut self)
        requires begins { CanBegin self.old }
        ensures tells { TellsAfter 0 self.new (Some (first_ledger (game_of self.old))) }
        ensures ready { IsReady self.new }
        ensures same { game_of self.new ≡ game_of self.old }
        ensures base { base_of self.new ≡ base_of self.old }
    {
        self.levels.problem.known();
        self.values.known();
        self.nesting.clear();
        self.remains.restart();
        self.reads.clear();
        self.due = Due::Node;
        self.number = 0;
        self.horizon = None;
        self.found = Found::Unknown;
        self.own = None;
        self.turns = 0;
        self.has_open = false;
    }

    /// Takes the lines one after the other.
    pub fn lines(&mut self, lines: &[Line])
        requires ready { IsReady self.old }
        ensures tells { (n : ℕ) (p : Maybe Kept) → n + length lines.now ≤ 4294967296 → TellsAfter n self.old p → TellsAfter (n + length lines.now) self.new (goes_through (game_of self.old) p lines.now) }
        ensures ready { IsReady self.new }
        ensures same { game_of self.new ≡ game_of self.old }
        ensures base { base_of self.new ≡ base_of self.old }
    {
        for line in lines {
            self.line(*line);
        }
    }
}
