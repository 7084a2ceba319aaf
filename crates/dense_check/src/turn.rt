//! One line after the other.
ghost use Rattle.std.specs.Prelude.{◌≡◌, ◌≤◌, length, Option as Maybe, OnOk, IfNone, IfSome, List, ℤ, None};
ghost use Rattle.dense_ledger.specs.Ledger.{Ledger as Kept, goes};
ghost use Rattle.dense_nest.specs.Answers.{IsUnended, IsAnswer};
ghost use Rattle.dense_check.specs.Lines.{line_told};
ghost use Rattle.dense_check.specs.Telling.{game_of, IsReady, Tells, TellsOf, IsGathered};

use crate::line::Line;
use crate::machine::DenseMachine;
use dense_nest::{Answer, Due};
use std::alloc::AllocError;

impl<'p> DenseMachine<'p> {
    /// Takes the next line; of a tuple beside it the values, or the first 501 where there are more, which no scope has. Once a line was
    /// out of place all others are passed over.
    ///
    /// It fails where memory runs out, for what is open or for a named node, and where the numbers of a scope's leaves are larger
    /// together than 64 bits hold; the machine is of no use any more then.
    pub fn take(&mut self, line: Line, tuple: &[i64]) -> Result<(), AllocError>
        requires ready { IsReady self.old }
        requires few { length tuple.now ≤ 501 }
        ensures goes { OnOk result ((t : List ℤ) → IsGathered tuple.now t → (p : Maybe Kept) → TellsOf self.old p → TellsOf self.new (goes (game_of self.old) p (line_told line t))) }
        ensures ready { OnOk result (IsReady self.new) }
        ensures same { game_of self.new ≡ game_of self.old }
    {
        match self.nest.due {
            Due::Given => self.first_line(line, tuple),
            Due::Node(e) => self.node_line(e, line, tuple),
            Due::Named(e) => self.named_body_line(e, line, tuple),
            Due::Body(e) => self.body_line(e, line, tuple),
            Due::Part { bounded } => self.part_line(bounded, line, tuple),
            Due::Case => self.fork_line(line, tuple),
            Due::Ranged { high } => self.case_line(Some(high), line, tuple),
            Due::Ended => self.refuse(),
            Due::Wrong => Ok(()),
        }
    }

    /// What the lines so far come to; None where a line was out of place, or where they aren't those of a whole certificate.
    pub fn answer(&self) -> Option<Answer>
        ensures wrong { TellsOf self.now None → result ≡ None }
        ensures none { IfNone result ((d : Kept) → Tells self.now d → IsUnended d) }
        ensures some { IfSome result (λ a. (d : Kept) → Tells self.now d → IsAnswer d a) }
    {
        self.nest.answer()
    }
}
