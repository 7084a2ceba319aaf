//! A line in a scope's own tree, whatever it is.
ghost use Rattle.std.specs.Prelude.{◌≡◌, OnOk, List, ℤ};
ghost use Rattle.dense_ledger.specs.Ledger.{setting_of, part_line as part_line_of};
ghost use Rattle.dense_check.specs.Lines.{line_told};
ghost use Rattle.dense_check.specs.Telling.{game_of, here_in, InPart, PartGoes, IsGathered};

use crate::line::Line;
use crate::machine::DenseMachine;
use qc_model::VarId;
use std::alloc::AllocError;

impl<'p> DenseMachine<'p> {
    /// A line in a scope's own tree, below a bound or not.
    pub(crate) fn part_line(
        &mut self,
        bounded: bool,
        line: Line,
        tuple: &[i64],
    ) -> Result<(), AllocError>
        requires part { InPart self.old }
        ensures goes { OnOk result ((t : List ℤ) → IsGathered tuple.now t → PartGoes self.old self.new (λ d. part_line_of (setting_of (game_of self.old) d) d (here_in self.old bounded) (line_told line t))) }
        ensures same { game_of self.new ≡ game_of self.old }
    {
        match line {
            Line::Close => {
                self.close_line(bounded);
                Ok(())
            }
            Line::Bound { x, lo, hi } => {
                self.bound_line(bounded, x, lo, hi);
                Ok(())
            }
            Line::Reply => {
                self.reply_line(bounded, tuple);
                Ok(())
            }
            Line::Empty => self.empty_line(bounded),
            Line::Barred => self.barred_line(bounded),
            Line::Best => self.best_line(bounded),
            Line::NoPlay { scope } => self.dead_line(bounded, scope),
            Line::Next => self.next_line(bounded),
            Line::Chosen => self.chosen_line(bounded, tuple),
            Line::Branch { x } => self.branch_line(bounded, x),
            Line::Given { scope: _ } => self.refuse(),
            Line::Named => self.refuse(),
            Line::Horizon { scope: _ } => self.refuse(),
            Line::Stuck => self.refuse(),
            Line::Goal => self.refuse(),
            Line::Again { node: _ } => self.refuse(),
            Line::Range { high: _ } => self.refuse(),
            Line::Skip => self.refuse(),
            Line::Open => self.refuse(),
            Line::Dot => self.refuse(),
        }
    }
}
