//! The cases of a branch.
ghost use Rattle.std.specs.Prelude.{◌≡◌, Option as Maybe, None, Some, OnOk, List, ℤ};
ghost use Rattle.dense_ledger.specs.Ledger.{setting_of, at_fork, case_line as case_line_of, fork_line as fork_line_of};
ghost use Rattle.dense_check.specs.Lines.{line_told};
ghost use Rattle.dense_check.specs.Telling.{game_of, enters_with, AtFork, ForkGoes, IsGathered};

use crate::line::Line;
use crate::machine::DenseMachine;
use std::alloc::AllocError;

impl<'p> DenseMachine<'p> {
    /// The first line of a case that is gone into.
    fn enter_line(&mut self, upto: Option<i64>, line: Line, tuple: &[i64]) -> Result<(), AllocError>
        requires fork { AtFork self.old }
        ensures goes { OnOk result ((t : List ℤ) → IsGathered tuple.now t → ForkGoes self.old self.new (λ d. at_fork d.frames (λ b fs. enters_with (setting_of (game_of self.old) d) d b fs upto (line_told line t)))) }
        ensures same { game_of self.new ≡ game_of self.old }
    {
        match self.nest.enter(upto) {
            None => Ok(()),
            Some(bounded) => self.part_line(bounded, line, tuple),
        }
    }

    /// A case of the branch that was opened last, with an upper value or without.
    pub(crate) fn case_line(
        &mut self,
        upto: Option<i64>,
        line: Line,
        tuple: &[i64],
    ) -> Result<(), AllocError>
        requires fork { AtFork self.old }
        ensures goes { OnOk result ((t : List ℤ) → IsGathered tuple.now t → ForkGoes self.old self.new (λ d. at_fork d.frames (λ b fs. case_line_of (setting_of (game_of self.old) d) d b fs upto (line_told line t)))) }
        ensures same { game_of self.new ≡ game_of self.old }
    {
        match line {
            Line::Skip => {
                self.nest.pass(upto, false);
                Ok(())
            }
            Line::Open => {
                self.nest.pass(upto, true);
                Ok(())
            }
            _ => self.enter_line(upto, line, tuple),
        }
    }

    /// A line where a case of the branch that was opened last is due.
    pub(crate) fn fork_line(&mut self, line: Line, tuple: &[i64]) -> Result<(), AllocError>
        requires fork { AtFork self.old }
        ensures goes { OnOk result ((t : List ℤ) → IsGathered tuple.now t → ForkGoes self.old self.new (λ d. at_fork d.frames (λ b fs. fork_line_of (setting_of (game_of self.old) d) d b fs (line_told line t)))) }
        ensures same { game_of self.new ≡ game_of self.old }
    {
        match line {
            Line::Dot => self.nest.end_cases(),
            Line::Range { high } => {
                self.nest.range(high);
                Ok(())
            }
            _ => self.case_line(None, line, tuple),
        }
    }
}
