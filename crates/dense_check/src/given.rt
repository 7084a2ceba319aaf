//! Tuples that are given before the tree, and its first line.
ghost use Rattle.std.specs.Prelude.{◌≡◌, OnOk, List, ℤ};
ghost use Rattle.dense_ledger.specs.Ledger.{Ledger as Kept, given_due, given_after, first_line as first_line_of};
ghost use Rattle.dense_nest.specs.declared.place.Due.TheVariants as due_as;
ghost use Rattle.dense_check.specs.Lines.{line_told};
ghost use Rattle.dense_check.specs.Telling.{game_of, IsAtRoot, TellsOf, IsGathered};

use crate::line::Line;
use crate::machine::DenseMachine;
use dense_box::may_give;
use qc_model::ScopeId;
use std::alloc::AllocError;

impl<'p> DenseMachine<'p> {
    /// `u`: a tuple that the opponent can always take at a scope of his.
    fn given_line(&mut self, scope: ScopeId, tuple: &[i64])
        requires root { (d : Kept) × IsAtRoot self.old d }
        requires due { self.old.nest.due ≡ due_as.Given }
        ensures goes { (t : List ℤ) → IsGathered tuple.now t → (d : Kept) → IsAtRoot self.old d → d.due ≡ given_due → TellsOf self.new (given_after (game_of self.old) d (record { scope = scope; tuple = t })) }
        ensures same { game_of self.new ≡ game_of self.old }
    {
        self.nest.levels.problem.known();
        if !self.freedom.comes_next(scope) {
            self.nest.refuse();
            return;
        }
        let nest = &mut self.nest;
        if !may_give(&nest.levels, scope, &mut nest.remains, tuple) {
            self.nest.refuse();
            return;
        }
        self.freedom.give(scope);
    }

    /// A line where a given tuple is due, or the root.
    pub(crate) fn first_line(&mut self, line: Line, tuple: &[i64]) -> Result<(), AllocError>
        requires root { (d : Kept) × IsAtRoot self.old d }
        requires due { self.old.nest.due ≡ due_as.Given }
        ensures goes { OnOk result ((t : List ℤ) → IsGathered tuple.now t → (d : Kept) → IsAtRoot self.old d → d.due ≡ given_due → TellsOf self.new (first_line_of (game_of self.old) d (line_told line t))) }
        ensures same { game_of self.new ≡ game_of self.old }
    {
        match line {
            Line::Given { scope } => {
                self.given_line(scope, tuple);
                Ok(())
            }
            _ => self.node_line(self.nest.entry, line, tuple),
        }
    }
}
