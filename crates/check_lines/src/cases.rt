//! What the machine does at the lines of a branch.
ghost use Rattle.std.specs.Prelude.{◌≡◌, ◌∷◌, ◌||◌, true};
ghost use Rattle.check_lines.specs.State.{may_take};
ghost use Rattle.check_lines.specs.Places.{rest};
ghost use Rattle.check_lines.specs.Ledger.{at_entry, ledger_case, ledger_fork};
ghost use Rattle.check_lines.specs.Machine.{game_of, base_of, fork_at, IsWithin, IsAtFork, IsReady};
ghost use Rattle.check_lines.specs.Telling.{PartTells, GoesInto, skips, takes};
ghost use Rattle.check_lines.specs.declared.open.Open.TheVariants as open_as;
ghost use Rattle.proof_tree.specs.declared.line.Line.TheVariants as line_of;

use crate::machine::Machine;
use crate::open::{Due, Open};
use check_box::case_ends;
use fd_store::Mark;
use proof_tree::Line;
use qc_model::{ScopeId, VarId};

/// Whether one of the two is so.
fn either(one: bool, other: bool) -> bool
    ensures { result ≡ (one || other) }
{
    one || other
}

impl<'p> Machine<'p> {
    /// A case that isn't gone into.
    #[inline(always)]
    fn skip_line(&mut self, x: VarId, mark: Mark, from: i64, upto: Option<i64>, is_open: bool)
        requires fork { IsAtFork self.old }
        requires top { self.old.nesting ≡ open_as.Branch x mark from ∷ rest self.old.nesting }
        ensures tells { PartTells self.old self.new (λ d. at_entry d.entries (λ b fs. skips d b fs upto is_open)) }
        ensures ready { IsReady self.new }
        ensures same { game_of self.new ≡ game_of self.old }
        ensures base { base_of self.new ≡ base_of self.old }
    {
        match case_ends(self.remains.store(), x, from, upto) {
            None => self.due = Due::Wrong,
            Some(ends) => {
                self.nesting.set_top(Open::Branch {
                    x,
                    mark,
                    from: ends.last + 1,
                });
                self.joins.add_skipped(ScopeId(self.number));
                self.has_open = either(self.has_open, is_open);
                self.due = Due::Case;
            }
        }
    }

    /// Goes into a case of the last branch, and says whether that may be done.
    #[inline(always)]
    fn take_case(&mut self, x: VarId, mark: Mark, from: i64, upto: Option<i64>) -> bool
        requires fork { IsAtFork self.old }
        requires top { self.old.nesting ≡ open_as.Branch x mark from ∷ rest self.old.nesting }
        ensures taken { result ≡ may_take upto (fork_at self.old.remains x mark from) }
        ensures into { result ≡ true → GoesInto self.old self.new (fork_at self.old.remains x mark from) upto }
        ensures within { result ≡ true → IsWithin self.new }
        ensures same { game_of self.new ≡ game_of self.old }
        ensures base { base_of self.new ≡ base_of self.old }
    {
        let Some(ends) = case_ends(self.remains.store(), x, from, upto) else {
            return false;
        };
        // the branch moves on before the values go, while its place is at hand: a case that isn't taken ends all
        self.nesting.set_top(Open::Branch {
            x,
            mark,
            from: ends.last + 1,
        });
        let before = self.remains.store().size(x);
        self.remains.keep(x, ends.first, ends.last);
        if self.remains.store().size(x) == before {
            return false;
        }
        self.turns = self.turns.saturating_add(1);
        true
    }

    /// The first line of a case that is gone into.
    #[inline(always)]
    fn case_line(&mut self, x: VarId, mark: Mark, from: i64, upto: Option<i64>, line: Line)
        requires fork { IsAtFork self.old }
        requires top { self.old.nesting ≡ open_as.Branch x mark from ∷ rest self.old.nesting }
        ensures tells { PartTells self.old self.new (λ d. at_entry d.entries (λ b fs. takes (game_of self.old) d b fs upto line)) }
        ensures ready { IsReady self.new }
        ensures same { game_of self.new ≡ game_of self.old }
        ensures base { base_of self.new ≡ base_of self.old }
    {
        if self.take_case(x, mark, from, upto) {
            self.at_end(line);
        } else {
            self.due = Due::Wrong;
        }
    }

    /// A case of the last branch, with an upper value or without.
    #[inline(always)]
    pub(crate) fn at_case(&mut self, x: VarId, mark: Mark, from: i64, upto: Option<i64>, line: Line)
        requires fork { IsAtFork self.old }
        requires top { self.old.nesting ≡ open_as.Branch x mark from ∷ rest self.old.nesting }
        ensures tells { PartTells self.old self.new (λ d. at_entry d.entries (λ b fs. ledger_case (game_of self.old) d b fs upto line)) }
        ensures ready { IsReady self.new }
        ensures same { game_of self.new ≡ game_of self.old }
        ensures base { base_of self.new ≡ base_of self.old }
    {
        match line {
            Line::Skip => self.skip_line(x, mark, from, upto, false),
            Line::Open => self.skip_line(x, mark, from, upto, true),
            Line::Prune { .. } => self.case_line(x, mark, from, upto, line),
            Line::Bound { .. } => self.case_line(x, mark, from, upto, line),
            Line::Empty => self.case_line(x, mark, from, upto, line),
            Line::Barred => self.case_line(x, mark, from, upto, line),
            Line::Next => self.case_line(x, mark, from, upto, line),
            Line::Branch { .. } => self.case_line(x, mark, from, upto, line),
            Line::Horizon { .. } => self.case_line(x, mark, from, upto, line),
            Line::Dot => self.case_line(x, mark, from, upto, line),
            Line::Stuck => self.case_line(x, mark, from, upto, line),
            Line::Goal => self.case_line(x, mark, from, upto, line),
            Line::Range { .. } => self.case_line(x, mark, from, upto, line),
        }
    }

    /// The dot after the cases of the last branch.
    fn dot_line(&mut self, x: VarId, mark: Mark, from: i64)
        requires fork { IsAtFork self.old }
        requires top { self.old.nesting ≡ open_as.Branch x mark from ∷ rest self.old.nesting }
        ensures tells { PartTells self.old self.new (λ d. at_entry d.entries (λ b fs. ledger_fork (game_of self.old) d b fs line_of.Dot)) }
        ensures ready { IsReady self.new }
        ensures same { game_of self.new ≡ game_of self.old }
        ensures base { base_of self.new ≡ base_of self.old }
    {
        let _ = mark;
        if self.remains.store().next(x, from).is_some() {
            self.due = Due::Wrong;
            return;
        }
        self.nesting.pop();
        self.close_part();
    }

    /// A line where a case of the last branch is due.
    #[inline(always)]
    pub(crate) fn at_fork(&mut self, x: VarId, mark: Mark, from: i64, line: Line)
        requires fork { IsAtFork self.old }
        requires top { self.old.nesting ≡ open_as.Branch x mark from ∷ rest self.old.nesting }
        ensures tells { PartTells self.old self.new (λ d. at_entry d.entries (λ b fs. ledger_fork (game_of self.old) d b fs line)) }
        ensures ready { IsReady self.new }
        ensures same { game_of self.new ≡ game_of self.old }
        ensures base { base_of self.new ≡ base_of self.old }
    {
        match line {
            Line::Dot => self.dot_line(x, mark, from),
            Line::Range { hi } => self.due = Due::Ranged { high: hi },
            Line::Skip => self.at_case(x, mark, from, None, line),
            Line::Open => self.at_case(x, mark, from, None, line),
            Line::Prune { .. } => self.at_case(x, mark, from, None, line),
            Line::Bound { .. } => self.at_case(x, mark, from, None, line),
            Line::Empty => self.at_case(x, mark, from, None, line),
            Line::Barred => self.at_case(x, mark, from, None, line),
            Line::Next => self.at_case(x, mark, from, None, line),
            Line::Branch { .. } => self.at_case(x, mark, from, None, line),
            Line::Horizon { .. } => self.at_case(x, mark, from, None, line),
            Line::Stuck => self.at_case(x, mark, from, None, line),
            Line::Goal => self.at_case(x, mark, from, None, line),
        }
    }
}
