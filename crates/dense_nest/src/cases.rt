//! What becomes of the cases of a branch.
ghost use Rattle.std.specs.Prelude.{◌≡◌, ◌∷◌, ◌+ℤ◌, pos, IsTrue, true, false, Some, None, List, OnOk, IfNone, IfSome};
ghost use Rattle.qc_model.specs.Domains.{Box, is_none_left};
ghost use Rattle.qc_model.specs.Valid.{is_number};
ghost use Rattle.dense_tree.specs.Tree.{Given};
ghost use Rattle.dense_ledger.specs.Ledger.{Ledger as Kept, Fork as ForkTold, Frame, setting_of, at_fork, passed, gone_into, may_go, case_place, only_ledger, part_ended, ranged_due};
ghost use Rattle.dense_nest.specs.Opened.{rest, IsUnforked};
ghost use Rattle.dense_nest.specs.declared.place.Open.TheVariants as open_as;
ghost use Rattle.dense_nest.specs.declared.place.Due.TheVariants as due_as;
ghost use Rattle.dense_nest.specs.Telling.{game_of, here_in, IsAtFork, IsPart, TellsOf};
ghost use Rattle.dense_nest.specs.Goes.{AtFork, ForkGoes, EntersCase};

use crate::nest::Nest;
use crate::place::{Due, Fork, Open};
use check_box::{Ends, case_ends};
use std::alloc::AllocError;

impl<'p> Nest<'p> {
    /// The branch that was opened last.
    pub(crate) fn fork(&self) -> Option<Fork>
        ensures none { IfNone result (IsUnforked self.now.open) }
        ensures some { IfSome result (λ k. self.now.open ≡ open_as.Forked k ∷ rest self.now.open) }
    {
        match self.open.top() {
            Some(Open::Forked(k)) => Some(k),
            Some(Open::Waiting(_)) => None,
            None => None,
        }
    }

    /// The branch that was opened last goes on behind a case.
    fn move_on(&mut self, k: Fork, ends: Ends)
        requires top { self.old.open ≡ open_as.Forked k ∷ rest self.old.open }
        requires number { IsTrue (is_number ends.last) }
        ensures { self.new ≡ record self.old { «open» = open_as.Forked (record k { from = ends.last +ℤ pos 1 }) ∷ rest self.old.open } }
    {
        self.open.set_top(Open::Forked(Fork {
            x: k.x,
            mark: k.mark,
            from: ends.last + 1,
            bounded: k.bounded,
        }));
    }

    /// A case goes up to this value: what it is comes next.
    pub fn range(&mut self, high: i64)
        requires fork { AtFork self.old }
        ensures goes { ForkGoes self.old self.new (λ d. at_fork d.frames (λ b fs. Some (record d { due = ranged_due high }))) }
        ensures same { game_of self.new ≡ game_of self.old }
    {
        self.due = Due::Ranged { high };
    }

    /// A case that isn't gone into, and may be left open.
    pub fn pass(&mut self, upto: Option<i64>, is_open: bool)
        requires fork { AtFork self.old }
        ensures goes { ForkGoes self.old self.new (λ d. at_fork d.frames (λ b fs. passed d b fs upto is_open)) }
        ensures same { game_of self.new ≡ game_of self.old }
    {
        let Some(k) = self.fork() else {
            self.due = Due::Wrong;
            return;
        };
        let Some(ends) = case_ends(self.remains.store(), k.x, k.from, upto) else {
            self.due = Due::Wrong;
            return;
        };
        self.move_on(k, ends);
        let i = self.scope();
        self.add_skipped(i);
        self.has_open = self.has_open || is_open;
        self.due = Due::Case;
    }

    /// Goes into a case, where it may, and says whether a bound of the block stands above. None where it may not: nothing more is
    /// kept then.
    pub fn enter(&mut self, upto: Option<i64>) -> Option<bool>
        requires fork { AtFork self.old }
        ensures none { IfNone result (ForkGoes self.old self.new (λ d. at_fork d.frames (λ b fs. only_ledger (may_go b upto) (gone_into d b fs upto)))) }
        ensures wrong { IfNone result (self.new.due ≡ due_as.Wrong) }
        ensures some { IfSome result (λ bounded. EntersCase self.old self.new upto bounded) }
        ensures same { game_of self.new ≡ game_of self.old }
    {
        let Some(k) = self.fork() else {
            self.due = Due::Wrong;
            return None;
        };
        let Some(ends) = case_ends(self.remains.store(), k.x, k.from, upto) else {
            self.due = Due::Wrong;
            return None;
        };
        let before = self.remains.store().size(k.x);
        self.remains.keep(k.x, ends.first, ends.last);
        if self.remains.store().size(k.x) == before {
            self.due = Due::Wrong;
            return None;
        }
        self.move_on(k, ends);
        self.turns = self.turns.saturating_add(1);
        Some(k.bounded)
    }

    /// The cases of the branch that was opened last end. It fails as `part_over` does.
    pub fn end_cases(&mut self) -> Result<(), AllocError>
        requires fork { AtFork self.old }
        ensures goes { OnOk result (ForkGoes self.old self.new (λ d. at_fork d.frames (λ b fs. only_ledger (is_none_left b.left) (part_ended (setting_of (game_of self.old) d) d d.own fs)))) }
        ensures same { game_of self.new ≡ game_of self.old }
    {
        let Some(k) = self.fork() else {
            self.due = Due::Wrong;
            return Ok(());
        };
        if self.remains.store().next(k.x, k.from).is_some() {
            self.due = Due::Wrong;
            return Ok(());
        }
        self.open.pop();
        self.part_over()
    }
}
