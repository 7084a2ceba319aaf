//! What the machine does in a scope's own tree.
ghost use Rattle.std.specs.Prelude.{◌≡◌};
ghost use Rattle.check_lines.specs.Ledger.{ledger_end};
ghost use Rattle.check_lines.specs.State.{may_branch};
ghost use Rattle.check_lines.specs.Machine.{game_of, base_of, IsWithin, IsReady};
ghost use Rattle.check_lines.specs.Telling.{PartTells};
ghost use Rattle.proof_tree.specs.declared.line.Line.TheVariants as line_of;

use crate::legal::prune;
use crate::machine::Machine;
use crate::open::{Due, Open};
use crate::tuple::{says, tuple_allowed};
use proof_tree::Line;
use qc_model::{ConId, ScopeId, VarId};

/// Below every value of a variable, or the least.
const LEAST: i64 = -1_000_000_000;

impl<'p> Machine<'p> {
    #[inline(never)]
    pub(crate) fn empty_line(&mut self)
        requires within { IsWithin self.old }
        ensures tells { PartTells self.old self.new (λ d. ledger_end (game_of self.old) d line_of.Empty) }
        ensures ready { IsReady self.new }
        ensures same { game_of self.new ≡ game_of self.old }
        ensures base { base_of self.new ≡ base_of self.old }
    {
        if !self.remains.is_empty() {
            self.due = Due::Wrong;
            return;
        }
        self.close_part();
    }

    #[inline(never)]
    pub(crate) fn barred_line(&mut self)
        requires within { IsWithin self.old }
        ensures tells { PartTells self.old self.new (λ d. ledger_end (game_of self.old) d line_of.Barred) }
        ensures ready { IsReady self.new }
        ensures same { game_of self.new ≡ game_of self.old }
        ensures base { base_of self.new ≡ base_of self.old }
    {
        let level = self.levels.level(ScopeId(self.number));
        let found = tuple_allowed(level, &self.remains, &mut self.values, &mut self.reads);
        if !says(found, false) {
            self.due = Due::Wrong;
            return;
        }
        self.joins.add_barred(ScopeId(self.number));
        self.close_part();
    }

    #[inline(always)]
    fn next_line(&mut self)
        requires within { IsWithin self.old }
        ensures tells { PartTells self.old self.new (λ d. ledger_end (game_of self.old) d line_of.Next) }
        ensures ready { IsReady self.new }
        ensures same { game_of self.new ≡ game_of self.old }
        ensures base { base_of self.new ≡ base_of self.old }
    {
        self.levels.problem.known();
        let level = self.levels.level(ScopeId(self.number));
        let found = tuple_allowed(level, &self.remains, &mut self.values, &mut self.reads);
        if !says(found, true) {
            self.due = Due::Wrong;
            return;
        }
        if !self.nesting.has_room() {
            self.due = Due::Wrong;
            return;
        }
        self.nesting.push(Open::Next {
            horizon: self.horizon,
        });
        self.number += 1;
        self.due = Due::Node;
    }

    /// Whether a branch on x may begin here.
    fn may_branch_on(&self, x: VarId) -> bool
        requires within { IsWithin self.now }
        ensures { result ≡ may_branch (game_of self.now) self.now.number x.0 self.now.remains.box }
    {
        let level = self.levels.level(ScopeId(self.number));
        let place = x.0 as usize;
        if self.remains.is_empty() {
            return false;
        }
        if place < level.from {
            return false;
        }
        if level.stop <= place {
            return false;
        }
        !self.remains.store().is_fixed(x)
    }

    #[inline(always)]
    fn branch_line(&mut self, x: VarId)
        requires within { IsWithin self.old }
        ensures tells { PartTells self.old self.new (λ d. ledger_end (game_of self.old) d (line_of.Branch x)) }
        ensures ready { IsReady self.new }
        ensures same { game_of self.new ≡ game_of self.old }
        ensures base { base_of self.new ≡ base_of self.old }
    {
        self.levels.problem.known();
        if !self.may_branch_on(x) {
            self.due = Due::Wrong;
            return;
        }
        if !self.nesting.has_room() {
            self.due = Due::Wrong;
            return;
        }
        // read before the mark, these stay known in all cases of the branch
        self.reads
            .read_on(self.remains.store(), x.0 as usize, &mut self.values);
        let mark = self.remains.mark();
        self.nesting.push(Open::Branch {
            x,
            mark,
            from: LEAST,
        });
        self.due = Due::Case;
    }

    /// A removal by a constraint that is in force.
    #[inline(always)]
    fn prune_line(&mut self, x: VarId, lo: i64, hi: i64, c: ConId)
        requires within { IsWithin self.old }
        ensures tells { PartTells self.old self.new (λ d. ledger_end (game_of self.old) d (line_of.Prune x lo hi c)) }
        ensures ready { IsReady self.new }
        ensures same { game_of self.new ≡ game_of self.old }
        ensures base { base_of self.new ≡ base_of self.old }
    {
        let span = self.levels.level(ScopeId(self.number)).in_force;
        if prune(self.levels.problem, &mut self.remains, span, x, lo, hi, c) {
            self.due = Due::Part;
        } else {
            self.due = Due::Wrong;
        }
    }

    /// A bound on the variable that the scope optimises first.
    fn bound_line(&mut self, x: VarId, lo: i64, hi: i64)
        requires within { IsWithin self.old }
        ensures tells { PartTells self.old self.new (λ d. ledger_end (game_of self.old) d (line_of.Bound x lo hi)) }
        ensures ready { IsReady self.new }
        ensures same { game_of self.new ≡ game_of self.old }
        ensures base { base_of self.new ≡ base_of self.old }
    {
        match self
            .bounds
            .bound(&mut self.remains, ScopeId(self.number), x, lo, hi)
        {
            None => self.due = Due::Wrong,
            Some(best) => {
                self.joins.add_bound(ScopeId(self.number), best);
                self.due = Due::Part;
            }
        }
    }

    /// A line in a scope's own tree.
    #[inline(always)]
    pub(crate) fn at_end(&mut self, line: Line)
        requires within { IsWithin self.old }
        ensures tells { PartTells self.old self.new (λ d. ledger_end (game_of self.old) d line) }
        ensures ready { IsReady self.new }
        ensures same { game_of self.new ≡ game_of self.old }
        ensures base { base_of self.new ≡ base_of self.old }
    {
        match line {
            Line::Prune { x, lo, hi, c } => self.prune_line(x, lo, hi, c),
            Line::Bound { x, lo, hi } => self.bound_line(x, lo, hi),
            Line::Empty => self.empty_line(),
            Line::Barred => self.barred_line(),
            Line::Next => self.next_line(),
            Line::Branch { x } => self.branch_line(x),
            Line::Horizon { .. } => self.due = Due::Wrong,
            Line::Dot => self.due = Due::Wrong,
            Line::Stuck => self.due = Due::Wrong,
            Line::Goal => self.due = Due::Wrong,
            Line::Skip => self.due = Due::Wrong,
            Line::Open => self.due = Due::Wrong,
            Line::Range { .. } => self.due = Due::Wrong,
        }
    }
}
