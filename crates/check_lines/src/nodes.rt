//! What the machine does at the lines of a node.
ghost use Rattle.std.specs.Prelude.{◌≡◌, ◌≤◌, ◌<◌, nat_le, Some, length};
ghost use Rattle.fd_store.specs.Held.{past_box};
ghost use Rattle.proof_tree.specs.InPlace.{is_horizon};
ghost use Rattle.check_lines.specs.State.{may_see};
ghost use Rattle.check_lines.specs.Ledger.{place_at, begins, ledger_body, ledger_node, ledger_prune};
ghost use Rattle.check_lines.specs.Machine.{game_of, base_of, IsAtNode, IsSeeing, IsReady};
ghost use Rattle.check_lines.specs.Telling.{NodeTells, stuck_ended};
ghost use Rattle.proof_tree.specs.declared.line.Line.TheVariants as line_of;

use crate::legal::prune;
use crate::machine::Machine;
use crate::open::Due;
use crate::tuple::goal_is_met;
use fd_store::Mark;
use joins::Found;
use proof_tree::Line;
use qc_model::{ConId, ScopeId, VarId};

impl<'p> Machine<'p> {
    /// Whether the horizon in force is at this scope.
    fn is_at_horizon(&self) -> bool
        ensures { result ≡ is_horizon self.now.horizon self.now.number }
    {
        match self.horizon {
            None => false,
            Some(k) => k == self.number,
        }
    }

    /// Whether no scope is left.
    fn is_at_last(&self) -> bool
        ensures { result ≡ nat_le (length (game_of self.now).scopes) self.now.number }
    {
        self.levels.problem.scopes() <= self.number as usize
    }

    /// Nobody passes the scope.
    fn stuck_scope(&mut self)
        requires node { IsAtNode self.old }
        requires scope { self.old.number < length (game_of self.old).scopes }
        ensures tells { NodeTells self.old self.new (λ d. Some (stuck_ended (game_of self.old) d)) }
        ensures ready { IsReady self.new }
        ensures same { game_of self.new ≡ game_of self.old }
        ensures base { base_of self.new ≡ base_of self.old }
    {
        let count = self.count_before();
        self.found = self
            .joins
            .stuck(ScopeId(self.number), &self.values.values()[..count]);
        self.own = None;
        self.close_node();
    }

    /// The goal doesn't hold, whoever comes there.
    fn stuck_goal(&mut self)
        requires node { IsAtNode self.old }
        requires last { length (game_of self.old).scopes ≤ self.old.number }
        ensures tells { NodeTells self.old self.new (λ d. Some (stuck_ended (game_of self.old) d)) }
        ensures ready { IsReady self.new }
        ensures same { game_of self.new ≡ game_of self.old }
        ensures base { base_of self.new ≡ base_of self.old }
    {
        self.found = Found::Lost;
        self.own = None;
        self.close_node();
    }

    fn stuck_line(&mut self)
        requires node { IsAtNode self.old }
        ensures tells { NodeTells self.old self.new (λ d. ledger_body (game_of self.old) d line_of.Stuck) }
        ensures ready { IsReady self.new }
        ensures same { game_of self.new ≡ game_of self.old }
        ensures base { base_of self.new ≡ base_of self.old }
    {
        if !self.is_at_horizon() {
            self.due = Due::Wrong;
            return;
        }
        if self.is_at_last() {
            self.stuck_goal();
        } else {
            self.stuck_scope();
        }
    }

    #[inline(never)]
    pub(crate) fn goal_line(&mut self)
        requires node { IsAtNode self.old }
        ensures tells { NodeTells self.old self.new (λ d. ledger_body (game_of self.old) d line_of.Goal) }
        ensures ready { IsReady self.new }
        ensures same { game_of self.new ≡ game_of self.old }
        ensures base { base_of self.new ≡ base_of self.old }
    {
        if self.is_at_horizon() {
            self.due = Due::Wrong;
            return;
        }
        if !self.is_at_last() {
            self.due = Due::Wrong;
            return;
        }
        let holds = goal_is_met(&self.levels, &mut self.values);
        self.found = self.joins.goal(holds, self.values.values());
        self.own = None;
        self.close_node();
    }

    /// The own tree of the node's scope begins with this line.
    #[inline(always)]
    fn own_line(&mut self, line: Line)
        requires node { IsAtNode self.old }
        ensures tells { NodeTells self.old self.new (λ d. begins (game_of self.old) d line) }
        ensures ready { IsReady self.new }
        ensures same { game_of self.new ≡ game_of self.old }
        ensures base { base_of self.new ≡ base_of self.old }
    {
        if self.is_at_horizon() {
            self.due = Due::Wrong;
            return;
        }
        if self.is_at_last() {
            self.due = Due::Wrong;
            return;
        }
        self.joins.clear(ScopeId(self.number));
        self.at_end(line);
    }

    /// A line of a node after its horizon.
    #[inline(always)]
    pub(crate) fn at_body(&mut self, line: Line)
        requires node { IsAtNode self.old }
        ensures tells { NodeTells self.old self.new (λ d. ledger_body (game_of self.old) d line) }
        ensures ready { IsReady self.new }
        ensures same { game_of self.new ≡ game_of self.old }
        ensures base { base_of self.new ≡ base_of self.old }
    {
        match line {
            Line::Stuck => self.stuck_line(),
            Line::Goal => self.goal_line(),
            Line::Prune { .. } => self.own_line(line),
            Line::Bound { .. } => self.own_line(line),
            Line::Empty => self.own_line(line),
            Line::Barred => self.own_line(line),
            Line::Next => self.own_line(line),
            Line::Branch { .. } => self.own_line(line),
            Line::Horizon { .. } => self.own_line(line),
            Line::Dot => self.own_line(line),
            Line::Skip => self.own_line(line),
            Line::Open => self.own_line(line),
            Line::Range { .. } => self.own_line(line),
        }
    }

    /// Whether a horizon at scope k may stand here: ahead, and nearer than the one in force.
    fn may_see_to(&self, k: u8) -> bool
        requires inside { self.now.number ≤ length (game_of self.now).scopes }
        ensures { result ≡ may_see k (place_at (game_of self.now) self.now.number self.now.horizon) }
    {
        if self.is_at_last() {
            return false;
        }
        if k < self.number {
            return false;
        }
        if self.levels.problem.scopes() < k as usize {
            return false;
        }
        match self.horizon {
            None => true,
            Some(h) => k < h,
        }
    }

    fn horizon_line(&mut self, k: u8)
        requires node { IsAtNode self.old }
        ensures tells { NodeTells self.old self.new (λ d. ledger_node (game_of self.old) d (line_of.Horizon k)) }
        ensures ready { IsReady self.new }
        ensures same { game_of self.new ≡ game_of self.old }
        ensures base { base_of self.new ≡ base_of self.old }
    {
        if k == 0 {
            self.due = Due::Wrong;
            return;
        }
        if !self.may_see_to(k - 1) {
            self.due = Due::Wrong;
            return;
        }
        let mark = self.remains.mark();
        self.due = Due::Prune { k: k - 1, mark };
    }

    /// A line of a node.
    #[inline(always)]
    pub(crate) fn at_node(&mut self, line: Line)
        requires node { IsAtNode self.old }
        ensures tells { NodeTells self.old self.new (λ d. ledger_node (game_of self.old) d line) }
        ensures ready { IsReady self.new }
        ensures same { game_of self.new ≡ game_of self.old }
        ensures base { base_of self.new ≡ base_of self.old }
    {
        match line {
            Line::Horizon { k } => self.horizon_line(k),
            Line::Prune { .. } => self.at_body(line),
            Line::Bound { .. } => self.at_body(line),
            Line::Empty => self.at_body(line),
            Line::Barred => self.at_body(line),
            Line::Next => self.at_body(line),
            Line::Branch { .. } => self.at_body(line),
            Line::Dot => self.at_body(line),
            Line::Stuck => self.at_body(line),
            Line::Goal => self.at_body(line),
            Line::Skip => self.at_body(line),
            Line::Open => self.at_body(line),
            Line::Range { .. } => self.at_body(line),
        }
    }

    /// A removal of a horizon, by a constraint of a scope up to it.
    fn seen_line(&mut self, k: u8, mark: Mark, x: VarId, lo: i64, hi: i64, c: ConId)
        requires seeing { IsSeeing self.old k mark }
        ensures tells { NodeTells self.old self.new (λ d. ledger_prune (game_of self.old) d k (past_box self.old.remains mark.at) (line_of.Prune x lo hi c)) }
        ensures ready { IsReady self.new }
        ensures same { game_of self.new ≡ game_of self.old }
        ensures base { base_of self.new ≡ base_of self.old }
    {
        let span = self
            .levels
            .constraints_between(ScopeId(self.number), ScopeId(k));
        if prune(self.levels.problem, &mut self.remains, span, x, lo, hi, c) {
            self.due = Due::Prune { k, mark };
        } else {
            self.due = Due::Wrong;
        }
    }

    /// The dot after a horizon's removals.
    fn seen_dot(&mut self, k: u8, mark: Mark)
        requires seeing { IsSeeing self.old k mark }
        ensures tells { NodeTells self.old self.new (λ d. ledger_prune (game_of self.old) d k (past_box self.old.remains mark.at) line_of.Dot) }
        ensures ready { IsReady self.new }
        ensures same { game_of self.new ≡ game_of self.old }
        ensures base { base_of self.new ≡ base_of self.old }
    {
        if !self.remains.is_empty() {
            self.due = Due::Wrong;
            return;
        }
        // nothing was read since the mark, so what is known stays so
        self.remains.undo_to(mark);
        self.horizon = Some(k);
        self.due = Due::Body;
    }

    /// A line of a horizon.
    pub(crate) fn at_prune(&mut self, k: u8, mark: Mark, line: Line)
        requires seeing { IsSeeing self.old k mark }
        ensures tells { NodeTells self.old self.new (λ d. ledger_prune (game_of self.old) d k (past_box self.old.remains mark.at) line) }
        ensures ready { IsReady self.new }
        ensures same { game_of self.new ≡ game_of self.old }
        ensures base { base_of self.new ≡ base_of self.old }
    {
        match line {
            Line::Prune { x, lo, hi, c } => self.seen_line(k, mark, x, lo, hi, c),
            Line::Dot => self.seen_dot(k, mark),
            Line::Bound { .. } => self.due = Due::Wrong,
            Line::Horizon { .. } => self.due = Due::Wrong,
            Line::Stuck => self.due = Due::Wrong,
            Line::Goal => self.due = Due::Wrong,
            Line::Empty => self.due = Due::Wrong,
            Line::Barred => self.due = Due::Wrong,
            Line::Next => self.due = Due::Wrong,
            Line::Branch { .. } => self.due = Due::Wrong,
            Line::Skip => self.due = Due::Wrong,
            Line::Open => self.due = Due::Wrong,
            Line::Range { .. } => self.due = Due::Wrong,
        }
    }
}
