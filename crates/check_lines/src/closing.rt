//! What the machine does where a part of a tree ends.
ghost use Rattle.std.specs.Prelude.{◌≡◌, ◌↔◌, ◌≤◌, ◌<◌, ◌∷◌, ℕ, List, Some, length, IsTrue, Option as Maybe};
ghost use Rattle.qc_model.specs.Game.{before};
ghost use Rattle.qc_model.specs.Verdict.{Verdict, Seen};
ghost use Rattle.check_lines.specs.Places.{rest};
ghost use Rattle.check_lines.specs.Ledger.{Ledger as Kept, Entry};
ghost use Rattle.check_lines.specs.Machine.{game_of, base_of, IsSound, IsWithin, IsReady};
ghost use Rattle.check_lines.specs.Telling.{IsPartEnd, IsNodeEnd, IsLeft, part_ended, node_ended, scope_ended, Tells};
ghost use Rattle.check_lines.specs.declared.open.Open.TheVariants as open_as;
ghost use Rattle.check_lines.specs.declared.open.Due.TheVariants as due_of;

use crate::machine::Machine;
use crate::open::{Due, Open};
use fd_store::Mark;
use joins::leaves_fit;
use qc_model::{ScopeId, VarId};

impl<'p> Machine<'p> {
    /// How many variables stand before the scope that is read.
    pub(crate) fn count_before(&self) -> usize
        requires { self.now.number ≤ length (game_of self.now).scopes }
        ensures { result ≡ before (game_of self.now) self.now.number }
    {
        let problem = self.levels.problem;
        if (self.number as usize) < problem.scopes() {
            self.levels.level(ScopeId(self.number)).from
        } else {
            problem.variables()
        }
    }

    /// A part has ended in a case of this branch: goes on there, with its box.
    fn back_to(&mut self, x: VarId, mark: Mark, from: i64)
        requires within { IsWithin self.old }
        requires top { self.old.nesting ≡ open_as.Branch x mark from ∷ rest self.old.nesting }
        ensures tells { (n : ℕ) (d : Kept) (es : List Entry) (xs : List Seen) → IsPartEnd n self.old d es xs → Tells self.new (Some (part_ended self.old d es xs)) }
        ensures ready { IsReady self.new }
        ensures same { game_of self.new ≡ game_of self.old }
        ensures base { base_of self.new ≡ base_of self.old }
        ensures nesting { self.new.nesting ≡ self.old.nesting }
    {
        let _ = x;
        let _ = from;
        self.remains.undo_to(mark);
        self.reads.back_to(mark);
        self.due = Due::Case;
    }

    /// The scope's own tree has ended, and with it the node.
    fn close_scope(&mut self)
        requires within { IsWithin self.old }
        ensures tells { (n : ℕ) (d : Kept) (es : List Entry) (xs : List Seen) → IsPartEnd n self.old d es xs → Tells self.new (Some (scope_ended self.old d es xs)) }
        ensures ready { IsReady self.new }
        ensures same { game_of self.new ≡ game_of self.old }
        ensures base { base_of self.new ≡ base_of self.old }
        ensures nesting { self.new.nesting ≡ self.old.nesting }
    {
        let count = self.count_before();
        self.found = self
            .joins
            .finish(ScopeId(self.number), &self.values.values()[..count]);
        self.own = self.joins.own(ScopeId(self.number));
        self.close_node();
    }

    /// A part of the scope's own tree has ended: goes on at the last branch, or the node has ended.
    pub(crate) fn close_part(&mut self)
        requires within { IsWithin self.old }
        ensures tells { (n : ℕ) (d : Kept) (es : List Entry) (xs : List Seen) → IsPartEnd n self.old d es xs → Tells self.new (Some (part_ended self.old d es xs)) }
        ensures ready { IsReady self.new }
        ensures same { game_of self.new ≡ game_of self.old }
        ensures base { base_of self.new ≡ base_of self.old }
        ensures nesting { self.new.nesting ≡ self.old.nesting }
    {
        match self.nesting.top() {
            Some(Open::Branch { x, mark, from }) => self.back_to(x, mark, from),
            Some(Open::Next { horizon: _ }) => self.close_scope(),
            None => self.close_scope(),
        }
    }

    /// The node has come to what was found: goes back to the scope's own tree from which it was reached.
    #[inline(always)]
    fn leave(&mut self, horizon: Option<u8>)
        requires sound { IsSound self.old }
        requires top { self.old.nesting ≡ open_as.Next horizon ∷ rest self.old.nesting }
        ensures left { (n : ℕ) (d : Kept) (es : List Entry) (v : Verdict) → IsNodeEnd n self.old d es v → IsLeft n self.new d (node_ended self.old d es v) }
        ensures nesting { self.new.nesting ≡ rest self.old.nesting }
        ensures within { IsWithin self.new }
        ensures same { game_of self.new ≡ game_of self.old }
        ensures base { base_of self.new ≡ base_of self.old }
    {
        leaves_fit();
        self.nesting.pop();
        self.number = self.number.saturating_sub(1);
        self.horizon = horizon;
        self.joins.add_node(ScopeId(self.number), self.found);
    }

    /// A node has come to what was found. It isn't left yet.
    #[inline(always)]
    pub(crate) fn close_node(&mut self)
        requires sound { IsSound self.old }
        ensures tells { (n : ℕ) (d : Kept) (es : List Entry) (v : Verdict) → IsNodeEnd n self.old d es v → Tells self.new (Some (node_ended self.old d es v)) }
        ensures ready { IsReady self.new }
        ensures same { game_of self.new ≡ game_of self.old }
        ensures base { base_of self.new ≡ base_of self.old }
        ensures nesting { self.new.nesting ≡ self.old.nesting }
        ensures closed { self.new.due ≡ due_of.Closed }
    {
        self.due = Due::Closed;
    }

    /// Leaves a node that has ended: goes on in the scope before, where a part has ended with it, and perhaps another node;
    /// or the lines are a node.
    #[inline(always)]
    fn go_up(&mut self)
        requires sound { IsSound self.old }
        ensures tells { (n : ℕ) (d : Kept) (es : List Entry) (v : Verdict) → IsNodeEnd n self.old d es v → Tells self.new (Some (node_ended self.old d es v)) }
        ensures ready { IsReady self.new }
        ensures same { game_of self.new ≡ game_of self.old }
        ensures base { base_of self.new ≡ base_of self.old }
        ensures fewer { self.new.due ≡ due_of.Closed → length self.new.nesting < length self.old.nesting }
    {
        match self.nesting.top() {
            Some(Open::Next { horizon }) => {
                self.leave(horizon);
                self.close_part();
            }
            Some(
                Open::Branch {
                    x: _,
                    mark: _,
                    from: _,
                },
            ) => self.due = Due::Ended,
            None => self.due = Due::Ended,
        }
    }

    /// Whether a node has ended that isn't left yet.
    #[inline(always)]
    pub fn is_closed(&self) -> bool
        ensures { IsTrue result ↔ (self.now.due ≡ due_of.Closed) }
    {
        match self.due {
            Due::Closed => true,
            _ => false,
        }
    }

    /// Leaves a node that has ended, up to where the next line goes on or to one more node that ended with it.
    #[inline(always)]
    pub fn leave_node(&mut self)
        requires ready { IsReady self.old }
        requires closed { self.old.due ≡ due_of.Closed }
        ensures tells { (p : Maybe Kept) → Tells self.old p → Tells self.new p }
        ensures ready { IsReady self.new }
        ensures same { game_of self.new ≡ game_of self.old }
        ensures base { base_of self.new ≡ base_of self.old }
        ensures fewer { self.new.due ≡ due_of.Closed → length self.new.nesting < length self.old.nesting }
    {
        self.go_up();
    }

    /// Leaves all nodes that have ended.
    #[inline(never)]
    pub fn settle(&mut self)
        requires ready { IsReady self.old }
        ensures tells { (p : Maybe Kept) → Tells self.old p → Tells self.new p }
        ensures ready { IsReady self.new }
        ensures same { game_of self.new ≡ game_of self.old }
        ensures base { base_of self.new ≡ base_of self.old }
        ensures open { self.new.due ≡ due_of.Closed → ⊥ }
    {
        while self.is_closed() {
            self.leave_node();
        }
    }
}
