//! What a checker asks that remembers nodes: which node is due, how one has ended, and to pass over one.
ghost use Rattle.std.specs.Prelude.{◌≡◌, ◌≤◌, ◌<◌, ◌+◌, ℕ, [], Some, length, take, IfSome, IsTrue, Option as Maybe};
ghost use Rattle.qc_model.specs.Demands.{demands};
ghost use Rattle.qc_model.specs.Domains.{declared_box, values_left};
ghost use Rattle.qc_model.specs.Game.{before};
ghost use Rattle.proof_tree.specs.Lines.{tree_lines};
ghost use Rattle.proof_tree.specs.Tree.{Tree};
ghost use Rattle.check_lines.specs.Ledger.{Ledger as Kept};
ghost use Rattle.check_lines.specs.LedgerHeld.{goes_through};
ghost use Rattle.check_lines.specs.Machine.{game_of, base_of, IsReady};
ghost use Rattle.check_lines.specs.Passed.{DueTold, EndedTold, HasEndedIn, IsDueIn, IsPassed};
ghost use Rattle.check_lines.specs.Telling.{Tells, TellsAfter};
ghost use Rattle.check_lines.specs.declared.open.Due.TheVariants as due_of;

use crate::machine::Machine;
use crate::open::Due;
use joins::Found;
use model_levels::{Level, Levels};
use qc_model::{ScopeId, VarId};

/// The node of a scope that is due: its scope, the horizon in force, how many nodes and branches are open above it, and how
/// many cases were taken before it.
#[derive(Clone, Copy)]
pub struct NodeDue {
    pub scope: u8,
    pub horizon: Option<u8>,
    pub depth: usize,
    pub turns: u64,
}

/// How a node has ended: what it came to, and how many cases were taken by then.
#[derive(Clone, Copy)]
pub struct NodeEnded {
    pub found: Found,
    pub turns: u64,
}

impl<'p> Machine<'p> {
    /// The node of a scope, where one is due.
    pub fn node_due(&self) -> Option<NodeDue>
        ensures due { IfSome result (λ n. IsDueIn self.now n) }
        ensures told { IfSome result (λ n. (p : Maybe Kept) → Tells self.now p → DueTold self.now p) }
    {
        match self.due {
            Due::Node => self.scope_due(),
            _ => None,
        }
    }

    fn scope_due(&self) -> Option<NodeDue>
        requires due { self.now.due ≡ due_of.Node }
        ensures due { IfSome result (λ n. IsDueIn self.now n) }
        ensures told { IfSome result (λ n. (p : Maybe Kept) → Tells self.now p → DueTold self.now p) }
    {
        if (self.number as usize) < self.levels.problem.scopes() {
            Some(NodeDue {
                scope: self.number,
                horizon: self.horizon,
                depth: self.nesting.len(),
                turns: self.turns,
            })
        } else {
            None
        }
    }

    /// How many nodes and branches are open.
    pub fn depth(&self) -> usize
        ensures { result ≡ length self.now.nesting }
    {
        self.nesting.len()
    }

    /// How many nodes and branches are open, where another line may come and no node waits to be left.
    pub fn open_depth(&self) -> Option<usize>
        ensures { IfSome result (λ n. (d : Kept) → Tells self.now (Some d) → length d.entries ≡ n) }
    {
        match self.due {
            Due::Closed | Due::Ended | Due::Wrong => None,
            _ => Some(self.nesting.len()),
        }
    }

    /// What the problem says of each scope.
    pub fn levels(&self) -> &Levels<'p>
        ensures { result.now.problem.now ≡ game_of self.now }
    {
        &self.levels
    }

    /// The scope with this number.
    pub fn level(&self, i: u8) -> &Level<'p>
        requires { i < length (game_of self.now).scopes }
        ensures number { result.now.number ≡ i }
        ensures game { result.now.problem.now ≡ game_of self.now }
    {
        self.levels.level(ScopeId(i))
    }

    /// The values of the variables before the scope, where its node is due.
    pub fn values_before(&self, level: &Level) -> &[i64]
        requires ready { IsReady self.now }
        requires due { self.now.due ≡ due_of.Node }
        requires number { level.now.number ≡ self.now.number }
        requires game { level.now.problem.now ≡ game_of self.now }
        ensures { result.now ≡ take (before (game_of self.now) self.now.number) self.now.values.items }
    {
        &self.values.values()[..level.from]
    }

    /// Whether each variable from the scope's first on has all its declared values left, where the scope's node is due.
    pub fn is_fresh(&self, level: &Level) -> bool
        requires ready { IsReady self.now }
        requires due { self.now.due ≡ due_of.Node }
        requires number { level.now.number ≡ self.now.number }
        requires game { level.now.problem.now ≡ game_of self.now }
        ensures { IsTrue result → (x : ℕ) → before (game_of self.now) self.now.number ≤ x → x < length self.now.remains.box → values_left self.now.remains.box x ≡ values_left (declared_box (game_of self.now)) x }
    {
        let problem = self.levels.problem;
        problem.known();
        let store = self.remains.store();
        for at in level.from..problem.variables() {
            let x = VarId(at as u16);
            if store.size(x) != problem.variable(x).domain.size() {
                return false;
            }
        }
        true
    }

    /// How the last node has ended, where it isn't left yet, was reached in a case of a branch, and no case is left open.
    pub fn node_ended(&self) -> Option<NodeEnded>
        ensures ended { IfSome result (λ n. HasEndedIn self.now n) }
        ensures told { IfSome result (λ n. (p : Maybe Kept) → IsReady self.now → Tells self.now p → EndedTold self.now p) }
    {
        if self.is_closed() && !self.has_open && self.nesting.is_in_case() {
            Some(NodeEnded {
                found: self.found,
                turns: self.turns,
            })
        } else {
            None
        }
    }

    /// Passes over the lines of a node that is due, where nothing is optimised: it is won or not, and takes so many turns.
    pub fn pass_node(&mut self, won: bool, turns: u64)
        requires ready { IsReady self.old }
        requires due { self.old.due ≡ due_of.Node }
        requires plain { (i : ℕ) → demands (game_of self.old) i ≡ [] }
        ensures tells { (n : ℕ) (p : Maybe Kept) (d : Kept) (t : Tree) → n < 4294967296 → TellsAfter n self.old p → p ≡ Some d → IsPassed (game_of self.old) d t won turns → TellsAfter (n + length (tree_lines t)) self.new (goes_through (game_of self.old) p (tree_lines t)) }
        ensures ready { IsReady self.new }
        ensures same { game_of self.new ≡ game_of self.old }
        ensures base { base_of self.new ≡ base_of self.old }
        ensures closed { self.new.due ≡ due_of.Closed }
    {
        self.turns = self.turns.saturating_add(turns);
        self.found = self.joins.goal(won, self.values.values());
        self.own = None;
        self.close_node();
    }
}
