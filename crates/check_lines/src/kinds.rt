//! Lines of one kind each, at the place where one is due.
//!
//! Each is a function of its own in the program too: so a short line saves none of the registers that a long one needs, and
//! what is done in each is laid out for its one kind.
ghost use Rattle.std.specs.Prelude.{◌≡◌};
ghost use Rattle.check_lines.specs.Ledger.{at_entry, ledger_end, ledger_fork, ledger_node};
ghost use Rattle.check_lines.specs.Machine.{game_of, base_of, IsAtFork, IsAtNode, IsReady, IsWithin};
ghost use Rattle.check_lines.specs.Telling.{NodeTells, PartTells};
ghost use Rattle.proof_tree.specs.declared.line.Line.TheVariants as line_of;

use crate::machine::Machine;
use proof_tree::Line;
use qc_model::{ConId, VarId};

impl<'p> Machine<'p> {
    /// The dot after the cases of the last branch.
    #[inline(never)]
    pub(crate) fn fork_dot(&mut self)
        requires fork { IsAtFork self.old }
        ensures tells { PartTells self.old self.new (λ d. at_entry d.entries (λ b fs. ledger_fork (game_of self.old) d b fs line_of.Dot)) }
        ensures ready { IsReady self.new }
        ensures same { game_of self.new ≡ game_of self.old }
        ensures base { base_of self.new ≡ base_of self.old }
    {
        self.at_top(Line::Dot);
    }

    /// A case of one value that is passed over.
    #[inline(never)]
    pub(crate) fn fork_skip(&mut self)
        requires fork { IsAtFork self.old }
        ensures tells { PartTells self.old self.new (λ d. at_entry d.entries (λ b fs. ledger_fork (game_of self.old) d b fs line_of.Skip)) }
        ensures ready { IsReady self.new }
        ensures same { game_of self.new ≡ game_of self.old }
        ensures base { base_of self.new ≡ base_of self.old }
    {
        self.at_top(Line::Skip);
    }

    /// A case of one value that goes on to a node.
    #[inline(never)]
    pub(crate) fn fork_next(&mut self)
        requires fork { IsAtFork self.old }
        ensures tells { PartTells self.old self.new (λ d. at_entry d.entries (λ b fs. ledger_fork (game_of self.old) d b fs line_of.Next)) }
        ensures ready { IsReady self.new }
        ensures same { game_of self.new ≡ game_of self.old }
        ensures base { base_of self.new ≡ base_of self.old }
    {
        self.at_top(Line::Next);
    }

    /// A case of one value that begins with a branch.
    #[inline(never)]
    pub(crate) fn fork_branch(&mut self, x: VarId)
        requires fork { IsAtFork self.old }
        ensures tells { PartTells self.old self.new (λ d. at_entry d.entries (λ b fs. ledger_fork (game_of self.old) d b fs (line_of.Branch x))) }
        ensures ready { IsReady self.new }
        ensures same { game_of self.new ≡ game_of self.old }
        ensures base { base_of self.new ≡ base_of self.old }
    {
        self.at_top(Line::Branch { x });
    }

    /// A case of one value that begins with a removal.
    #[inline(never)]
    pub(crate) fn fork_prune(&mut self, x: VarId, lo: i64, hi: i64, c: ConId)
        requires fork { IsAtFork self.old }
        ensures tells { PartTells self.old self.new (λ d. at_entry d.entries (λ b fs. ledger_fork (game_of self.old) d b fs (line_of.Prune x lo hi c))) }
        ensures ready { IsReady self.new }
        ensures same { game_of self.new ≡ game_of self.old }
        ensures base { base_of self.new ≡ base_of self.old }
    {
        self.at_top(Line::Prune { x, lo, hi, c });
    }

    /// A node whose own tree begins with a branch.
    #[inline(never)]
    pub(crate) fn node_branch(&mut self, x: VarId)
        requires node { IsAtNode self.old }
        ensures tells { NodeTells self.old self.new (λ d. ledger_node (game_of self.old) d (line_of.Branch x)) }
        ensures ready { IsReady self.new }
        ensures same { game_of self.new ≡ game_of self.old }
        ensures base { base_of self.new ≡ base_of self.old }
    {
        self.at_node(Line::Branch { x });
    }

    /// A node whose own tree begins with a removal.
    #[inline(never)]
    pub(crate) fn node_prune(&mut self, x: VarId, lo: i64, hi: i64, c: ConId)
        requires node { IsAtNode self.old }
        ensures tells { NodeTells self.old self.new (λ d. ledger_node (game_of self.old) d (line_of.Prune x lo hi c)) }
        ensures ready { IsReady self.new }
        ensures same { game_of self.new ≡ game_of self.old }
        ensures base { base_of self.new ≡ base_of self.old }
    {
        self.at_node(Line::Prune { x, lo, hi, c });
    }

    /// A part that goes on to a node.
    #[inline(never)]
    pub(crate) fn part_next(&mut self)
        requires within { IsWithin self.old }
        ensures tells { PartTells self.old self.new (λ d. ledger_end (game_of self.old) d line_of.Next) }
        ensures ready { IsReady self.new }
        ensures same { game_of self.new ≡ game_of self.old }
        ensures base { base_of self.new ≡ base_of self.old }
    {
        self.at_end(Line::Next);
    }

    /// A part that goes on with a branch.
    #[inline(never)]
    pub(crate) fn part_branch(&mut self, x: VarId)
        requires within { IsWithin self.old }
        ensures tells { PartTells self.old self.new (λ d. ledger_end (game_of self.old) d (line_of.Branch x)) }
        ensures ready { IsReady self.new }
        ensures same { game_of self.new ≡ game_of self.old }
        ensures base { base_of self.new ≡ base_of self.old }
    {
        self.at_end(Line::Branch { x });
    }

    /// A part that goes on with a removal.
    #[inline(never)]
    pub(crate) fn part_prune(&mut self, x: VarId, lo: i64, hi: i64, c: ConId)
        requires within { IsWithin self.old }
        ensures tells { PartTells self.old self.new (λ d. ledger_end (game_of self.old) d (line_of.Prune x lo hi c)) }
        ensures ready { IsReady self.new }
        ensures same { game_of self.new ≡ game_of self.old }
        ensures base { base_of self.new ≡ base_of self.old }
    {
        self.at_end(Line::Prune { x, lo, hi, c });
    }
}
