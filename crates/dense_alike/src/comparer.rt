//! Whether two boxes look the same from a scope on.
ghost use Rattle.std.specs.Prelude.{◌≡◌, ◌≤◌, ◌&&◌, length, IfOk, IsTrue};
ghost use Rattle.qc_model.specs.Valid.{IsValid};
ghost use Rattle.dense_tree.specs.Alike.{look_same, reads_one_position};
ghost use Rattle.dense_alike.specs.Laid.{is_full_box};

use crate::kept_box::KeptBox;
use crate::leasts::{first_of, is_kept_once, is_read_once, is_seen_same, read_least};
use crate::reads::Reads;
use crate::starts::starts_of;
use crate::unseen::unseen_of;
use crate::views::are_positions_same;
use check_box::Remains;
use fd_store::Store;
use model_levels::Levels;
use qc_model::{Problem, ScopeId};
use std::alloc::{AllocError, Global};
use std::marker::Model;

/// What boxes are compared by in a problem, with a box of its own and places for what is read. A contract sees the game.
#[derive(Drop)]
pub(crate) struct Comparer<'p> {
    problem: &'p Problem,
    reads: Reads<'p>,
    /// For each scope, and the goal, a place before which constraints are of earlier scopes.
    starts: Vec<usize>,
    /// For each scope, and the goal, whether no earlier variable is seen one by one from there on.
    unseen: Vec<bool>,
    /// The declared box, in which values of the first variables are laid for a while.
    declared: Remains,
    /// The least value left to each variable, those of the variables before the scope.
    here: Vec<i64>,
    /// For each constraint whether it holds whatever comes after the one position, and after the other.
    holds_here: Vec<bool>,
    holds_there: Vec<bool>,
}

impl<'p> Model for Comparer<'p> {
    ghost use Rattle.qc_model.specs.Content.{Game};
    ghost use Rattle.dense_alike.specs.Comparing.{CanCompare};

    ghost Value = { Game };

    ghost view = { λ c. c.problem.now };

    ghost invariant = { λ c. CanCompare c.problem.now c.reads c.starts.items c.unseen.items c.declared c.here.items c.holds_here.items c.holds_there.items };
}

impl<'p> Comparer<'p> {
    /// What boxes are compared by in this problem. It takes all memory, and fails only where that runs out.
    pub(crate) fn new(alloc: Global, levels: &Levels<'p>) -> Result<Comparer<'p>, AllocError>
        ensures { IfOk result (λ comparer. comparer ≡ levels.now.problem.now) }
    {
        let problem = levels.problem;
        // those that have most to let go where a later one fails come last
        let here = vec![in alloc; 0i64; problem.variables()]?;
        let holds_here = vec![in alloc; false; problem.constraints()]?;
        let holds_there = vec![in alloc; false; problem.constraints()]?;
        let starts = starts_of(alloc, problem)?;
        let reads = Reads::new(alloc, levels)?;
        let unseen = unseen_of(alloc, problem, &reads)?;
        let declared = Remains::new(alloc, problem)?;
        Ok(Comparer {
            problem,
            reads,
            starts,
            unseen,
            declared,
            here,
            holds_here,
            holds_there,
        })
    }

    /// The game is that of a problem.
    pub(crate) fn known(&self)
        ensures { IsValid self.now }
    {
        self.problem.known();
    }

    /// Whether each variable before scope i that is read from it on has one value left in both boxes, and both look the same from
    /// the scope on. It takes no memory.
    pub(crate) fn look_same(&mut self, i: ScopeId, kept: &KeptBox, store: &Store) -> bool
        requires scope { i.0 ≤ length self.old.scopes }
        requires here { IsTrue (is_full_box self.old store.now.box) }
        requires there { IsTrue (is_full_box self.old kept.now) }
        ensures game { self.new ≡ self.old }
        ensures same { result ≡ (reads_one_position self.old i.0 store.now.box && reads_one_position self.old i.0 kept.now && look_same self.old i.0 store.now.box kept.now) }
    {
        let problem = self.problem;
        problem.known();
        let first = problem.variables_before(i.0 as usize);
        if !is_read_once(&self.reads, i, first, store) {
            return false;
        }
        if !is_kept_once(&self.reads, i, first, kept) {
            return false;
        }
        read_least(store, first, &mut self.here);
        let here = first_of(&self.here, first);
        let there = first_of(kept.values(), first);
        let unseen = self.unseen[i.0 as usize];
        if !is_seen_same(&self.reads, i, first, unseen, here, there) {
            return false;
        }
        are_positions_same(
            &self.reads,
            problem,
            &mut self.declared,
            i,
            self.starts[i.0 as usize],
            here,
            &mut self.holds_here,
            there,
            &mut self.holds_there,
        )
    }
}
