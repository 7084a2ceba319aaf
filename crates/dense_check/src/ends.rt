//! The ends of a scope's own tree.
ghost use Rattle.std.specs.Prelude.{◌≡◌, ◌≤◌, ◌<◌, ◌∷◌, [], ◌&&◌, ◌||◌, suc, true, false, Bool, Some, OnOk, IsTrue, List, ℤ, nat_le, is_none, length};
ghost use Rattle.qc_model.specs.Domains.{has_empty};
ghost use Rattle.qc_model.specs.Game.{restriction};
ghost use Rattle.qc_model.specs.Verdict.{lost, seen_node};
ghost use Rattle.model_arguments.specs.Asked.{is_box_of};
ghost use Rattle.fd_store.specs.Held.{Follows};
ghost use Rattle.dense_closing.specs.ClosingSteps.{greatest_closed};
ghost use Rattle.dense_closing.specs.Takes.{takes_all};
ghost use Rattle.dense_tree.specs.Place.{Setting, place_below, is_players as is_players_at, is_free_choice as is_free_choice_at};
ghost use Rattle.dense_tree.specs.InPlace.{empty_placed, no_play_placed};
ghost use Rattle.dense_tree.specs.Tuples.{some_fails};
ghost use Rattle.dense_box.specs.Ends.{needs_restriction_at};
ghost use Rattle.dense_nest.specs.declared.place.Due.TheVariants as due_as;
ghost use Rattle.dense_nest.specs.Places.{IsFull};
ghost use Rattle.dense_tree.specs.Lines.{empty_line, barred_line, best_line, no_play_line, next_line, chosen_line, branch_line};
ghost use Rattle.dense_ledger.specs.Ledger.{Ledger as Kept, setting_of, part_line, node_due, entry_at, waiting, with_seen, part_ended};
ghost use Rattle.dense_check.specs.Telling.{game_of, here_in, with_remains, with_due, IsPart, InPart, PartGoes, IsSameHeld, IsGathered};

use crate::machine::DenseMachine;
use dense_box::{
    best_end, choose, is_fixed, is_free_choice, may_be_barred, may_branch, may_go_on,
    needs_restriction,
};
use dense_quiet::Taking;
use qc_model::{Kind, ScopeId, VarId};
use std::alloc::AllocError;

impl<'p> DenseMachine<'p> {
    /// A line out of place.
    pub(crate) fn refuse(&mut self) -> Result<(), AllocError>
        ensures { self.new ≡ with_due due_as.Wrong self.old }
    {
        self.nest.refuse();
        Ok(())
    }

    /// Whether the scope is the player's.
    fn is_players(&self) -> bool
        requires { self.now.nest.entry.spot.number < length (game_of self.now).scopes }
        ensures { (bounded : Bool) → result ≡ is_players_at (here_in self.now bounded) }
    {
        let i = self.nest.scope();
        match self.nest.levels.level(i).kind {
            Kind::Exists => true,
            Kind::Forall => false,
        }
    }

    /// Whether no box within is closed for the constraints in force, or some move has no answer in the greatest. The box is closed by it.
    fn is_emptied(&mut self) -> bool
        requires part { InPart self.old }
        ensures emptied { (d : Kept) → IsPart self.old d → (bounded : Bool) → result ≡ empty_placed (setting_of (game_of self.old) d) (here_in self.old bounded) }
        ensures past { Follows self.old.nest.remains self.new.nest.remains }
        ensures declared { is_box_of (game_of self.old) self.new.nest.remains.box ≡ true }
        ensures rest { self.new ≡ with_remains self.new.nest.remains self.old }
    {
        if !self.close_here() {
            return true;
        }
        let i = self.nest.scope();
        let stop = self.freedom.joint_stop(i);
        let nest = &self.nest;
        self.closer
            .has_answerless(&nest.levels, nest.remains.store(), i.0 as usize, stop)
    }

    /// An end with a lost leaf.
    fn lost_end(&mut self) -> Result<(), AllocError>
        requires part { InPart self.old }
        ensures goes { OnOk result (PartGoes self.old self.new (λ d. Some (part_ended (setting_of (game_of self.old) d) d (with_seen (seen_node lost ∷ []) d.own) d.frames))) }
        ensures same { game_of self.new ≡ game_of self.old }
    {
        self.nest.add_lost();
        self.nest.part_over()
    }

    /// `e`: nothing is left.
    pub(crate) fn empty_line(&mut self, bounded: bool) -> Result<(), AllocError>
        requires part { InPart self.old }
        ensures goes { OnOk result (PartGoes self.old self.new (λ d. part_line (setting_of (game_of self.old) d) d (here_in self.old bounded) empty_line)) }
        ensures same { game_of self.new ≡ game_of self.old }
    {
        if !self.is_emptied() {
            return self.refuse();
        }
        let i = self.nest.scope();
        if is_free_choice(&self.nest.levels, i) {
            return self.lost_end();
        }
        self.nest.part_over()
    }

    /// `x`: the scope's values are single, and its restriction fails.
    pub(crate) fn barred_line(&mut self, bounded: bool) -> Result<(), AllocError>
        requires part { InPart self.old }
        ensures goes { OnOk result (PartGoes self.old self.new (λ d. part_line (setting_of (game_of self.old) d) d (here_in self.old bounded) barred_line)) }
        ensures same { game_of self.new ≡ game_of self.old }
    {
        let i = self.nest.scope();
        let nest = &self.nest;
        if !may_be_barred(&nest.levels, i, &nest.remains) {
            return self.refuse();
        }
        self.nest.add_barred();
        self.nest.part_over()
    }

    /// `y`: nothing better is left than the best value of what is demanded first.
    pub(crate) fn best_line(&mut self, bounded: bool) -> Result<(), AllocError>
        requires part { InPart self.old }
        ensures goes { OnOk result (PartGoes self.old self.new (λ d. part_line (setting_of (game_of self.old) d) d (here_in self.old bounded) best_line)) }
        ensures same { game_of self.new ≡ game_of self.old }
    {
        let i = self.nest.scope();
        let nest = &self.nest;
        let Some(best) = best_end(&nest.levels, &nest.demands, i, &nest.remains) else {
            return self.refuse();
        };
        self.nest.add_best(best);
        self.nest.part_over()
    }

    /// Whether k is the number i, or that of a later scope or of the goal.
    pub(crate) fn is_ahead(&self, i: ScopeId, k: ScopeId) -> bool
        ensures { result ≡ (nat_le i.0 k.0 && nat_le k.0 (length (game_of self.now).scopes)) }
    {
        i.0 <= k.0 && k.0 as usize <= self.nest.levels.problem.scopes()
    }

    /// Whether no box within is closed for the constraints of the scopes from i to k, whosever values go. The box stays as it is.
    pub(crate) fn none_passes(&mut self, i: ScopeId, k: ScopeId) -> bool
        requires closer { self.old.closer ≡ game_of self.old }
        requires order { i.0 ≤ k.0 }
        requires inside { k.0 ≤ length (game_of self.old).scopes }
        requires full { IsFull (game_of self.old) self.old.nest.remains.box }
        ensures nobody { result ≡ is_none (greatest_closed takes_all (game_of self.old) i.0 (suc k.0) self.old.nest.remains.box) }
        ensures left { IsSameHeld self.old.nest.remains self.new.nest.remains }
        ensures rest { self.new ≡ with_remains self.new.nest.remains self.old }
    {
        let nest = &mut self.nest;
        let mark = nest.remains.mark();
        let closed = self.closer.close(
            &nest.levels,
            &mut nest.remains,
            Taking::All,
            i.0 as usize,
            k.0 as usize + 1,
        );
        nest.remains.undo_to(mark);
        !closed
    }

    /// Whether the scope is the player's, or the opponent may take any tuple of it.
    fn may_lose(&self) -> bool
        requires { self.now.nest.entry.spot.number < length (game_of self.now).scopes }
        ensures { (s : Setting) (bounded : Bool) → s.game ≡ game_of self.now → result ≡ (is_players_at (here_in self.now bounded) || is_free_choice_at s (here_in self.now bounded)) }
    {
        if self.is_players() {
            return true;
        }
        let i = self.nest.scope();
        is_free_choice(&self.nest.levels, i)
    }

    /// `l`: nobody passes the scopes up to k, though the opponent always has a move.
    pub(crate) fn dead_line(&mut self, bounded: bool, k: ScopeId) -> Result<(), AllocError>
        requires part { InPart self.old }
        ensures goes { OnOk result (PartGoes self.old self.new (λ d. part_line (setting_of (game_of self.old) d) d (here_in self.old bounded) (no_play_line k))) }
        ensures same { game_of self.new ≡ game_of self.old }
    {
        let i = self.nest.scope();
        if !self.may_lose() {
            return self.refuse();
        }
        if !self.shows_dead(i, k) {
            return self.refuse();
        }
        self.lost_end()
    }

    /// Whether the opponent always has a move from scope i on, k lies ahead, and nobody passes the scopes up to it. The box may be closed
    /// by it; where it has an empty domain, no box within is closed.
    fn shows_dead(&mut self, i: ScopeId, k: ScopeId) -> bool
        requires part { InPart self.old }
        requires scope { i.0 ≡ self.old.nest.entry.spot.number }
        ensures dead { (d : Kept) → IsPart self.old d → (bounded : Bool) → result ≡ no_play_placed (setting_of (game_of self.old) d) (here_in self.old bounded) k }
        ensures past { Follows self.old.nest.remains self.new.nest.remains }
        ensures declared { is_box_of (game_of self.old) self.new.nest.remains.box ≡ true }
        ensures rest { self.new ≡ with_remains self.new.nest.remains self.old }
    {
        if !self.freedom.is_free_from(i) {
            return false;
        }
        if !self.is_ahead(i, k) {
            return false;
        }
        let nest = &mut self.nest;
        !self.closer.close(
            &nest.levels,
            &mut nest.remains,
            Taking::All,
            i.0 as usize,
            k.0 as usize + 1,
        )
    }

    /// On to the node below, at the box.
    fn go_below(&mut self, bounded: bool, chosen: bool) -> Result<(), AllocError>
        requires part { InPart self.old }
        requires full { has_empty self.old.nest.remains.box ≡ false }
        ensures goes { OnOk result (PartGoes self.old self.new (λ d. Some (record d { due = node_due (entry_at (place_below (setting_of (game_of self.old) d) (here_in self.old bounded)) chosen); frames = waiting d.own ∷ d.frames }))) }
        ensures same { game_of self.new ≡ game_of self.old }
    {
        let i = self.nest.scope();
        let nest = &self.nest;
        let fixed = is_fixed(nest.levels.level(i), nest.remains.store());
        let players = self.is_players();
        self.nest.go_below(bounded, fixed, players, chosen)
    }

    /// Whether the box refutes a constraint of the scope, where that counts for going on.
    fn is_refuted(&self) -> bool
        requires part { InPart self.now }
        ensures { let i = self.now.nest.entry.spot.number in IsTrue (needs_restriction_at (game_of self.now) i self.now.nest.remains.box) → result ≡ some_fails (restriction (game_of self.now) i) self.now.nest.remains.box }
    {
        let i = self.nest.scope();
        let nest = &self.nest;
        if !needs_restriction(&nest.levels, i, &nest.remains) {
            return false;
        }
        let from = i.0 as usize;
        let store = nest.remains.store();
        self.closer
            .has_refuted(&nest.levels, store, Taking::Owners, from, from + 1)
    }

    /// `n`: on to the next scope.
    pub(crate) fn next_line(&mut self, bounded: bool) -> Result<(), AllocError>
        requires part { InPart self.old }
        ensures goes { OnOk result (PartGoes self.old self.new (λ d. part_line (setting_of (game_of self.old) d) d (here_in self.old bounded) next_line)) }
        ensures same { game_of self.new ≡ game_of self.old }
    {
        let refuted = self.is_refuted();
        let i = self.nest.scope();
        let nest = &self.nest;
        if !may_go_on(&nest.levels, i, &nest.remains, refuted) {
            return self.refuse();
        }
        self.go_below(bounded, false)
    }

    /// `w`: on to the next scope with one tuple, the others skipped.
    pub(crate) fn chosen_line(&mut self, bounded: bool, tuple: &[i64]) -> Result<(), AllocError>
        requires part { InPart self.old }
        ensures goes { OnOk result ((t : List ℤ) → IsGathered tuple.now t → PartGoes self.old self.new (λ d. part_line (setting_of (game_of self.old) d) d (here_in self.old bounded) (chosen_line t))) }
        ensures same { game_of self.new ≡ game_of self.old }
    {
        self.nest.levels.problem.known();
        let i = self.nest.scope();
        let nest = &mut self.nest;
        if !choose(&nest.levels, i, &mut nest.remains, tuple) {
            return self.refuse();
        }
        self.go_below(bounded, true)
    }

    /// `v`: a branch on a variable.
    pub(crate) fn branch_line(&mut self, bounded: bool, x: VarId) -> Result<(), AllocError>
        requires part { InPart self.old }
        ensures goes { OnOk result (PartGoes self.old self.new (λ d. part_line (setting_of (game_of self.old) d) d (here_in self.old bounded) (branch_line x))) }
        ensures same { game_of self.new ≡ game_of self.old }
    {
        let i = self.nest.scope();
        let nest = &self.nest;
        if !may_branch(&nest.levels, i, &nest.remains, x) {
            return self.refuse();
        }
        self.nest.branch(bounded, x)
    }
}
