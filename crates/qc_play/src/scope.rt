//! Where a scope's own tree begins and ends, and where it goes on with a tuple.
ghost use Rattle.std.specs.Prelude.{◌≡◌, ◌<◌, ◌∷◌, [], ℕ, suc, List, Some, true, false, length, drop, OnOk, IfOk};
ghost use Rattle.qc_model.specs.declared.problem.Kind.TheVariants.{Exists as ByPlayer};
ghost use Rattle.qc_model.specs.Demands.{demands};
ghost use Rattle.qc_model.specs.Domains.{declared_box, has_empty};
ghost use Rattle.qc_model.specs.Game.{before};
ghost use Rattle.joins.specs.DemandLists.{HasLists};
ghost use Rattle.model_levels.specs.Spans.{kind_at};
ghost use Rattle.joins.specs.Joins.{IsLong, out_of};
ghost use Rattle.joins.specs.Ends.{IsOfEnds};
ghost use Rattle.proof_tree.specs.Finding.{Finding, Leaf, leaf_node, scope_finding};
ghost use Rattle.proof_tree.specs.Place.{is_fixed, position};
ghost use Rattle.proof_meaning.specs.Answered.{IsAnswered};
ghost use Rattle.qc_play.specs.Gathers.{Gathers, owner_of, wishes_of, count_before};
ghost use Rattle.qc_play.specs.Shown.{Shows};
ghost use Rattle.qc_play.specs.Walk.{game_of, IsWithin, IsBack, HasSeen, Tells};

use crate::gathering::Gathering;
use crate::shown::Shown;
use crate::tables::Tables;
use crate::walk::Walk;
use check_box::{Remains, read_values};
use joins::Joins;
use qc_model::{Problem, ScopeId};
use std::alloc::{AllocError, Global};

impl<'p> Tables<'p> {
    /// A gathering for the leaves of scope i, with none so far.
    pub(crate) fn gathering(&self, i: ScopeId) -> Gathering<'_>
        requires lists { HasLists (game_of self.now) self.now.demands }
        requires scope { i.0 < length (game_of self.now).scopes }
        ensures none { Gathers result [] }
        ensures kind { kind_at (game_of self.now) i.0 ≡ Some (owner_of result) }
        ensures wishes { owner_of result ≡ ByPlayer → wishes_of result ≡ demands (game_of self.now) (suc i.0) }
        ensures place { count_before result ≡ before (game_of self.now) i.0 }
    {
        self.levels.problem.known();
        let level = self.levels.level(i);
        let after = self.demands.list(ScopeId(i.0 + 1));
        Gathering::new(self.alloc, level.kind, after, level.from)
    }
}

impl<'p> Walk<'p> {
    /// Before the first scope, with all declared values left. It fails only where memory runs out.
    pub(crate) fn new(alloc: Global, problem: &'p Problem) -> Result<Walk<'p>, AllocError>
        ensures within { IfOk result (λ w. IsWithin problem.now w 0) }
        ensures content { IfOk result (λ w. w.remains.box ≡ declared_box problem.now) }
    {
        problem.known();
        let remains = Remains::new(alloc, problem)?;
        let joins = Joins::new(alloc, problem)?;
        let values = vec![in alloc; 0i64; problem.variables()]?;
        Ok(Walk {
            remains,
            joins,
            values,
        })
    }

    /// What scope i comes to by its leaves.
    pub(crate) fn close(
        &mut self,
        tables: &Tables<'p>,
        i: ScopeId,
        leaves: Gathering<'_>,
    ) -> Result<Shown, AllocError>
        requires within { IsWithin (game_of tables.now) self.old i.0 }
        requires scope { i.0 < length (game_of tables.now).scopes }
        requires full { has_empty self.old.remains.box ≡ false }
        ensures back { OnOk result (IsBack (game_of tables.now) i.0 self.old self.new) }
        ensures shows { IfOk result (λ s. (n : ℕ) (ls : List Leaf) → HasSeen (game_of tables.now) i.0 self.old.joins leaves.entry n ls → IsAnswered (drop i.0 (game_of tables.now).scopes) (game_of tables.now) i.0 (position (game_of tables.now) i.0 self.old.remains.box) ls → Shows (scope_finding (drop i.0 (game_of tables.now).scopes) (game_of tables.now) i.0 (demands (game_of tables.now) i.0) (position (game_of tables.now) i.0 self.old.remains.box) ls) (out_of self.new.joins) s) }
    {
        tables.levels.problem.known();
        let level = tables.levels.level(i);
        let found = self.joins.finish(i, &self.values[..level.from]);
        leaves.finish(found)
    }

    /// Reads the tuple of scope i, of which each variable has one value left.
    pub(crate) fn read_tuple(&mut self, tables: &Tables<'p>, i: ScopeId)
        requires within { IsWithin (game_of tables.now) self.old i.0 }
        requires scope { i.0 < length (game_of tables.now).scopes }
        requires full { has_empty self.old.remains.box ≡ false }
        requires fixed { is_fixed (game_of tables.now) i.0 self.old.remains.box ≡ true }
        ensures within { IsWithin (game_of tables.now) self.new (suc i.0) }
        ensures back { IsBack (game_of tables.now) i.0 self.old self.new }
        ensures remains { self.new.remains ≡ self.old.remains }
        ensures joins { self.new.joins ≡ self.old.joins }
    {
        tables.levels.problem.known();
        let level = tables.levels.level(i);
        read_values(
            self.remains.store(),
            level.from,
            level.stop,
            self.values.as_mut_slice(),
        );
    }

    /// Takes what the node after the tuple of scope i came to.
    pub(crate) fn add_node(
        &mut self,
        tables: &Tables<'p>,
        i: ScopeId,
        shown: Shown,
        leaves: &mut Gathering<'_>,
    ) -> Result<(), AllocError>
        requires within { IsWithin (game_of tables.now) self.old (suc i.0) }
        requires scope { i.0 < length (game_of tables.now).scopes }
        requires full { has_empty self.old.remains.box ≡ false }
        ensures back { OnOk result (IsBack (game_of tables.now) i.0 self.old self.new) }
        ensures tells { OnOk result ((f : Finding) (ends : ℕ) → Shows f (out_of self.old.joins) shown → IsLong (game_of tables.now) (suc i.0) f.verdict → IsOfEnds ends f.verdict → Tells (game_of tables.now) i.0 self.old.joins leaves.old self.new.joins leaves.new ends (leaf_node (position (game_of tables.now) (suc i.0) self.old.remains.box) f ∷ [])) }
    {
        let level = tables.levels.level(i);
        self.joins.add_node(i, shown.found);
        leaves.add(&self.values[..level.stop], self.joins.vector(), shown)?;
        Ok(())
    }
}
