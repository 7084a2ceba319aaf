//! What is seen in a scope's own tree.
ghost use Rattle.std.specs.Prelude.{◌≡◌, ◌≤◌, ◌<◌, ◌++◌, ◌∷◌, ◌||◌, ◌&&◌, [], true, false, not, Some, List, length, OnOk, unsigned_abs};
ghost use Rattle.qc_model.specs.Domains.{Box, has_empty, values_left};
ghost use Rattle.qc_model.specs.Verdict.{lost, seen_barred, seen_bound, seen_node};
ghost use Rattle.proof_tree.specs.Place.{is_fixed};
ghost use Rattle.dense_tree.specs.Place.{is_players, place_below};
ghost use Rattle.dense_ledger.specs.Ledger.{Ledger as Kept, setting_of, with_seen, node_due, case_due, entry_at, waiting, forked};
ghost use Rattle.dense_nest.specs.declared.place.Due.TheVariants as due_as;
ghost use Rattle.dense_nest.specs.Telling.{game_of, here_in};
ghost use Rattle.dense_nest.specs.Goes.{InPart, PartGoes, PartStays};

use crate::basics::{LEAST, better_of};
use crate::nest::Nest;
use crate::place::{Due, Entry, Fork, Open, Spot};
use crate::told::Tally;
use joins::Found;
use qc_model::{ScopeId, VarId};
use std::alloc::AllocError;

impl<'p> Nest<'p> {
    /// The scope that is read.
    pub fn scope(&self) -> ScopeId
        ensures { result.0 ≡ self.now.entry.spot.number }
    {
        ScopeId(self.entry.spot.number)
    }

    /// More of the scope's own tree is due, below a bound or not.
    pub fn go_on(&mut self, bounded: bool)
        ensures { self.new ≡ record self.old { due = due_as.Part bounded } }
    {
        self.due = Due::Part { bounded };
    }

    /// The mark of a bound: the best of the values that went.
    pub fn add_mark(&mut self, best: i64)
        requires part { InPart self.old }
        requires small { unsigned_abs best ≤ 1000000000 }
        ensures stays { PartStays self.old self.new (λ d. record d { own = with_seen (seen_bound best ∷ []) d.own }) }
        ensures entry { self.new.entry ≡ self.old.entry }
        ensures remains { self.new.remains ≡ self.old.remains }
        ensures same { game_of self.new ≡ game_of self.old }
    {
        let i = self.scope();
        let tally = self.tallies[i.0 as usize];
        self.tallies[i.0 as usize] = Tally {
            size: tally.size.max(1),
            best: tally.best,
            mixed: true,
        };
        self.joins.add_bound(i, best);
    }

    /// The scope's tuple isn't allowed.
    pub fn add_barred(&mut self)
        requires part { InPart self.old }
        ensures stays { PartStays self.old self.new (λ d. record d { own = with_seen (seen_barred ∷ []) d.own }) }
        ensures same { game_of self.new ≡ game_of self.old }
    {
        let i = self.scope();
        self.joins.add_barred(i);
    }

    /// A leaf that is lost, since nobody goes on from there.
    pub fn add_lost(&mut self)
        requires part { InPart self.old }
        ensures stays { PartStays self.old self.new (λ d. record d { own = with_seen (seen_node lost ∷ []) d.own }) }
        ensures same { game_of self.new ≡ game_of self.old }
    {
        let i = self.scope();
        self.joins.add_node(i, Found::Lost);
    }

    /// The best value that a leaf leaves to what is demanded first.
    pub fn add_best(&mut self, best: i64)
        requires part { InPart self.old }
        ensures stays { PartStays self.old self.new (λ d. record d { own = record (d.own) { bests = d.own.bests ++ best ∷ [] } }) }
        ensures same { game_of self.new ≡ game_of self.old }
    {
        let i = self.scope();
        let tally = self.tallies[i.0 as usize];
        self.tallies[i.0 as usize] = Tally {
            size: tally.size,
            best: Some(better_of(self.demands.list(i), tally.best, best)),
            mixed: tally.mixed,
        };
    }

    /// On to the node below, whose place is that of the box: `fixed` says whether each variable of the scope has one value left, `players`
    /// whether the scope is the player's. It fails where memory runs out.
    pub fn go_below(
        &mut self,
        bounded: bool,
        fixed: bool,
        players: bool,
        chosen: bool,
    ) -> Result<(), AllocError>
        requires part { InPart self.old }
        requires full { has_empty self.old.remains.box ≡ false }
        requires fixed { fixed ≡ is_fixed (game_of self.old) self.old.entry.spot.number self.old.remains.box }
        requires players { players ≡ is_players (here_in self.old bounded) }
        ensures goes { OnOk result (PartGoes self.old self.new (λ d. Some (record d { due = node_due (entry_at (place_below (setting_of (game_of self.old) d) (here_in self.old bounded)) chosen); frames = waiting d.own ∷ d.frames }))) }
        ensures same { game_of self.new ≡ game_of self.old }
    {
        self.levels.problem.known();
        let e = self.entry;
        self.open.push(Open::Waiting(e))?;
        let spot = Spot {
            number: e.spot.number + 1,
            horizon: e.horizon,
            loose: e.spot.loose || !fixed,
            bounded: bounded && players,
        };
        self.due = Due::Node(Entry {
            spot,
            horizon: e.horizon,
            mark: self.remains.mark(),
            named: None,
            chosen,
        });
        Ok(())
    }

    /// A branch on a variable is opened. It fails where memory runs out.
    pub fn branch(&mut self, bounded: bool, x: VarId) -> Result<(), AllocError>
        requires part { InPart self.old }
        requires full { has_empty self.old.remains.box ≡ false }
        requires variable { x.0 < length (game_of self.old).variables }
        ensures goes { OnOk result (PartGoes self.old self.new (λ d. Some (record d { due = case_due; frames = forked (record { place = here_in self.old bounded; variable = x.0; left = values_left self.old.remains.box x.0 }) ∷ d.frames }))) }
        ensures same { game_of self.new ≡ game_of self.old }
    {
        self.levels.problem.known();
        self.open.push(Open::Forked(Fork {
            x,
            mark: self.remains.mark(),
            from: LEAST,
            bounded,
        }))?;
        self.due = Due::Case;
        Ok(())
    }
}
