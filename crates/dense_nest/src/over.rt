//! Where a part of a certificate ends, and with it perhaps its node, and so on.
ghost use Rattle.std.specs.Prelude.{◌≡◌, ◌≤◌, ◌<◌, [], ◌∷◌, true, false, Some, List, ℤ, length, take, drop, OnOk, IfOk};
ghost use Rattle.qc_model.specs.declared.problem.Target.TheVariants as target_as;
ghost use Rattle.qc_model.specs.Domains.{Box};
ghost use Rattle.qc_model.specs.Verdict.{Verdict, at_most, seen_skipped, seen_node};
ghost use Rattle.joins.specs.Joins.{game_of as game_joined, out_of, KeepsAll};
ghost use Rattle.joins.specs.Seen.{verdict_of};
ghost use Rattle.fd_store.specs.Held.{Held};
ghost use Rattle.proof_tree.specs.Place.{position};
ghost use Rattle.dense_tree.specs.Tree.{Given};
ghost use Rattle.dense_tree.specs.Place.{Place};
ghost use Rattle.dense_tree.specs.Verdicts.{loosened, scope_comes_to, first_of as first_of_place, upper_bound as upper_bound_at};
ghost use Rattle.dense_ledger.specs.Ledger.{Ledger as Kept, Own, setting_of, leaf_seen, part_ended, node_ended};
ghost use Rattle.dense_nest.specs.declared.place.Open.TheVariants as open_as;
ghost use Rattle.dense_nest.specs.Opened.{rest, IsUnforked};
ghost use Rattle.dense_nest.specs.Places.{entry_told};
ghost use Rattle.dense_nest.specs.Telling.{game_of, IsMade, IsOwn, TellsOf};
ghost use Rattle.dense_nest.specs.Goes.{InPart, PartGoes, IsOver};
ghost use Rattle.dense_nest.specs.Ends.{given_to, IsHere, HasPlace, SomeTreeEnd, SomeOver, SeesMore, Finishes, Settles, Leaves, PartEnds};

use crate::basics::{
    bounded_by, count_before, first_of, mixed_with, size_of, together, told_of, write_position,
};
use crate::nest::Nest;
use crate::place::{Due, Entry, Fork, Open, Spot};
use crate::told::Tally;
use joins::Found;
use qc_model::{Condition, Kind, ScopeId, Sense, Target, VarId};
use std::alloc::AllocError;

impl<'p> Nest<'p> {
    /// Writes the position of the box, the values of the variables before scope i or before the goal, and says how many they are.
    pub(crate) fn read_position(&mut self, number: u8) -> usize
        requires here { IsHere self.old number }
        ensures read { take result self.new.values.items ≡ position (game_of self.old) number self.old.remains.box }
        ensures room { result ≤ length self.new.values.items }
        ensures made { IsMade self.new }
        ensures rest { self.new ≡ record self.old { values = self.new.values } }
    {
        self.levels.problem.known();
        let count = count_before(&self.levels, number);
        write_position(self.remains.store(), count, self.values.as_mut_slice());
        count
    }

    /// An upper bound by the variable that the list of scope i begins with: the best value that is left to it, where it is of an
    /// earlier scope, else the first value of the vector that was handed out.
    fn bound_by_variable(&self, i: ScopeId, sense: Sense, x: VarId) -> Found
        requires here { IsHere self.now i.0 }
        ensures { (us : List Given) (p : Place) (w : List ℤ) → HasPlace self.now i.0 p
            → verdict_of result w ≡ at_most (first_of_place (given_to self.now us) p sense (target_as.Var x) (out_of self.now.joins)) }
    {
        if (x.0 as usize) < count_before(&self.levels, i.0) {
            match sense {
                Sense::Min => Found::AtMost(self.remains.store().min(x)),
                Sense::Max => Found::AtMost(self.remains.store().max(x)),
            }
        } else {
            Found::AtMost(first_of(self.joins.vector()))
        }
    }

    /// An upper bound by the vector that was handed out.
    fn upper_bound(&self, i: ScopeId) -> Found
        requires here { IsHere self.now i.0 }
        ensures { (us : List Given) (p : Place) (w : List ℤ) → HasPlace self.now i.0 p → verdict_of result w ≡ upper_bound_at (given_to self.now us) p p.list (out_of self.now.joins) }
    {
        match self.demands.list(i).first() {
            None => Found::Unknown,
            Some(Condition { sense, target }) => match target {
                Target::Var(x) => self.bound_by_variable(i, *sense, *x),
                Target::Aggregate(_) => Found::AtMost(first_of(self.joins.vector())),
            },
        }
    }

    /// Nothing is exact in a loose part: there it is an upper bound. The box is that of the node.
    fn loosen(&mut self, spot: Spot)
        requires here { IsHere self.old spot.number }
        ensures verdict { (us : List Given) (p : Place) → HasPlace self.old spot.number p → p.loose ≡ spot.loose
            → verdict_of self.new.found (out_of self.new.joins) ≡ loosened (given_to self.old us) p (verdict_of self.old.found (out_of self.old.joins)) }
        ensures rest { self.new ≡ record self.old { found = self.new.found } }
    {
        if spot.loose && self.found == Found::Exact {
            self.found = self.upper_bound(ScopeId(spot.number));
        }
    }

    /// What a named node has come to is kept with it.
    fn settle(&mut self, e: Entry) -> Result<(), AllocError>
        requires over { SomeOver self.old e }
        ensures settles { OnOk result (Settles self.old e self.new) }
        ensures rest { self.new ≡ record self.old { named = self.new.named } }
    {
        let Some(n) = e.named else {
            return Ok(());
        };
        let told = told_of(self.alloc, self.found, self.joins.vector())?;
        self.named[n as usize].told = Some(told);
        Ok(())
    }

    /// A leaf of scope i that is passed over.
    pub(crate) fn add_skipped(&mut self, i: ScopeId)
        requires made { IsMade self.old }
        requires scope { i.0 < length (game_of self.old).scopes }
        ensures { SeesMore i.0 (seen_skipped ∷ []) self.old self.new }
    {
        let tally = self.tallies[i.0 as usize];
        self.tallies[i.0 as usize] = Tally {
            size: tally.size,
            best: tally.best,
            mixed: true,
        };
        self.joins.add_skipped(i);
    }

    /// The leaf that a node is to scope i, which has come to what was found. It fails where the scope's numbers grow too large.
    fn add_node(&mut self, i: ScopeId) -> Result<(), AllocError>
        requires made { IsMade self.old }
        requires scope { i.0 < length (game_of self.old).scopes }
        ensures sees { OnOk result (SeesMore i.0 (seen_node (verdict_of self.old.found (out_of self.old.joins)) ∷ []) self.old self.new) }
        ensures same { game_of self.new ≡ game_of self.old }
    {
        let tally = self.tallies[i.0 as usize];
        let size = together(tally.size, size_of(self.found, self.joins.vector()))?;
        let mixed = mixed_with(tally.mixed, self.found);
        self.tallies[i.0 as usize] = Tally {
            size,
            best: tally.best,
            mixed,
        };
        self.joins.add_node(i, self.found);
        Ok(())
    }

    /// The leaf with the tuples beside it, if one tuple led to the node.
    fn add_leaf(&mut self, i: ScopeId, chosen: bool) -> Result<(), AllocError>
        requires made { IsMade self.old }
        requires scope { i.0 < length (game_of self.old).scopes }
        ensures sees { OnOk result (SeesMore i.0 (leaf_seen chosen (verdict_of self.old.found (out_of self.old.joins))) self.old self.new) }
        ensures same { game_of self.new ≡ game_of self.old }
    {
        self.add_node(i)?;
        if chosen {
            self.add_skipped(i);
            return Ok(());
        }
        Ok(())
    }

    /// The node e has come to what was found: goes back to the own tree of the scope before, and says whether there is one.
    fn leave(&mut self, e: Entry) -> Result<bool, AllocError>
        requires over { SomeOver self.old e }
        ensures leaves { IfOk result (Leaves self.old e self.new) }
        ensures fewer { IfOk result (λ up. up ≡ true → length self.new.open < length self.old.open) }
        ensures same { game_of self.new ≡ game_of self.old }
    {
        self.settle(e)?;
        let Some(Open::Waiting(up)) = self.open.pop() else {
            self.due = Due::Ended;
            return Ok(false);
        };
        self.add_leaf(ScopeId(up.spot.number), e.chosen)?;
        self.entry = up;
        Ok(true)
    }

    /// What the own tree of scope i comes to, at the position that stands in the first values. In a scope of the opponent the best values
    /// that are left to what is demanded first don't count.
    fn come_to(&mut self, i: ScopeId, count: usize) -> Found
        requires made { IsMade self.old }
        requires scope { i.0 < length (game_of self.old).scopes }
        requires count { count ≤ length self.old.values.items }
        ensures verdict { (s : Held) (e : Entry) (o : Own) (us : List Given) (p : Place) → HasPlace self.old i.0 p → p.later ≡ drop i.0 (game_of self.old).scopes → e.spot.number ≡ i.0 → take count self.old.values.items ≡ position (game_of self.old) i.0 p.box
            → IsOwn (game_of self.old) s self.old.joins self.old.tallies.items e o → verdict_of result (out_of self.new.joins) ≡ scope_comes_to (given_to self.old us) p p.later o.seen o.bests }
        ensures all { KeepsAll self.old.joins self.new.joins }
        ensures joined { game_joined self.new.joins ≡ game_joined self.old.joins }
        ensures rest { self.new ≡ record self.old { joins = self.new.joins } }
    {
        let tally = self.tallies[i.0 as usize];
        let Some(best) = tally.best else {
            return self.joins.finish(i, &self.values[..count]);
        };
        match self.levels.level(i).kind {
            Kind::Forall => self.joins.finish(i, &self.values[..count]),
            Kind::Exists => bounded_by(self.demands.list(i), best, tally.mixed),
        }
    }

    /// What the own tree of the node e comes to, at the box of the node.
    fn finish_scope(&mut self, e: Entry)
        requires ended { SomeTreeEnd self.old e }
        ensures finishes { Finishes self.old e self.new }
        ensures remains { self.new.remains ≡ self.old.remains }
        ensures opened { self.new.open ≡ self.old.open }
        ensures same { game_of self.new ≡ game_of self.old }
    {
        let i = ScopeId(e.spot.number);
        let count = self.read_position(i.0);
        self.found = self.come_to(i, count);
        self.own = self.joins.own(i);
        self.loosen(e.spot);
    }

    /// The scope's own tree has ended, and with it its node. Says whether the own tree of the scope before goes on.
    fn scope_over(&mut self) -> Result<bool, AllocError>
        requires part { InPart self.old }
        requires unforked { IsUnforked self.old.open }
        ensures ends { IfOk result (PartEnds self.old self.new) }
        ensures fewer { IfOk result (λ up. up ≡ true → length self.new.open < length self.old.open) }
        ensures same { game_of self.new ≡ game_of self.old }
    {
        let e = self.entry;
        self.remains.undo_to(e.mark);
        self.finish_scope(e);
        self.leave(e)
    }

    /// A part has ended in a case of this branch: its next case is due, at its box.
    fn back_to(&mut self, k: Fork)
        requires part { InPart self.old }
        requires top { self.old.open ≡ open_as.Forked k ∷ rest self.old.open }
        ensures ends { PartEnds self.old self.new false }
        ensures same { game_of self.new ≡ game_of self.old }
    {
        self.remains.undo_to(k.mark);
        self.due = Due::Case;
    }

    /// A part of the scope's own tree has ended: the next case of the branch that was opened last is due, or the scope has come to a
    /// verdict, and with it its node, and so on.
    ///
    /// It fails where memory runs out for what a named node has come to, and where the numbers of a scope's leaves are larger together
    /// than 64 bits hold.
    pub fn part_over(&mut self) -> Result<(), AllocError>
        requires part { InPart self.old }
        ensures goes { OnOk result (PartGoes self.old self.new (λ d. Some (part_ended (setting_of (game_of self.old) d) d d.own d.frames))) }
        ensures same { game_of self.new ≡ game_of self.old }
    {
        loop {
            if let Some(k) = self.fork() {
                self.back_to(k);
                return Ok(());
            }
            if !self.scope_over()? {
                return Ok(());
            }
        }
    }

    /// A node without an own tree has come to what was found, at its own box. It fails as `part_over` does.
    pub(crate) fn node_over(&mut self, e: Entry) -> Result<(), AllocError>
        requires over { (us : List Given) × (boxes : List Box) × (v : Verdict) × (d : Kept) × IsOver self.old e us boxes v d }
        ensures goes { OnOk result ((us : List Given) (boxes : List Box) (v : Verdict) (d : Kept) → IsOver self.old e us boxes v d
            → TellsOf self.new us boxes (Some (node_ended (setting_of (game_of self.old) d) d (entry_told (game_of self.old) self.old.remains e) (loosened (setting_of (game_of self.old) d) (entry_told (game_of self.old) self.old.remains e).place v) d.frames))) }
        ensures same { game_of self.new ≡ game_of self.old }
    {
        self.own = None;
        self.loosen(e.spot);
        if !self.leave(e)? {
            return Ok(());
        }
        self.part_over()
    }
}
