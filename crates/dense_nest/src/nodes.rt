//! What becomes of a node that is due.
ghost use Rattle.std.specs.Prelude.{◌≡◌, ◌≤◌, ◌<◌, ◌++◌, ◌∷◌, [], Some, None, List, length, OnOk, IfOk, nat_le, slice_get, true};
ghost use Rattle.qc_model.specs.Domains.{Box};
ghost use Rattle.qc_model.specs.Verdict.{lost};
ghost use Rattle.dense_tree.specs.Tree.{Given};
ghost use Rattle.dense_tree.specs.Read.{Known, or_unknown};
ghost use Rattle.dense_tree.specs.Verdicts.{loosened, stuck_comes_to};
ghost use Rattle.proof_tree.specs.InPlace.{is_horizon};
ghost use Rattle.dense_ledger.specs.Ledger.{Ledger as Kept, setting_of, node_ended, begun, named_due, body_due, with_horizon_at};
ghost use Rattle.dense_nest.specs.Places.{entry_told};
ghost use Rattle.dense_nest.specs.declared.place.Due.TheVariants as due_as;
ghost use Rattle.dense_nest.specs.Telling.{game_of, known_of, IsNode, IsPart, Tells, TellsOf};
ghost use Rattle.dense_nest.specs.Ends.{given_to};
ghost use Rattle.dense_nest.specs.Goes.{InNode, NodeGoes, Finds, goal_of, is_told_in, is_told_at, verdict_known};

use crate::nest::Nest;
use crate::place::{Due, Entry};
use crate::told::{Named, Tally};
use joins::Found;
use qc_model::ScopeId;
use std::alloc::AllocError;

/// What a box says of the goal: it refutes a constraint of it, it entails all, or neither.
#[derive(Clone, Copy, PartialEq, Eq)]
pub enum Reached {
    Fails,
    Holds,
    Open,
}

/// Whether a named node of scope i has ended.
fn has_come(named: &Named, i: u8) -> bool
    ensures { result ≡ is_told_in (Some named.now) i }
{
    match &named.told {
        None => false,
        Some(_) => named.spot.number == i,
    }
}

impl<'p> Nest<'p> {
    /// A line was out of place.
    pub fn refuse(&mut self)
        ensures { self.new ≡ record self.old { due = due_as.Wrong } }
    {
        self.due = Due::Wrong;
    }

    /// Whether the node is at the horizon in force.
    pub fn is_at_horizon(&self, e: Entry) -> bool
        ensures { result ≡ is_horizon e.horizon e.spot.number }
    {
        match e.horizon {
            None => false,
            Some(k) => k == e.spot.number,
        }
    }

    /// Whether the node is the goal's.
    pub fn is_at_goal(&self, e: Entry) -> bool
        ensures { result ≡ nat_le (length (game_of self.now).scopes) e.spot.number }
    {
        self.levels.problem.scopes() <= e.spot.number as usize
    }

    /// `m`: the node is named. Its box has to be kept beside those of the others.
    pub fn name(&mut self, e: Entry) -> Result<(), AllocError>
        requires node { InNode self.old e }
        ensures goes { OnOk result ((us : List Given) (boxes : List Box) (d : Kept) → IsNode self.old us boxes e d
            → Tells self.new us (boxes ++ self.old.remains.box ∷ []) (record d { due = named_due (record (entry_told (game_of self.old) self.old.remains e) { named = Some (length d.known) }); known = d.known ++ record { place = (entry_told (game_of self.old) self.old.remains e).begin; verdict = None } ∷ [] })) }
        ensures same { game_of self.new ≡ game_of self.old }
    {
        let count = self.named.len();
        if count > u32::MAX as usize {
            return Err(AllocError);
        }
        self.named.push(Named {
            spot: e.spot,
            told: None,
        })?;
        self.due = Due::Named(Entry {
            spot: e.spot,
            horizon: e.horizon,
            mark: e.mark,
            named: Some(count as u32),
            chosen: e.chosen,
        });
        Ok(())
    }

    /// `h K`, in place: the horizon is in force below.
    pub fn look_to(&mut self, e: Entry, k: ScopeId)
        requires node { InNode self.old e }
        requires inside { k.0 ≤ length (game_of self.old).scopes }
        ensures goes { NodeGoes self.old e self.new (λ d. Some (record d { due = body_due (with_horizon_at k (entry_told (game_of self.old) self.old.remains e)) })) }
        ensures same { game_of self.new ≡ game_of self.old }
    {
        self.due = Due::Body(Entry {
            spot: e.spot,
            horizon: Some(k.0),
            mark: e.mark,
            named: e.named,
            chosen: e.chosen,
        });
    }

    /// The scope's own tree begins.
    pub fn begin(&mut self, e: Entry)
        requires node { InNode self.old e }
        requires scope { e.spot.number < length (game_of self.old).scopes }
        ensures goes { (us : List Given) (boxes : List Box) (d : Kept) → IsNode self.old us boxes e d → IsPart self.new us boxes (begun d (entry_told (game_of self.old) self.old.remains e)) }
        ensures entry { self.new.entry ≡ e }
        ensures remains { self.new.remains ≡ self.old.remains }
        ensures same { game_of self.new ≡ game_of self.old }
    {
        self.joins.clear(ScopeId(e.spot.number));
        self.tallies[e.spot.number as usize] = Tally {
            size: 0,
            best: None,
            mixed: false,
        };
        self.entry = e;
    }

    /// A node that nobody passes, lost for the player.
    pub fn lose(&mut self, e: Entry) -> Result<(), AllocError>
        requires node { InNode self.old e }
        ensures goes { OnOk result (NodeGoes self.old e self.new (λ d. Some (node_ended (setting_of (game_of self.old) d) d (entry_told (game_of self.old) self.old.remains e) lost d.frames))) }
        ensures same { game_of self.new ≡ game_of self.old }
    {
        self.found = Found::Lost;
        self.node_over(e)
    }

    /// What a scope whose owner is stuck comes to is found, or that the goal isn't met.
    fn find_stuck(&mut self, e: Entry)
        requires node { InNode self.old e }
        ensures finds { Finds self.old e self.new (λ us d. stuck_comes_to (given_to self.old us) (entry_told (game_of self.old) self.old.remains e).place (entry_told (game_of self.old) self.old.remains e).place.later) }
        ensures remains { self.new.remains ≡ self.old.remains }
        ensures same { game_of self.new ≡ game_of self.old }
    {
        if self.is_at_goal(e) {
            self.found = Found::Lost;
            return;
        }
        let count = self.read_position(e.spot.number);
        self.found = self
            .joins
            .stuck(ScopeId(e.spot.number), &self.values[..count]);
    }

    /// `t`, in place: the owner of the scope is stuck.
    pub fn stop(&mut self, e: Entry) -> Result<(), AllocError>
        requires node { InNode self.old e }
        ensures goes { OnOk result (NodeGoes self.old e self.new (λ d. Some (node_ended (setting_of (game_of self.old) d) d (entry_told (game_of self.old) self.old.remains e)
            (loosened (setting_of (game_of self.old) d) (entry_told (game_of self.old) self.old.remains e).place (stuck_comes_to (setting_of (game_of self.old) d) (entry_told (game_of self.old) self.old.remains e).place (entry_told (game_of self.old) self.old.remains e).place.later)) d.frames))) }
        ensures same { game_of self.new ≡ game_of self.old }
    {
        self.find_stuck(e);
        self.node_over(e)
    }

    /// What the goal comes to is found, by what the box says of it.
    fn find_goal(&mut self, e: Entry, reached: Reached)
        requires node { InNode self.old e }
        requires goal { length (game_of self.old).scopes ≤ e.spot.number }
        ensures finds { Finds self.old e self.new (λ us d. goal_of (entry_told (game_of self.old) self.old.remains e).place (game_of self.old) reached) }
        ensures remains { self.new.remains ≡ self.old.remains }
        ensures same { game_of self.new ≡ game_of self.old }
    {
        match reached {
            Reached::Fails => self.found = Found::Lost,
            Reached::Open => self.found = Found::Unknown,
            Reached::Holds => {
                let count = self.read_position(e.spot.number);
                self.found = self.joins.goal(true, &self.values[..count]);
            }
        }
    }

    /// `g`, in place: the goal comes to what the box says of it.
    pub fn reach(&mut self, e: Entry, reached: Reached) -> Result<(), AllocError>
        requires node { InNode self.old e }
        requires goal { length (game_of self.old).scopes ≤ e.spot.number }
        ensures goes { OnOk result (NodeGoes self.old e self.new (λ d. Some (node_ended (setting_of (game_of self.old) d) d (entry_told (game_of self.old) self.old.remains e)
            (loosened (setting_of (game_of self.old) d) (entry_told (game_of self.old) self.old.remains e).place (goal_of (entry_told (game_of self.old) self.old.remains e).place (game_of self.old) reached)) d.frames))) }
        ensures same { game_of self.new ≡ game_of self.old }
    {
        self.find_goal(e, reached);
        self.node_over(e)
    }

    /// Whether the named node is there and has ended, and is of the same scope.
    pub fn is_told(&self, e: Entry, n: u32) -> bool
        ensures nest { result ≡ is_told_in (slice_get self.now.named.items n) e.spot.number }
        ensures known { (us : List Given) (boxes : List Box) (d : Kept) → IsNode self.now us boxes e d → result ≡ is_told_at (slice_get d.known n) e.spot.number }
    {
        match self.named.get(n as usize) {
            None => false,
            Some(named) => has_come(named, e.spot.number),
        }
    }

    /// What the named node of the same scope has come to is found.
    fn take_told(&mut self, e: Entry, n: u32)
        requires node { InNode self.old e }
        requires told { is_told_in (slice_get self.old.named.items n) e.spot.number ≡ true }
        ensures finds { Finds self.old e self.new (λ us d. verdict_known (slice_get d.known n)) }
        ensures remains { self.new.remains ≡ self.old.remains }
        ensures same { game_of self.new ≡ game_of self.old }
    {
        let Some(told) = &self.named[n as usize].told else {
            return;
        };
        match told.found {
            Found::Exact => {
                self.joins.hand_out(told.vector.as_slice());
                self.found = Found::Exact;
            }
            Found::Lost => self.found = Found::Lost,
            Found::AtMost(p) => self.found = Found::AtMost(p),
            Found::Unknown => self.found = Found::Unknown,
        }
    }

    /// `a N`, in place: comes to what the named node of the same scope has come to. It fails as `part_over` does.
    pub fn tell_again(&mut self, e: Entry, n: u32) -> Result<(), AllocError>
        requires node { InNode self.old e }
        requires told { is_told_in (slice_get self.old.named.items n) e.spot.number ≡ true }
        ensures goes { OnOk result (NodeGoes self.old e self.new (λ d. Some (node_ended (setting_of (game_of self.old) d) d (entry_told (game_of self.old) self.old.remains e)
            (loosened (setting_of (game_of self.old) d) (entry_told (game_of self.old) self.old.remains e).place (verdict_known (slice_get d.known n))) d.frames))) }
        ensures same { game_of self.new ≡ game_of self.old }
    {
        self.take_told(e, n);
        self.node_over(e)
    }
}
