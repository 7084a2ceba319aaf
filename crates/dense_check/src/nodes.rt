//! The lines of a node before its scope's own tree.
ghost use Rattle.std.specs.Prelude.{◌≡◌, ◌≤◌, ◌<◌, ◌==◌, ◌&&◌, ◌||◌, ◌∷◌, [], not, true, OnOk, IfSome, IfNone, Some, None, List, ℤ, length, drop, is_none, slice_get, slice_index_or};
ghost use Rattle.qc_model.specs.Game.{before};
ghost use Rattle.proof_tree.specs.InPlace.{is_nearer as is_nearer_than};
ghost use Rattle.dense_tree.specs.Alike.{same_horizon as same_horizon_of, same_left as same_left_in};
ghost use Rattle.dense_tree.specs.InPlace.{horizon_placed, no_play_placed};
ghost use Rattle.dense_tree.specs.Place.{Setting, Place};
ghost use Rattle.dense_tree.specs.Verdicts.{goal_comes_to};
ghost use Rattle.dense_nest.specs.Goes.{goal_of, is_told_in};
ghost use Rattle.dense_check.specs.Alike.{is_like, ended_spot, is_alike_known};
ghost use Rattle.dense_tree.specs.Lines.{named_line, horizon_line, stuck_line, goal_line, again_line, no_play_line};
ghost use Rattle.dense_ledger.specs.Ledger.{Ledger as Kept, setting_of, node_line as node_line_of, horizoned, body_line as body_line_of, tree_line as tree_line_of};
ghost use Rattle.dense_nest.specs.Places.{entry_told, spot_below, IsFull};
ghost use Rattle.dense_check.specs.Lines.{line_told};
ghost use Rattle.dense_check.specs.Telling.{game_of, with_remains, begins_with, IsNode, InNode, NodeGoes, IsSameHeld, IsGathered};

use crate::line::Line;
use crate::machine::DenseMachine;
use dense_box::{is_entailed_throughout, some_refuted};
use dense_nest::{Entry, Reached, Spot};
use qc_model::ScopeId;
use std::alloc::AllocError;

/// Whether both horizons are the same.
fn same_horizon(one: Option<u8>, other: Option<u8>) -> bool
    ensures { result ≡ same_horizon_of one other }
{
    match one {
        None => other.is_none(),
        Some(k) => match other {
            None => false,
            Some(l) => k == l,
        },
    }
}

/// Whether a node that begins there is of the same scope as e, below the same horizon, and tells of all positions.
fn is_like_spot(e: Entry, q: Spot) -> bool
    ensures { result ≡ is_like e q }
{
    if e.spot.number != q.number {
        return false;
    }
    if !same_horizon(e.horizon, q.horizon) {
        return false;
    }
    if q.loose {
        return q.horizon.is_none();
    }
    true
}

impl<'p> DenseMachine<'p> {
    /// `m`: the node is named, and its box kept.
    fn named_line(&mut self, e: Entry) -> Result<(), AllocError>
        requires node { InNode self.old e }
        ensures goes { OnOk result (NodeGoes self.old e self.new (λ d. node_line_of (setting_of (game_of self.old) d) d (entry_told (game_of self.old) self.old.nest.remains e) named_line)) }
        ensures same { game_of self.new ≡ game_of self.old }
    {
        self.positions.keep(self.nest.remains.store())?;
        self.nest.name(e)
    }

    /// Whether the number lies before the horizon in force.
    fn is_nearer(&self, e: Entry, k: ScopeId) -> bool
        ensures { result ≡ is_nearer_than k.0 e.horizon }
    {
        match e.horizon {
            None => true,
            Some(h) => k.0 < h,
        }
    }

    /// Whether a horizon may begin at the node: k lies ahead, and nearer than the one in force, and nobody passes the scopes up to it.
    fn may_look_to(&mut self, e: Entry, k: ScopeId) -> bool
        requires node { InNode self.old e }
        ensures placed { (d : Kept) → IsNode self.old e d → result ≡ horizon_placed (setting_of (game_of self.old) d) (Some k) (entry_told (game_of self.old) self.old.nest.remains e).place }
        ensures inside { result ≡ true → k.0 ≤ length (game_of self.old).scopes }
        ensures left { IsSameHeld self.old.nest.remains self.new.nest.remains }
        ensures rest { self.new ≡ with_remains self.new.nest.remains self.old }
    {
        let i = ScopeId(e.spot.number);
        if self.nest.is_at_goal(e) {
            return false;
        }
        if !self.is_ahead(i, k) {
            return false;
        }
        if !self.is_nearer(e, k) {
            return false;
        }
        self.none_passes(i, k)
    }

    /// `h`: a horizon begins at the node.
    fn horizon_line(&mut self, e: Entry, k: ScopeId)
        requires node { InNode self.old e }
        ensures goes { NodeGoes self.old e self.new (λ d. horizoned (setting_of (game_of self.old) d) d (entry_told (game_of self.old) self.old.nest.remains e) (horizon_line k)) }
        ensures same { game_of self.new ≡ game_of self.old }
    {
        if self.may_look_to(e, k) {
            self.nest.look_to(e, k);
        } else {
            self.nest.refuse();
        }
    }

    /// Where the named node begins, where it is there and has ended.
    fn told_spot(&self, n: u32) -> Option<Spot>
        ensures { result ≡ ended_spot (slice_get self.now.nest.named.items n) }
    {
        match self.nest.named.get(n as usize) {
            None => None,
            Some(named) => match &named.told {
                None => None,
                Some(_) => Some(named.spot),
            },
        }
    }

    /// How many variables stand before the node's scope.
    fn count_before(&self, e: Entry) -> usize
        requires { e.spot.number ≤ length (game_of self.now).scopes }
        ensures { result ≡ before (game_of self.now) e.spot.number }
    {
        let number = e.spot.number;
        if (number as usize) < self.nest.levels.problem.scopes() {
            self.nest.levels.level(ScopeId(number)).from
        } else {
            self.nest.levels.problem.variables()
        }
    }

    /// Whether no bound stands above either node, or as much is left to what comes in kept box n as at e.
    fn misses_nothing(&self, e: Entry, q: Spot, n: u32) -> bool
        requires node { InNode self.now e }
        requires kept { n < length self.now.positions.boxes }
        ensures { result ≡ (not (e.spot.bounded || q.bounded) || same_left_in (drop (before (game_of self.now) e.spot.number) self.now.nest.remains.box) (drop (before (game_of self.now) e.spot.number) (slice_index_or self.now.positions.boxes n []))) }
    {
        if !e.spot.bounded && !q.bounded {
            return true;
        }
        let first = self.count_before(e);
        self.positions
            .same_left(first, n as usize, self.nest.remains.store())
    }

    /// Whether the node comes to what the named one came to, which has ended and is of the same scope.
    fn is_alike(&mut self, e: Entry, n: u32) -> bool
        requires node { InNode self.old e }
        ensures alike { (d : Kept) → IsNode self.old e d → result ≡ is_alike_known (game_of self.old) (entry_told (game_of self.old) self.old.nest.remains e).place (slice_get d.known n) }
        ensures told { result ≡ true → is_told_in (slice_get self.old.nest.named.items n) e.spot.number ≡ true }
        ensures same { self.new ≡ self.old }
    {
        let Some(q) = self.told_spot(n) else {
            return false;
        };
        if !is_like_spot(e, q) {
            return false;
        }
        if !self.misses_nothing(e, q, n) {
            return false;
        }
        let i = ScopeId(e.spot.number);
        self.positions
            .look_same(i, n as usize, self.nest.remains.store())
    }

    /// `a`: a named node is told again.
    fn again_line(&mut self, e: Entry, n: u32) -> Result<(), AllocError>
        requires node { InNode self.old e }
        ensures goes { OnOk result (NodeGoes self.old e self.new (λ d. node_line_of (setting_of (game_of self.old) d) d (entry_told (game_of self.old) self.old.nest.remains e) (again_line n))) }
        ensures same { game_of self.new ≡ game_of self.old }
    {
        if !self.is_alike(e, n) {
            return self.refuse();
        }
        self.nest.tell_again(e, n)
    }

    /// Whether the opponent always has a move from the node's scope on, k lies ahead, and nobody passes the scopes up to it.
    fn is_unplayed(&mut self, e: Entry, k: ScopeId) -> bool
        requires node { InNode self.old e }
        ensures placed { (d : Kept) → IsNode self.old e d → result ≡ no_play_placed (setting_of (game_of self.old) d) (entry_told (game_of self.old) self.old.nest.remains e).place k }
        ensures left { IsSameHeld self.old.nest.remains self.new.nest.remains }
        ensures rest { self.new ≡ with_remains self.new.nest.remains self.old }
    {
        let i = ScopeId(e.spot.number);
        if !self.freedom.is_free_from(i) {
            return false;
        }
        if !self.is_ahead(i, k) {
            return false;
        }
        self.none_passes(i, k)
    }

    /// `l` in place of a node: nobody passes the scopes up to k, though the opponent always has a move.
    fn no_play_line(&mut self, e: Entry, k: ScopeId) -> Result<(), AllocError>
        requires node { InNode self.old e }
        ensures goes { OnOk result (NodeGoes self.old e self.new (λ d. node_line_of (setting_of (game_of self.old) d) d (entry_told (game_of self.old) self.old.nest.remains e) (no_play_line k))) }
        ensures same { game_of self.new ≡ game_of self.old }
    {
        if !self.is_unplayed(e, k) {
            return self.refuse();
        }
        self.nest.lose(e)
    }

    /// `t`: the owner of the scope is stuck.
    fn stuck_line(&mut self, e: Entry) -> Result<(), AllocError>
        requires node { InNode self.old e }
        ensures goes { OnOk result (NodeGoes self.old e self.new (λ d. body_line_of (setting_of (game_of self.old) d) d (entry_told (game_of self.old) self.old.nest.remains e) stuck_line)) }
        ensures same { game_of self.new ≡ game_of self.old }
    {
        if !self.nest.is_at_horizon(e) {
            return self.refuse();
        }
        self.nest.stop(e)
    }

    /// What the box says of the goal. What it entails, as mostly, it doesn't refute.
    fn reached(&self, e: Entry) -> Reached
        requires goal { e.spot.number ≡ length (game_of self.now).scopes }
        requires full { IsFull (game_of self.now) self.now.nest.remains.box }
        ensures { (s : Setting) (p : Place) → s.game ≡ game_of self.now → p.number ≡ e.spot.number → p.box ≡ self.now.nest.remains.box → goal_comes_to s p ≡ goal_of p (game_of self.now) result }
    {
        let goal = ScopeId(e.spot.number);
        let nest = &self.nest;
        let store = nest.remains.store();
        nest.levels.problem.known();
        if is_entailed_throughout(&nest.levels, goal, store) {
            return Reached::Holds;
        }
        if some_refuted(&nest.levels, goal, store) {
            return Reached::Fails;
        }
        Reached::Open
    }

    /// `g`: the goal.
    fn goal_line(&mut self, e: Entry) -> Result<(), AllocError>
        requires node { InNode self.old e }
        ensures goes { OnOk result (NodeGoes self.old e self.new (λ d. body_line_of (setting_of (game_of self.old) d) d (entry_told (game_of self.old) self.old.nest.remains e) goal_line)) }
        ensures same { game_of self.new ≡ game_of self.old }
    {
        if self.nest.is_at_horizon(e) {
            return self.refuse();
        }
        if !self.nest.is_at_goal(e) {
            return self.refuse();
        }
        let reached = self.reached(e);
        self.nest.reach(e, reached)
    }

    /// The first line of the scope's own tree.
    fn tree_line(&mut self, e: Entry, line: Line, tuple: &[i64]) -> Result<(), AllocError>
        requires node { InNode self.old e }
        ensures goes { OnOk result ((t : List ℤ) → IsGathered tuple.now t → NodeGoes self.old e self.new (λ d. tree_line_of (setting_of (game_of self.old) d) d (entry_told (game_of self.old) self.old.nest.remains e) (line_told line t))) }
        ensures same { game_of self.new ≡ game_of self.old }
    {
        match line {
            Line::NoPlay { scope: _ } => self.refuse(),
            _ => self.first_part_line(e, line, tuple),
        }
    }

    /// The same where it isn't `l`.
    fn first_part_line(&mut self, e: Entry, line: Line, tuple: &[i64]) -> Result<(), AllocError>
        requires node { InNode self.old e }
        ensures goes { OnOk result ((t : List ℤ) → IsGathered tuple.now t → NodeGoes self.old e self.new (λ d. begins_with (setting_of (game_of self.old) d) d (entry_told (game_of self.old) self.old.nest.remains e) (line_told line t))) }
        ensures same { game_of self.new ≡ game_of self.old }
    {
        if self.nest.is_at_horizon(e) {
            return self.refuse();
        }
        if self.nest.is_at_goal(e) {
            return self.refuse();
        }
        self.nest.begin(e);
        self.part_line(e.spot.bounded, line, tuple)
    }

    /// A line of a node behind its horizon.
    pub(crate) fn body_line(
        &mut self,
        e: Entry,
        line: Line,
        tuple: &[i64],
    ) -> Result<(), AllocError>
        requires node { InNode self.old e }
        ensures goes { OnOk result ((t : List ℤ) → IsGathered tuple.now t → NodeGoes self.old e self.new (λ d. body_line_of (setting_of (game_of self.old) d) d (entry_told (game_of self.old) self.old.nest.remains e) (line_told line t))) }
        ensures same { game_of self.new ≡ game_of self.old }
    {
        match line {
            Line::Stuck => self.stuck_line(e),
            Line::Goal => self.goal_line(e),
            _ => self.tree_line(e, line, tuple),
        }
    }

    /// A line of a node that has its name, if any.
    pub(crate) fn named_body_line(
        &mut self,
        e: Entry,
        line: Line,
        tuple: &[i64],
    ) -> Result<(), AllocError>
        requires node { InNode self.old e }
        ensures goes { OnOk result ((t : List ℤ) → IsGathered tuple.now t → NodeGoes self.old e self.new (λ d. horizoned (setting_of (game_of self.old) d) d (entry_told (game_of self.old) self.old.nest.remains e) (line_told line t))) }
        ensures same { game_of self.new ≡ game_of self.old }
    {
        match line {
            Line::Horizon { scope } => {
                self.horizon_line(e, scope);
                Ok(())
            }
            _ => self.body_line(e, line, tuple),
        }
    }

    /// The first line of a node.
    pub(crate) fn node_line(
        &mut self,
        e: Entry,
        line: Line,
        tuple: &[i64],
    ) -> Result<(), AllocError>
        requires node { InNode self.old e }
        ensures goes { OnOk result ((t : List ℤ) → IsGathered tuple.now t → NodeGoes self.old e self.new (λ d. node_line_of (setting_of (game_of self.old) d) d (entry_told (game_of self.old) self.old.nest.remains e) (line_told line t))) }
        ensures same { game_of self.new ≡ game_of self.old }
    {
        match line {
            Line::Named => self.named_line(e),
            Line::Again { node } => self.again_line(e, node),
            Line::NoPlay { scope } => self.no_play_line(e, scope),
            _ => self.named_body_line(e, line, tuple),
        }
    }
}
