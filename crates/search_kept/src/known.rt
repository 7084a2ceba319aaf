//! Nodes that were settled before, whose lines stand wherever the position looks the same.
//!
//! Such a node is lost, or exact with its vector. Whatever a condition or an aggregate mentions is looked at, so the node comes to
//! the same at each of these positions.
ghost use Rattle.std.specs.Prelude.{◌≡◌, ◌≤◌, ◌<◌, Some, List, ℤ, not, length, slice_get, IfOk, IfSome, IsTrue, IsFalse};
ghost use Rattle.std.specs.List.{All};
ghost use Rattle.std.proofs.Props.{props};
ghost use Rattle.joins.specs.Seen.{verdict_of};
ghost use Rattle.search_box.specs.Entered.{IsEntered};
ghost use Rattle.search_box.specs.Looking.{scope_number};
ghost use Rattle.search_kept.specs.Props.{known_prop};
ghost use Rattle.search_kept.specs.Known.{IsEnded, IsKnown, StandsHere};
ghost use Rattle.search_parts.specs.Settled.{is_vague_verdict, beats_none};

use crate::resemblance::{is_like, position_number, stand_alike};
use crate::turns::turns_in;
use joins::Found;
use likeness::Likeness;
use model_levels::{Level, Levels};
use qc_model::{Problem, ScopeId};
use search_box::SearchBox;
use std::alloc::{AllocError, Global};
use strategy_arena::Arena;

/// How many nodes are kept at most.
const PLACES: usize = 65_536;

/// How many lines a node has at least that is kept: what is shorter is searched as fast as it is looked up and copied.
pub(crate) const LEAST_LINES: usize = 8;

/// How many lines it has at most.
const MOST_LINES: usize = 4_096;

/// How many lines all nodes have together at most.
const MOST_LINES_IN_ALL: usize = 4_194_304;

/// How many nodes are kept before it is asked whether that serves.
const FIRST_NODES: u32 = 1_024;

/// One in so many of the nodes that were kept has to have been met again, else no more are.
const LEAST_SHARE: u32 = 8;

/// How many positions of a scope are looked up before it is asked whether that serves.
const FIRST_LOOKS: u32 = 2_000;

/// One in so many of them has to have been known, else no more are looked up.
const LEAST_MET: u32 = 50;

/// How many bits of a position's number are left out of its place, so that there are as many places.
const REST_BITS: u32 = 48;

/// A node that was settled: its scope, the horizon in force, the number of its position and the values of the variables before the
/// scope, what it came to with its vector, how many turns its lines have at most, and these lines.
#[derive(Drop)]
pub struct KnownNode<'p> {
    problem: &'p Problem,
    scope: ScopeId,
    horizon: Option<ScopeId>,
    number: u64,
    values: Vec<i64>,
    pub found: Found,
    pub vector: Vec<i64>,
    pub turns: u64,
    pub lines: Arena,
    ghost sure: { IsFalse (is_vague_verdict beats_none (verdict_of found vector.items)) },
    ghost few: { length vector.items ≤ length problem.now.scopes },
    ghost known: { IsKnown problem.now scope.0 (scope_number horizon) values.items (verdict_of found vector.items) turns lines } by { known_prop problem.now scope.0 (scope_number horizon) values.items (verdict_of found vector.items) turns lines },
}

impl<'p> KnownNode<'p> {
    /// Whether its lines stand at the scope's node that is here, below this horizon, where so many turns are left.
    fn stands_at(
        &self,
        likeness: &Likeness,
        level: &Level,
        horizon: Option<ScopeId>,
        left: u64,
        remains: &SearchBox,
    ) -> bool
        requires compared { likeness.now ≡ self.now.problem.now }
        requires game { level.now.problem.now ≡ self.now.problem.now }
        requires here { IsEntered level.now.problem.now level.now.number remains.now }
        ensures { IsTrue result → StandsHere level.now.problem.now level.now.number (scope_number horizon) left remains.now.store.box (verdict_of self.now.found self.now.vector.items) self.now.turns self.now.lines }
    {
        self.scope.0 == level.number
            && is_same(self.horizon, horizon)
            && self.turns <= left
            && is_like(likeness, level, remains, self.values.as_slice())
    }

    /// Its lines.
    pub fn lines(&self) -> &Arena
        ensures { result.now ≡ self.now.lines }
    {
        &self.lines
    }

    /// Its vector.
    pub fn vector(&self) -> &[i64]
        ensures { result.now ≡ self.now.vector.items }
    {
        self.vector.as_slice()
    }

    /// How many lines it has.
    fn len(&self) -> usize
        ensures { result ≡ length self.now.lines }
    {
        self.lines.len()
    }
}

/// Whether both horizons are the same.
pub(crate) fn is_same(a: Option<ScopeId>, b: Option<ScopeId>) -> bool
    ensures { IsTrue result → scope_number a ≡ scope_number b }
{
    match a {
        None => b.is_none(),
        Some(k) => match b {
            None => false,
            Some(n) => k.0 == n.0,
        },
    }
}

/// How often positions of a scope were looked up, and how often a node was known then.
#[derive(Clone, Copy)]
struct Look {
    asked: u32,
    met: u32,
}

impl Look {
    /// Whether it serves to look another one up.
    fn serves(&self) -> bool {
        self.asked < FIRST_LOOKS || self.met >= self.asked / LEAST_MET
    }
}

/// The nodes that are known, each in a place by the number of its position.
#[derive(Drop)]
pub struct KnownNodes<'p> {
    pub problem: &'p Problem,
    /// What positions are compared by, where nodes are kept.
    likeness: Option<Likeness<'p>>,
    /// For each place that of its node in the list and one, or 0.
    places: Vec<u32>,
    pub nodes: Vec<KnownNode<'p>>,
    /// How many lines are kept together.
    lines: usize,
    /// How many nodes were kept, and how often one was met again.
    kept: u32,
    met: u32,
    /// For each scope how its positions were looked up so far.
    looks: Vec<Look>,
    ghost compared: { IfSome likeness (λ l. l ≡ problem.now) } by { Prim.hlevel props },
    ghost same: { All (λ n. n.problem.now ≡ problem.now) nodes.items } by { Prim.hlevel props },
}

/// What a node came to, and how many turns were left before it and after it.
#[derive(Clone, Copy)]
pub struct NodeEnd {
    pub found: Found,
    pub had: u64,
    pub left: u64,
}

/// Whether a node is lost or exact.
pub fn is_decided(found: Found) -> bool
    ensures { (v : List ℤ) → result ≡ not (is_vague_verdict beats_none (verdict_of found v)) }
{
    match found {
        Found::Lost => true,
        Found::Exact => true,
        Found::AtMost(_) => false,
        Found::Unknown => false,
    }
}

impl<'p> KnownNodes<'p> {
    /// No node yet. Nodes are kept only where that is wanted. It fails only where memory runs out.
    pub fn new(
        alloc: Global,
        levels: &Levels<'p>,
        wanted: bool,
    ) -> Result<KnownNodes<'p>, AllocError>
        ensures { IfOk result (λ known. known.problem.now ≡ levels.now.problem.now) }
    {
        let likeness = likeness_for(alloc, levels, wanted)?;
        let places = vec![in alloc; 0u32; if likeness.is_some() { PLACES } else { 0 }]?;
        Ok(KnownNodes {
            problem: levels.problem,
            likeness,
            places,
            nodes: Vec::new(alloc),
            lines: 0,
            kept: 0,
            met: 0,
            looks: vec![in alloc; Look { asked: 0, met: 0 }; levels.problem.scopes()]?,
        })
    }

    /// Whether a node is kept that has so many lines: it is decided, a turn is left, and its position can be met again.
    pub fn is_wanted(
        &self,
        level: &Level,
        remains: &SearchBox,
        end: NodeEnd,
        lines: usize,
    ) -> bool {
        self.likeness.is_some()
            && (self.kept < FIRST_NODES || self.met >= self.kept / LEAST_SHARE)
            && end.left > 0
            && lines >= LEAST_LINES
            && lines <= MOST_LINES
            && is_decided(end.found)
            && remains.is_fresh(level)
    }

    /// Keeps the lines of a node that is wanted, with the number of its position.
    pub fn keep(
        &mut self,
        alloc: Global,
        level: &Level,
        horizon: Option<ScopeId>,
        position: Option<u64>,
        remains: &SearchBox,
        end: NodeEnd,
        vector: &[i64],
        lines: Arena,
    ) -> Result<(), AllocError>
        requires game { level.now.problem.now ≡ self.old.problem.now }
        requires here { IsEntered level.now.problem.now level.now.number remains.now }
        requires ended { IsEnded level.now.problem.now level.now.number remains.now.store.box (scope_number horizon) (verdict_of end.found vector.now) end.had end.left lines }
        ensures { self.new.problem.now ≡ self.old.problem.now }
    {
        match self.node_for(alloc, level, horizon, position, remains, end, vector, lines)? {
            Some(node) => self.put(node),
            None => Ok(()),
        }
    }

    /// The node to keep of these lines, where they stand wherever the position looks the same.
    fn node_for(
        &self,
        alloc: Global,
        level: &Level,
        horizon: Option<ScopeId>,
        position: Option<u64>,
        remains: &SearchBox,
        end: NodeEnd,
        vector: &[i64],
        lines: Arena,
    ) -> Result<Option<KnownNode<'p>>, AllocError>
        requires game { level.now.problem.now ≡ self.now.problem.now }
        requires here { IsEntered level.now.problem.now level.now.number remains.now }
        requires ended { IsEnded level.now.problem.now level.now.number remains.now.store.box (scope_number horizon) (verdict_of end.found vector.now) end.had end.left lines }
        ensures { IfOk result (λ found. IfSome found (λ node. node.problem.now ≡ self.now.problem.now)) }
    {
        let Some(likeness) = &self.likeness else {
            return Ok(None);
        };
        let Some(number) = position else {
            return Ok(None);
        };
        if end.left == 0 {
            return Ok(None);
        }
        if vector.len() > self.problem.scopes() {
            return Ok(None);
        }
        if !is_decided(end.found) {
            return Ok(None);
        }
        if !stand_alike(likeness, level, remains, &lines) {
            return Ok(None);
        }
        let here = remains.values_before(level);
        Ok(Some(KnownNode {
            problem: self.problem,
            scope: ScopeId(level.number),
            horizon,
            number,
            values: Vec::from_slice(alloc, here)?,
            found: end.found,
            vector: Vec::from_slice(alloc, vector)?,
            turns: turns_in(&lines),
            lines,
        }))
    }

    /// Puts a node into the place of its position, where what was there goes. Where all would have too many lines together, all
    /// others go first.
    fn put(&mut self, node: KnownNode<'p>) -> Result<(), AllocError>
        requires { node.problem.now ≡ self.old.problem.now }
        ensures { self.new.problem.now ≡ self.old.problem.now }
    {
        if self.lines.saturating_add(node.len()) > MOST_LINES_IN_ALL {
            self.forget();
        }
        self.lines = self.lines.saturating_add(node.len());
        self.kept = self.kept.saturating_add(1);
        match self.node_with(node.number) {
            Some(at) => self.replace(at, node),
            None => self.add(node)?,
        }
        Ok(())
    }

    /// Puts a node in place of another.
    fn replace(&mut self, at: usize, node: KnownNode<'p>)
        requires { node.problem.now ≡ self.old.problem.now }
        ensures { self.new.problem.now ≡ self.old.problem.now }
    {
        if at < self.nodes.len() {
            self.lines = self.lines.saturating_sub(self.nodes[at].len());
            self.nodes[at] = node;
        }
    }

    /// Puts a node where none is.
    fn add(&mut self, node: KnownNode<'p>) -> Result<(), AllocError>
        requires { node.problem.now ≡ self.old.problem.now }
        ensures { self.new.problem.now ≡ self.old.problem.now }
    {
        let place = place_of(node.number);
        self.nodes.push(node)?;
        if let Some(kept) = self.places.get_mut(place) {
            *kept = self.nodes.len().min(PLACES) as u32;
        }
        Ok(())
    }

    /// Learns that a position of the scope was looked up, and its node was known.
    pub fn tell_met(&mut self, number: u8)
        ensures { self.new.problem.now ≡ self.old.problem.now }
    {
        self.met = self.met.saturating_add(1);
        if let Some(look) = self.looks.get_mut(number as usize) {
            look.asked = look.asked.saturating_add(1);
            look.met = look.met.saturating_add(1);
        }
    }

    /// Learns that one was looked up whose node wasn't known.
    pub fn tell_missed(&mut self, number: u8)
        ensures { self.new.problem.now ≡ self.old.problem.now }
    {
        if let Some(look) = self.looks.get_mut(number as usize) {
            look.asked = look.asked.saturating_add(1);
        }
    }

    /// Whether it serves to look a position of the scope up.
    fn serves(&self, number: u8) -> bool {
        match self.looks.get(number as usize) {
            Some(look) => look.serves(),
            None => false,
        }
    }

    /// Has no node any more.
    fn forget(&mut self)
        ensures { self.new.problem.now ≡ self.old.problem.now }
    {
        self.nodes.clear();
        self.places.fill(0);
        self.lines = 0;
    }

    /// The number of the position of the scope's node. None comes where nothing is kept for it, or it doesn't serve to look it up.
    pub fn position(
        &self,
        level: &Level,
        horizon: Option<ScopeId>,
        remains: &SearchBox,
    ) -> Option<u64>
        requires here { IsEntered level.now.problem.now level.now.number remains.now }
    {
        let Some(likeness) = &self.likeness else {
            return None;
        };
        if !self.serves(level.number) {
            return None;
        }
        position_number(likeness, level, horizon, remains)
    }

    /// The place in the list of the node that is known for the position with this number, where as many turns are left as its
    /// lines have.
    pub fn find(
        &self,
        level: &Level,
        horizon: Option<ScopeId>,
        position: Option<u64>,
        left: u64,
        remains: &SearchBox,
    ) -> Option<usize>
        requires game { level.now.problem.now ≡ self.now.problem.now }
        requires here { IsEntered level.now.problem.now level.now.number remains.now }
        ensures within { IfSome result (λ at. at < length self.now.nodes.items) }
        ensures stands { IfSome result (λ at. IfSome (slice_get self.now.nodes.items at) (λ n. StandsHere level.now.problem.now level.now.number (scope_number horizon) left remains.now.store.box (verdict_of n.found n.vector.items) n.turns n.lines)) }
    {
        let Some(likeness) = &self.likeness else {
            return None;
        };
        let number = position?;
        let at = self.node_with(number)?;
        if at >= self.nodes.len() {
            return None;
        }
        let node = self.node(at);
        if node.number == number && node.stands_at(likeness, level, horizon, left, remains) {
            return Some(at);
        }
        None
    }

    /// The node that stands at this place of the list.
    pub fn node(&self, at: usize) -> &KnownNode<'p>
        requires { at < length self.now.nodes.items }
        ensures node { slice_get self.now.nodes.items at ≡ Some result.now }
        ensures problem { result.now.problem.now ≡ self.now.problem.now }
    {
        &self.nodes[at]
    }

    /// The node in the place of positions with this number, by its place in the list.
    fn node_with(&self, number: u64) -> Option<usize> {
        match self.places.get(place_of(number)) {
            Some(at) => (*at as usize).checked_sub(1),
            None => None,
        }
    }
}

/// The place of positions with this number.
fn place_of(number: u64) -> usize {
    (number >> REST_BITS) as usize
}

/// What positions are compared by, where nodes are kept.
fn likeness_for<'p>(
    alloc: Global,
    levels: &Levels<'p>,
    wanted: bool,
) -> Result<Option<Likeness<'p>>, AllocError>
    ensures { IfOk result (λ found. IfSome found (λ likeness. likeness ≡ levels.now.problem.now)) }
{
    if !wanted {
        return Ok(None);
    }
    let likeness = Likeness::new(alloc, levels)?;
    Ok(Some(likeness))
}
