//! Nodes below tuples that were tried first, whose lines are kept aside for where the values are gone over.
//!
//! A tuple that is tried and ends nothing is met again by the walk over all values, in the same box. Then the lines of the node
//! below it stand there as they were written, and nothing is searched a second time.
ghost use Rattle.std.specs.Prelude.{◌≡◌, ◌≤◌, ◌<◌, Some, length, slice_get, IfOk, IfSome, IsTrue, IsFalse};
ghost use Rattle.std.specs.List.{All};
ghost use Rattle.std.proofs.Props.{props};
ghost use Rattle.proof_tree.specs.Place.{position};
ghost use Rattle.joins.specs.Seen.{verdict_of};
ghost use Rattle.search_box.specs.Entered.{IsEntered};
ghost use Rattle.search_box.specs.Looking.{scope_number};
ghost use Rattle.search_kept.specs.Aside.{IsAside, IsFreshAt, StandsAside};
ghost use Rattle.search_kept.specs.Known.{IsEnded};
ghost use Rattle.search_kept.specs.Props.{aside_prop};
ghost use Rattle.search_parts.specs.Settled.{is_vague_verdict, beats_none};

use crate::known::{LEAST_LINES, NodeEnd, is_decided, is_same};
use crate::resemblance::is_fresh;
use crate::turns::turns_in;
use joins::Found;
use model_levels::Level;
use qc_model::{Problem, ScopeId};
use search_box::SearchBox;
use std::alloc::{AllocError, Global};
use strategy_arena::Arena;

/// How many lines all nodes have together at most.
const MOST_LINES_IN_ALL: usize = 1_048_576;

/// A node that was decided: its scope, the horizon in force, the values of the variables before the scope, what it came to with
/// its vector, how many turns its lines have at most, and these lines.
#[derive(Drop)]
pub struct AsideNode<'p> {
    problem: &'p Problem,
    scope: ScopeId,
    horizon: Option<ScopeId>,
    values: Vec<i64>,
    pub found: Found,
    pub vector: Vec<i64>,
    pub turns: u64,
    pub lines: Arena,
    ghost sure: { IsFalse (is_vague_verdict beats_none (verdict_of found vector.items)) },
    ghost few: { length vector.items ≤ length problem.now.scopes },
    ghost aside: { IsAside problem.now scope.0 (scope_number horizon) values.items (verdict_of found vector.items) turns lines } by { aside_prop problem.now scope.0 (scope_number horizon) values.items (verdict_of found vector.items) turns lines },
}

/// Whether both lists are the same.
fn are_same(kept: &[i64], here: &[i64]) -> bool
    ensures { IsTrue result → kept.now ≡ here.now }
{
    kept == here
}

/// Whether the box at the scope's node has the values of its position, and all declared ones from there on.
fn is_fresh_here(level: &Level, remains: &SearchBox) -> bool
    requires here { IsEntered level.now.problem.now level.now.number remains.now }
    ensures { IsTrue result → IsFreshAt level.now.problem.now level.now.number (position level.now.problem.now level.now.number remains.now.store.box) remains.now.store.box }
{
    remains.known();
    is_fresh(level, remains)
}

impl<'p> AsideNode<'p> {
    /// Whether its lines stand at the scope's node that is here, below this horizon, where so many turns are left.
    fn stands_at(
        &self,
        level: &Level,
        horizon: Option<ScopeId>,
        left: u64,
        remains: &SearchBox,
    ) -> bool
        requires game { level.now.problem.now ≡ self.now.problem.now }
        requires here { IsEntered level.now.problem.now level.now.number remains.now }
        ensures { IsTrue result → StandsAside level.now.problem.now level.now.number (scope_number horizon) left remains.now.store.box (verdict_of self.now.found self.now.vector.items) self.now.turns self.now.lines }
    {
        self.scope.0 == level.number
            && is_same(self.horizon, horizon)
            && self.turns <= left
            && are_same(self.values.as_slice(), remains.values_before(level))
            && is_fresh_here(level, remains)
    }

    /// Its lines.
    pub fn lines(&self) -> &Arena
        ensures { result.now ≡ self.now.lines }
    {
        &self.lines
    }

    /// Its vector.
    pub fn vector(&self) -> &[i64]
        ensures { result.now ≡ self.now.vector.items }
    {
        self.vector.as_slice()
    }
}

/// How many lines the nodes from a place on have together.
fn lines_from(nodes: &[AsideNode], start: usize) -> usize {
    let mut lines: usize = 0;
    for k in start..nodes.len() {
        lines = lines.saturating_add(nodes[k].lines.len());
    }
    lines
}

/// The nodes that are kept aside, those of later scopes after those of earlier ones.
#[derive(Drop)]
pub struct AsideNodes<'p> {
    pub problem: &'p Problem,
    pub nodes: Vec<AsideNode<'p>>,
    /// How many lines are kept together.
    lines: usize,
    ghost same: { All (λ n. n.problem.now ≡ problem.now) nodes.items } by { Prim.hlevel props },
}

impl<'p> AsideNodes<'p> {
    /// No node yet.
    pub fn new(alloc: Global, problem: &'p Problem) -> AsideNodes<'p>
        ensures { result.problem.now ≡ problem.now }
    {
        AsideNodes {
            problem,
            nodes: Vec::new(alloc),
            lines: 0,
        }
    }

    /// How many nodes are kept.
    pub fn len(&self) -> usize {
        self.nodes.len()
    }

    /// Forgets all nodes but the first ones.
    pub fn cut(&mut self, len: usize)
        ensures { self.new.problem.now ≡ self.old.problem.now }
    {
        let lines = lines_from(self.nodes.as_slice(), len);
        self.lines = self.lines.saturating_sub(lines);
        self.nodes.truncate(len);
    }

    /// Whether a node is kept that has so many lines.
    pub fn is_wanted(
        &self,
        level: &Level,
        remains: &SearchBox,
        end: NodeEnd,
        lines: usize,
    ) -> bool {
        lines >= LEAST_LINES
            && self.lines.saturating_add(lines) <= MOST_LINES_IN_ALL
            && end.left > 0
            && is_decided(end.found)
            && remains.is_fresh(level)
    }

    /// Keeps the lines of a node that is wanted.
    pub fn keep(
        &mut self,
        alloc: Global,
        level: &Level,
        horizon: Option<ScopeId>,
        remains: &SearchBox,
        end: NodeEnd,
        vector: &[i64],
        lines: Arena,
    ) -> Result<(), AllocError>
        requires game { level.now.problem.now ≡ self.old.problem.now }
        requires here { IsEntered level.now.problem.now level.now.number remains.now }
        requires ended { IsEnded level.now.problem.now level.now.number remains.now.store.box (scope_number horizon) (verdict_of end.found vector.now) end.had end.left lines }
        ensures { self.new.problem.now ≡ self.old.problem.now }
    {
        match self.node_for(alloc, level, horizon, remains, end, vector, lines)? {
            Some(node) => self.put(node),
            None => Ok(()),
        }
    }

    /// The node to keep of these lines, where they stand wherever the box is the same.
    fn node_for(
        &self,
        alloc: Global,
        level: &Level,
        horizon: Option<ScopeId>,
        remains: &SearchBox,
        end: NodeEnd,
        vector: &[i64],
        lines: Arena,
    ) -> Result<Option<AsideNode<'p>>, AllocError>
        requires game { level.now.problem.now ≡ self.now.problem.now }
        requires here { IsEntered level.now.problem.now level.now.number remains.now }
        requires ended { IsEnded level.now.problem.now level.now.number remains.now.store.box (scope_number horizon) (verdict_of end.found vector.now) end.had end.left lines }
        ensures { IfOk result (λ found. IfSome found (λ node. node.problem.now ≡ self.now.problem.now)) }
    {
        if end.left == 0 {
            return Ok(None);
        }
        if vector.len() > self.problem.scopes() {
            return Ok(None);
        }
        if !is_decided(end.found) {
            return Ok(None);
        }
        if !is_fresh_here(level, remains) {
            return Ok(None);
        }
        let here = remains.values_before(level);
        Ok(Some(AsideNode {
            problem: self.problem,
            scope: ScopeId(level.number),
            horizon,
            values: Vec::from_slice(alloc, here)?,
            found: end.found,
            vector: Vec::from_slice(alloc, vector)?,
            turns: turns_in(&lines),
            lines,
        }))
    }

    /// Puts a node after all others.
    fn put(&mut self, node: AsideNode<'p>) -> Result<(), AllocError>
        requires { node.problem.now ≡ self.old.problem.now }
        ensures { self.new.problem.now ≡ self.old.problem.now }
    {
        self.lines = self.lines.saturating_add(node.lines.len());
        self.nodes.push(node)?;
        Ok(())
    }

    /// The place in the list of the node whose lines stand at the scope's node that is here, where as many turns are left as
    /// they have.
    pub fn find(
        &self,
        level: &Level,
        horizon: Option<ScopeId>,
        left: u64,
        remains: &SearchBox,
    ) -> Option<usize>
        requires game { level.now.problem.now ≡ self.now.problem.now }
        requires here { IsEntered level.now.problem.now level.now.number remains.now }
        ensures within { IfSome result (λ at. at < length self.now.nodes.items) }
        ensures stands { IfSome result (λ at. IfSome (slice_get self.now.nodes.items at) (λ n. StandsAside level.now.problem.now level.now.number (scope_number horizon) left remains.now.store.box (verdict_of n.found n.vector.items) n.turns n.lines)) }
    {
        let mut at = self.nodes.len();
        'nodes: while at > 0 {
            at -= 1;
            let node = self.node(at);
            // those of this scope are the last ones
            if node.scope.0 != level.number {
                return None;
            }
            if node.stands_at(level, horizon, left, remains) {
                return Some(at);
            }
        }
        None
    }

    /// The node that stands at this place of the list.
    pub fn node(&self, at: usize) -> &AsideNode<'p>
        requires { at < length self.now.nodes.items }
        ensures node { slice_get self.now.nodes.items at ≡ Some result.now }
        ensures problem { result.now.problem.now ≡ self.now.problem.now }
    {
        &self.nodes[at]
    }
}
