//! The memory of nodes.
ghost use Rattle.std.specs.Prelude.{◌≡◌, ◌+◌, ◌≤◌, drop, length, take, IfOk, IfSome, IsTrue};
ghost use Rattle.proof_alike.specs.Alike.{is_looked_at};
ghost use Rattle.likeness.specs.Likeness.{ask_nothing};
ghost use Rattle.check_memory.specs.Known.{IsKnown, IsMet};

use crate::cost::bytes_for_a_look;
use crate::look::Look;
use crate::node::{Met, Node};
use likeness::{Likeness, asks_nothing};
use model_levels::{Level, Levels};
use qc_model::{Problem, ScopeId, VarId};
use std::alloc::{AllocError, Global};
use std::marker::Model;

/// How many bytes a node's text has at least that is kept: what is shorter is checked as fast as it is looked up.
pub const LEAST_SIZE: usize = 32;

/// How many bytes it has at most.
pub const MOST_SIZE: usize = 16_384;

/// How many nodes are kept at most.
const PLACES: usize = 32_768;

/// How many bits of a position's number are left out of its place, so that there are as many places.
const REST_BITS: u32 = 49;

/// How many bytes the texts of all nodes have together at most.
const MOST_TEXT: usize = 4_194_304;

/// How many values their positions have together at most.
const MOST_VALUES: usize = 262_144;

/// The nodes that are known, each in a place by the number of its position. A contract sees the game.
#[derive(Drop)]
pub struct NodeMemory<'p> {
    problem: &'p Problem,
    /// What positions are compared by, where nothing is optimised.
    likeness: Option<Likeness<'p>>,
    /// For each place that of its node in the list and one, or 0.
    places: Vec<u32>,
    nodes: Vec<Node>,
    values: Vec<i64>,
    texts: Vec<u8>,
    /// For each scope how its positions were looked up so far.
    looks: Vec<Look>,
}

impl<'p> Model for NodeMemory<'p> {
    ghost use Rattle.qc_model.specs.Content.{Game};
    ghost use Rattle.check_memory.specs.Memory.{IsMemoryOf};

    ghost Value = { Game };

    ghost view = { λ m. m.problem.now };

    ghost invariant = { λ m. IsMemoryOf m.problem.now m.likeness m.nodes.items m.values.items m.texts.items };
}

impl<'p> NodeMemory<'p> {
    /// No node yet. It takes all memory, and fails only where that runs out; where something is optimised it takes none, and
    /// nothing is kept.
    pub fn new(alloc: Global, levels: &Levels<'p>) -> Result<NodeMemory<'p>, AllocError>
        ensures { IfOk result (λ memory. memory ≡ levels.now.problem.now) }
    {
        let likeness = likeness_for(alloc, levels)?;
        let is_used = likeness.is_some();
        let places = vec![in alloc; 0u32; share(is_used, PLACES)]?;
        let nodes = Vec::with_capacity(alloc, share(is_used, PLACES))?;
        let values = Vec::with_capacity(alloc, share(is_used, MOST_VALUES))?;
        let texts = Vec::with_capacity(alloc, share(is_used, MOST_TEXT))?;
        let look = Look::new(bytes_for_a_look(levels.problem));
        let looks = vec![in alloc; look; levels.problem.scopes()]?;
        Ok(NodeMemory {
            problem: levels.problem,
            likeness,
            places,
            nodes,
            values,
            texts,
            looks,
        })
    }

    /// Whether nodes of some scope are kept.
    pub fn serves(&self) -> bool {
        if self.likeness.is_none() {
            return false;
        }
        // the first scope has one node
        for look in self.looks.iter().skip(1) {
            if look.serves() {
                return true;
            }
        }
        false
    }

    /// Whether nodes of the scope are kept: it serves to look its positions up.
    pub fn is_wanted(&self, scope: u8) -> bool {
        match self.looks.get(scope as usize) {
            Some(look) => look.serves(),
            None => false,
        }
    }

    /// Whether x is looked at from scope i on, where nothing is optimised.
    pub fn looks_at(&self, i: ScopeId, x: VarId) -> bool
        ensures { IsTrue result → IsTrue (is_looked_at self.now i.0 x.0) }
    {
        match &self.likeness {
            Some(likeness) => likeness.looks_at(i, x),
            None => false,
        }
    }

    /// Whether nothing is optimised.
    pub fn is_plain(&self) -> bool
        ensures { IsTrue result → IsTrue (ask_nothing self.now.scopes) }
    {
        match &self.likeness {
            Some(_) => true,
            None => false,
        }
    }

    /// The number of the scope's position below this horizon, where the variables before the scope have these values. None
    /// comes where no node of the scope is kept.
    pub fn number(&self, level: &Level, horizon: Option<u8>, values: &[i64]) -> Option<u64> {
        let Some(likeness) = &self.likeness else {
            return None;
        };
        likeness.number(level, horizon, values)
    }

    /// What is known of the scope's node below this horizon, whose position has this number and these values: it comes next
    /// in the text, and ends there.
    pub fn find(
        &self,
        level: &Level,
        horizon: Option<u8>,
        number: u64,
        here: &[i64],
        text: &[u8],
    ) -> Option<Met>
        requires game { level.now.problem.now ≡ self.now }
        ensures { IfSome result (λ m. IsMet self.now level.now.number horizon here.now text.now m) }
    {
        let Some(likeness) = &self.likeness else {
            return None;
        };
        let at = self.place_of_node(number)?;
        if at >= self.nodes.len() {
            return None;
        }
        let node = self.nodes[at];
        if !is_of(node, level, horizon, number)
            || !text.starts_with(text_of(node, &self.texts))
            || !likeness.is_like(level, values_of(node, &self.values), here)
        {
            return None;
        }
        Some(Met {
            won: node.won,
            turns: node.turns,
            depth: node.depth,
            size: node.size,
        })
    }

    /// Learns that a position of the scope is looked up.
    pub fn tell_asked(&mut self, scope: u8)
        ensures { self.new ≡ self.old }
    {
        if let Some(look) = self.looks.get_mut(scope as usize) {
            look.tell_asked();
        }
    }

    /// Learns that a node of the scope was passed over, which has so many bytes.
    pub fn tell_met(&mut self, scope: u8, size: usize)
        ensures { self.new ≡ self.old }
    {
        if let Some(look) = self.looks.get_mut(scope as usize) {
            look.tell_met(size);
        }
    }

    /// Keeps a node of the scope below this horizon, whose position has this number and these values, with what is known of it.
    /// Where there is no room for it, all others are forgotten. It takes no memory.
    pub fn keep(
        &mut self,
        scope: u8,
        horizon: Option<u8>,
        number: u64,
        values: &[i64],
        met: Met,
        text: &[u8],
    )
        requires known { IsKnown self.old scope horizon values.now met.won met.turns met.depth text.now }
        ensures { self.new ≡ self.old }
    {
        if !self.makes_room(values.len(), text.len()) {
            return;
        }
        let node = Node {
            number,
            scope,
            horizon,
            won: met.won,
            turns: met.turns,
            depth: met.depth,
            values: self.values.len(),
            count: values.len(),
            text: self.texts.len(),
            size: text.len(),
        };
        if self.values.extend_from_slice(values).is_err() {
            return;
        }
        if self.texts.extend_from_slice(text).is_err() {
            return;
        }
        if self.nodes.push(node).is_err() {
            return;
        }
        set_place(&mut self.places, number, self.nodes.len());
    }

    /// Whether there is room for one more node with so many values and bytes, where all others are forgotten if need be.
    fn makes_room(&mut self, values: usize, bytes: usize) -> bool
        ensures { self.new ≡ self.old }
    {
        if self.has_room(values, bytes) {
            return true;
        }
        self.forget();
        self.has_room(values, bytes)
    }

    /// Whether a node with so many values and bytes can be added and no memory taken.
    fn has_room(&self, values: usize, bytes: usize) -> bool {
        self.nodes.len() < self.nodes.capacity()
            && self.values.len().saturating_add(values) <= self.values.capacity()
            && self.texts.len().saturating_add(bytes) <= self.texts.capacity()
    }

    fn forget(&mut self)
        ensures { self.new ≡ self.old }
    {
        self.nodes.clear();
        self.values.clear();
        self.texts.clear();
        self.places.fill(0);
    }

    /// The place in the list of the node in the place of positions with this number.
    fn place_of_node(&self, number: u64) -> Option<usize> {
        match self.places.get(place_of(number)) {
            Some(at) => (*at as usize).checked_sub(1),
            None => None,
        }
    }
}

/// The values of the node's position.
fn values_of(node: Node, values: &[i64]) -> &[i64]
    requires { node.values + node.count ≤ length values.now }
    ensures { result.now ≡ take node.count (drop node.values values.now) }
{
    &values[node.values..node.values + node.count]
}

/// The node's text.
fn text_of(node: Node, texts: &[u8]) -> &[u8]
    requires { node.text + node.size ≤ length texts.now }
    ensures { result.now ≡ take node.size (drop node.text texts.now) }
{
    &texts[node.text..node.text + node.size]
}

/// How many are used at most.
fn share(is_used: bool, most: usize) -> usize {
    if is_used { most } else { 0 }
}

/// The place of positions with this number.
fn place_of(number: u64) -> usize {
    (number >> REST_BITS) as usize
}

/// Has the last of so many nodes stand in the place of positions with this number.
fn set_place(places: &mut [u32], number: u64, nodes: usize) {
    if let Some(place) = places.get_mut(place_of(number)) {
        *place = nodes.min(PLACES) as u32;
    }
}

/// Whether both horizons are the same.
fn is_same(a: Option<u8>, b: Option<u8>) -> bool
    ensures { IsTrue result → a ≡ b }
{
    match a {
        None => b.is_none(),
        Some(k) => match b {
            None => false,
            Some(n) => k == n,
        },
    }
}

/// Whether the node is one of this scope and horizon, and its position has this number.
fn is_of(node: Node, level: &Level, horizon: Option<u8>, number: u64) -> bool
    ensures scope { IsTrue result → node.scope ≡ level.now.number }
    ensures horizon { IsTrue result → node.horizon ≡ horizon }
{
    node.number == number && node.scope == level.number && is_same(node.horizon, horizon)
}

/// What positions are compared by, where nothing is optimised.
fn likeness_for<'p>(alloc: Global, levels: &Levels<'p>) -> Result<Option<Likeness<'p>>, AllocError>
    ensures compared { IfOk result (λ found. IfSome found (λ likeness. likeness ≡ levels.now.problem.now)) }
    ensures plain { IfOk result (λ found. IfSome found (λ likeness. IsTrue (ask_nothing levels.now.problem.now.scopes))) }
{
    if !asks_nothing(levels.problem) {
        return Ok(None);
    }
    let likeness = Likeness::new(alloc, levels)?;
    Ok(Some(likeness))
}
