//! The nodes of a piece that haven't ended.
ghost use Rattle.std.specs.Prelude.{◌≡◌, ◌≤◌, ◌<◌, ◌+◌, ◌⊎◌, ◌∷◌, [], Some, IfOk, IfNone, IfSome, List, ℤ, length, take, drop};
ghost use Rattle.qc_check.specs.Places.{IsTail, StartHeld, rest};

use check_lines::NodeDue;
use std::alloc::{AllocError, Global};
use std::marker::Model;

/// A node that was due in the bytes that are read: where its text begins among them, which node it is, the number of its
/// position, and how many variables stand before its scope.
#[derive(Clone, Copy)]
pub(crate) struct Start {
    pub(crate) at: usize,
    pub(crate) node: NodeDue,
    pub(crate) number: u64,
    pub(crate) count: usize,
}

/// The nodes that were due and haven't ended, each within the one before, in places that are made once, and the values of the
/// variables before the scope of each. A clause sees the list of them, the one that began last first.
#[derive(Drop)]
pub(crate) struct Starts {
    places: Vec<Start>,
    depth: usize,
    values: Vec<i64>,
    width: usize,
}

impl Model for Starts {
    ghost use Rattle.std.specs.Prelude.{List};
    ghost use Rattle.qc_check.specs.Places.{StartHeld, starts_of, AreStartPlaces};

    ghost Value = { List StartHeld };

    ghost view = { λ s. starts_of s.places.items s.values.items s.width s.depth };

    ghost invariant = { λ s. AreStartPlaces s.places.items s.values.items s.width s.depth };
}

/// Copies numbers over others, from a place on.
fn copy_at(over: &mut [i64], at: usize, numbers: &[i64])
    requires { at + length numbers.now ≤ length over.old }
    ensures before { take at over.new ≡ take at over.old }
    ensures there { take (length numbers.now) (drop at over.new) ≡ numbers.now }
{
    over[at..at + numbers.len()].copy_from_slice(numbers);
}

impl Starts {
    /// No node, with room for so many, before each of which are at most so many variables. It fails only where memory runs out.
    pub(crate) fn new(alloc: Global, most: usize, width: usize) -> Result<Starts, AllocError>
        ensures { IfOk result (λ s. s ≡ []) }
    {
        let none = Start {
            at: 0,
            node: NodeDue {
                scope: 0,
                horizon: None,
                depth: 0,
                turns: 0,
            },
            number: 0,
            count: 0,
        };
        Ok(Starts {
            places: vec![in alloc; none; most]?,
            depth: 0,
            values: vec![in alloc; 0i64; most.saturating_mul(width)]?,
            width,
        })
    }

    /// Forgets all.
    pub(crate) fn clear(&mut self)
        ensures { self.new ≡ [] }
    {
        self.depth = 0;
    }

    /// The node that began last.
    #[inline(always)]
    pub(crate) fn last(&self) -> Option<Start>
        ensures none { IfNone result (self.now ≡ []) }
        ensures some { IfSome result (λ s. (values : List ℤ) × (self.now ≡ record { start = s; values = values } ∷ rest self.now)) }
    {
        if self.depth == 0 {
            return None;
        }
        Some(self.places[self.depth - 1])
    }

    /// The values of the variables before the scope of the node that began last.
    pub(crate) fn last_values(&self) -> &[i64]
        ensures { (s : StartHeld) (more : List StartHeld) → self.now ≡ s ∷ more → result.now ≡ s.values }
    {
        if self.depth == 0 {
            return &[];
        }
        let from = (self.depth - 1) * self.width;
        &self.values[from..from + self.places[self.depth - 1].count]
    }

    /// Forgets the node that began last.
    pub(crate) fn pop(&mut self)
        ensures { self.new ≡ rest self.old }
    {
        self.depth = self.depth.saturating_sub(1);
    }

    /// Forgets each node, from the one that began last on, below which so many nodes and branches are open or more.
    pub(crate) fn keep_below(&mut self, depth: usize)
        ensures tail { IsTail self.new self.old }
        ensures below { (s : StartHeld) (more : List StartHeld) → self.new ≡ s ∷ more → s.start.node.depth < depth }
    {
        while let Some(start) = self.last() {
            if start.node.depth < depth {
                return;
            }
            self.pop();
        }
    }

    /// One more node, within the others, with the values of the variables before its scope. Where there is no room for it
    /// nothing changes.
    pub(crate) fn push(&mut self, at: usize, node: NodeDue, number: u64, values: &[i64])
        ensures { (self.new ≡ self.old) ⊎ (self.new ≡ record { start = record { at = at; node = node; number = number; count = length values.now }; values = values.now } ∷ self.old) }
    {
        if self.depth >= self.places.len() || values.len() > self.width {
            return;
        }
        let from = self.depth * self.width;
        if from.saturating_add(values.len()) > self.values.len() {
            return;
        }
        self.places[self.depth] = Start {
            at,
            node,
            number,
            count: values.len(),
        };
        copy_at(&mut self.values, from, values);
        self.depth += 1;
    }
}
