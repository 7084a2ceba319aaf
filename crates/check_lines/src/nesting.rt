//! What is open, in places that are made once.
ghost use Rattle.std.specs.Prelude.{◌≡◌, ◌≤◌, ◌<◌, nat_lt, [], ◌∷◌, length, IfOk, IfNone, IfSome};
ghost use Rattle.std.specs.Prelude.{ℕ, List, Option as Maybe};
ghost use Rattle.check_lines.specs.Passed.{is_in_case};
ghost use Rattle.check_lines.specs.Places.{rest};
ghost use Rattle.check_lines.specs.declared.open.Open.{Open as Opened};
ghost use Rattle.check_lines.specs.declared.open.Open.TheVariants as open_as;

use crate::open::Open;
use std::alloc::{AllocError, Global};
use std::marker::Model;

/// How many nodes and branches may stand above one another.
const MOST: usize = 1000;

/// What is open, up to 1,000 nodes and branches. A clause sees the list of them, the one that was opened last first.
#[derive(Drop)]
pub(crate) struct Nesting {
    places: Vec<Open>,
    depth: usize,
}

impl Model for Nesting {
    ghost use Rattle.std.specs.Prelude.{◌≡◌, ◌≤◌, List, length};
    ghost use Rattle.check_lines.specs.declared.open.Open.{Open};
    ghost use Rattle.check_lines.specs.Places.{last_first};

    ghost Value = { List Open };

    ghost view = { λ n. last_first n.places.items n.depth };

    ghost invariant = { λ n. (length n.places.items ≡ 1000) × (n.depth ≤ 1000) };
}

fn is_branch(frame: Open) -> bool
    ensures { (h : Maybe ℕ) (fs : List Opened) → result ≡ is_in_case (open_as.Next h ∷ frame ∷ fs) }
{
    match frame {
        Open::Next { horizon: _ } => false,
        Open::Branch {
            x: _,
            mark: _,
            from: _,
        } => true,
    }
}

/// Whether the first is a node that was reached in a case of the second.
fn is_case(last: Open, around: Open) -> bool
    ensures { (fs : List Opened) → result ≡ is_in_case (last ∷ around ∷ fs) }
{
    match last {
        Open::Next { horizon: _ } => is_branch(around),
        Open::Branch {
            x: _,
            mark: _,
            from: _,
        } => false,
    }
}

impl Nesting {
    /// Nothing is open. It fails only where memory runs out.
    pub(crate) fn new(alloc: Global) -> Result<Nesting, AllocError>
        ensures { IfOk result (λ n. n ≡ []) }
    {
        let places = vec![in alloc; Open::Next { horizon: None, }; 1000]?;
        Ok(Nesting { places, depth: 0 })
    }

    /// Closes all that is open.
    pub(crate) fn clear(&mut self)
        ensures { self.new ≡ [] }
    {
        self.depth = 0;
    }

    pub(crate) fn has_room(&self) -> bool
        ensures { result ≡ nat_lt (length self.now) 1000 }
    {
        self.depth < MOST
    }

    /// How many nodes and branches are open.
    pub(crate) fn len(&self) -> usize
        ensures size { result ≡ length self.now }
        ensures few { result ≤ 1000 }
    {
        self.depth
    }

    /// Whether the node that was opened last was reached in a case of a branch.
    pub(crate) fn is_in_case(&self) -> bool
        ensures { result ≡ is_in_case self.now }
    {
        if self.depth < 2 {
            return false;
        }
        is_case(self.places[self.depth - 1], self.places[self.depth - 2])
    }

    /// What was opened last; None where nothing is open.
    pub(crate) fn top(&self) -> Option<Open>
        ensures none { IfNone result (self.now ≡ []) }
        ensures some { IfSome result (λ f. self.now ≡ f ∷ rest self.now) }
    {
        if self.depth == 0 {
            return None;
        }
        Some(self.places[self.depth - 1])
    }

    pub(crate) fn push(&mut self, frame: Open)
        requires { length self.old < 1000 }
        ensures { self.new ≡ frame ∷ self.old }
    {
        self.places[self.depth] = frame;
        self.depth += 1;
    }

    /// Closes what was opened last.
    pub(crate) fn pop(&mut self)
        ensures { self.new ≡ rest self.old }
    {
        self.depth = self.depth.saturating_sub(1);
    }

    /// Puts another frame in the place of the one that was opened last.
    pub(crate) fn set_top(&mut self, frame: Open)
        requires { 0 < length self.old }
        ensures { self.new ≡ frame ∷ rest self.old }
    {
        self.places[self.depth - 1] = frame;
    }
}
