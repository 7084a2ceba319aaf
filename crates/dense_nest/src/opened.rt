//! What is open, the last first.
ghost use Rattle.std.specs.Prelude.{◌≡◌, ◌<◌, [], ◌∷◌, length, IfOk, IfNone, IfSome};
ghost use Rattle.dense_nest.specs.Opened.{rest};

use crate::place::Open;
use std::alloc::{AllocError, Global};
use std::marker::Model;

/// The own trees that wait for a node below them, and the branches, around what is read. A clause sees the list of them, the one that
/// was opened last first.
#[derive(Drop)]
pub(crate) struct Opened {
    places: Vec<Open>,
}

impl Model for Opened {
    ghost use Rattle.std.specs.Prelude.{List, reverse};
    ghost use Rattle.dense_nest.specs.declared.place.Open.{Open};

    ghost Value = { List Open };

    ghost view = { λ o. reverse o.places.items };
}

impl Opened {
    /// Nothing is open.
    pub(crate) fn new(alloc: Global) -> Opened
        ensures { result ≡ [] }
    {
        Opened {
            places: Vec::new(alloc),
        }
    }

    /// What was opened last; None where nothing is open.
    pub(crate) fn top(&self) -> Option<Open>
        ensures none { IfNone result (self.now ≡ []) }
        ensures some { IfSome result (λ f. self.now ≡ f ∷ rest self.now) }
    {
        match self.places.last() {
            None => None,
            Some(last) => Some(*last),
        }
    }

    /// Opens one more. It fails only where memory runs out.
    pub(crate) fn push(&mut self, last: Open) -> Result<(), AllocError>
        ensures { IfOk result (λ _. self.new ≡ last ∷ self.old) }
    {
        self.places.push(last)?;
        Ok(())
    }

    /// Closes what was opened last, and hands it out; None where nothing is open.
    pub(crate) fn pop(&mut self) -> Option<Open>
        ensures none { IfNone result (self.old ≡ []) }
        ensures some { IfSome result (λ f. self.old ≡ f ∷ self.new) }
    {
        self.places.pop()
    }

    /// Puts another in the place of the one that was opened last.
    pub(crate) fn set_top(&mut self, last: Open)
        requires { 0 < length self.old }
        ensures { self.new ≡ last ∷ rest self.old }
    {
        let at = self.places.len() - 1;
        self.places[at] = last;
    }
}
