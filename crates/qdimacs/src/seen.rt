//! Sets of variables.
ghost use Rattle.std.specs.Prelude.{◌≡◌, IfOk, OnOk, not};
ghost use Rattle.qdimacs.specs.Refusals.{is_known, none_known, with_known};

use std::alloc::{AllocError, Global};
use std::collections::HashSet;
use std::marker::Model;

/// A set of variables. Contracts see it as a list in any order.
#[derive(Drop)]
pub(crate) struct Seen {
    set: HashSet<u32>,
}

impl Model for Seen {
    ghost use Rattle.std.specs.Prelude.{List, ℕ};

    ghost Value = { List ℕ };

    ghost view = { λ a. a.set.keys };
}

impl Seen {
    /// No variable.
    pub(crate) fn new(alloc: Global) -> Seen
        ensures { is_known result ≡ none_known }
    {
        Seen {
            set: HashSet::new(alloc),
        }
    }

    /// Adds the variable, and tells whether it was new.
    pub(crate) fn insert(&mut self, variable: u32) -> Result<bool, AllocError>
        ensures fresh { IfOk result (λ fresh. fresh ≡ not (is_known self.old variable)) }
        ensures with { OnOk result (is_known self.new ≡ with_known variable (is_known self.old)) }
    {
        Ok(self.set.insert(variable)?)
    }

    /// Whether the variable is in the set.
    pub(crate) fn has(&self, variable: u32) -> bool
        ensures { result ≡ is_known self.now variable }
    {
        self.set.contains(&variable)
    }
}
