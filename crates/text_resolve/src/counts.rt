//! The declarations of a text, one by one.
ghost use Rattle.std.specs.Prelude.{◌≡◌, ◌+◌, ◌<◌, ◌^◌};
ghost use Rattle.text_resolve.specs.Names.{variable_named as variable_named_in};
ghost use Rattle.text_resolve.specs.Counts.{counts_after, declares as declares_in};

use crate::names::{Meant, Named};
use text_grammar::{DomainText, Item, Word};

/// How many scopes, variables and aggregates come before an item, and the number of the scope that the
/// item stands in if it begins none.
#[derive(Clone, Copy, PartialEq, Eq)]
pub(crate) struct Counts {
    pub(crate) scopes: usize,
    pub(crate) owner: usize,
    pub(crate) variables: usize,
    pub(crate) aggregates: usize,
}

/// A name that an item declares, and what it stands for.
#[derive(Clone, Copy, PartialEq, Eq)]
pub(crate) struct Declaration {
    pub(crate) name: Word,
    pub(crate) meant: Meant,
}

fn variable_named(domain: &DomainText, number: usize) -> Named
    ensures { result ≡ variable_named_in domain.now number }
{
    match domain {
        DomainText::Bits { .. } => Named::Boolean(number),
        DomainText::Members(_) => Named::Integer(number),
    }
}

impl Counts {
    /// Before the first item.
    pub(crate) const START: Counts = Counts {
        scopes: 0,
        owner: 0,
        variables: 0,
        aggregates: 0,
    };

    /// What the item declares.
    pub(crate) fn declares(&self, item: &Item) -> Option<Declaration>
        ensures { result ≡ declares_in self.now item.now }
    {
        match item {
            Item::Variable { domain, name, .. } => Some(Declaration {
                name: *name,
                meant: Meant {
                    named: variable_named(domain, self.variables),
                    scope: self.owner,
                },
            }),
            Item::Aggregate { name, .. } => Some(Declaration {
                name: *name,
                meant: Meant {
                    named: Named::Aggregate(self.aggregates),
                    scope: self.owner,
                },
            }),
            Item::Exists { .. } => None,
            Item::Forall { .. } => None,
            Item::Goal => None,
            Item::Constraint { .. } => None,
        }
    }

    fn after_head(&self) -> Counts
        requires { self.now.scopes + 1 < 2 ^ 64 }
        ensures { result ≡ record self.now { scopes = self.now.scopes + 1; owner = self.now.scopes } }
    {
        Counts {
            scopes: self.scopes + 1,
            owner: self.scopes,
            ..*self
        }
    }

    /// The counts with this item.
    pub(crate) fn after(&self, item: &Item) -> Counts
        requires { self.now.scopes + self.now.variables + self.now.aggregates + 1 < 2 ^ 64 }
        ensures { result ≡ counts_after self.now item.now }
    {
        match item {
            Item::Exists { .. } => self.after_head(),
            Item::Forall { .. } => self.after_head(),
            Item::Goal => Counts {
                owner: self.scopes,
                ..*self
            },
            Item::Variable { .. } => Counts {
                variables: self.variables + 1,
                ..*self
            },
            Item::Aggregate { .. } => Counts {
                aggregates: self.aggregates + 1,
                ..*self
            },
            Item::Constraint { .. } => *self,
        }
    }
}
