//! What the names of a text stand for.
ghost use Rattle.std.specs.Prelude.{◌≡◌, ℕ, List, [], None, IfOk, IfErr, OnOk, bytes_eq};
ghost use Rattle.indexmap.specs.IndexMap.{get_by};
ghost use Rattle.text_resolve.specs.Owned.{word_bytes};
ghost use Rattle.text_resolve.specs.Names.{declared, first_repeated, look_up as looked_up};
ghost use Rattle.text_resolve.specs.NamesFaults.{IsNamesFault};

use crate::bytes::bytes_of;
use crate::counts::Counts;
use crate::fault::NamesFault;
use indexmap::IndexMap;
use std::alloc::Global;
use text_grammar::{Item, Word};

/// What a name stands for: the variable of this number, counted from 0 over all variables, integer or
/// Boolean; or the aggregate of this number, counted from 0 over all aggregates.
#[derive(Clone, Copy, PartialEq, Eq)]
pub enum Named {
    Integer(usize),
    Boolean(usize),
    Aggregate(usize),
}

/// What a name stands for, and the number of the scope that declares it, counted from 0.
#[derive(Clone, Copy, PartialEq, Eq)]
pub struct Meant {
    pub named: Named,
    pub scope: usize,
}

/// A text with its items, and a table of the names that they declare.
#[derive(Drop)]
pub(crate) struct Names<'t> {
    pub text: &'t [u8],
    pub items: &'t [Item],
    table: IndexMap<&'t [u8], Meant>,
    // The table has what each name stands for, and nothing else.
    ghost exact: { (name : List ℕ) → get_by (λ k. bytes_eq name k.now) table ≡ looked_up (declared text.now items.now) name },
}

impl<'t> Names<'t> {
    /// The names of the items of a text, or the place of the first that is declared twice.
    pub(crate) fn new(
        alloc: Global,
        text: &'t [u8],
        items: &'t [Item],
    ) -> Result<Names<'t>, NamesFault>
        ensures text_kept { IfOk result (λ names. names.text.now ≡ text.now) }
        ensures items_kept { IfOk result (λ names. names.items.now ≡ items.now) }
        ensures distinct { OnOk result (first_repeated [] (declared text.now items.now) ≡ None) }
        ensures fault { IfErr result (IsNamesFault (first_repeated [] (declared text.now items.now))) }
    {
        let mut table = IndexMap::new(alloc);
        let mut counts = Counts::START;
        for item in items {
            if let Some(declaration) = counts.declares(item) {
                let name = declaration.name;
                let before = table.insert(bytes_of(text, name), declaration.meant)?;
                if before.is_some() {
                    return Err(NamesFault::Repeated { at: name.start });
                }
            }
            counts = counts.after(item);
        }
        Ok(Names { text, items, table })
    }

    /// What the name stands for, if it is declared.
    pub(crate) fn look_up(&self, word: Word) -> Option<Meant>
        ensures { result ≡ looked_up (declared self.now.text.now self.now.items.now) (word_bytes self.now.text.now word) }
    {
        self.table.get(bytes_of(self.text, word)).copied()
    }
}
