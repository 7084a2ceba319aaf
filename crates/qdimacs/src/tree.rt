//! The parts of a formula's text, in the order of the text, with the places that a refusal can name.
//!
//! Places are offsets of bytes, counted from 0.
ghost use Rattle.std.specs.Prelude.{◌≡◌, List, [], ◌∷◌, ◌++◌, OnOk, OnErr};

use qc_model::Kind;
use std::alloc::{AllocError, Global};
use std::marker::Model;

/// A number, and the place of its first byte.
#[derive(Clone, Copy, PartialEq, Eq)]
pub struct NumberText {
    pub at: u32,
    pub value: u32,
}

/// A variable or its negation, and the place of its first byte.
#[derive(Clone, Copy, PartialEq, Eq)]
pub struct LiteralText {
    pub at: u32,
    pub positive: bool,
    pub variable: u32,
}

/// Numbers in the order of the text.
#[derive(Drop)]
pub struct NumberList {
    items: Vec<NumberText>,
}

impl Model for NumberList {
    ghost use Rattle.std.specs.Prelude.{List};
    ghost use Rattle.qdimacs.specs.declared.tree.NumberText.{NumberText};

    ghost Value = { List NumberText };

    ghost view = { λ a. a.items.items };
}

impl NumberList {
    /// No numbers. It takes no memory.
    pub fn new(alloc: Global) -> NumberList
        ensures { result ≡ [] }
    {
        NumberList {
            items: Vec::new(alloc),
        }
    }

    /// Appends the number; without memory for it, nothing has changed.
    pub fn push(&mut self, item: NumberText) -> Result<(), AllocError>
        ensures ok { OnOk result (self.new ≡ self.old ++ item ∷ []) }
        ensures err { OnErr result (self.new ≡ self.old) }
    {
        self.items.push(item)?;
        Ok(())
    }

    /// The numbers, in order.
    pub fn items(&self) -> &[NumberText]
        ensures { result.now ≡ self.now }
    {
        self.items.as_slice()
    }
}

/// Literals in the order of the text.
#[derive(Drop)]
pub struct LiteralList {
    items: Vec<LiteralText>,
}

impl Model for LiteralList {
    ghost use Rattle.std.specs.Prelude.{List};
    ghost use Rattle.qdimacs.specs.declared.tree.LiteralText.{LiteralText};

    ghost Value = { List LiteralText };

    ghost view = { λ a. a.items.items };
}

impl LiteralList {
    /// No literals. It takes no memory.
    pub fn new(alloc: Global) -> LiteralList
        ensures { result ≡ [] }
    {
        LiteralList {
            items: Vec::new(alloc),
        }
    }

    /// Appends the literal; without memory for it, nothing has changed.
    pub fn push(&mut self, item: LiteralText) -> Result<(), AllocError>
        ensures ok { OnOk result (self.new ≡ self.old ++ item ∷ []) }
        ensures err { OnErr result (self.new ≡ self.old) }
    {
        self.items.push(item)?;
        Ok(())
    }

    /// The literals, in order.
    pub fn items(&self) -> &[LiteralText]
        ensures { result.now ≡ self.now }
    {
        self.items.as_slice()
    }
}

/// A quantifier with its variables: the places of the quantifier and of the `0` that ends it.
#[derive(Drop)]
pub struct SetText {
    pub at: u32,
    pub kind: Kind,
    pub variables: NumberList,
    pub end: u32,
}

/// A clause, and the place of the `0` that ends it.
#[derive(Drop)]
pub struct ClauseText {
    pub literals: LiteralList,
    pub end: u32,
}

/// A whole text: the two counts, the sets and the clauses.
#[derive(Drop)]
pub struct FileText {
    pub variables: NumberText,
    pub clauses: NumberText,
    pub sets: Vec<SetText>,
    pub body: Vec<ClauseText>,
}

impl Model for FileText {
    ghost use Rattle.qdimacs.specs.Grammar.{File};

    ghost Value = { File };

    ghost view = { λ a. record { variables = a.variables; clauses = a.clauses; sets = a.sets.items; body = a.body.items } };
}
