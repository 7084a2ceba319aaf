//! The parts of a problem text, in the order of the text, each with the places that a refusal can name.
//!
//! Places are offsets of bytes, counted from 0. Names stay where they are: a `Word` tells where its
//! bytes begin and end.
ghost use Rattle.std.specs.Prelude.{◌≡◌, List, [], ◌∷◌, ◌++◌, OnOk, OnErr};

use qc_model::Sense;
use std::alloc::{AllocError, Global};
use std::marker::Model;

/// Where a name's first byte stands, and the place after its last.
#[derive(Clone, Copy, PartialEq, Eq)]
pub struct Word {
    pub start: u32,
    pub end: u32,
}

/// A number, and the place of its first byte.
#[derive(Clone, Copy, PartialEq, Eq)]
pub struct Number {
    pub at: u32,
    pub value: i64,
}

/// A name, a number or a truth value.
#[derive(Clone, Copy, PartialEq, Eq)]
pub enum One {
    Name(Word),
    Number(Number),
    Truth(bool),
}

/// `low..high`, or numbers in braces, the first of which stands at the place.
#[derive(Drop)]
pub enum Members {
    Range(Number, Number),
    Braces { at: u32, items: NumberList },
}

/// The domain of a variable; `bool` with its place.
#[derive(Drop)]
pub enum DomainText {
    Bits { at: u32 },
    Members(Members),
}

/// An argument of a constraint; an array with the place of its bracket.
#[derive(Drop)]
pub enum ArgumentText {
    One(One),
    Members(Members),
    Array { at: u32, items: OneList },
}

/// What a scope optimises: less or more of what the name stands for.
#[derive(Clone, Copy, PartialEq, Eq)]
pub struct ConditionText {
    pub sense: Sense,
    pub target: Word,
}

/// The fold of an aggregate, with the number over no branch.
#[derive(Clone, Copy, PartialEq, Eq)]
pub enum FoldText {
    Sum,
    Least(Number),
    Greatest(Number),
}

/// A part of the text: the head of a scope or of the goal, or what stands in one. The place is that of
/// its first byte.
#[derive(Drop)]
pub enum Item {
    Exists {
        at: u32,
        condition: Option<ConditionText>,
    },
    Forall {
        at: u32,
    },
    Goal,
    Variable {
        at: u32,
        domain: DomainText,
        name: Word,
    },
    Aggregate {
        at: u32,
        name: Word,
        fold: FoldText,
        target: Word,
    },
    Constraint {
        at: u32,
        name: Word,
        args: ArgumentList,
    },
}

/// Numbers in the order of the text.
#[derive(Drop)]
pub struct NumberList {
    items: Vec<Number>,
}

impl Model for NumberList {
    ghost use Rattle.std.specs.Prelude.{List};
    ghost use Rattle.text_grammar.specs.declared.tree.Number.{Number};

    ghost Value = { List Number };

    ghost view = { λ a. a.items.items };
}

impl NumberList {
    /// No numbers. It takes no memory.
    pub fn new(alloc: Global) -> NumberList
        ensures { result ≡ [] }
    {
        NumberList {
            items: Vec::new(alloc),
        }
    }

    /// Appends the item; without memory for it, nothing has changed.
    pub fn push(&mut self, item: Number) -> Result<(), AllocError>
        ensures ok { OnOk result (self.new ≡ self.old ++ item ∷ []) }
        ensures err { OnErr result (self.new ≡ self.old) }
    {
        self.items.push(item)?;
        Ok(())
    }

    /// The numbers, in order.
    pub fn items(&self) -> &[Number]
        ensures { result.now ≡ self.now }
    {
        self.items.as_slice()
    }
}

/// The items of an array, in the order of the text.
#[derive(Drop)]
pub struct OneList {
    items: Vec<One>,
}

impl Model for OneList {
    ghost use Rattle.std.specs.Prelude.{List};
    ghost use Rattle.text_grammar.specs.declared.tree.One.{One};

    ghost Value = { List One };

    ghost view = { λ a. a.items.items };
}

impl OneList {
    /// No items. It takes no memory.
    pub fn new(alloc: Global) -> OneList
        ensures { result ≡ [] }
    {
        OneList {
            items: Vec::new(alloc),
        }
    }

    /// Appends the item; without memory for it, nothing has changed.
    pub fn push(&mut self, item: One) -> Result<(), AllocError>
        ensures ok { OnOk result (self.new ≡ self.old ++ item ∷ []) }
        ensures err { OnErr result (self.new ≡ self.old) }
    {
        self.items.push(item)?;
        Ok(())
    }

    /// The items, in order.
    pub fn items(&self) -> &[One]
        ensures { result.now ≡ self.now }
    {
        self.items.as_slice()
    }
}

/// The arguments of a constraint, in order.
#[derive(Drop)]
pub struct ArgumentList {
    items: Vec<ArgumentText>,
}

impl Model for ArgumentList {
    ghost use Rattle.std.specs.Prelude.{List};
    ghost use Rattle.text_grammar.specs.declared.tree.ArgumentText.{ArgumentText};

    ghost Value = { List ArgumentText };

    ghost view = { λ a. a.items.items };
}

impl ArgumentList {
    /// No arguments. It takes no memory.
    pub fn new(alloc: Global) -> ArgumentList
        ensures { result ≡ [] }
    {
        ArgumentList {
            items: Vec::new(alloc),
        }
    }

    /// Appends the argument; without memory for it, nothing has changed.
    pub fn push(&mut self, item: ArgumentText) -> Result<(), AllocError>
        ensures ok { OnOk result (self.new ≡ self.old ++ item ∷ []) }
        ensures err { OnErr result (self.new ≡ self.old) }
    {
        self.items.push(item)?;
        Ok(())
    }

    /// The arguments, in order.
    pub fn items(&self) -> &[ArgumentText]
        ensures { result.now ≡ self.now }
    {
        self.items.as_slice()
    }
}
