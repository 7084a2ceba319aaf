//! How much of an item was read.
//!
//! The grammar has no part that holds another of its own kind, so what was read of an item is one of
//! few parts, each with what it holds by then. A move tells what the next lexeme makes of a part.
use crate::tree::{
    ArgumentList, ArgumentText, ConditionText, DomainText, FoldText, Item, Members, Number,
    NumberList, OneList, Word,
};
use qc_model::Sense;

/// Where an item stands.
#[derive(Clone, Copy, PartialEq, Eq)]
pub(crate) enum Phase {
    /// Before the first scope.
    Outside,
    Exists,
    Forall,
    Goal,
}

/// How much of a scope's head, or of the goal's, was read.
#[derive(Clone, Copy, PartialEq, Eq)]
pub(crate) enum HeadPart {
    Exists { at: u32 },
    Optimise { at: u32, sense: Sense },
    Target { at: u32, condition: ConditionText },
    Forall { at: u32 },
    Goal,
}

/// How much of a range or of braces was read.
#[derive(Drop)]
pub(crate) enum MembersPart {
    Low(Number),
    Dots(Number),
    Open { at: u32 },
    Item { at: u32, items: NumberList },
    Comma { at: u32, items: NumberList },
}

#[derive(Drop)]
pub(crate) enum MembersMove {
    Goes(MembersPart),
    Makes(Members),
    Stuck,
}

#[derive(Drop)]
pub(crate) enum VariablePart {
    Var {
        at: u32,
    },
    Members {
        at: u32,
        members: MembersPart,
    },
    Domain {
        at: u32,
        domain: DomainText,
    },
    Colon {
        at: u32,
        domain: DomainText,
    },
    Name {
        at: u32,
        domain: DomainText,
        name: Word,
    },
}

#[derive(Clone, Copy, PartialEq, Eq)]
pub(crate) enum FoldWord {
    Sum,
    Least,
    Greatest,
}

/// The name of an aggregate, and the place where its item begins.
#[derive(Clone, Copy, PartialEq, Eq)]
pub(crate) struct Title {
    pub at: u32,
    pub name: Word,
}

#[derive(Clone, Copy, PartialEq, Eq)]
pub(crate) enum AggregatePart {
    Start {
        at: u32,
    },
    Name(Title),
    Equals(Title),
    Fold {
        title: Title,
        fold: FoldWord,
    },
    Open {
        title: Title,
        fold: FoldWord,
    },
    Target {
        title: Title,
        fold: FoldWord,
        target: Word,
    },
    Closed {
        title: Title,
        fold: FoldWord,
        target: Word,
    },
    Else {
        title: Title,
        fold: FoldWord,
        target: Word,
    },
    Last {
        title: Title,
        fold: FoldText,
        target: Word,
    },
}

/// How much of the arguments of a constraint was read, besides those that are whole.
#[derive(Drop)]
pub(crate) enum ArgumentPart {
    /// After the parenthesis.
    Open,
    /// After a comma.
    Comma,
    Number(Number),
    Members(MembersPart),
    Array { at: u32 },
    Item { at: u32, items: OneList },
    ItemComma { at: u32, items: OneList },
    /// After an argument.
    Done,
    /// After the closing parenthesis.
    Closed,
}

#[derive(Drop)]
pub(crate) enum ArgumentMove {
    Goes(ArgumentPart),
    Adds(ArgumentText, ArgumentPart),
    Stuck,
}

#[derive(Drop)]
pub(crate) enum ConstraintPart {
    Start {
        at: u32,
    },
    Name {
        at: u32,
        name: Word,
    },
    Call {
        at: u32,
        name: Word,
        args: ArgumentList,
        part: ArgumentPart,
    },
}

/// How much of the text was read after the last whole item.
#[derive(Drop)]
pub(crate) enum Part {
    /// Nothing.
    Ready,
    Head(HeadPart),
    Variable(VariablePart),
    Aggregate(AggregatePart),
    Constraint(ConstraintPart),
    /// After `solve`.
    Solve,
    /// The whole text.
    Ended,
}

#[derive(Drop)]
pub(crate) enum Move {
    Goes(Part),
    Makes(Item),
    Stuck,
}
