//! Why a text gives no problem.
ghost use Rattle.std.specs.Prelude.{◌≡◌};
ghost use Rattle.qc_syntax.specs.Reads.{kind_of as kind_of_fault};
ghost use Rattle.qc_syntax.specs.Faults.{refusal, of_tokens, of_grammar, of_items};

use qc_tokens::TokenError;
use std::alloc::AllocError;
use text_grammar::GrammarFault;
use text_resolve::{ItemFault, RefusalKind};
use thiserror::Error;

/// The kinds of refusals, in the order in which they are looked for.
#[derive(Clone, Copy, Debug, PartialEq, Eq)]
pub enum Refused13 {
    /// A byte at which no blank, comment or token begins.
    BadByte,
    /// A number with letters in it, or past 64 bits.
    BadNumber,
    /// A token that can't stand where it does, or a text that ends too early.
    Syntax,
    /// A name that was declared before.
    DuplicateName,
    /// A name that is declared nowhere.
    UnknownName,
    /// A constraint of a name that is no predicate's.
    UnknownPredicate,
    /// Arguments that differ from the predicate's in number, kind or length, or a condition or a fold
    /// over a Boolean variable.
    WrongArguments,
    /// A number outside -1,000,000,000 to 1,000,000,000.
    OutOfRange,
    /// A domain without values.
    EmptyDomain,
    /// A domain, or all domains up to one, too wide.
    TooWide,
    /// Too many scopes, variables, aggregates, constraints, or items of an array or of braces.
    TooMany,
    /// A name that can't be seen from where it is used.
    NotVisible,
    /// An aggregate by least or greatest that the list of a universal scope names before a different one.
    BottleneckFirst,
}

/// A kind with its place, an offset of bytes counted from 0.
#[derive(Clone, Copy, Debug, PartialEq, Eq)]
pub struct Refusal {
    pub kind: Refused13,
    pub at: u32,
}

/// Why a text gives no problem.
#[derive(Clone, Copy, Debug, PartialEq, Eq, Error)]
pub enum ReadFault {
    /// The text is no problem's.
    #[error("Refused")]
    Refused(Refusal),
    /// Memory was refused.
    #[error("Memory")]
    Memory(AllocError),
}

impl From<TokenError> for ReadFault {
    ghost from_gives = { λ e f. f ≡ of_tokens e };

    fn from(error: TokenError) -> ReadFault {
        match error {
            TokenError::BadByte { at } => refused(Refused13::BadByte, at),
            TokenError::BadNumber { at } => refused(Refused13::BadNumber, at),
            TokenError::Memory(error) => ReadFault::Memory(error),
        }
    }
}

impl From<GrammarFault> for ReadFault {
    ghost from_gives = { λ e f. f ≡ of_grammar e };

    fn from(error: GrammarFault) -> ReadFault {
        match error {
            GrammarFault::Syntax { at } => refused(Refused13::Syntax, at),
            GrammarFault::Memory(error) => ReadFault::Memory(error),
        }
    }
}

impl From<ItemFault> for ReadFault {
    ghost from_gives = { λ e f. f ≡ of_items e };

    fn from(error: ItemFault) -> ReadFault {
        match error {
            ItemFault::Refused { kind, at } => refused(kind_of(kind), at),
            ItemFault::Memory(error) => ReadFault::Memory(error),
        }
    }
}

fn refused(kind: Refused13, at: u32) -> ReadFault
    ensures { result ≡ refusal kind at }
{
    ReadFault::Refused(Refusal { kind, at })
}

// The kind of refusal for a fault of the items.
fn kind_of(fault: RefusalKind) -> Refused13
    ensures { result ≡ kind_of_fault fault }
{
    match fault {
        RefusalKind::DuplicateName => Refused13::DuplicateName,
        RefusalKind::UnknownName => Refused13::UnknownName,
        RefusalKind::UnknownPredicate => Refused13::UnknownPredicate,
        RefusalKind::WrongArguments => Refused13::WrongArguments,
        RefusalKind::OutOfRange => Refused13::OutOfRange,
        RefusalKind::EmptyDomain => Refused13::EmptyDomain,
        RefusalKind::TooWide => Refused13::TooWide,
        RefusalKind::TooMany => Refused13::TooMany,
        RefusalKind::NotVisible => Refused13::NotVisible,
        RefusalKind::BottleneckFirst => Refused13::BottleneckFirst,
    }
}
