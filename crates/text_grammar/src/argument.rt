//! What the next lexeme makes of the arguments of a constraint.
ghost use Rattle.std.specs.Prelude.{◌≡◌, IfOk};
ghost use Rattle.text_grammar.specs.Moves.{argument_start as argument_start_of, one_of as one_of_lexeme, item_move as item_move_of, set_move as set_move_of, argument_move as argument_move_of};

use crate::lexeme::Lexeme;
use crate::members::members_move;
use crate::part::{ArgumentMove, ArgumentPart, MembersMove, MembersPart};
use crate::tree::{ArgumentText, Number, One, OneList};
use std::alloc::{AllocError, Global};

fn argument_start(lexeme: Lexeme) -> ArgumentMove
    ensures { result ≡ argument_start_of lexeme }
{
    match lexeme {
        Lexeme::Name(name) => {
            ArgumentMove::Adds(ArgumentText::One(One::Name(name)), ArgumentPart::Done)
        }
        Lexeme::Number(number) => ArgumentMove::Goes(ArgumentPart::Number(number)),
        Lexeme::Truth(value) => {
            ArgumentMove::Adds(ArgumentText::One(One::Truth(value)), ArgumentPart::Done)
        }
        Lexeme::BraceOpen(at) => {
            ArgumentMove::Goes(ArgumentPart::Members(MembersPart::Open { at }))
        }
        Lexeme::BracketOpen(at) => ArgumentMove::Goes(ArgumentPart::Array { at }),
        _ => ArgumentMove::Stuck,
    }
}

fn one_of(lexeme: Lexeme) -> Option<One>
    ensures { result ≡ one_of_lexeme lexeme }
{
    match lexeme {
        Lexeme::Name(name) => Some(One::Name(name)),
        Lexeme::Number(number) => Some(One::Number(number)),
        Lexeme::Truth(value) => Some(One::Truth(value)),
        _ => None,
    }
}

// In brackets, one item more, if the lexeme is one.
fn item_move(at: u32, mut items: OneList, item: Option<One>) -> Result<ArgumentMove, AllocError>
    ensures { IfOk result (λ m. m ≡ item_move_of at items item) }
{
    match item {
        Some(item) => {
            items.push(item)?;
            Ok(ArgumentMove::Goes(ArgumentPart::Item { at, items }))
        }
        None => Ok(ArgumentMove::Stuck),
    }
}

fn set_move(next: MembersMove) -> ArgumentMove
    ensures { result ≡ set_move_of next }
{
    match next {
        MembersMove::Goes(members) => ArgumentMove::Goes(ArgumentPart::Members(members)),
        MembersMove::Makes(members) => {
            ArgumentMove::Adds(ArgumentText::Members(members), ArgumentPart::Done)
        }
        MembersMove::Stuck => ArgumentMove::Stuck,
    }
}

// What the lexeme makes after a number, which is an argument or the low end of a range.
fn number_move(number: Number, lexeme: Lexeme) -> ArgumentMove
    ensures { result ≡ argument_move_of (ArgumentPart.Number number) lexeme }
{
    match lexeme {
        Lexeme::Dots => ArgumentMove::Goes(ArgumentPart::Members(MembersPart::Dots(number))),
        Lexeme::Comma => {
            ArgumentMove::Adds(ArgumentText::One(One::Number(number)), ArgumentPart::Comma)
        }
        Lexeme::ParenClose => {
            ArgumentMove::Adds(ArgumentText::One(One::Number(number)), ArgumentPart::Closed)
        }
        _ => ArgumentMove::Stuck,
    }
}

// What the lexeme makes in the brackets of an array after an item.
fn after_item(at: u32, items: OneList, lexeme: Lexeme) -> ArgumentMove
    ensures { result ≡ argument_move_of (ArgumentPart.Item at items) lexeme }
{
    match lexeme {
        Lexeme::Comma => ArgumentMove::Goes(ArgumentPart::ItemComma { at, items }),
        Lexeme::BracketClose => {
            ArgumentMove::Adds(ArgumentText::Array { at, items }, ArgumentPart::Done)
        }
        _ => ArgumentMove::Stuck,
    }
}

/// What the lexeme makes of the part.
pub(crate) fn argument_move(
    alloc: Global,
    part: ArgumentPart,
    lexeme: Lexeme,
) -> Result<ArgumentMove, AllocError>
    ensures { IfOk result (λ m. m ≡ argument_move_of part lexeme) }
{
    match part {
        ArgumentPart::Open => match lexeme {
            Lexeme::ParenClose => Ok(ArgumentMove::Goes(ArgumentPart::Closed)),
            _ => Ok(argument_start(lexeme)),
        },
        ArgumentPart::Comma => Ok(argument_start(lexeme)),
        ArgumentPart::Number(number) => Ok(number_move(number, lexeme)),
        ArgumentPart::Members(members) => Ok(set_move(members_move(alloc, members, lexeme)?)),
        ArgumentPart::Array { at } => match lexeme {
            Lexeme::BracketClose => {
                let items = OneList::new(alloc);
                Ok(ArgumentMove::Adds(ArgumentText::Array { at, items }, ArgumentPart::Done))
            }
            _ => item_move(at, OneList::new(alloc), one_of(lexeme)),
        },
        ArgumentPart::Item { at, items } => Ok(after_item(at, items, lexeme)),
        ArgumentPart::ItemComma { at, items } => item_move(at, items, one_of(lexeme)),
        ArgumentPart::Done => match lexeme {
            Lexeme::Comma => Ok(ArgumentMove::Goes(ArgumentPart::Comma)),
            Lexeme::ParenClose => Ok(ArgumentMove::Goes(ArgumentPart::Closed)),
            _ => Ok(ArgumentMove::Stuck),
        },
        ArgumentPart::Closed => Ok(ArgumentMove::Stuck),
    }
}
