//! What the next lexeme makes of a variable.
ghost use Rattle.std.specs.Prelude.{◌≡◌, IfOk};
ghost use Rattle.text_grammar.specs.Moves.{domain_move as domain_move_of, variable_move as variable_move_of};

use crate::lexeme::Lexeme;
use crate::members::members_move;
use crate::part::{MembersMove, MembersPart, Move, Part, VariablePart};
use crate::tree::{DomainText, Item};
use std::alloc::{AllocError, Global};

fn domain_move(at: u32, next: MembersMove) -> Move
    ensures { result ≡ domain_move_of at next }
{
    match next {
        MembersMove::Goes(members) => {
            Move::Goes(Part::Variable(VariablePart::Members { at, members }))
        }
        MembersMove::Makes(members) => {
            let domain = DomainText::Members(members);
            Move::Goes(Part::Variable(VariablePart::Domain { at, domain }))
        }
        MembersMove::Stuck => Move::Stuck,
    }
}

// What the lexeme makes after `var`.
fn start_move(at: u32, lexeme: Lexeme) -> Move
    ensures { result ≡ variable_move_of (VariablePart.Var at) lexeme }
{
    match lexeme {
        Lexeme::Bits(place) => {
            let domain = DomainText::Bits { at: place };
            Move::Goes(Part::Variable(VariablePart::Domain { at, domain }))
        }
        Lexeme::Number(low) => {
            let members = MembersPart::Low(low);
            Move::Goes(Part::Variable(VariablePart::Members { at, members }))
        }
        Lexeme::BraceOpen(place) => {
            let members = MembersPart::Open { at: place };
            Move::Goes(Part::Variable(VariablePart::Members { at, members }))
        }
        _ => Move::Stuck,
    }
}

/// What the lexeme makes of the part.
pub(crate) fn variable_move(
    alloc: Global,
    part: VariablePart,
    lexeme: Lexeme,
) -> Result<Move, AllocError>
    ensures { IfOk result (λ m. m ≡ variable_move_of part lexeme) }
{
    match part {
        VariablePart::Var { at } => Ok(start_move(at, lexeme)),
        VariablePart::Members { at, members } => {
            Ok(domain_move(at, members_move(alloc, members, lexeme)?))
        }
        VariablePart::Domain { at, domain } => match lexeme {
            Lexeme::Colon => Ok(Move::Goes(Part::Variable(VariablePart::Colon { at, domain }))),
            _ => Ok(Move::Stuck),
        },
        VariablePart::Colon { at, domain } => match lexeme {
            Lexeme::Name(name) => {
                let part = VariablePart::Name { at, domain, name };
                Ok(Move::Goes(Part::Variable(part)))
            }
            _ => Ok(Move::Stuck),
        },
        VariablePart::Name { at, domain, name } => match lexeme {
            Lexeme::Semicolon => Ok(Move::Makes(Item::Variable { at, domain, name })),
            _ => Ok(Move::Stuck),
        },
    }
}
