//! What the next lexeme makes of a constraint.
ghost use Rattle.std.specs.Prelude.{◌≡◌, IfOk};
ghost use Rattle.text_grammar.specs.Moves.{call_move as call_move_of, constraint_move as constraint_move_of};

use crate::argument::argument_move;
use crate::lexeme::Lexeme;
use crate::part::{ArgumentMove, ArgumentPart, ConstraintPart, Move, Part};
use crate::tree::{ArgumentList, Item, Word};
use std::alloc::{AllocError, Global};

fn call_move(
    at: u32,
    name: Word,
    mut args: ArgumentList,
    next: ArgumentMove,
) -> Result<Move, AllocError>
    ensures { IfOk result (λ m. m ≡ call_move_of at name args next) }
{
    match next {
        ArgumentMove::Goes(part) => {
            let call = ConstraintPart::Call {
                at,
                name,
                args,
                part,
            };
            Ok(Move::Goes(Part::Constraint(call)))
        }
        ArgumentMove::Adds(argument, part) => {
            args.push(argument)?;
            let call = ConstraintPart::Call {
                at,
                name,
                args,
                part,
            };
            Ok(Move::Goes(Part::Constraint(call)))
        }
        ArgumentMove::Stuck => Ok(Move::Stuck),
    }
}

// What the lexeme makes after the name and a parenthesis.
fn in_call(
    alloc: Global,
    at: u32,
    name: Word,
    args: ArgumentList,
    part: ArgumentPart,
    lexeme: Lexeme,
) -> Result<Move, AllocError>
    ensures { IfOk result (λ m. m ≡ constraint_move_of (ConstraintPart.Call at name args part) lexeme) }
{
    match part {
        ArgumentPart::Closed => match lexeme {
            Lexeme::Semicolon => Ok(Move::Makes(Item::Constraint { at, name, args })),
            _ => Ok(Move::Stuck),
        },
        _ => call_move(at, name, args, argument_move(alloc, part, lexeme)?),
    }
}

/// What the lexeme makes of the part.
pub(crate) fn constraint_move(
    alloc: Global,
    part: ConstraintPart,
    lexeme: Lexeme,
) -> Result<Move, AllocError>
    ensures { IfOk result (λ m. m ≡ constraint_move_of part lexeme) }
{
    match part {
        ConstraintPart::Start { at } => match lexeme {
            Lexeme::Name(name) => {
                let named = ConstraintPart::Name { at, name };
                Ok(Move::Goes(Part::Constraint(named)))
            }
            _ => Ok(Move::Stuck),
        },
        ConstraintPart::Name { at, name } => match lexeme {
            Lexeme::ParenOpen => {
                let args = ArgumentList::new(alloc);
                let part = ArgumentPart::Open;
                let call = ConstraintPart::Call {
                    at,
                    name,
                    args,
                    part,
                };
                Ok(Move::Goes(Part::Constraint(call)))
            }
            _ => Ok(Move::Stuck),
        },
        ConstraintPart::Call {
            at,
            name,
            args,
            part,
        } => { in_call(alloc, at, name, args, part, lexeme) }
    }
}
