//! What the next lexeme makes of a range or of braces.
ghost use Rattle.std.specs.Prelude.{◌≡◌, [], ◌∷◌, ◌++◌, IfOk};
ghost use Rattle.text_grammar.specs.Moves.{members_move as members_move_of};

use crate::lexeme::Lexeme;
use crate::part::{MembersMove, MembersPart};
use crate::tree::{Members, Number, NumberList};
use std::alloc::{AllocError, Global};

// In braces, one number more.
fn with_number(at: u32, mut items: NumberList, number: Number) -> Result<MembersMove, AllocError>
    ensures { IfOk result (λ m. m ≡ MembersMove.Goes (MembersPart.Item at (items ++ number ∷ []))) }
{
    items.push(number)?;
    Ok(MembersMove::Goes(MembersPart::Item { at, items }))
}

/// What the lexeme makes of the part.
pub(crate) fn members_move(
    alloc: Global,
    part: MembersPart,
    lexeme: Lexeme,
) -> Result<MembersMove, AllocError>
    ensures { IfOk result (λ m. m ≡ members_move_of part lexeme) }
{
    match part {
        MembersPart::Low(low) => match lexeme {
            Lexeme::Dots => Ok(MembersMove::Goes(MembersPart::Dots(low))),
            _ => Ok(MembersMove::Stuck),
        },
        MembersPart::Dots(low) => match lexeme {
            Lexeme::Number(high) => Ok(MembersMove::Makes(Members::Range(low, high))),
            _ => Ok(MembersMove::Stuck),
        },
        MembersPart::Open { at } => match lexeme {
            Lexeme::Number(number) => with_number(at, NumberList::new(alloc), number),
            Lexeme::BraceClose => {
                let items = NumberList::new(alloc);
                Ok(MembersMove::Makes(Members::Braces { at, items }))
            }
            _ => Ok(MembersMove::Stuck),
        },
        MembersPart::Item { at, items } => match lexeme {
            Lexeme::Comma => Ok(MembersMove::Goes(MembersPart::Comma { at, items })),
            Lexeme::BraceClose => Ok(MembersMove::Makes(Members::Braces { at, items })),
            _ => Ok(MembersMove::Stuck),
        },
        MembersPart::Comma { at, items } => match lexeme {
            Lexeme::Number(number) => with_number(at, items, number),
            _ => Ok(MembersMove::Stuck),
        },
    }
}
