//! What the next lexeme makes between two items, and of the head of a scope or of the goal.
ghost use Rattle.std.specs.Prelude.{◌≡◌};
ghost use Rattle.text_grammar.specs.Grammar.{before_goal as is_before_goal, in_scope as is_in_scope, in_restriction as is_in_restriction};
ghost use Rattle.text_grammar.specs.Moves.{goes_if as goes_if_of, ready_move as ready_move_of, head_move as head_move_of};

use crate::lexeme::Lexeme;
use crate::part::{AggregatePart, ConstraintPart, HeadPart, Move, Part, Phase, VariablePart};
use crate::tree::{ConditionText, Item};

fn before_goal(phase: Phase) -> bool
    ensures { result ≡ is_before_goal phase }
{
    match phase {
        Phase::Outside | Phase::Exists | Phase::Forall => true,
        Phase::Goal => false,
    }
}

fn in_scope(phase: Phase) -> bool
    ensures { result ≡ is_in_scope phase }
{
    match phase {
        Phase::Exists | Phase::Forall => true,
        Phase::Outside | Phase::Goal => false,
    }
}

fn in_restriction(phase: Phase) -> bool
    ensures { result ≡ is_in_restriction phase }
{
    match phase {
        Phase::Exists | Phase::Forall | Phase::Goal => true,
        Phase::Outside => false,
    }
}

fn goes_if(allowed: bool, part: Part) -> Move
    ensures { result ≡ goes_if_of allowed part }
{
    if allowed {
        Move::Goes(part)
    } else {
        Move::Stuck
    }
}

/// What the lexeme begins: an item, or the end of the text.
pub(crate) fn ready_move(phase: Phase, lexeme: Lexeme) -> Move
    ensures { result ≡ ready_move_of phase lexeme }
{
    match lexeme {
        Lexeme::Exists(at) => goes_if(before_goal(phase), Part::Head(HeadPart::Exists { at })),
        Lexeme::Forall(at) => goes_if(before_goal(phase), Part::Head(HeadPart::Forall { at })),
        Lexeme::Goal => goes_if(before_goal(phase), Part::Head(HeadPart::Goal)),
        Lexeme::Var(at) => goes_if(in_scope(phase), Part::Variable(VariablePart::Var { at })),
        Lexeme::Aggregate(at) => goes_if(
            phase == Phase::Forall,
            Part::Aggregate(AggregatePart::Start { at }),
        ),
        Lexeme::Constraint(at) => goes_if(
            in_restriction(phase),
            Part::Constraint(ConstraintPart::Start { at }),
        ),
        Lexeme::Solve => goes_if(phase == Phase::Goal, Part::Solve),
        _ => Move::Stuck,
    }
}

/// What the lexeme makes of the part.
pub(crate) fn head_move(part: HeadPart, lexeme: Lexeme) -> Move
    ensures { result ≡ head_move_of part lexeme }
{
    match part {
        HeadPart::Exists { at } => match lexeme {
            Lexeme::Semicolon => Move::Makes(Item::Exists {
                at,
                condition: None,
            }),
            Lexeme::Optimise(sense) => Move::Goes(Part::Head(HeadPart::Optimise { at, sense })),
            _ => Move::Stuck,
        },
        HeadPart::Optimise { at, sense } => match lexeme {
            Lexeme::Name(target) => {
                let condition = ConditionText { sense, target };
                Move::Goes(Part::Head(HeadPart::Target { at, condition }))
            }
            _ => Move::Stuck,
        },
        HeadPart::Target { at, condition } => match lexeme {
            Lexeme::Semicolon => Move::Makes(Item::Exists {
                at,
                condition: Some(condition),
            }),
            _ => Move::Stuck,
        },
        HeadPart::Forall { at } => match lexeme {
            Lexeme::Semicolon => Move::Makes(Item::Forall { at }),
            _ => Move::Stuck,
        },
        HeadPart::Goal => match lexeme {
            Lexeme::Semicolon => Move::Makes(Item::Goal),
            _ => Move::Stuck,
        },
    }
}
