//! What the next lexeme makes of an aggregate.
ghost use Rattle.std.specs.Prelude.{◌≡◌};
ghost use Rattle.text_grammar.specs.Moves.{closed_move as closed_move_of, fold_with as fold_with_of, aggregate_move as aggregate_move_of};

use crate::lexeme::Lexeme;
use crate::part::{AggregatePart, FoldWord, Move, Part, Title};
use crate::tree::{FoldText, Item, Number, Word};

fn goes(part: AggregatePart) -> Move
    ensures { result ≡ Move.Goes (Part.Aggregate part) }
{
    Move::Goes(Part::Aggregate(part))
}

fn makes(title: Title, fold: FoldText, target: Word) -> Move
    ensures { result ≡ Move.Makes (Item.Aggregate title.at title.name fold target) }
{
    Move::Makes(Item::Aggregate {
        at: title.at,
        name: title.name,
        fold,
        target,
    })
}

// After the parenthesis is closed a sum is whole, and another fold has its number to come.
fn closed_move(title: Title, fold: FoldWord, target: Word, lexeme: Lexeme) -> Move
    ensures { result ≡ closed_move_of title fold target lexeme }
{
    match fold {
        FoldWord::Sum => match lexeme {
            Lexeme::Semicolon => makes(title, FoldText::Sum, target),
            _ => Move::Stuck,
        },
        FoldWord::Least => match lexeme {
            Lexeme::Else => goes(AggregatePart::Else {
                title,
                fold,
                target,
            }),
            _ => Move::Stuck,
        },
        FoldWord::Greatest => match lexeme {
            Lexeme::Else => goes(AggregatePart::Else {
                title,
                fold,
                target,
            }),
            _ => Move::Stuck,
        },
    }
}

fn fold_with(fold: FoldWord, number: Number) -> FoldText
    ensures { result ≡ fold_with_of fold number }
{
    match fold {
        FoldWord::Sum => FoldText::Sum,
        FoldWord::Least => FoldText::Least(number),
        FoldWord::Greatest => FoldText::Greatest(number),
    }
}

// What the lexeme makes after `aggregate`.
fn start_move(at: u32, lexeme: Lexeme) -> Move
    ensures { result ≡ aggregate_move_of (AggregatePart.Start at) lexeme }
{
    match lexeme {
        Lexeme::Name(name) => goes(AggregatePart::Name(Title { at, name })),
        _ => Move::Stuck,
    }
}

// What the lexeme makes after the name.
fn title_move(title: Title, lexeme: Lexeme) -> Move
    ensures { result ≡ aggregate_move_of (AggregatePart.Name title) lexeme }
{
    match lexeme {
        Lexeme::Equals => goes(AggregatePart::Equals(title)),
        _ => Move::Stuck,
    }
}

// What the lexeme makes after `=`.
fn fold_move(title: Title, lexeme: Lexeme) -> Move
    ensures { result ≡ aggregate_move_of (AggregatePart.Equals title) lexeme }
{
    match lexeme {
        Lexeme::Sum => goes(AggregatePart::Fold {
            title,
            fold: FoldWord::Sum,
        }),
        Lexeme::Least => goes(AggregatePart::Fold {
            title,
            fold: FoldWord::Least,
        }),
        Lexeme::Greatest => goes(AggregatePart::Fold {
            title,
            fold: FoldWord::Greatest,
        }),
        _ => Move::Stuck,
    }
}

// What the lexeme makes after the name of the fold.
fn open_move(title: Title, fold: FoldWord, lexeme: Lexeme) -> Move
    ensures { result ≡ aggregate_move_of (AggregatePart.Fold title fold) lexeme }
{
    match lexeme {
        Lexeme::ParenOpen => goes(AggregatePart::Open { title, fold }),
        _ => Move::Stuck,
    }
}

// What the lexeme makes after the opening parenthesis.
fn target_move(title: Title, fold: FoldWord, lexeme: Lexeme) -> Move
    ensures { result ≡ aggregate_move_of (AggregatePart.Open title fold) lexeme }
{
    match lexeme {
        Lexeme::Name(target) => goes(AggregatePart::Target {
            title,
            fold,
            target,
        }),
        _ => Move::Stuck,
    }
}

// What the lexeme makes after what is folded.
fn close_move(title: Title, fold: FoldWord, target: Word, lexeme: Lexeme) -> Move
    ensures { result ≡ aggregate_move_of (AggregatePart.Target title fold target) lexeme }
{
    match lexeme {
        Lexeme::ParenClose => goes(AggregatePart::Closed {
            title,
            fold,
            target,
        }),
        _ => Move::Stuck,
    }
}

// What the lexeme makes after `else`.
fn number_move(title: Title, fold: FoldWord, target: Word, lexeme: Lexeme) -> Move
    ensures { result ≡ aggregate_move_of (AggregatePart.Else title fold target) lexeme }
{
    match lexeme {
        Lexeme::Number(number) => goes(AggregatePart::Last {
            title,
            fold: fold_with(fold, number),
            target,
        }),
        _ => Move::Stuck,
    }
}

// What the lexeme makes after the number of `else`.
fn last_move(title: Title, fold: FoldText, target: Word, lexeme: Lexeme) -> Move
    ensures { result ≡ aggregate_move_of (AggregatePart.Last title fold target) lexeme }
{
    match lexeme {
        Lexeme::Semicolon => makes(title, fold, target),
        _ => Move::Stuck,
    }
}

/// What the lexeme makes of the part.
pub(crate) fn aggregate_move(part: AggregatePart, lexeme: Lexeme) -> Move
    ensures { result ≡ aggregate_move_of part lexeme }
{
    match part {
        AggregatePart::Start { at } => start_move(at, lexeme),
        AggregatePart::Name(title) => title_move(title, lexeme),
        AggregatePart::Equals(title) => fold_move(title, lexeme),
        AggregatePart::Fold { title, fold } => open_move(title, fold, lexeme),
        AggregatePart::Open { title, fold } => target_move(title, fold, lexeme),
        AggregatePart::Target {
            title,
            fold,
            target,
        } => close_move(title, fold, target, lexeme),
        AggregatePart::Closed {
            title,
            fold,
            target,
        } => closed_move(title, fold, target, lexeme),
        AggregatePart::Else {
            title,
            fold,
            target,
        } => number_move(title, fold, target, lexeme),
        AggregatePart::Last {
            title,
            fold,
            target,
        } => last_move(title, fold, target, lexeme),
    }
}
