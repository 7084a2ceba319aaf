// What is read of a piece, byte by byte.
ghost use Rattle.std.specs.Prelude.{◌≡◌, ◌<◌, ◌∷◌, [], ◌++◌, true, false, length, cond, nat_eq};
ghost use Rattle.lemma_text.specs.Numerals.{value_fits, FitsNumeral};
ghost use Rattle.lemma_text.specs.States.{next, due_letter, entry_letter, step_letter, word_next, word_end, word_text, outcome as first_line, begun as begun_state, lettered as lettered_state, valued, more, whole, wrong, state_at, place_after, at_literal, at as at_line};
ghost use Rattle.lemma_text.specs.Asked.{asks, number_of};
ghost use Rattle.lemma_text.specs.Kept.{state_of, FitsPart, next_of, FitsNext};
ghost use Rattle.lemma_text.specs.declared.parts.Numeral.TheVariants.{Start};
ghost use Rattle.lemma_text.specs.declared.parts.Due.TheVariants.{Sums};

use crate::item::Item;
use crate::numeral::{NumeralNext, read_numeral};
use crate::parts::{Due, Form, Numeral, Word};
use crate::slot::{Slot, constraint, field_of, first_slot, lemma, reason, variable};
use lemma_list::{Literal, Step, SumLiteral};
use qc_model::Kind;

// What is read of a piece.
#[derive(Clone, Copy)]
pub(crate) enum Part {
    // so many letters of a word
    Word { word: Word, read: usize },
    // the first line
    Outcome,
    // nothing: a line begins
    Line(Due),
    // the letter of a lemma
    Begun(Kind),
    // the letter of a line with numbers
    Lettered(Form),
    // the letter of the goal
    Reached,
    // the numbers before this one, and some of it
    Number { slot: Slot, numeral: Numeral },
}

// How a piece goes on with a byte.
pub(crate) enum PartNext {
    More(Part),
    Whole(Item),
    Wrong,
}

// The next byte of a piece.
pub(crate) fn next_part(part: Part, byte: u8) -> PartNext
    requires { FitsPart part }
    ensures next { next_of result ≡ next (state_of part) byte }
    ensures fits { FitsNext result }
{
    match part {
        Part::Word { word, read } => word_byte(word, read, byte),
        Part::Outcome => outcome_byte(byte),
        Part::Line(due) => line_byte(due, byte),
        Part::Begun(loser) => begun_byte(loser, byte),
        Part::Lettered(form) => lettered_byte(form, byte),
        Part::Reached => line_ended(Item::Goal, byte),
        Part::Number { slot, numeral } => number_byte(slot, numeral, byte),
    }
}

// The beginning of the piece that comes after this one.
pub(crate) fn part_after(item: Item) -> Part
    ensures state { state_of result ≡ state_at (place_after item) }
    ensures fits { FitsPart result }
{
    match item {
        Item::Head { loser: _ } => Part::Line(Due::Entries),
        Item::Lemma { loser: _, bare } => after_literals(bare),
        Item::Literal { literal: _, last } => after_literals(last),
        Item::Sum(_) => Part::Line(Due::Sums),
        Item::Step(_) => Part::Line(Due::Steps),
        Item::Lost(_) => Part::Line(Due::Entries),
        Item::Goal => Part::Line(Due::Entries),
        Item::Forget(_) => Part::Line(Due::Entries),
    }
}

// What comes after the last literal of a lemma, or after another.
fn after_literals(last: bool) -> Part
    ensures state { state_of result ≡ state_at (cond last (at_line Sums) at_literal) }
    ensures fits { FitsPart result }
{
    if last {
        Part::Line(Due::Sums)
    } else {
        Part::Number {
            slot: Slot::LiteralVariable,
            numeral: Numeral::Start,
        }
    }
}

fn text_of(word: Word) -> &'static [u8]
    ensures { result.now ≡ word_text word }
{
    match word {
        Word::Name => b"qcert 3\n",
        Word::True => b"true\n",
        Word::False => b"false\n",
    }
}

fn word_byte(word: Word, read: usize, byte: u8) -> PartNext
    requires { read < length (word_text word) }
    ensures next { next_of result ≡ word_next word read byte }
    ensures fits { FitsNext result }
{
    let text = text_of(word);
    if text[read] != byte {
        return PartNext::Wrong;
    }
    if read + 1 < text.len() {
        return PartNext::More(Part::Word {
            word,
            read: read + 1,
        });
    }
    word_ended(word)
}

fn word_ended(word: Word) -> PartNext
    ensures next { next_of result ≡ word_end word }
    ensures fits { FitsNext result }
{
    match word {
        Word::Name => PartNext::More(Part::Outcome),
        Word::True => PartNext::Whole(Item::Head {
            loser: Kind::Forall,
        }),
        Word::False => PartNext::Whole(Item::Head {
            loser: Kind::Exists,
        }),
    }
}

fn outcome_byte(byte: u8) -> PartNext
    ensures next { next_of result ≡ next first_line byte }
    ensures fits { FitsNext result }
{
    match byte {
        b't' => PartNext::More(Part::Word {
            word: Word::True,
            read: 1,
        }),
        b'f' => PartNext::More(Part::Word {
            word: Word::False,
            read: 1,
        }),
        _ => PartNext::Wrong,
    }
}

// The letter of a line.
fn line_byte(due: Due, byte: u8) -> PartNext
    ensures next { next_of result ≡ due_letter due byte }
    ensures fits { FitsNext result }
{
    match due {
        Due::Entries => entry_byte(byte),
        Due::Steps => step_byte(byte),
        Due::Sums => match byte {
            b'u' => PartNext::More(Part::Lettered(Form::Sum)),
            _ => step_byte(byte),
        },
    }
}

fn entry_byte(byte: u8) -> PartNext
    ensures next { next_of result ≡ entry_letter byte }
    ensures fits { FitsNext result }
{
    match byte {
        b'l' => PartNext::More(Part::Begun(Kind::Exists)),
        b'w' => PartNext::More(Part::Begun(Kind::Forall)),
        b'd' => PartNext::More(Part::Lettered(Form::Forgotten)),
        _ => PartNext::Wrong,
    }
}

fn step_byte(byte: u8) -> PartNext
    ensures next { next_of result ≡ step_letter byte }
    ensures fits { FitsNext result }
{
    match byte {
        b'p' => PartNext::More(Part::Lettered(Form::CutByConstraint)),
        b'q' => PartNext::More(Part::Lettered(Form::CutByLemma)),
        b'c' => PartNext::More(Part::Lettered(Form::Choice)),
        b'f' => PartNext::More(Part::Lettered(Form::LostToConstraint)),
        b'a' => PartNext::More(Part::Lettered(Form::LostToLemma)),
        b'g' => PartNext::More(Part::Reached),
        _ => entry_byte(byte),
    }
}

fn begun_byte(loser: Kind, byte: u8) -> PartNext
    ensures next { next_of result ≡ next (begun_state loser) byte }
    ensures fits { FitsNext result }
{
    match byte {
        b' ' => PartNext::Whole(Item::Lemma { loser, bare: false }),
        b'\n' => PartNext::Whole(Item::Lemma { loser, bare: true }),
        _ => PartNext::Wrong,
    }
}

fn lettered_byte(form: Form, byte: u8) -> PartNext
    ensures next { next_of result ≡ next (lettered_state form) byte }
    ensures fits { FitsNext result }
{
    number_begins(first_slot(form), byte)
}

// A space, after which a number comes.
fn number_begins(slot: Slot, byte: u8) -> PartNext
    ensures next { next_of result ≡ cond (nat_eq byte 32) (more (number_of slot Start)) wrong }
    ensures fits { FitsNext result }
{
    if byte == b' ' {
        PartNext::More(Part::Number {
            slot,
            numeral: Numeral::Start,
        })
    } else {
        PartNext::Wrong
    }
}

// The end of a line, and so of its piece.
fn line_ended(item: Item, byte: u8) -> PartNext
    ensures next { next_of result ≡ cond (nat_eq byte 10) (whole item) wrong }
    ensures fits { FitsNext result }
{
    if byte == b'\n' {
        PartNext::Whole(item)
    } else {
        PartNext::Wrong
    }
}

fn number_byte(slot: Slot, numeral: Numeral, byte: u8) -> PartNext
    requires { FitsNumeral (asks slot).field numeral }
    ensures next { next_of result ≡ next (number_of slot numeral) byte }
    ensures fits { FitsNext result }
{
    match read_numeral(field_of(slot), numeral, byte) {
        NumeralNext::More(numeral) => PartNext::More(Part::Number { slot, numeral }),
        NumeralNext::Done(number) => number_ended(slot, number, byte),
        NumeralNext::Wrong => PartNext::Wrong,
    }
}

// A byte has ended a number: the next one comes, or the piece is whole.
fn number_ended(slot: Slot, number: i64, byte: u8) -> PartNext
    requires { value_fits (asks slot).field number ≡ true }
    ensures next { next_of result ≡ valued (asks slot).form ((asks slot).values ++ number ∷ []) (asks slot).later byte }
    ensures fits { FitsNext result }
{
    match slot {
        Slot::LiteralVariable => {
            let x = variable(number);
            number_begins(Slot::LiteralLow { x }, byte)
        }
        Slot::LiteralLow { x } => number_begins(Slot::LiteralHigh { x, lo: number }, byte),
        Slot::LiteralHigh { x, lo } => PartNext::Whole(Item::Literal {
            literal: Literal { x, lo, hi: number },
            last: byte == b'\n',
        }),
        Slot::SumConstraint => {
            let c = constraint(number);
            number_begins(Slot::SumLow { c }, byte)
        }
        Slot::SumLow { c } => number_begins(Slot::SumHigh { c, lo: number }, byte),
        Slot::SumHigh { c, lo } => {
            let sum = SumLiteral { c, lo, hi: number };
            line_ended(Item::Sum(sum), byte)
        }
        Slot::CutVariable { by } => {
            let x = variable(number);
            number_begins(Slot::CutLow { by, x }, byte)
        }
        Slot::CutLow { by, x } => number_begins(Slot::CutHigh { by, x, lo: number }, byte),
        Slot::CutHigh { by, x, lo } => number_begins(
            Slot::CutReason {
                by,
                x,
                lo,
                hi: number,
            },
            byte,
        ),
        Slot::CutReason { by, x, lo, hi } => {
            let by = reason(by, number);
            line_ended(Item::Step(Step::Cut { x, lo, hi, by }), byte)
        }
        Slot::ChoiceVariable => {
            let x = variable(number);
            number_begins(Slot::ChoiceValue { x }, byte)
        }
        Slot::ChoiceValue { x } => { line_ended(Item::Step(Step::Choose { x, v: number }), byte) }
        Slot::LostTo { by } => line_ended(Item::Lost(reason(by, number)), byte),
        Slot::Forgotten => line_ended(Item::Forget(lemma(number)), byte),
    }
}
