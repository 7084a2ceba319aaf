// What is read of a piece, byte by byte.
ghost use Rattle.std.specs.Prelude.{◌≡◌, ◌<◌, ◌∷◌, [], ◌++◌, true, false, length, cond, nat_eq, MatchOption, Some, None, IfSome};
ghost use Rattle.lemma_text.specs.Numerals.{value_fits, FitsNumeral};
ghost use Rattle.lemma_text.specs.Asked.{counted};
ghost use Rattle.lemma_text.specs.declared.parts.Numeral.TheVariants.{Start};
ghost use Rattle.dense_text.specs.Grammar.{at_value, place_after, onward as onward_place, after_value as place_after_value};
ghost use Rattle.dense_text.specs.Forms.{letter, all_lines, fields, piece_of};
ghost use Rattle.dense_text.specs.States.{next, word_next, word_end, word_text, outcome_next, won_next, may as may_come, line_next, valued, lettered as lettered_state, more, whole, wrong, state_at};
ghost use Rattle.dense_text.specs.Asked.{asks, number_of};
ghost use Rattle.dense_text.specs.declared.parts.Form.TheVariants.{ValueOf, GivenLine, ReplyLine, ChosenLine};
ghost use Rattle.dense_text.specs.Kept.{state_of, FitsPart, after_of, FitsNext};

use crate::lines::may;
use crate::parts::{Due, Form, Word};
use crate::piece::{Piece, Tuple};
use crate::slot::{Slot, field_of, node, scope, turns, variable};
use lemma_text::{Numeral, NumeralNext, read_numeral};
use proof_tree::Outcome;
use qc_model::ScopeId;

// What is read of a piece.
#[derive(Clone, Copy)]
pub(crate) enum Part {
    // so many letters of a word
    Word { word: Word, read: usize },
    // the first line
    Outcome,
    // that the game is won
    Won,
    // nothing: a line begins, or the text has ended
    Line(Due),
    // the letter of a line, or the word before its turns
    Lettered(Form),
    // the numbers before this one, and some of it
    Number { slot: Slot, numeral: Numeral },
}

// How a piece goes on with a byte.
pub(crate) enum PartNext {
    More(Part),
    Whole(Piece),
    Wrong,
}

// The next byte of a piece.
pub(crate) fn next_part(part: Part, byte: u8) -> PartNext
    requires { FitsPart part }
    ensures next { after_of result ≡ next (state_of part) byte }
    ensures fits { FitsNext result }
{
    match part {
        Part::Word { word, read } => word_byte(word, read, byte),
        Part::Outcome => outcome_byte(byte),
        Part::Won => won_byte(byte),
        Part::Line(due) => line_byte(due, byte),
        Part::Lettered(form) => lettered_byte(form, byte),
        Part::Number { slot, numeral } => number_byte(slot, numeral, byte),
    }
}

// The beginning of the piece that comes after this one, with so many branches open.
pub(crate) fn part_after(branches: u64, piece: Piece) -> Part
    ensures state { state_of result ≡ state_at (place_after branches piece) }
    ensures fits { FitsPart result }
{
    match piece {
        Piece::Head { .. } => Part::Line(Due::Givens),
        Piece::Given { bare, .. } => after_value(Tuple::Given, bare),
        Piece::Reply { bare } => after_value(Tuple::Reply, bare),
        Piece::Chosen { bare } => after_value(Tuple::Chosen, bare),
        Piece::Value { of, last, .. } => after_value(of, last),
        Piece::Named => Part::Line(Due::AfterName),
        Piece::Horizon(_) => Part::Line(Due::AfterHorizon),
        Piece::Close | Piece::Bound { .. } => Part::Line(Due::AfterStep),
        Piece::Next => Part::Line(Due::Node),
        Piece::Range(_) => Part::Line(Due::AfterRange),
        Piece::Stuck
        | Piece::Goal
        | Piece::Again(_)
        | Piece::NoPlay(_)
        | Piece::Empty
        | Piece::Barred
        | Piece::BestLeft
        | Piece::Branch(_)
        | Piece::Skip
        | Piece::LeftOpen
        | Piece::Dot => onward(branches),
    }
}

// What comes after an end.
fn onward(branches: u64) -> Part
    ensures state { state_of result ≡ state_at (onward_place branches) }
    ensures fits { FitsPart result }
{
    if branches == 0 {
        Part::Line(Due::Ended)
    } else {
        Part::Line(Due::Case)
    }
}

// What comes after the last value of a tuple, or after another.
fn after_value(of: Tuple, last: bool) -> Part
    ensures state { state_of result ≡ state_at (place_after_value of last) }
    ensures fits { FitsPart result }
{
    if !last {
        return Part::Number {
            slot: Slot::TupleValue(of),
            numeral: Numeral::Start,
        };
    }
    match of {
        Tuple::Given => Part::Line(Due::Givens),
        Tuple::Reply => Part::Line(Due::AfterStep),
        Tuple::Chosen => Part::Line(Due::Node),
    }
}

// Of which tuple a value comes next, where nothing of it is read yet.
pub(crate) fn value_begins(part: Part) -> Option<Tuple>
    ensures { IfSome result (λ u. state_of part ≡ state_at (at_value u)) }
{
    match part {
        Part::Number { slot, numeral } => value_asked(slot, numeral),
        Part::Word { .. } | Part::Outcome | Part::Won | Part::Line(_) | Part::Lettered(_) => None,
    }
}

fn value_asked(slot: Slot, numeral: Numeral) -> Option<Tuple>
    ensures { IfSome result (λ u. number_of slot numeral ≡ state_at (at_value u)) }
{
    match numeral {
        Numeral::Start => tuple_of(slot),
        Numeral::Minus | Numeral::Zero | Numeral::Digits { .. } => None,
    }
}

fn tuple_of(slot: Slot) -> Option<Tuple>
    ensures { IfSome result (λ u. number_of slot Start ≡ state_at (at_value u)) }
{
    match slot {
        Slot::TupleValue(of) => Some(of),
        Slot::Optimum
        | Slot::Turns
        | Slot::GivenScope
        | Slot::HorizonScope
        | Slot::AgainNode
        | Slot::NoPlayScope
        | Slot::BoundVariable
        | Slot::BoundLow { .. }
        | Slot::BoundHigh { .. }
        | Slot::BranchVariable
        | Slot::RangeHigh => None,
    }
}

fn text_of(word: Word) -> &'static [u8]
    ensures { result.now ≡ word_text word }
{
    match word {
        Word::Name => b"qcert 4\n",
        Word::True => b"true",
        Word::False => b"false\n",
        Word::Open => b"open",
    }
}

fn word_byte(word: Word, read: usize, byte: u8) -> PartNext
    requires { read < length (word_text word) }
    ensures next { after_of result ≡ word_next word read byte }
    ensures fits { FitsNext result }
{
    let text = text_of(word);
    if text[read] != byte {
        return PartNext::Wrong;
    }
    if read + 1 < text.len() {
        return PartNext::More(Part::Word {
            word,
            read: read + 1,
        });
    }
    word_ended(word)
}

fn word_ended(word: Word) -> PartNext
    ensures next { after_of result ≡ word_end word }
    ensures fits { FitsNext result }
{
    match word {
        Word::Name => PartNext::More(Part::Outcome),
        Word::True => PartNext::More(Part::Won),
        Word::False => PartNext::Whole(Piece::Head {
            outcome: Outcome::False,
            optimum: None,
        }),
        Word::Open => PartNext::More(Part::Lettered(Form::Turns)),
    }
}

fn outcome_byte(byte: u8) -> PartNext
    ensures next { after_of result ≡ outcome_next byte }
    ensures fits { FitsNext result }
{
    match byte {
        b't' => PartNext::More(Part::Word {
            word: Word::True,
            read: 1,
        }),
        b'f' => PartNext::More(Part::Word {
            word: Word::False,
            read: 1,
        }),
        b'o' => PartNext::More(Part::Word {
            word: Word::Open,
            read: 1,
        }),
        _ => PartNext::Wrong,
    }
}

// After `true` an optimum may stand.
fn won_byte(byte: u8) -> PartNext
    ensures next { after_of result ≡ won_next byte }
    ensures fits { FitsNext result }
{
    match byte {
        b'\n' => PartNext::Whole(Piece::Head {
            outcome: Outcome::True,
            optimum: None,
        }),
        b' ' => PartNext::More(Part::Number {
            slot: Slot::Optimum,
            numeral: Numeral::Start,
        }),
        _ => PartNext::Wrong,
    }
}

// The letter of a line.
fn line_byte(due: Due, byte: u8) -> PartNext
    ensures next { after_of result ≡ line_next due all_lines byte }
    ensures fits { FitsNext result }
{
    match byte {
        b'u' => begun(due, Form::GivenLine),
        b'm' => begun(due, Form::NameLine),
        b'h' => begun(due, Form::HorizonLine),
        b't' => begun(due, Form::StuckLine),
        b'g' => begun(due, Form::GoalLine),
        b'a' => begun(due, Form::AgainLine),
        b'l' => begun(due, Form::NoPlayLine),
        b'c' => begun(due, Form::CloseLine),
        b'b' => begun(due, Form::BoundLine),
        b'f' => begun(due, Form::ReplyLine),
        b'e' => begun(due, Form::EmptyLine),
        b'x' => begun(due, Form::BarredLine),
        b'y' => begun(due, Form::BestLine),
        b'n' => begun(due, Form::NextLine),
        b'w' => begun(due, Form::ChosenLine),
        b'v' => begun(due, Form::BranchLine),
        b'r' => begun(due, Form::RangeLine),
        b's' => begun(due, Form::SkipLine),
        b'o' => begun(due, Form::OpenLine),
        b'.' => begun(due, Form::DotLine),
        _ => PartNext::Wrong,
    }
}

// The letter of this line was read.
fn begun(due: Due, form: Form) -> PartNext
    ensures next { after_of result ≡ cond (may_come due form) (more (lettered_state form)) wrong }
    ensures fits { FitsNext result }
{
    if may(due, form) {
        PartNext::More(Part::Lettered(form))
    } else {
        PartNext::Wrong
    }
}

// After the letter of a line, or the word before its turns.
fn lettered_byte(form: Form, byte: u8) -> PartNext
    ensures next { after_of result ≡ valued form [] (fields form) byte }
    ensures fits { FitsNext result }
{
    match form {
        Form::Optimum => number_begins(Slot::Optimum, byte),
        Form::Turns => number_begins(Slot::Turns, byte),
        Form::ValueOf(of) => number_begins(Slot::TupleValue(of), byte),
        Form::GivenLine => number_begins(Slot::GivenScope, byte),
        Form::NameLine => line_ended(Piece::Named, byte),
        Form::HorizonLine => number_begins(Slot::HorizonScope, byte),
        Form::StuckLine => line_ended(Piece::Stuck, byte),
        Form::GoalLine => line_ended(Piece::Goal, byte),
        Form::AgainLine => number_begins(Slot::AgainNode, byte),
        Form::NoPlayLine => number_begins(Slot::NoPlayScope, byte),
        Form::CloseLine => line_ended(Piece::Close, byte),
        Form::BoundLine => number_begins(Slot::BoundVariable, byte),
        Form::ReplyLine => reply_begins(byte),
        Form::EmptyLine => line_ended(Piece::Empty, byte),
        Form::BarredLine => line_ended(Piece::Barred, byte),
        Form::BestLine => line_ended(Piece::BestLeft, byte),
        Form::NextLine => line_ended(Piece::Next, byte),
        Form::ChosenLine => chosen_begins(byte),
        Form::BranchLine => number_begins(Slot::BranchVariable, byte),
        Form::RangeLine => number_begins(Slot::RangeHigh, byte),
        Form::SkipLine => line_ended(Piece::Skip, byte),
        Form::OpenLine => line_ended(Piece::LeftOpen, byte),
        Form::DotLine => line_ended(Piece::Dot, byte),
    }
}

// A space, after which a number comes.
fn number_begins(slot: Slot, byte: u8) -> PartNext
    ensures next { after_of result ≡ cond (nat_eq byte 32) (more (number_of slot Start)) wrong }
    ensures fits { FitsNext result }
{
    if byte == b' ' {
        PartNext::More(Part::Number {
            slot,
            numeral: Numeral::Start,
        })
    } else {
        PartNext::Wrong
    }
}

// The end of a line, and so of its piece.
fn line_ended(piece: Piece, byte: u8) -> PartNext
    ensures next { after_of result ≡ cond (nat_eq byte 10) (whole piece) wrong }
    ensures fits { FitsNext result }
{
    if byte == b'\n' {
        PartNext::Whole(piece)
    } else {
        PartNext::Wrong
    }
}

fn reply_begins(byte: u8) -> PartNext
    ensures next { after_of result ≡ valued ReplyLine [] [] byte }
    ensures fits { FitsNext result }
{
    match byte {
        b'\n' => PartNext::Whole(Piece::Reply { bare: true }),
        b' ' => PartNext::Whole(Piece::Reply { bare: false }),
        _ => PartNext::Wrong,
    }
}

fn chosen_begins(byte: u8) -> PartNext
    ensures next { after_of result ≡ valued ChosenLine [] [] byte }
    ensures fits { FitsNext result }
{
    match byte {
        b'\n' => PartNext::Whole(Piece::Chosen { bare: true }),
        b' ' => PartNext::Whole(Piece::Chosen { bare: false }),
        _ => PartNext::Wrong,
    }
}

fn number_byte(slot: Slot, numeral: Numeral, byte: u8) -> PartNext
    requires { FitsNumeral (asks slot).field numeral }
    ensures next { after_of result ≡ next (number_of slot numeral) byte }
    ensures fits { FitsNext result }
{
    match read_numeral(field_of(slot), numeral, byte) {
        NumeralNext::More(numeral) => PartNext::More(Part::Number { slot, numeral }),
        NumeralNext::Done(number) => number_ended(slot, number, byte),
        NumeralNext::Wrong => PartNext::Wrong,
    }
}

// A byte has ended a number: the next one comes, or the piece is whole.
fn number_ended(slot: Slot, number: i64, byte: u8) -> PartNext
    requires { value_fits (asks slot).field number ≡ true }
    ensures next { after_of result ≡ valued (asks slot).form ((asks slot).values ++ number ∷ []) (asks slot).later byte }
    ensures fits { FitsNext result }
{
    match slot {
        Slot::Optimum => line_ended(
            Piece::Head {
                outcome: Outcome::True,
                optimum: Some(number),
            },
            byte,
        ),
        Slot::Turns => line_ended(
            Piece::Head {
                outcome: Outcome::Open(turns(number)),
                optimum: None,
            },
            byte,
        ),
        Slot::TupleValue(of) => value_ended(of, number, byte),
        Slot::GivenScope => given_begins(scope(number), byte),
        Slot::HorizonScope => line_ended(Piece::Horizon(scope(number)), byte),
        Slot::AgainNode => line_ended(Piece::Again(node(number)), byte),
        Slot::NoPlayScope => line_ended(Piece::NoPlay(scope(number)), byte),
        Slot::BoundVariable => {
            let x = variable(number);
            number_begins(Slot::BoundLow { x }, byte)
        }
        Slot::BoundLow { x } => number_begins(Slot::BoundHigh { x, lo: number }, byte),
        Slot::BoundHigh { x, lo } => line_ended(Piece::Bound { x, lo, hi: number }, byte),
        Slot::BranchVariable => line_ended(Piece::Branch(variable(number)), byte),
        Slot::RangeHigh => line_ended(Piece::Range(number), byte),
    }
}

// The end of a tuple's value, after which another may come.
pub(crate) fn value_ended(of: Tuple, value: i64, byte: u8) -> PartNext
    ensures next { after_of result ≡ valued (ValueOf of) (value ∷ []) [] byte }
    ensures fits { FitsNext result }
{
    match byte {
        b'\n' => PartNext::Whole(Piece::Value {
            of,
            value,
            last: true,
        }),
        b' ' => PartNext::Whole(Piece::Value {
            of,
            value,
            last: false,
        }),
        _ => PartNext::Wrong,
    }
}

// The end of a given tuple's scope, after which a value may come.
fn given_begins(scope: ScopeId, byte: u8) -> PartNext
    ensures next { after_of result ≡ valued GivenLine (counted scope.0 ∷ []) [] byte }
    ensures fits { FitsNext result }
{
    match byte {
        b'\n' => PartNext::Whole(Piece::Given { scope, bare: true }),
        b' ' => PartNext::Whole(Piece::Given { scope, bare: false }),
        _ => PartNext::Wrong,
    }
}
