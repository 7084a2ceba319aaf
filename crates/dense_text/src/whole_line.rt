// Lines of a tree and values of tuples whose bytes are all there, read at once.
//
// Byte by byte a line takes some hundred instructions for each of its bytes. What the most frequent lines need is inlined, since a
// result of several words goes through memory at a call. Lines with values are read by themselves: they have larger pieces, which would
// take registers from the others.
ghost use Rattle.std.specs.Prelude.{◌≡◌, ◌∷◌, cond, Some, None, IfSome};
ghost use Rattle.dense_text.specs.Grammar.{at, at_value};
ghost use Rattle.dense_text.specs.States.{may as may_come};
ghost use Rattle.dense_text.specs.WholeLines.{short_lines, short_piece, ReadsNumber, BeginsWith};

use crate::lines::may;
use crate::part::{PartNext, value_ended};
use crate::parts::{Due, Form};
use crate::piece::{Piece, Tuple};
use crate::slot::{node, variable};
use lemma_text::{Field, Numeral, NumeralNext, read_numeral};

// The piece, where its line may come.
#[inline(always)]
fn where_due(due: Due, form: Form, piece: Piece) -> Option<Piece>
    ensures { result ≡ cond (may_come due form) (Some piece) None }
{
    if may(due, form) { Some(piece) } else { None }
}

// The piece of the line that is this letter alone, where it may come.
#[inline(always)]
fn short_line(due: Due, letter: u8) -> Option<Piece>
    ensures { result ≡ short_piece due short_lines letter }
{
    match letter {
        b'm' => where_due(due, Form::NameLine, Piece::Named),
        b't' => where_due(due, Form::StuckLine, Piece::Stuck),
        b'g' => where_due(due, Form::GoalLine, Piece::Goal),
        b'c' => where_due(due, Form::CloseLine, Piece::Close),
        b'e' => where_due(due, Form::EmptyLine, Piece::Empty),
        b'x' => where_due(due, Form::BarredLine, Piece::Barred),
        b'y' => where_due(due, Form::BestLine, Piece::BestLeft),
        b'n' => where_due(due, Form::NextLine, Piece::Next),
        b's' => where_due(due, Form::SkipLine, Piece::Skip),
        b'o' => where_due(due, Form::OpenLine, Piece::LeftOpen),
        b'.' => where_due(due, Form::DotLine, Piece::Dot),
        _ => None,
    }
}

// A number of the field, the byte that ends it, and the bytes after that.
#[inline(always)]
fn number_and_end(field: Field, bytes: &[u8]) -> Option<(i64, u8, &[u8])>
    ensures { IfSome result (λ r. ReadsNumber field r.1 bytes.now r.0 r.2.now) }
{
    let mut numeral = Numeral::Start;
    let mut rest = bytes;
    while let Some((byte, after)) = rest.split_first() {
        match read_numeral(field, numeral, *byte) {
            NumeralNext::More(more) => {
                numeral = more;
                rest = after;
            }
            NumeralNext::Done(number) => return Some((number, *byte, after)),
            NumeralNext::Wrong => return None,
        }
    }
    None
}

// A number of the field, and the bytes after the one that ends it.
#[inline(always)]
fn number(field: Field, bytes: &[u8], end: u8) -> Option<(i64, &[u8])>
    ensures { IfSome result (λ r. ReadsNumber field end bytes.now r.0 r.1.now) }
{
    let Some((number, last, rest)) = number_and_end(field, bytes) else {
        return None;
    };
    if last != end {
        return None;
    }
    Some((number, rest))
}

// The functions up to `valued_line` read the rest of a line after its letter and a space, where it may come.

#[inline(always)]
fn branch_line(due: Due, bytes: &[u8]) -> Option<(Piece, &[u8])>
    ensures { IfSome result (λ r. BeginsWith (at due) r.0 (118 ∷ 32 ∷ bytes.now) r.1.now) }
{
    if !may(due, Form::BranchLine) {
        return None;
    }
    let Some((x, rest)) = number(Field::Variable, bytes, b'\n') else {
        return None;
    };
    Some((Piece::Branch(variable(x)), rest))
}

#[inline(always)]
fn again_line(due: Due, bytes: &[u8]) -> Option<(Piece, &[u8])>
    ensures { IfSome result (λ r. BeginsWith (at due) r.0 (97 ∷ 32 ∷ bytes.now) r.1.now) }
{
    if !may(due, Form::AgainLine) {
        return None;
    }
    let Some((n, rest)) = number(Field::Node, bytes, b'\n') else {
        return None;
    };
    Some((Piece::Again(node(n)), rest))
}

#[inline(always)]
fn counted_line(due: Due, letter: u8, bytes: &[u8]) -> Option<(Piece, &[u8])>
    ensures { IfSome result (λ r. BeginsWith (at due) r.0 (letter ∷ 32 ∷ bytes.now) r.1.now) }
{
    match letter {
        b'v' => branch_line(due, bytes),
        b'a' => again_line(due, bytes),
        _ => None,
    }
}

fn range_line(due: Due, bytes: &[u8]) -> Option<(Piece, &[u8])>
    ensures { IfSome result (λ r. BeginsWith (at due) r.0 (114 ∷ 32 ∷ bytes.now) r.1.now) }
{
    if !may(due, Form::RangeLine) {
        return None;
    }
    let Some((high, rest)) = number(Field::Value, bytes, b'\n') else {
        return None;
    };
    Some((Piece::Range(high), rest))
}

fn bound_line(due: Due, bytes: &[u8]) -> Option<(Piece, &[u8])>
    ensures { IfSome result (λ r. BeginsWith (at due) r.0 (98 ∷ 32 ∷ bytes.now) r.1.now) }
{
    if !may(due, Form::BoundLine) {
        return None;
    }
    let Some((x, rest)) = number(Field::Variable, bytes, b' ') else {
        return None;
    };
    let Some((lo, rest)) = number(Field::Value, rest, b' ') else {
        return None;
    };
    let Some((hi, rest)) = number(Field::Value, rest, b'\n') else {
        return None;
    };
    let x = variable(x);
    Some((Piece::Bound { x, lo, hi }, rest))
}

// The values of a tuple are pieces of their own, so its line begins with the letter and the space alone.

fn reply_line(due: Due, bytes: &[u8]) -> Option<(Piece, &[u8])>
    ensures { IfSome result (λ r. BeginsWith (at due) r.0 (102 ∷ 32 ∷ bytes.now) r.1.now) }
{
    if !may(due, Form::ReplyLine) {
        return None;
    }
    Some((Piece::Reply { bare: false }, bytes))
}

fn chosen_line(due: Due, bytes: &[u8]) -> Option<(Piece, &[u8])>
    ensures { IfSome result (λ r. BeginsWith (at due) r.0 (119 ∷ 32 ∷ bytes.now) r.1.now) }
{
    if !may(due, Form::ChosenLine) {
        return None;
    }
    Some((Piece::Chosen { bare: false }, bytes))
}

fn valued_line(due: Due, letter: u8, bytes: &[u8]) -> Option<(Piece, &[u8])>
    ensures { IfSome result (λ r. BeginsWith (at due) r.0 (letter ∷ 32 ∷ bytes.now) r.1.now) }
{
    match letter {
        b'b' => bound_line(due, bytes),
        b'r' => range_line(due, bytes),
        b'f' => reply_line(due, bytes),
        b'w' => chosen_line(due, bytes),
        _ => None,
    }
}

// The piece with which the bytes begin, where it is one of the most frequent lines and may come, and the bytes after it: a letter, or
// one and a number that counts something.
#[inline(always)]
pub(crate) fn whole_line(due: Due, bytes: &[u8]) -> Option<(Piece, &[u8])>
    ensures { IfSome result (λ r. BeginsWith (at due) r.0 bytes.now r.1.now) }
{
    let Some((letter, text)) = bytes.split_first() else {
        return None;
    };
    let Some((second, rest)) = text.split_first() else {
        return None;
    };
    match *second {
        b'\n' => {
            let Some(piece) = short_line(due, *letter) else {
                return None;
            };
            Some((piece, rest))
        }
        b' ' => counted_line(due, *letter, rest),
        _ => None,
    }
}

// The same of a line with values, or of the beginning of a tuple's.
pub(crate) fn line_with_values(due: Due, bytes: &[u8]) -> Option<(Piece, &[u8])>
    ensures { IfSome result (λ r. BeginsWith (at due) r.0 bytes.now r.1.now) }
{
    let Some((letter, text)) = bytes.split_first() else {
        return None;
    };
    let Some((second, rest)) = text.split_first() else {
        return None;
    };
    match *second {
        b' ' => valued_line(due, *letter, rest),
        _ => None,
    }
}

// The next value of a tuple, where the bytes begin with one, and the bytes after it and the byte that ends it.
pub(crate) fn whole_value(of: Tuple, bytes: &[u8]) -> Option<(Piece, &[u8])>
    ensures { IfSome result (λ r. BeginsWith (at_value of) r.0 bytes.now r.1.now) }
{
    let Some((value, end, rest)) = number_and_end(Field::Value, bytes) else {
        return None;
    };
    match value_ended(of, value, end) {
        PartNext::Whole(piece) => Some((piece, rest)),
        PartNext::More(_) => None,
        PartNext::Wrong => None,
    }
}
