// The head of a text, byte by byte: its version and its outcome, each on a line.
ghost use Rattle.std.specs.Prelude.{◌≡◌, ◌<◌, ◌^◌, length};
ghost use Rattle.proof_text.specs.Numerals.{FitsCounted, FitsSigned};
ghost use Rattle.proof_tree.specs.declared.tree.Version.{Version};
ghost use Rattle.proof_text.specs.Fronts.{word_text, FitsFront, FrontGoes};
ghost use Rattle.proof_text.specs.declared.front.Front.TheVariants.{Letters, Digit as DigitFront, FirstEnd as FirstEndFront, SecondLine as SecondLineFront, Optimum as OptimumFront, Value as ValueFront, Turns as TurnsFront};

use crate::numeral::{Counted, CountedNext, Signed, SignedNext, read_counted, read_signed};
use crate::ranges;
use proof_tree::{Outcome, Version};

// The words of a head.
#[derive(Clone, Copy)]
pub(crate) enum Word {
    Name,
    True,
    False,
    Open,
}

// A head, as far as it is read.
#[derive(Clone, Copy)]
pub(crate) enum Front {
    // so many letters of a word
    Letters { word: Word, read: usize },
    // the version's digit comes
    Digit,
    // the end of the first line comes
    FirstEnd,
    SecondLine,
    // after `true`
    Optimum,
    Value(Signed),
    Turns(Counted),
}

pub(crate) enum FrontNext {
    More(Front),
    // the version's digit was read
    Chosen(Version),
    Whole {
        outcome: Outcome,
        optimum: Option<i64>,
    },
    Wrong,
}

fn text_of(word: Word) -> &'static [u8]
    ensures { result.now ≡ word_text word }
{
    match word {
        Word::Name => b"qcert ",
        Word::True => b"true",
        Word::False => b"false\n",
        Word::Open => b"open ",
    }
}

// The next byte of a head.
pub(crate) fn read_front(front: Front, byte: u8) -> FrontNext
    requires { FitsFront front }
    ensures { (version : Version) → FrontGoes version front byte result }
{
    match front {
        Front::Letters { word, read } => word_byte(word, read, byte),
        Front::Digit => digit_byte(byte),
        Front::FirstEnd => first_end(byte),
        Front::SecondLine => second_line(byte),
        Front::Optimum => optimum_byte(byte),
        Front::Value(value) => value_byte(value, byte),
        Front::Turns(turns) => turns_byte(turns, byte),
    }
}

fn word_byte(word: Word, read: usize, byte: u8) -> FrontNext
    requires { read < length (word_text word) }
    ensures { (version : Version) → FrontGoes version (Letters word read) byte result }
{
    let text = text_of(word);
    if text[read] != byte {
        return FrontNext::Wrong;
    }
    if read + 1 < text.len() {
        return FrontNext::More(Front::Letters {
            word,
            read: read + 1,
        });
    }
    match word {
        Word::Name => FrontNext::More(Front::Digit),
        Word::True => FrontNext::More(Front::Optimum),
        Word::False => FrontNext::Whole {
            outcome: Outcome::False,
            optimum: None,
        },
        Word::Open => FrontNext::More(Front::Turns(Counted::Start)),
    }
}

fn digit_byte(byte: u8) -> FrontNext
    ensures { (version : Version) → FrontGoes version DigitFront byte result }
{
    match byte {
        b'1' => FrontNext::Chosen(Version::One),
        b'2' => FrontNext::Chosen(Version::Two),
        _ => FrontNext::Wrong,
    }
}

fn first_end(byte: u8) -> FrontNext
    ensures { (version : Version) → FrontGoes version FirstEndFront byte result }
{
    if byte == b'\n' {
        FrontNext::More(Front::SecondLine)
    } else {
        FrontNext::Wrong
    }
}

fn second_line(byte: u8) -> FrontNext
    ensures { (version : Version) → FrontGoes version SecondLineFront byte result }
{
    let word = match byte {
        b't' => Word::True,
        b'f' => Word::False,
        b'o' => Word::Open,
        _ => return FrontNext::Wrong,
    };
    FrontNext::More(Front::Letters { word, read: 1 })
}

fn optimum_byte(byte: u8) -> FrontNext
    ensures { (version : Version) → FrontGoes version OptimumFront byte result }
{
    match byte {
        b'\n' => FrontNext::Whole {
            outcome: Outcome::True,
            optimum: None,
        },
        b' ' => FrontNext::More(Front::Value(Signed::Start)),
        _ => FrontNext::Wrong,
    }
}

fn value_byte(value: Signed, byte: u8) -> FrontNext
    requires { FitsSigned (2 ^ 62) value }
    ensures { (version : Version) → FrontGoes version (ValueFront value) byte result }
{
    match read_signed(value, byte, ranges::OPTIMUM, b'\n') {
        SignedNext::More(value) => FrontNext::More(Front::Value(value)),
        SignedNext::Done(value) => FrontNext::Whole {
            outcome: Outcome::True,
            optimum: Some(value),
        },
        SignedNext::Wrong => FrontNext::Wrong,
    }
}

fn turns_byte(turns: Counted, byte: u8) -> FrontNext
    requires { FitsCounted 10000000 turns }
    ensures { (version : Version) → FrontGoes version (TurnsFront turns) byte result }
{
    match read_counted(turns, byte, ranges::TURNS, b'\n') {
        CountedNext::More(turns) => FrontNext::More(Front::Turns(turns)),
        CountedNext::Done(turns) => FrontNext::Whole {
            outcome: Outcome::Open(turns),
            optimum: None,
        },
        CountedNext::Wrong => FrontNext::Wrong,
    }
}
