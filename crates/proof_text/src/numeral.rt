// Numbers, byte by byte. A call says how a number goes on with a byte: it is read further, it ended
// with the byte, or no number of its range goes on so.
ghost use Rattle.std.specs.Prelude.{◌≡◌, ◌≤◌, ◌<◌, ◌^◌, ◌∷◌, [], Some, None, MatchOption, decimal};
ghost use Rattle.proof_text.specs.Symbols.{first_digit, digits};
ghost use Rattle.proof_text.specs.Numerals.{FitsCounted, CountedGoes, FitsSigned, SignedGoes};
ghost use Rattle.proof_text.specs.declared.numeral.Counted.TheVariants.{Start, Digits};
ghost use Rattle.proof_text.specs.declared.numeral.Signed.TheVariants.{Start as SignedStart, Positive, Negative};

use crate::scan::with_digit;

// A number from 1, as far as it is read.
#[derive(Clone, Copy)]
pub(crate) enum Counted {
    Start,
    Digits { value: u64 },
}

pub(crate) enum CountedNext {
    More(Counted),
    Done(u64),
    Wrong,
}

// A number with a sign or without, as far as it is read.
#[derive(Clone, Copy)]
pub(crate) enum Signed {
    Start,
    Zero,
    Positive(Counted),
    Negative(Counted),
}

pub(crate) enum SignedNext {
    More(Signed),
    Done(i64),
    Wrong,
}

pub(crate) fn read_counted(so_far: Counted, byte: u8, most: u64, end: u8) -> CountedNext
    requires range { (9 ≤ most) × (most ≤ 2 ^ 62) × (end < 48) }
    requires fits { FitsCounted most so_far }
    ensures { CountedGoes most end so_far byte result }
{
    match so_far {
        Counted::Start => match first_digit_of(byte, most, end) {
            Some(value) => CountedNext::More(Counted::Digits { value }),
            None => CountedNext::Wrong,
        },
        Counted::Digits { value } => later_byte(value, byte, most, end),
    }
}

fn first_digit_of(byte: u8, most: u64, end: u8) -> Option<u64>
    requires range { (9 ≤ most) × (most ≤ 2 ^ 62) × (end < 48) }
    ensures { MatchOption result (first_digit most end byte ≡ None) (λ v. (first_digit most end byte ≡ Some (digits most v end ∷ [])) × (decimal v ≡ byte ∷ []) × (1 ≤ v) × (v ≤ most)) }
{
    match byte {
        b'1'..=b'9' => Some(u64::from(byte - b'0')),
        _ => None,
    }
}

fn later_byte(value: u64, byte: u8, most: u64, end: u8) -> CountedNext
    requires range { (9 ≤ most) × (most ≤ 2 ^ 62) × (end < 48) }
    requires fits { (1 ≤ value) × (value ≤ most) }
    ensures { CountedGoes most end (Digits value) byte result }
{
    if byte == end {
        return CountedNext::Done(value);
    }
    match with_digit(value, byte, most) {
        Some(value) => CountedNext::More(Counted::Digits { value }),
        None => CountedNext::Wrong,
    }
}

pub(crate) fn read_signed(so_far: Signed, byte: u8, most: u64, end: u8) -> SignedNext
    requires range { (9 ≤ most) × (most ≤ 2 ^ 62) × (end < 48) }
    requires fits { FitsSigned most so_far }
    ensures { SignedGoes most end so_far byte result }
{
    match so_far {
        Signed::Start => sign_byte(byte, most, end),
        Signed::Zero => {
            if byte == end {
                SignedNext::Done(0)
            } else {
                SignedNext::Wrong
            }
        }
        Signed::Positive(size) => positive_byte(size, byte, most, end),
        Signed::Negative(size) => negative_byte(size, byte, most, end),
    }
}

fn sign_byte(byte: u8, most: u64, end: u8) -> SignedNext
    requires range { (9 ≤ most) × (most ≤ 2 ^ 62) × (end < 48) }
    ensures { SignedGoes most end SignedStart byte result }
{
    match byte {
        b'-' => SignedNext::More(Signed::Negative(Counted::Start)),
        b'0' => SignedNext::More(Signed::Zero),
        _ => match first_digit_of(byte, most, end) {
            Some(value) => SignedNext::More(Signed::Positive(Counted::Digits { value })),
            None => SignedNext::Wrong,
        },
    }
}

fn positive_byte(size: Counted, byte: u8, most: u64, end: u8) -> SignedNext
    requires range { (9 ≤ most) × (most ≤ 2 ^ 62) × (end < 48) }
    requires fits { FitsCounted most size }
    ensures { SignedGoes most end (Positive size) byte result }
{
    match read_counted(size, byte, most, end) {
        CountedNext::More(size) => SignedNext::More(Signed::Positive(size)),
        CountedNext::Done(value) => SignedNext::Done(value as i64),
        CountedNext::Wrong => SignedNext::Wrong,
    }
}

fn negative_byte(size: Counted, byte: u8, most: u64, end: u8) -> SignedNext
    requires range { (9 ≤ most) × (most ≤ 2 ^ 62) × (end < 48) }
    requires fits { FitsCounted most size }
    ensures { SignedGoes most end (Negative size) byte result }
{
    match read_counted(size, byte, most, end) {
        CountedNext::More(size) => SignedNext::More(Signed::Negative(size)),
        CountedNext::Done(value) => SignedNext::Done(-(value as i64)),
        CountedNext::Wrong => SignedNext::Wrong,
    }
}
