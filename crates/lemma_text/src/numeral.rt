// Numbers, byte by byte.
ghost use Rattle.std.specs.Prelude.{◌≡◌, ◌≤◌, ◌<◌, ◌+◌, ◌-◌, ◌*◌, ◌^◌, ◌||◌, MatchOption, nat_eq};
ghost use Rattle.lemma_text.specs.Numerals.{most as most_of, is_signed as has_sign, signed_of, finished as finished_by, continued as continued_by, first_digit as first_by, first_sign, next_digit as next_by, reading, FitsNumeral};
ghost use Rattle.lemma_text.specs.Kept.{reading_of, FitsReading};
ghost use Rattle.lemma_text.specs.declared.parts.Numeral.TheVariants.{Start, Digits};

use crate::parts::{Field, Numeral};

/// How a number goes on with a byte.
pub enum NumeralNext {
    /// The byte is of the number.
    More(Numeral),
    /// The byte, a space or the end of a line, ends the number, which is this.
    Done(i64),
    /// No number of the field goes on so.
    Wrong,
}

/// Reads the next byte of a number, or the one after it, which has to be a space or the end of a line. A number has no
/// needless zero and no plus sign, and is of its field's range.
pub fn read_numeral(field: Field, numeral: Numeral, byte: u8) -> NumeralNext
    requires { FitsNumeral field numeral }
    ensures reads { reading_of result ≡ reading field numeral byte }
    ensures fits { FitsReading field result }
{
    if ends_number(byte) {
        finished(field, numeral)
    } else {
        continued(field, numeral, byte)
    }
}

fn ends_number(byte: u8) -> bool
    ensures { result ≡ (nat_eq byte 32 || nat_eq byte 10) }
{
    byte == b' ' || byte == b'\n'
}

fn finished(field: Field, numeral: Numeral) -> NumeralNext
    requires { FitsNumeral field numeral }
    ensures { reading_of result ≡ finished_by numeral }
{
    match numeral {
        Numeral::Start => NumeralNext::Wrong,
        Numeral::Minus => NumeralNext::Wrong,
        Numeral::Zero => NumeralNext::Done(0),
        Numeral::Digits { negative, value } => NumeralNext::Done(signed(field, negative, value)),
    }
}

fn signed(field: Field, negative: bool, value: u64) -> i64
    requires { FitsNumeral field (Digits negative value) }
    ensures { result ≡ signed_of negative value }
{
    let _ = most(field);
    if negative {
        -(value as i64)
    } else {
        value as i64
    }
}

fn continued(field: Field, numeral: Numeral, byte: u8) -> NumeralNext
    requires { FitsNumeral field numeral }
    ensures { reading_of result ≡ continued_by field numeral byte }
{
    match numeral {
        Numeral::Start => start_byte(field, byte),
        Numeral::Minus => first_digit(true, byte),
        Numeral::Zero => NumeralNext::Wrong,
        Numeral::Digits { negative, value } => next_digit(field, negative, value, byte),
    }
}

fn start_byte(field: Field, byte: u8) -> NumeralNext
    ensures { reading_of result ≡ continued_by field Start byte }
{
    if is_signed(field) {
        sign_byte(byte)
    } else {
        first_digit(false, byte)
    }
}

fn sign_byte(byte: u8) -> NumeralNext
    ensures { reading_of result ≡ first_sign byte }
{
    match byte {
        b'-' => NumeralNext::More(Numeral::Minus),
        b'0' => NumeralNext::More(Numeral::Zero),
        _ => first_digit(false, byte),
    }
}

fn first_digit(negative: bool, byte: u8) -> NumeralNext
    ensures { reading_of result ≡ first_by negative byte }
{
    match byte {
        b'1'..=b'9' => NumeralNext::More(Numeral::Digits {
            negative,
            value: u64::from(byte - b'0'),
        }),
        _ => NumeralNext::Wrong,
    }
}

fn next_digit(field: Field, negative: bool, value: u64, byte: u8) -> NumeralNext
    requires { FitsNumeral field (Digits negative value) }
    ensures { reading_of result ≡ next_by field negative value byte }
{
    match with_digit(value, byte, most(field)) {
        Some(value) => NumeralNext::More(Numeral::Digits { negative, value }),
        None => NumeralNext::Wrong,
    }
}

// The value with one more digit, where it is at most so far from 0.
fn with_digit(value: u64, byte: u8, most: u64) -> Option<u64>
    requires { (9 ≤ most) × (most ≤ 2 ^ 62) }
    ensures { MatchOption result ((48 ≤ byte) → (byte ≤ 57) → most < 10 * value + (byte - 48)) (λ sum. (48 ≤ byte) × (byte ≤ 57) × (sum ≡ 10 * value + (byte - 48)) × (sum ≤ most)) }
{
    match byte {
        b'0'..=b'9' => {
            let digit = u64::from(byte - b'0');
            // below a tenth of the most there is room for any digit
            if value < most / 10 {
                return Some(10 * value + digit);
            }
            if value > most / 10 {
                return None;
            }
            let sum = 10 * value + digit;
            if sum > most {
                return None;
            }
            Some(sum)
        }
        _ => None,
    }
}

fn most(field: Field) -> u64
    ensures is { result ≡ most_of field }
    ensures range { (9 ≤ result) × (result ≤ 2 ^ 62) }
{
    match field {
        Field::Variable => 500,
        Field::Constraint => 20_000,
        Field::Named => 4_294_967_296,
        Field::Scope => 65,
        Field::Node => 1_073_741_824,
        Field::Turns => 10_000_000,
        Field::Value => 1_000_000_000,
        Field::Total => 4_611_686_018_427_387_904,
    }
}

fn is_signed(field: Field) -> bool
    ensures { result ≡ has_sign field }
{
    match field {
        Field::Variable => false,
        Field::Constraint => false,
        Field::Named => false,
        Field::Scope => false,
        Field::Node => false,
        Field::Turns => false,
        Field::Value => true,
        Field::Total => true,
    }
}
