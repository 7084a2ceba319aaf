// Bytes and numbers, read from the front of a text.
ghost use Rattle.std.specs.Prelude.{◌≡◌, ◌≤◌, ◌<◌, ◌+◌, ◌-◌, ◌*◌, ◌^◌, ◌∷◌, [], ◌++◌, length, decimal, IsTrue, IfOk, IfErr, MatchOption, None, Some, nat_le, unsigned_abs};
ghost use Rattle.std.specs.Fmt.{signed_decimal};
ghost use Rattle.proof_tree.specs.Text.{place_text, is_place};
ghost use Rattle.proof_text.specs.Symbols.{byte as a_byte, bytes, number as a_number, signed as a_signed, digits as some_digits, next_digit};
ghost use Rattle.proof_text.specs.Reading.{Passes, Fails, BeginsNot};

use crate::part_fault::PartFault;

#[inline(always)]
pub(crate) fn byte(text: &[u8], wanted: u8) -> Result<&[u8], PartFault>
    ensures ok { IfOk result (λ rest. (text.now ≡ wanted ∷ rest.now) × Passes (a_byte wanted ∷ []) text.now rest.now) }
    ensures err { IfErr result (λ fault. Fails (a_byte wanted ∷ []) text.now fault) }
{
    match text.split_first() {
        Some((first, rest)) if *first == wanted => Ok(rest),
        _ => Err(PartFault::Wrong { left: text.len() }),
    }
}

pub(crate) fn literal<'a>(text: &'a [u8], wanted: &[u8]) -> Result<&'a [u8], PartFault>
    ensures ok { IfOk result (λ rest. (text.now ≡ wanted.now ++ rest.now) × Passes (bytes wanted.now) text.now rest.now) }
    ensures err { IfErr result (λ fault. Fails (bytes wanted.now) text.now fault) }
{
    let mut rest = text;
    for next in wanted {
        rest = byte(rest, *next)?;
    }
    Ok(rest)
}

// The value with one more digit, where it is at most so far from 0.
#[inline(always)]
pub(crate) fn with_digit(value: u64, byte: u8, most: u64) -> Option<u64>
    requires { (9 ≤ most) × (most ≤ 2 ^ 62) }
    ensures { MatchOption result ((48 ≤ byte) → (byte ≤ 57) → most < 10 * value + (byte - 48)) (λ sum. (48 ≤ byte) × (byte ≤ 57) × (sum ≡ 10 * value + (byte - 48)) × (sum ≤ most)) }
{
    match byte {
        b'0'..=b'9' => {
            let digit = u64::from(byte - b'0');
            // below a tenth of the most, which is the same for each digit, there is room for any digit
            if value < most / 10 {
                return Some(10 * value + digit);
            }
            if value > most / 10 {
                return None;
            }
            let sum = 10 * value + digit;
            if sum > most {
                return None;
            }
            Some(sum)
        }
        _ => None,
    }
}

// The digits of a number after its first, and the byte after them.
#[inline(always)]
fn digits(text: &[u8], first: u64, most: u64, end: u8) -> Result<(u64, &[u8]), PartFault>
    requires { (9 ≤ most) × (most ≤ 2 ^ 62) × (end < 48) × (1 ≤ first) × (first ≤ most) }
    ensures ok { IfOk result (λ r. (decimal first ++ text.now ≡ decimal r.0 ++ end ∷ r.1.now) × (1 ≤ r.0) × (r.0 ≤ most) × Passes (some_digits most first end ∷ []) text.now r.1.now) }
    ensures err { IfErr result (λ fault. Fails (some_digits most first end ∷ []) text.now fault) }
{
    let Some((byte, after)) = text.split_first() else {
        return Err(PartFault::Wrong { left: 0 });
    };
    // a number of one digit, as most are, needs no loop
    if *byte == end {
        return Ok((first, after));
    }
    more_digits(text, first, most, end)
}

// The same, digit by digit.
#[inline(always)]
fn more_digits(text: &[u8], first: u64, most: u64, end: u8) -> Result<(u64, &[u8]), PartFault>
    requires { (9 ≤ most) × (most ≤ 2 ^ 62) × (end < 48) × (1 ≤ first) × (first ≤ most) }
    ensures ok { IfOk result (λ r. (decimal first ++ text.now ≡ decimal r.0 ++ end ∷ r.1.now) × (1 ≤ r.0) × (r.0 ≤ most) × Passes (some_digits most first end ∷ []) text.now r.1.now) }
    ensures err { IfErr result (λ fault. Fails (some_digits most first end ∷ []) text.now fault) }
{
    let mut value = first;
    let mut rest = text;
    while let Some((byte, after)) = rest.split_first() {
        if *byte == end {
            return Ok((value, after));
        }
        let Some(more) = with_digit(value, *byte, most) else {
            return Err(PartFault::Wrong { left: rest.len() });
        };
        value = more;
        rest = after;
    }
    Err(PartFault::Wrong { left: 0 })
}

// A number from 1, and the byte after it.
#[inline(always)]
pub(crate) fn number(text: &[u8], most: u64, end: u8) -> Result<(u64, &[u8]), PartFault>
    requires { (9 ≤ most) × (most ≤ 2 ^ 62) × (end < 48) }
    ensures ok { IfOk result (λ r. (text.now ≡ decimal r.0 ++ end ∷ r.1.now) × (1 ≤ r.0) × (r.0 ≤ most) × Passes (a_number most end ∷ []) text.now r.1.now) }
    ensures err { IfErr result (λ fault. Fails (a_number most end ∷ []) text.now fault) }
{
    match text.split_first() {
        Some((first @ b'1'..=b'9', rest)) => digits(rest, u64::from(*first - b'0'), most, end),
        _ => Err(PartFault::Wrong { left: text.len() }),
    }
}

// A number that the text counts from 1, and the byte after it.
#[inline(always)]
pub(crate) fn place(text: &[u8], most: u64, end: u8) -> Result<(u16, &[u8]), PartFault>
    requires { (9 ≤ most) × (most ≤ 20000) × (end < 48) }
    ensures ok { IfOk result (λ r. (text.now ≡ place_text r.0 ++ end ∷ r.1.now) × IsTrue (is_place most r.0) × Passes (a_number most end ∷ []) text.now r.1.now) }
    ensures err { IfErr result (λ fault. Fails (a_number most end ∷ []) text.now fault) }
{
    let (place, rest) = number(text, most, end)?;
    Ok(((place - 1) as u16, rest))
}

// A number at most so far from 0, and the byte after it.
#[inline(always)]
pub(crate) fn signed(text: &[u8], most: u64, end: u8) -> Result<(i64, &[u8]), PartFault>
    requires { (9 ≤ most) × (most ≤ 2 ^ 62) × (end < 48) }
    ensures ok { IfOk result (λ r. (text.now ≡ signed_decimal r.0 ++ end ∷ r.1.now) × IsTrue (nat_le (unsigned_abs r.0) most) × Passes (a_signed most end ∷ []) text.now r.1.now) }
    ensures err { IfErr result (λ fault. Fails (a_signed most end ∷ []) text.now fault) }
{
    match text.split_first() {
        Some((b'-', rest)) => {
            let (size, rest) = number(rest, most, end)?;
            Ok((-(size as i64), rest))
        }
        Some((b'0', rest)) => Ok((0, byte(rest, end)?)),
        Some((b'1'..=b'9', _)) => {
            let (size, rest) = number(text, most, end)?;
            Ok((size as i64, rest))
        }
        _ => Err(PartFault::Wrong { left: text.len() }),
    }
}

// What stands after the letter, where the text begins with it.
pub(crate) fn after(text: &[u8], letter: u8) -> Option<&[u8]>
    ensures { MatchOption result (BeginsNot letter text.now) (λ rest. text.now ≡ letter ∷ rest.now) }
{
    match text.split_first() {
        Some((first, rest)) if *first == letter => Some(rest),
        _ => None,
    }
}
