//! Words and numbers, read from the front of bytes. A call gives what stands behind them, or how many bytes are left where it
//! shows first that none stands there.
ghost use Rattle.std.specs.Prelude.{ℕ, ◌≡◌, ◌≤◌, ◌<◌, ◌+◌, ◌-◌, ◌*◌, ◌^◌, ◌∷◌, [], ◌++◌, length, decimal, IsTrue, IfOk, IfErr, MatchOption, nat_le, unsigned_abs};
ghost use Rattle.std.specs.Fmt.{signed_decimal};
ghost use Rattle.best_text.specs.Stuck.{IsStuck, IsWord, IsCount, IsSigned, BeginsPlain};

pub(crate) fn byte(bytes: &[u8], wanted: u8) -> Result<&[u8], usize>
    ensures ok { IfOk result (λ rest. bytes.now ≡ wanted ∷ rest.now) }
    ensures err { IfErr result (λ left. IsStuck (IsWord (wanted ∷ [])) bytes.now left) }
{
    let Some((first, rest)) = bytes.split_first() else {
        return Err(0);
    };
    if *first != wanted {
        return Err(bytes.len());
    }
    Ok(rest)
}

pub(crate) fn word<'a>(bytes: &'a [u8], wanted: &[u8]) -> Result<&'a [u8], usize>
    ensures ok { IfOk result (λ rest. bytes.now ≡ wanted.now ++ rest.now) }
    ensures err { IfErr result (λ left. IsStuck (IsWord wanted.now) bytes.now left) }
{
    let mut rest = bytes;
    for next in wanted {
        let Some((first, after)) = rest.split_first() else {
            return Err(0);
        };
        if *first != *next {
            return Err(rest.len());
        }
        rest = after;
    }
    Ok(rest)
}

// The value with one more digit, where it is at most so far from 0.
fn with_digit(value: u64, byte: u8, most: u64) -> Option<u64>
    requires { (9 ≤ most) × (most ≤ 2 ^ 62) }
    ensures { MatchOption result ((48 ≤ byte) → (byte ≤ 57) → most < 10 * value + (byte - 48)) (λ sum. (48 ≤ byte) × (byte ≤ 57) × (sum ≡ 10 * value + (byte - 48)) × (sum ≤ most)) }
{
    match byte {
        b'0'..=b'9' => {
            let digit = u64::from(byte - b'0');
            // below a tenth of the most there is room for any digit
            if value < most / 10 {
                return Some(10 * value + digit);
            }
            if value > most / 10 {
                return None;
            }
            let sum = 10 * value + digit;
            if sum > most {
                return None;
            }
            Some(sum)
        }
        _ => None,
    }
}

// The digits of a number after its first, and the byte after them.
fn digits(bytes: &[u8], first: u64, most: u64, end: u8) -> Result<(u64, &[u8]), usize>
    requires { (9 ≤ most) × (most ≤ 2 ^ 62) × (end < 48) × (1 ≤ first) × (first ≤ most) }
    ensures ok { IfOk result (λ r. (decimal first ++ bytes.now ≡ decimal r.0 ++ end ∷ r.1.now) × (1 ≤ r.0) × (r.0 ≤ most)) }
    ensures err { IfErr result (λ left. IsStuck (IsCount most end) (decimal first ++ bytes.now) left) }
{
    let mut value = first;
    let mut rest = bytes;
    while let Some((byte, after)) = rest.split_first() {
        if *byte == end {
            return Ok((value, after));
        }
        let Some(more) = with_digit(value, *byte, most) else {
            return Err(rest.len());
        };
        value = more;
        rest = after;
    }
    Err(0)
}

/// A number from 1, and the byte after it.
pub(crate) fn count(bytes: &[u8], most: u64, end: u8) -> Result<(u64, &[u8]), usize>
    requires { (9 ≤ most) × (most ≤ 2 ^ 62) × (end < 48) }
    ensures ok { IfOk result (λ r. (bytes.now ≡ decimal r.0 ++ end ∷ r.1.now) × (1 ≤ r.0) × (r.0 ≤ most)) }
    ensures err { IfErr result (λ left. IsStuck (IsCount most end) bytes.now left) }
{
    let Some((first, rest)) = bytes.split_first() else {
        return Err(0);
    };
    match *first {
        b'1'..=b'9' => digits(rest, u64::from(*first - b'0'), most, end),
        _ => Err(bytes.len()),
    }
}

/// A number at most so far from 0, and the byte after it.
pub(crate) fn signed(bytes: &[u8], most: u64, end: u8) -> Result<(i64, &[u8]), usize>
    requires { (9 ≤ most) × (most ≤ 2 ^ 62) × (end < 48) }
    ensures ok { IfOk result (λ r. (bytes.now ≡ signed_decimal r.0 ++ end ∷ r.1.now) × IsTrue (nat_le (unsigned_abs r.0) most)) }
    ensures err { IfErr result (λ left. IsStuck (IsSigned most end) bytes.now left) }
{
    let Some((first, rest)) = bytes.split_first() else {
        return Err(0);
    };
    match *first {
        b'-' => negative(rest, most, end),
        b'0' => zero(rest, end),
        _ => positive(bytes, most, end),
    }
}

// After the sign.
fn negative(bytes: &[u8], most: u64, end: u8) -> Result<(i64, &[u8]), usize>
    requires { (9 ≤ most) × (most ≤ 2 ^ 62) × (end < 48) }
    ensures ok { IfOk result (λ r. (45 ∷ bytes.now ≡ signed_decimal r.0 ++ end ∷ r.1.now) × IsTrue (nat_le (unsigned_abs r.0) most)) }
    ensures err { IfErr result (λ left. IsStuck (IsSigned most end) (45 ∷ bytes.now) left) }
{
    match count(bytes, most, end) {
        Ok((size, rest)) => Ok((-(size as i64), rest)),
        Err(left) => Err(left),
    }
}

// After the digit 0.
fn zero(bytes: &[u8], end: u8) -> Result<(i64, &[u8]), usize>
    requires { end < 48 }
    ensures ok { IfOk result (λ r. (48 ∷ bytes.now ≡ signed_decimal r.0 ++ end ∷ r.1.now) × (unsigned_abs r.0 ≡ 0)) }
    ensures err { IfErr result (λ left. (most : ℕ) → most ≤ 2 ^ 62 → IsStuck (IsSigned most end) (48 ∷ bytes.now) left) }
{
    match byte(bytes, end) {
        Ok(rest) => Ok((0, rest)),
        Err(left) => Err(left),
    }
}

// Without a sign, from a first digit that isn't 0.
fn positive(bytes: &[u8], most: u64, end: u8) -> Result<(i64, &[u8]), usize>
    requires range { (9 ≤ most) × (most ≤ 2 ^ 62) × (end < 48) }
    requires first { BeginsPlain bytes.now }
    ensures ok { IfOk result (λ r. (bytes.now ≡ signed_decimal r.0 ++ end ∷ r.1.now) × IsTrue (nat_le (unsigned_abs r.0) most)) }
    ensures err { IfErr result (λ left. IsStuck (IsSigned most end) bytes.now left) }
{
    match count(bytes, most, end) {
        Ok((size, rest)) => Ok((size as i64, rest)),
        Err(left) => Err(left),
    }
}
