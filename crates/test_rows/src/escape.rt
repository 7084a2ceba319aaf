//! Bytes in a line: escapes, and the parts of a row.
ghost use Rattle.std.specs.Prelude.{◌<◌, IfSome};

use crate::fault::Fault;

/// Puts what a text stands for behind the bytes: `\n`, `\r` and `\t`, `\\` for a backslash, `\x` with two digits of 0 to 9
/// and A to F, and `\1` to `\9` for the parts of the row.
// What stands between two backslashes is an escape and what follows it, and where it is empty the second is meant.
pub(crate) fn decode(text: &str, parts: &[Vec<u8>], into: &mut Vec<u8>) -> Result<(), Fault> {
    let mut is_plain = true;
    for piece in text.split('\\') {
        if is_plain {
            into.extend_from_slice(piece.as_bytes())?;
            is_plain = false;
        } else if piece.is_empty() {
            into.push(b'\\')?;
            is_plain = true;
        } else {
            escaped(piece.as_bytes(), parts, into)?;
        }
    }
    if is_plain {
        return Err(Fault::UnknownEscape);
    }
    Ok(())
}

// An escape without its backslash, and what follows it.
fn escaped(piece: &[u8], parts: &[Vec<u8>], into: &mut Vec<u8>) -> Result<(), Fault> {
    match piece {
        [b'n', rest @ ..] => both(b"\n", rest, into),
        [b'r', rest @ ..] => both(b"\r", rest, into),
        [b't', rest @ ..] => both(b"\t", rest, into),
        [b'x', high, low, rest @ ..] => both(&[byte_of(*high, *low)?], rest, into),
        [digit, rest @ ..] => both(part_of(*digit, parts)?, rest, into),
        [] => Err(Fault::UnknownEscape),
    }
}

fn both(first: &[u8], rest: &[u8], into: &mut Vec<u8>) -> Result<(), Fault> {
    into.extend_from_slice(first)?;
    into.extend_from_slice(rest)?;
    Ok(())
}

fn part_of(digit: u8, parts: &[Vec<u8>]) -> Result<&[u8], Fault> {
    if digit < b'1' || digit > b'9' {
        return Err(Fault::UnknownEscape);
    }
    match parts.get((digit - b'1') as usize) {
        Some(part) => Ok(part.as_slice()),
        None => Err(Fault::UnknownPart),
    }
}

fn byte_of(high: u8, low: u8) -> Result<u8, Fault> {
    let (Some(high), Some(low)) = (digit_of(high), digit_of(low)) else {
        return Err(Fault::UnknownEscape);
    };
    Ok(high * 16 + low)
}

fn digit_of(byte: u8) -> Option<u8>
    ensures { IfSome result (λ digit. digit < 16) }
{
    match byte {
        b'0'..=b'9' => Some(byte - b'0'),
        b'A'..=b'F' => Some(byte - b'A' + 10),
        _ => None,
    }
}
