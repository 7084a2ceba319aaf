//! What the bytes of a token stand for.
ghost use Rattle.std.specs.Prelude.{◌≡◌, ◌≤◌, IsTrue, length};
ghost use Rattle.std.specs.Char.{is_ascii_digit as is_digit};
ghost use Rattle.std.specs.List.{list_all};
ghost use Rattle.std.specs.Str.Parse.{digits_value};
ghost use Rattle.qdimacs.specs.Tokens.{number_of, minus_sign as minus_sign_of, sign_of};

use crate::token::Sign;
use qc_model::Kind;

/// The number that at most nine digits write.
fn value(digits: &[u8]) -> u32
    requires digits { IsTrue (list_all is_digit digits.now) }
    requires few { length digits.now ≤ 9 }
    ensures { result ≡ digits_value 10 digits.now }
{
    let mut value: u32 = 0;
    for digit in digits {
        value = value * 10 + (*digit - b'0') as u32;
    }
    value
}

fn are_digits(bytes: &[u8]) -> bool
    ensures { result ≡ list_all is_digit bytes.now }
{
    bytes.iter().all(|byte| byte.is_ascii_digit())
}

/// The number that the bytes write, where they are one.
fn number(bytes: &[u8]) -> Option<u32>
    ensures { result ≡ number_of bytes.now }
{
    let Some((first, rest)) = bytes.split_first() else {
        return None;
    };
    if b'1' <= *first && *first <= b'9' && rest.len() <= 8 && are_digits(rest) {
        Some(value(bytes))
    } else {
        None
    }
}

fn minus_sign(bytes: &[u8]) -> Sign
    ensures { result ≡ minus_sign_of bytes.now }
{
    let Some((first, rest)) = bytes.split_first() else {
        return Sign::Other;
    };
    if *first != b'-' {
        return Sign::Other;
    }
    match number(rest) {
        Some(value) => Sign::Negative(value),
        None => Sign::Other,
    }
}

/// What the bytes of a token stand for.
#[tactic(auto, unfolding(crate::specs::Tokens::sign_of))]
pub(crate) fn read_sign(bytes: &[u8]) -> Sign
    ensures { result ≡ sign_of bytes.now }
{
    if bytes == b"p".as_slice() {
        return Sign::Format;
    }
    if bytes == b"cnf".as_slice() {
        return Sign::Cnf;
    }
    if bytes == b"e".as_slice() {
        return Sign::Quantifier(Kind::Exists);
    }
    if bytes == b"a".as_slice() {
        return Sign::Quantifier(Kind::Forall);
    }
    if bytes == b"0".as_slice() {
        return Sign::Zero;
    }
    match number(bytes) {
        Some(value) => Sign::Number(value),
        None => minus_sign(bytes),
    }
}
