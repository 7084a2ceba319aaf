//! The head of a text, read.
ghost use Rattle.std.specs.Prelude.{◌≡◌, ◌+◌, ◌∷◌, [], ◌++◌, decimal, IfOk, IfErr, length};
ghost use Rattle.std.specs.Fmt.{signed_decimal};
ghost use Rattle.best_text.specs.Text.{head_text, HeadFits, IsHead};
ghost use Rattle.best_text.specs.Stuck.{IsStuck, Then, IsCount, IsSigned};
ghost use Rattle.best_text.specs.Heads.{Says};

use crate::numbers::{count, signed, word};

/// The most bytes of the first list.
pub const LIST_LIMIT: u64 = 1_073_741_824;

const NUMBER: u64 = 1_000_000_000;

/// What bytes begin with.
#[derive(Clone, Copy, PartialEq, Eq)]
pub enum Head {
    /// A head of so many bytes: the value, and how many bytes the first list has.
    Whole { value: i64, many: u64, size: usize },
    /// No head, which shows first at this place: an offset of bytes, counted from 0. It is the number of bytes where all of
    /// them begin a head.
    Bad { at: usize },
}

/// The head at the front of bytes. No more bytes are looked at than it has, and one.
pub fn read_head(bytes: &[u8]) -> Head
    ensures { Says bytes.now result }
{
    match head_parts(bytes) {
        Ok((value, many, rest)) => Head::Whole {
            value,
            many,
            size: bytes.len() - rest.len(),
        },
        Err(left) => Head::Bad {
            at: bytes.len() - left,
        },
    }
}

// The value and the length, and what stands behind the head; or how many bytes are left where it shows that none is there.
fn head_parts(bytes: &[u8]) -> Result<(i64, u64, &[u8]), usize>
    ensures ok { IfOk result (λ r. HeadFits r.0 r.1 × (bytes.now ≡ head_text r.0 r.1 ++ r.2.now)) }
    ensures err { IfErr result (λ left. IsStuck IsHead bytes.now left) }
{
    match word(bytes, b"qcert 3\nbest ") {
        Ok(rest) => value_parts(rest),
        Err(left) => Err(left),
    }
}

// The same behind the word.
fn value_parts(bytes: &[u8]) -> Result<(i64, u64, &[u8]), usize>
    ensures ok { IfOk result (λ r. HeadFits r.0 r.1 × (bytes.now ≡ signed_decimal r.0 ++ 32 ∷ (decimal r.1 ++ 10 ∷ r.2.now))) }
    ensures err { IfErr result (λ left. IsStuck (Then (IsSigned 1000000000 32) (IsCount 1073741824 10)) bytes.now left) }
{
    match signed(bytes, NUMBER, b' ') {
        Ok((value, rest)) => match count(rest, LIST_LIMIT, b'\n') {
            Ok((many, rest)) => Ok((value, many, rest)),
            Err(left) => Err(left),
        },
        Err(left) => Err(left),
    }
}
