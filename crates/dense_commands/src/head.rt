//! How a certificate begins.
ghost use Rattle.std.specs.Prelude.{◌≡◌, ◌≤◌, ◌<◌, ◌+◌, ◌-◌, length, take, IfOk, IfSome};
ghost use Rattle.qc_io.specs.Counts.{HasCause, RoseBy};
ghost use Rattle.qc_io.specs.Shelf.{EndsBy, IsFront};
ghost use Rattle.dense_commands.specs.Answers.{heading_in, HasHead};

use qc_io::{Failed, Shelf};

/// What the first bytes of a certificate tell.
#[derive(Clone, Copy, PartialEq, Eq)]
pub(crate) enum Heading {
    /// A list of lemmas, which tells who wins.
    Lemmas,
    /// An optimum, with two lists.
    Optimum,
    /// A dense certificate.
    Dense,
    /// Anything else.
    Tree,
}

/// How many bytes tell an optimum from other certificates.
const HEAD: usize = 9;

/// How many tell the third and the fourth version of the text from the others.
const VERSION: usize = 7;

/// How the bytes of the name begin.
pub(crate) fn heading_of<S: Shelf>(shelf: &mut S, name: &str) -> Result<Heading, Failed>
    ensures head { IfOk result (λ heading. HasHead heading (S.told shelf.old name.now)) }
    ensures cause { HasCause (S.faults shelf.old) (S.faults shelf.new) result }
    ensures given { RoseBy 0 (S.given shelf.old) (S.given shelf.new) }
    ensures stays { S.told shelf.new ≡ S.told shelf.old }
{
    let mut head = [0; HEAD];
    let count = read_head(shelf, name, &mut head)?;
    Ok(told_by(&head[..count]))
}

// What the first bytes tell, up to nine.
fn told_by(front: &[u8]) -> Heading
    requires { length front.now ≤ 9 }
    ensures { result ≡ heading_in front.now }
{
    if front == b"qcert 3\nb".as_slice() {
        return Heading::Optimum;
    }
    let version = &front[..VERSION.min(front.len())];
    if version == b"qcert 3".as_slice() {
        return Heading::Lemmas;
    }
    if version == b"qcert 4".as_slice() {
        return Heading::Dense;
    }
    Heading::Tree
}

// Reads the first bytes, or all where there are fewer, and says how many came.
fn read_head<S: Shelf>(shelf: &mut S, name: &str, head: &mut [u8]) -> Result<usize, Failed>
    requires { length head.old ≡ 9 }
    ensures length { length head.new ≡ 9 }
    ensures count { IfOk result (λ n. n ≤ 9) }
    ensures front { IfOk result (λ n. IfSome (S.told shelf.old name.now) (λ bytes. take n head.new ≡ take 9 bytes)) }
    ensures cause { HasCause (S.faults shelf.old) (S.faults shelf.new) result }
    ensures given { RoseBy 0 (S.given shelf.old) (S.given shelf.new) }
    ensures stays { S.told shelf.new ≡ S.told shelf.old }
{
    let mut filled = 0;
    while filled < HEAD {
        let count = read_more(shelf, name, head, filled)?;
        if count == 0 {
            return Ok(filled);
        }
        filled += count;
    }
    Ok(filled)
}

// Reads bytes behind those that are filled, and says how many came.
fn read_more<S: Shelf>(
    shelf: &mut S,
    name: &str,
    head: &mut [u8],
    filled: usize,
) -> Result<usize, Failed>
    requires { filled < length head.old }
    ensures count { IfOk result (λ n. n ≤ length head.old - filled) }
    ensures length { length head.new ≡ length head.old }
    ensures front { IfOk result (λ n. IsFront (S.told shelf.old name.now) (take filled head.old)
        → IsFront (S.told shelf.old name.now) (take (filled + n) head.new)) }
    ensures end { IfOk result (λ n. n ≡ 0 → EndsBy (S.told shelf.old name.now) filled) }
    ensures cause { HasCause (S.faults shelf.old) (S.faults shelf.new) result }
    ensures given { RoseBy 0 (S.given shelf.old) (S.given shelf.new) }
    ensures stays { S.told shelf.new ≡ S.told shelf.old }
{
    let into = &mut head[filled..];
    match shelf.read_at(name, filled as u64, into) {
        Ok(count) => Ok(count),
        Err(Failed) => Err(Failed),
    }
}
