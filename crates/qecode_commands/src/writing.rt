//! Answers written to the sink, as one text each, without memory.
ghost use Rattle.std.specs.Prelude.{◌≡◌, ◌≢◌, ◌++◌, ◌⊎◌, codes, OnOk, OnErr};
ghost use Rattle.std.specs.Io.KnownBytes.{Appends};
ghost use Rattle.qc_io.specs.Sink.{AppendsPrefix};
ghost use Rattle.qc_io.specs.Counts.{HasCause};
ghost use Rattle.qecode_commands.specs.Files.{Wrote};

use crate::status::Status;
use qc_io::{Pieces, Sink, WriteFault, write_all};

/// Writes the text of an answer, whose status isn't WriteFault.
pub fn finish<K: Sink>(out: &mut K, text: &[u8], status: Status) -> Status
    requires { status ≢ Status.WriteFault }
    ensures wrote { Wrote (K.written out.old) (K.written out.new) (K.faults out.old) (K.faults out.new) result (λ s t. (s ≡ status) × (t ≡ text.now)) }
    ensures rows { (result ≡ status) ⊎ (result ≡ Status.WriteFault) }
{
    match write_all(out, text) {
        Ok(()) => status,
        Err(_) => Status::WriteFault,
    }
}

/// Tells that a file is longer than its limit.
pub fn too_long<K: Sink>(out: &mut K, name: &str) -> Status
    ensures wrote { Wrote (K.written out.old) (K.written out.new) (K.faults out.old) (K.faults out.new) result
        (λ s t. (s ≡ Status.TooLong) × (t ≡ codes "too long: " ++ name.now ++ codes "\n")) }
    ensures rows { (result ≡ Status.TooLong) ⊎ (result ≡ Status.WriteFault) }
{
    match write_parts(out, b"too long: ", name.as_bytes(), b"\n") {
        Ok(()) => Status::TooLong,
        Err(_) => Status::WriteFault,
    }
}

// Hands the parts on as one text.
fn write_parts<K: Sink>(
    out: &mut K,
    front: &[u8],
    middle: &[u8],
    back: &[u8],
) -> Result<(), WriteFault>
    ensures ok { OnOk result (Appends (K.written out.old) (K.written out.new) (front.now ++ middle.now ++ back.now)) }
    ensures err { OnErr result (AppendsPrefix (K.written out.old) (K.written out.new) (front.now ++ middle.now ++ back.now)) }
    ensures cause { HasCause (K.faults out.old) (K.faults out.new) result }
{
    let mut pieces = Pieces::new();
    pieces.put_all(out, front)?;
    pieces.put_all(out, middle)?;
    pieces.put_all(out, back)?;
    pieces.finish(out)
}

/// Writes the text of an answer in three parts.
pub(crate) fn finish_parts<K: Sink>(
    out: &mut K,
    front: &[u8],
    middle: &[u8],
    back: &[u8],
    status: Status,
) -> Status
    requires { status ≢ Status.WriteFault }
    ensures wrote { Wrote (K.written out.old) (K.written out.new) (K.faults out.old) (K.faults out.new) result
        (λ s t. (s ≡ status) × (t ≡ front.now ++ middle.now ++ back.now)) }
    ensures rows { (result ≡ status) ⊎ (result ≡ Status.WriteFault) }
{
    match write_parts(out, front, middle, back) {
        Ok(()) => status,
        Err(_) => Status::WriteFault,
    }
}
