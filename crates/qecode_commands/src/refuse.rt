//! Texts that are turned down, and the lines that tell why.
ghost use Rattle.std.specs.Prelude.{◌≡◌, ◌++◌, ◌⊎◌, codes};
ghost use Rattle.qecode_commands.specs.Refusals.{kind_text, refusal_line, TurnsDown};
ghost use Rattle.qecode_commands.specs.Files.{Wrote};

use crate::status::Status;
use crate::writing::finish_parts;
use itoa::Buffer;
use qc_io::Sink;
use qc_syntax::{ReadFault, Refused13};

/// Tells why the text is no problem; nothing is written where memory was refused.
pub(crate) fn turn_down<K: Sink>(out: &mut K, fault: ReadFault) -> Status
    ensures wrote { Wrote (K.written out.old) (K.written out.new) (K.faults out.old) (K.faults out.new) result (TurnsDown fault) }
    ensures rows { (result ≡ Status.BadProblem) ⊎ (result ≡ Status.Memory) ⊎ (result ≡ Status.WriteFault) }
{
    match fault {
        ReadFault::Refused(refusal) => refuse(out, refusal.kind, refusal.at),
        ReadFault::Memory(_) => Status::Memory,
    }
}

fn refuse<K: Sink>(out: &mut K, kind: Refused13, at: u32) -> Status
    ensures wrote { Wrote (K.written out.old) (K.written out.new) (K.faults out.old) (K.faults out.new) result
        (λ s t. (s ≡ Status.BadProblem) × (t ≡ refusal_line kind at)) }
    ensures rows { (result ≡ Status.BadProblem) ⊎ (result ≡ Status.WriteFault) }
{
    let mut buffer = Buffer::new();
    finish_parts(
        out,
        front_of(kind),
        buffer.format(at).as_bytes(),
        b"\n",
        Status::BadProblem,
    )
}

// The line of a kind, up to the place.
fn front_of(kind: Refused13) -> &'static [u8]
    ensures { result.now ≡ codes "bad problem: " ++ kind_text kind ++ codes " at " }
{
    match kind {
        Refused13::BadByte => b"bad problem: 1 BadByte at ",
        Refused13::BadNumber => b"bad problem: 2 BadNumber at ",
        Refused13::Syntax => b"bad problem: 3 Syntax at ",
        Refused13::DuplicateName => b"bad problem: 4 DuplicateName at ",
        Refused13::UnknownName => b"bad problem: 5 UnknownName at ",
        Refused13::UnknownPredicate => b"bad problem: 6 UnknownPredicate at ",
        Refused13::WrongArguments => b"bad problem: 7 WrongArguments at ",
        Refused13::OutOfRange => b"bad problem: 8 OutOfRange at ",
        Refused13::EmptyDomain => b"bad problem: 9 EmptyDomain at ",
        Refused13::TooWide => b"bad problem: 10 TooWide at ",
        Refused13::TooMany => b"bad problem: 11 TooMany at ",
        Refused13::NotVisible => b"bad problem: 12 NotVisible at ",
        Refused13::BottleneckFirst => b"bad problem: 14 BottleneckFirst at ",
    }
}
