//! The game of a file's formula, or the answer that tells why there is none.
ghost use Rattle.std.specs.Prelude.{◌≡◌, ◌≢◌, ◌≤◌, ◌++◌, ◌⊎◌, codes, Err, length, IfOk, IfErr, OnOk};
ghost use Rattle.qc_io.specs.Counts.{Rose, RoseBy};
ghost use Rattle.qdimacs.specs.Read.{IsProblemOf as IsGameOf};
ghost use Rattle.qecode_commands.specs.Files.{Wrote};
ghost use Rattle.qecode_commands.specs.Formulas.{HasGame, TurnsFormulaDown, TurnsFormulaTextDown, TurnsQdimacsDown, kind_of_qdimacs, qdimacs_line};

use crate::file::{TEXT_LIMIT, open_file};
use crate::status::Status;
use crate::writing::finish_parts;
use itoa::Buffer;
use qc_io::{Shelf, Sink};
use qc_model::Problem;
use qdimacs::{QdimacsFault, QdimacsKind, read_qdimacs};
use std::alloc::Global;

/// The game of a file's formula. Where the file can't be read, is too long or has none, the answer is written, and its
/// status given.
pub fn open_formula<S: Shelf, K: Sink>(
    alloc: Global,
    name: &str,
    shelf: &mut S,
    out: &mut K,
) -> Result<Problem, Status>
    ensures game { IfOk result (λ g. HasGame (S.told shelf.old name.now) g) }
    ensures silent { OnOk result (out.new ≡ out.old) }
    ensures refused { IfErr result (λ s. Wrote (K.written out.old) (K.written out.new) (K.faults out.old) (K.faults out.new) s
        (TurnsFormulaDown name.now (S.told shelf.old name.now) (λ n. RoseBy n (S.given shelf.old) (S.given shelf.new)))) }
    ensures usage { IfErr result (λ s. s ≢ Status.Usage) }
    ensures read_fault { result ≡ Err Status.ReadFault → Rose (S.faults shelf.old) (S.faults shelf.new) }
    ensures no_read_fault { result ≢ Err Status.ReadFault → S.faults shelf.new ≡ S.faults shelf.old }
{
    match open_file(alloc, name, TEXT_LIMIT, shelf, out) {
        Ok(text) => game_in(alloc, &text, out),
        Err(status) => Err(status),
    }
}

// The game of a text's formula.
fn game_in<K: Sink>(alloc: Global, text: &[u8], out: &mut K) -> Result<Problem, Status>
    requires { length text.now ≤ 4194304 }
    ensures game { IfOk result (λ g. IsGameOf text.now g) }
    ensures silent { OnOk result (out.new ≡ out.old) }
    ensures refused { IfErr result (λ s. Wrote (K.written out.old) (K.written out.new) (K.faults out.old) (K.faults out.new) s (TurnsFormulaTextDown text.now)) }
    ensures rows { IfErr result (λ s. (s ≢ Status.Usage) × (s ≢ Status.ReadFault)) }
{
    match read_qdimacs(alloc, text) {
        Ok(problem) => Ok(problem),
        Err(fault) => Err(turn_down(out, fault)),
    }
}

// Tells why the text is no formula; nothing is written where memory was refused.
fn turn_down<K: Sink>(out: &mut K, fault: QdimacsFault) -> Status
    ensures wrote { Wrote (K.written out.old) (K.written out.new) (K.faults out.old) (K.faults out.new) result (TurnsQdimacsDown fault) }
    ensures rows { (result ≡ Status.BadQdimacs) ⊎ (result ≡ Status.Memory) ⊎ (result ≡ Status.WriteFault) }
{
    match fault {
        QdimacsFault::Refused { kind, at } => refuse(out, kind, at),
        QdimacsFault::Memory(_) => Status::Memory,
    }
}

fn refuse<K: Sink>(out: &mut K, kind: QdimacsKind, at: u32) -> Status
    ensures wrote { Wrote (K.written out.old) (K.written out.new) (K.faults out.old) (K.faults out.new) result
        (λ s t. (s ≡ Status.BadQdimacs) × (t ≡ qdimacs_line kind at)) }
    ensures rows { (result ≡ Status.BadQdimacs) ⊎ (result ≡ Status.WriteFault) }
{
    let mut buffer = Buffer::new();
    finish_parts(
        out,
        front_of(kind),
        buffer.format(at).as_bytes(),
        b"\n",
        Status::BadQdimacs,
    )
}

// The line of a kind, up to the place.
fn front_of(kind: QdimacsKind) -> &'static [u8]
    ensures { result.now ≡ codes "bad qdimacs: " ++ kind_of_qdimacs kind ++ codes " at " }
{
    match kind {
        QdimacsKind::Syntax => b"bad qdimacs: 1 Syntax at ",
        QdimacsKind::OutOfRange => b"bad qdimacs: 2 OutOfRange at ",
        QdimacsKind::Repeated => b"bad qdimacs: 3 Repeated at ",
        QdimacsKind::WrongCount => b"bad qdimacs: 4 WrongCount at ",
        QdimacsKind::TooMany => b"bad qdimacs: 5 TooMany at ",
    }
}
