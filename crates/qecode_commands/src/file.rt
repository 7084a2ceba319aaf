//! The bytes of a file, or the answer that tells why they can't be had.
ghost use Rattle.std.specs.Prelude.{◌≡◌, ◌≢◌, ◌≤◌, ◌+◌, length, Err, IfSome, IfOk, IfErr, OnOk};
ghost use Rattle.qc_io.specs.Counts.{Rose, RoseBy};
ghost use Rattle.qecode_commands.specs.Files.{IsFile, TurnsFileDown, Wrote};

use crate::status::Status;
use crate::writing::too_long;
use qc_io::{ReadError, Shelf, Sink, read_all};
use std::alloc::Global;

/// The most bytes of the text of a problem or a formula.
pub(crate) const TEXT_LIMIT: u64 = 4_194_304;

/// The bytes of a file of at most so many. Where they can't be had, the answer is written, and its status given.
pub fn open_file<S: Shelf, K: Sink>(
    alloc: Global,
    name: &str,
    limit: u64,
    shelf: &mut S,
    out: &mut K,
) -> Result<Vec<u8>, Status>
    requires { limit ≤ 1073741824 }
    ensures bytes { IfOk result (λ v. IsFile limit (S.told shelf.old name.now) v.items) }
    ensures silent { OnOk result (out.new ≡ out.old) }
    ensures refused { IfErr result (λ s. Wrote (K.written out.old) (K.written out.new) (K.faults out.old) (K.faults out.new) s
        (TurnsFileDown limit name.now (S.told shelf.old name.now) (λ n. RoseBy n (S.given shelf.old) (S.given shelf.new)))) }
    ensures rows { IfErr result (λ s. (s ≢ Status.Usage) × (s ≢ Status.BadProblem) × (s ≢ Status.BadQdimacs)) }
    ensures read_fault { result ≡ Err Status.ReadFault → Rose (S.faults shelf.old) (S.faults shelf.new) }
    ensures no_read_fault { result ≢ Err Status.ReadFault → S.faults shelf.new ≡ S.faults shelf.old }
    ensures given { OnOk result (RoseBy 0 (S.given shelf.old) (S.given shelf.new)) }
    ensures few { IfSome (S.told shelf.old name.now) (λ bytes. S.given shelf.new ≤ S.given shelf.old + length bytes) }
    ensures stays { S.told shelf.new ≡ S.told shelf.old }
{
    match read_all(alloc, shelf, name, limit) {
        Ok(bytes) => Ok(bytes),
        Err(ReadError::TooLong) => Err(too_long(out, name)),
        Err(ReadError::Fault) => Err(Status::ReadFault),
        Err(ReadError::Memory(_)) => Err(Status::Memory),
    }
}
