//! The certificate of a file, read whole into its lines, or the answer that tells why there is none.
ghost use Rattle.std.specs.Prelude.{◌≡◌, ◌≢◌, ◌≤◌, Err, length, IfOk, IfErr, OnOk};
ghost use Rattle.qc_io.specs.Counts.{Rose, RoseBy};
ghost use Rattle.qc_play.specs.Listing.{IsReadFrom};
ghost use Rattle.qecode_commands.specs.Files.{Wrote};
ghost use Rattle.qecode_commands.specs.Certificates.{HasLinesOf, TurnsCertificateDown, TurnsCertificateTextDown, TurnsFaultDown};

use crate::check::refuse;
use crate::file::open_file;
use crate::status::Status;
use proof_text::CertFault;
use qc_io::{Shelf, Sink};
use qc_play::{CertificateLines, read_lines};
use std::alloc::Global;

/// The most bytes of the text of a certificate that is read whole.
const TREE_LIMIT: u64 = 33_554_432;

/// The certificate of a file, by its lines. Where it can't be read, is too long or has none, the answer is written, and its status
/// given.
pub fn open_certificate<S: Shelf, K: Sink>(
    alloc: Global,
    name: &str,
    shelf: &mut S,
    out: &mut K,
) -> Result<CertificateLines, Status>
    ensures certificate { IfOk result (λ cert. HasLinesOf (S.told shelf.old name.now) cert.outcome cert.optimum cert.lines.items) }
    ensures silent { OnOk result (out.new ≡ out.old) }
    ensures refused { IfErr result (λ s. Wrote (K.written out.old) (K.written out.new) (K.faults out.old) (K.faults out.new) s
        (TurnsCertificateDown name.now (S.told shelf.old name.now) (λ n. RoseBy n (S.given shelf.old) (S.given shelf.new)))) }
    ensures usage { IfErr result (λ s. s ≢ Status.Usage) }
    ensures read_fault { result ≡ Err Status.ReadFault → Rose (S.faults shelf.old) (S.faults shelf.new) }
    ensures no_read_fault { result ≢ Err Status.ReadFault → S.faults shelf.new ≡ S.faults shelf.old }
    ensures given { OnOk result (RoseBy 0 (S.given shelf.old) (S.given shelf.new)) }
    ensures stays { S.told shelf.new ≡ S.told shelf.old }
{
    match open_file(alloc, name, TREE_LIMIT, shelf, out) {
        Ok(text) => certificate_in(alloc, &text, out),
        Err(status) => Err(status),
    }
}

// The certificate of a text.
fn certificate_in<K: Sink>(
    alloc: Global,
    text: &[u8],
    out: &mut K,
) -> Result<CertificateLines, Status>
    requires { length text.now ≤ 33554432 }
    ensures certificate { IfOk result (λ cert. IsReadFrom text.now cert.outcome cert.optimum cert.lines.items) }
    ensures silent { OnOk result (out.new ≡ out.old) }
    ensures refused { IfErr result (λ s. Wrote (K.written out.old) (K.written out.new) (K.faults out.old) (K.faults out.new) s (TurnsCertificateTextDown text.now)) }
    ensures rows { IfErr result (λ s. (s ≢ Status.Usage) × (s ≢ Status.ReadFault)) }
{
    match read_lines(alloc, text) {
        Ok(cert) => Ok(cert),
        Err(fault) => Err(turn_down(out, fault)),
    }
}

// Tells why the text is no certificate; nothing is written where memory was refused.
fn turn_down<K: Sink>(out: &mut K, fault: CertFault) -> Status
    ensures wrote { Wrote (K.written out.old) (K.written out.new) (K.faults out.old) (K.faults out.new) result (TurnsFaultDown fault) }
    ensures rows { (result ≢ Status.Usage) × (result ≢ Status.ReadFault) }
{
    match fault {
        CertFault::NotACertificate { at } => refuse(out, b"bad certificate at ", at),
        CertFault::TooDeep { at } => refuse(out, b"certificate too deep at ", at),
        CertFault::Memory(_) => Status::Memory,
    }
}
