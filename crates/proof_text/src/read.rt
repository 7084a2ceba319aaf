//! Reading a certificate, in one pass over its bytes.
ghost use Rattle.std.specs.Prelude.{◌≡◌, ◌≤◌, length, IsTrue, IfOk, IfErr, MatchResult};
ghost use Rattle.proof_tree.specs.Shape.{tree_of};
ghost use Rattle.proof_tree.specs.Counts.{depth_of};
ghost use Rattle.proof_tree.specs.Text.{certificate_text, has_text};
ghost use Rattle.proof_text.specs.Symbols.{start};
ghost use Rattle.proof_text.specs.Places.{IsText, IsFault, IsWant};
ghost use Rattle.proof_text.specs.Reading.{Stops};

use crate::fault::CertFault;
use crate::lines::{outcome, version};
use crate::part_fault::PartFault;
use crate::parts::node;
use crate::scan::literal;
use proof_tree::Certificate;
use std::alloc::Global;

/// The certificate whose text the bytes are, at most 2^30 of them.
///
/// A certificate nested deeper than 1,000 isn't read, and nothing is read past the place of a fault.
/// The memory taken grows with the tree.
pub fn read_cert(alloc: Global, text: &[u8]) -> Result<Certificate, CertFault>
    requires { length text.now ≤ 1073741824 }
    // What is read is spelled so, each byte of it.
    ensures ok { IfOk result (λ cert. (text.now ≡ certificate_text cert.version cert.outcome cert.optimum (tree_of cert.root)) × IsTrue (has_text cert.version cert.outcome cert.optimum (tree_of cert.root)) × (depth_of (tree_of cert.root) ≤ 1000)) }
    // What is spelled so is read, unless memory runs out.
    ensures only { IsText 1000 text.now → IfErr result IsWant }
    // Where the bytes stop being a text, or a line nests too deep.
    ensures fault { IfErr result (λ fault. IsFault fault text.now) }
{
    match whole(alloc, text) {
        Ok(cert) => Ok(cert),
        Err(PartFault::Wrong { left }) => Err(CertFault::NotACertificate {
            at: (text.len() - left) as u64,
        }),
        Err(PartFault::Deep { left }) => Err(CertFault::TooDeep {
            at: (text.len() - left) as u64,
        }),
        Err(PartFault::Memory(error)) => Err(CertFault::Memory(error)),
    }
}

fn whole(alloc: Global, text: &[u8]) -> Result<Certificate, PartFault>
    requires { length text.now ≤ 1073741824 }
    ensures ok { IfOk result (λ cert. (text.now ≡ certificate_text cert.version cert.outcome cert.optimum (tree_of cert.root)) × IsTrue (has_text cert.version cert.outcome cert.optimum (tree_of cert.root)) × (depth_of (tree_of cert.root) ≤ 1000)) }
    ensures err { IfErr result (λ fault. Stops start text.now fault) }
{
    let rest = literal(text, b"qcert ")?;
    let (version, rest) = version(rest)?;
    let ((outcome, optimum), rest) = outcome(rest)?;
    let (root, rest) = node(alloc, rest, version, 0)?;
    if !rest.is_empty() {
        return Err(PartFault::Wrong { left: rest.len() });
    }
    Ok(Certificate {
        version,
        outcome,
        optimum,
        root,
    })
}
