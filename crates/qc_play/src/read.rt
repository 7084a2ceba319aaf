//! Reading a certificate's text into its lines.
ghost use Rattle.std.specs.Prelude.{◌≡◌, ◌≤◌, ◌<◌, ◌+◌, ◌∷◌, ◌++◌, [], length, take, OnOk, IfOk, IfErr};
ghost use Rattle.proof_text.specs.Places.{IsText, IsFault, IsWant};
ghost use Rattle.qc_play.specs.Listing.{IsListing, IsReadFrom};

use crate::listed::CertificateLines;
use proof_text::{
    CertFault, LineReader, Read, bytes_are_one_text_or_have_one_fault, each_standing_is_right,
};
use proof_tree::{Line, Outcome};
use std::alloc::{AllocError, Global};

/// What the head of a certificate states.
#[derive(Clone, Copy)]
pub(crate) struct Head {
    pub(crate) outcome: Outcome,
    pub(crate) optimum: Option<i64>,
}

/// What was read of a text so far.
#[derive(Drop)]
pub(crate) struct Listing {
    pub(crate) reader: LineReader,
    pub(crate) head: Option<Head>,
    pub(crate) lines: Vec<Line>,
}

impl Listing {
    /// One line more. It fails only where memory is refused.
    fn push(&mut self, line: Line) -> Result<(), CertFault>
        ensures lines { OnOk result (self.new.lines.items ≡ self.old.lines.items ++ line ∷ []) }
        ensures reader { self.new.reader ≡ self.old.reader }
        ensures head { self.new.head ≡ self.old.head }
        ensures want { IfErr result IsWant }
    {
        match self.lines.push(line) {
            Ok(()) => Ok(()),
            Err(_) => Err(CertFault::Memory(AllocError)),
        }
    }

    /// Reads the byte at this place of a text: the place after it, or why no text goes on with it.
    fn read_byte(&mut self, text: &[u8], at: usize) -> Result<usize, CertFault>
        requires more { at < length text.now }
        requires listing { IsListing self.old (take at text.now) }
        ensures ok { IfOk result (λ next. (next ≡ at + 1) × IsListing self.new (take next text.now)) }
        ensures fault { IfErr result (λ fault. IsFault fault text.now) }
    {
        match self.reader.byte(text[at]) {
            Read::Within => Ok(at + 1),
            Read::Head {
                version: _,
                outcome,
                optimum,
            } => {
                self.head = Some(Head { outcome, optimum });
                Ok(at + 1)
            }
            Read::Whole(line) => {
                self.push(line)?;
                Ok(at + 1)
            }
            Read::TooDeep => Err(CertFault::TooDeep { at: at as u64 }),
            Read::Bad => Err(CertFault::NotACertificate { at: at as u64 }),
        }
    }

    /// Reads some of the bytes from this place of a text on, a whole line where they begin with one: the place after them.
    fn read_some(&mut self, text: &[u8], at: usize) -> Result<usize, CertFault>
        requires more { at < length text.now }
        requires listing { IsListing self.old (take at text.now) }
        ensures ok { IfOk result (λ next. (at < next) × (next ≤ length text.now) × IsListing self.new (take next text.now)) }
        ensures fault { IfErr result (λ fault. IsFault fault text.now) }
    {
        match self.reader.line(&text[at..]) {
            Some((line, size)) => {
                self.push(line)?;
                Ok(at + size)
            }
            None => self.read_byte(text, at),
        }
    }
}

/// How many lines the bytes end, at most.
fn count_lines(text: &[u8]) -> usize
    ensures { result ≤ length text.now }
{
    let mut count: usize = 0;
    for byte in text {
        if *byte == b'\n' {
            count += 1;
        }
    }
    count
}

/// The certificate whose text the bytes are, at most 2^30 of them, by the lines of its tree.
///
/// It reads and refuses the same texts as `read_cert`, with the same faults. The memory that it takes grows with the number of
/// lines, and is asked for at once.
pub fn read_lines(alloc: Global, text: &[u8]) -> Result<CertificateLines, CertFault>
    requires { length text.now ≤ 1073741824 }
    // What is read is the certificate of this text, and its lines are those of its tree.
    ensures ok { IfOk result (λ cert. IsReadFrom text.now cert.outcome cert.optimum cert.lines.items) }
    // What is spelled so is read, unless memory runs out.
    ensures only { IsText 1000 text.now → IfErr result IsWant }
    // Where the bytes stop being a text, or a line nests too deep.
    ensures fault { IfErr result (λ fault. IsFault fault text.now) }
{
    bytes_are_one_text_or_have_one_fault();
    each_standing_is_right();
    let Ok(lines) = Vec::with_capacity(alloc, count_lines(text)) else {
        return Err(CertFault::Memory(AllocError));
    };
    let mut listing = Listing {
        reader: LineReader::new(),
        head: None,
        lines,
    };
    let mut at = 0;
    while at < text.len() {
        at = listing.read_some(text, at)?;
    }
    listed(listing, text)
}

/// The certificate, once all bytes of its text are read.
fn listed(listing: Listing, text: &[u8]) -> Result<CertificateLines, CertFault>
    requires few { length text.now ≤ 1073741824 }
    requires listing { IsListing listing text.now }
    ensures ok { IfOk result (λ cert. IsReadFrom text.now cert.outcome cert.optimum cert.lines.items) }
    ensures fault { IfErr result (λ fault. IsFault fault text.now) }
{
    bytes_are_one_text_or_have_one_fault();
    let at = text.len() as u64;
    if !listing.reader.is_ended() {
        return Err(CertFault::NotACertificate { at });
    }
    match listing.head {
        Some(head) => Ok(CertificateLines {
            outcome: head.outcome,
            optimum: head.optimum,
            lines: listing.lines,
        }),
        None => Err(CertFault::NotACertificate { at }),
    }
}
