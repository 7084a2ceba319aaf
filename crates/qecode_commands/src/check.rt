//! `check`: whether a certificate proves what it states of a problem.
ghost use Rattle.std.specs.Prelude.{◌≡◌, ◌≢◌, ◌≤◌, ◌<◌, ◌+◌, ◌++◌, ◌⊎◌, [], ℕ, List, codes, decimal, length, IfSome};
ghost use Rattle.qc_io.specs.Counts.{Rose, RoseBy};
ghost use Rattle.proof_tree.specs.Text.{outcome_text};
ghost use Rattle.qc_model.specs.Content.{Game};
ghost use Rattle.check_lines.specs.Machine.{game_of};
ghost use Rattle.qc_check.specs.Checking.{Comes, IsChecking};
ghost use Rattle.qc_check.specs.Keeping.{WasGiven};
ghost use Rattle.qecode_commands.specs.Answers.{ChecksBytes, ChecksFile, AnswersProblem};
ghost use Rattle.qecode_commands.specs.Files.{Wrote};

use crate::certificate::{Unread, feed_file};
use crate::problem_file::open_problem;
use crate::status::Status;
use crate::writing::{finish, finish_parts, too_long};
use itoa::Buffer;
use proof_tree::Outcome;
use qc_check::{Checked, Checker};
use qc_io::{Shelf, Sink};
use qc_model::Problem;
use std::alloc::Global;

/// How many bytes of a certificate are asked for at once.
const PIECE: usize = 65_536;

/// Checks the certificate of one file against the problem of another.
pub(crate) fn check_files<S: Shelf, K: Sink>(
    alloc: Global,
    problem: &str,
    certificate: &str,
    shelf: &mut S,
    out: &mut K,
) -> Status
    ensures wrote { Wrote (K.written out.old) (K.written out.new) (K.faults out.old) (K.faults out.new) result
        (AnswersProblem (ChecksFile certificate.now (S.told shelf.old certificate.now) (λ n. RoseBy n (S.given shelf.old) (S.given shelf.new)))
        problem.now (S.told shelf.old problem.now) (λ n. RoseBy n (S.given shelf.old) (S.given shelf.new))) }
    ensures usage { result ≢ Status.Usage }
    ensures memory { result ≡ Status.Memory → IfSome (S.told shelf.old problem.now) (λ bytes. S.given shelf.new ≤ S.given shelf.old + length bytes) }
    ensures read_fault { result ≡ Status.ReadFault → Rose (S.faults shelf.old) (S.faults shelf.new) }
    ensures no_read_fault { result ≢ Status.ReadFault → S.faults shelf.new ≡ S.faults shelf.old }
{
    match open_problem(alloc, problem, shelf, out) {
        Ok(problem) => check_problem(alloc, &problem, certificate, shelf, out),
        Err(status) => status,
    }
}

/// Checks the certificate of a file against a problem.
pub fn check_problem<S: Shelf, K: Sink>(
    alloc: Global,
    problem: &Problem,
    certificate: &str,
    shelf: &mut S,
    out: &mut K,
) -> Status
    ensures wrote { Wrote (K.written out.old) (K.written out.new) (K.faults out.old) (K.faults out.new) result
        (ChecksFile certificate.now (S.told shelf.old certificate.now) (λ n. RoseBy n (S.given shelf.old) (S.given shelf.new)) problem.now) }
    ensures usage { result ≢ Status.Usage }
    ensures memory { result ≡ Status.Memory → S.given shelf.new ≡ S.given shelf.old }
    ensures read_fault { result ≡ Status.ReadFault → Rose (S.faults shelf.old) (S.faults shelf.new) }
    ensures no_read_fault { result ≢ Status.ReadFault → S.faults shelf.new ≡ S.faults shelf.old }
{
    let Ok(mut checker) = Checker::new(alloc, problem) else {
        return Status::Memory;
    };
    let Ok(mut piece) = vec![in alloc; 0u8; PIECE] else {
        return Status::Memory;
    };
    check_file(&mut checker, &mut piece, certificate, shelf, out)
}

// Whether the file has a certificate that proves what it states, by a checker that was given no byte yet. It takes no
// memory.
fn check_file<S: Shelf, K: Sink>(
    checker: &mut Checker,
    piece: &mut [u8],
    name: &str,
    shelf: &mut S,
    out: &mut K,
) -> Status
    requires piece { 0 < length piece.old }
    requires was_given { WasGiven checker.old }
    requires fresh { IsChecking checker.old [] }
    requires none { checker.old.read ≡ 0 }
    ensures wrote { Wrote (K.written out.old) (K.written out.new) (K.faults out.old) (K.faults out.new) result
        (ChecksFile name.now (S.told shelf.old name.now) (λ n. RoseBy n (S.given shelf.old) (S.given shelf.new)) (game_of checker.old.machine)) }
    ensures rows { (result ≢ Status.Usage) × (result ≢ Status.Memory) }
    ensures read_fault { result ≡ Status.ReadFault → Rose (S.faults shelf.old) (S.faults shelf.new) }
    ensures no_read_fault { result ≢ Status.ReadFault → S.faults shelf.new ≡ S.faults shelf.old }
{
    match feed_file(shelf, name, piece, checker) {
        Ok(()) => tell(out, checker.finish()),
        Err(Unread::TooLong) => too_long(out, name),
        Err(Unread::Fault) => Status::ReadFault,
    }
}

// Tells what the bytes of a certificate come to.
fn tell<K: Sink>(out: &mut K, checked: Checked) -> Status
    ensures wrote { Wrote (K.written out.old) (K.written out.new) (K.faults out.old) (K.faults out.new) result
        (λ s t. (g : Game) (bytes : List ℕ) → Comes g bytes checked → ChecksBytes g bytes s t) }
    ensures rows { (result ≡ Status.Done) ⊎ (result ≡ Status.NotProved) ⊎ (result ≡ Status.BadCertificate) ⊎ (result ≡ Status.WriteFault) }
{
    match checked {
        Checked::Yes { outcome, optimum } => confirm(out, outcome, optimum),
        Checked::NotProved => finish(out, b"no\n", Status::NotProved),
        Checked::NotACertificate { at } => refuse(out, b"bad certificate at ", at),
        Checked::TooDeep { at } => refuse(out, b"certificate too deep at ", at),
    }
}

/// The line that names the place of a fault.
pub fn refuse<K: Sink>(out: &mut K, words: &[u8], at: u64) -> Status
    ensures wrote { Wrote (K.written out.old) (K.written out.new) (K.faults out.old) (K.faults out.new) result
        (λ s t. (s ≡ Status.BadCertificate) × (t ≡ words.now ++ decimal at ++ codes "\n")) }
    ensures rows { (result ≡ Status.BadCertificate) ⊎ (result ≡ Status.WriteFault) }
{
    let mut buffer = Buffer::new();
    finish_parts(
        out,
        words,
        buffer.format(at).as_bytes(),
        b"\n",
        Status::BadCertificate,
    )
}

/// The line that repeats what a certificate states.
pub fn confirm<K: Sink>(out: &mut K, outcome: Outcome, optimum: Option<i64>) -> Status
    ensures wrote { Wrote (K.written out.old) (K.written out.new) (K.faults out.old) (K.faults out.new) result
        (λ s t. (s ≡ Status.Done) × (t ≡ codes "yes " ++ outcome_text outcome optimum)) }
    ensures rows { (result ≡ Status.Done) ⊎ (result ≡ Status.WriteFault) }
{
    let mut buffer = Buffer::new();
    match outcome {
        Outcome::False => finish(out, b"yes false\n", Status::Done),
        Outcome::Open(turns) => {
            finish_parts(
                out,
                b"yes open ",
                buffer.format(turns).as_bytes(),
                b"\n",
                Status::Done,
            )
        }
        Outcome::True => confirm_true(out, optimum),
    }
}

/// The line that confirms that the game is won, with its optimum where there is one.
pub fn confirm_true<K: Sink>(out: &mut K, optimum: Option<i64>) -> Status
    ensures wrote { Wrote (K.written out.old) (K.written out.new) (K.faults out.old) (K.faults out.new) result
        (λ s t. (s ≡ Status.Done) × (t ≡ codes "yes " ++ outcome_text Outcome.True optimum)) }
    ensures rows { (result ≡ Status.Done) ⊎ (result ≡ Status.WriteFault) }
{
    let mut buffer = Buffer::new();
    match optimum {
        None => finish(out, b"yes true\n", Status::Done),
        Some(value) => {
            finish_parts(
                out,
                b"yes true ",
                buffer.format(value).as_bytes(),
                b"\n",
                Status::Done,
            )
        }
    }
}
