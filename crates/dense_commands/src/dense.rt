//! Whether the dense certificate of a file proves what it states of a problem.
ghost use Rattle.std.specs.Prelude.{◌≡◌, ◌≢◌, ◌<◌, ◌⊎◌, [], ℕ, List, length};
ghost use Rattle.qc_io.specs.Counts.{Rose, RoseBy};
ghost use Rattle.qc_model.specs.Content.{Game};
ghost use Rattle.dense_check.specs.Telling.{game_of};
ghost use Rattle.dense_judge.specs.Checking.{Comes, IsChecking, IsReady};
ghost use Rattle.qecode_commands.specs.Files.{Wrote};
ghost use Rattle.dense_commands.specs.Answers.{ChecksDenseBytes, ChecksDenseFile};

use crate::feed::{Unread, feed_file};
use dense_judge::{Checked, DenseChecker};
use qc_io::{Shelf, Sink};
use qc_model::Problem;
use qecode_commands::{Status, confirm_outcome, finish, refuse_certificate, too_long};
use std::alloc::Global;

/// How many bytes of a text are asked for at once.
const PIECE: usize = 65_536;

/// Checks the dense certificate of a file against a problem.
pub(crate) fn check_dense<S: Shelf, K: Sink>(
    alloc: Global,
    problem: &Problem,
    certificate: &str,
    shelf: &mut S,
    out: &mut K,
) -> Status
    ensures wrote { Wrote (K.written out.old) (K.written out.new) (K.faults out.old) (K.faults out.new) result
        (ChecksDenseFile certificate.now (S.told shelf.old certificate.now) (λ n. RoseBy n (S.given shelf.old) (S.given shelf.new)) problem.now) }
    ensures usage { result ≢ Status.Usage }
    ensures read_fault { result ≡ Status.ReadFault → Rose (S.faults shelf.old) (S.faults shelf.new) }
    ensures no_read_fault { result ≢ Status.ReadFault → S.faults shelf.new ≡ S.faults shelf.old }
{
    let Ok(mut checker) = DenseChecker::new(alloc, problem) else {
        return Status::Memory;
    };
    let Ok(mut piece) = vec![in alloc; 0u8; PIECE] else {
        return Status::Memory;
    };
    check_file(&mut checker, &mut piece, certificate, shelf, out)
}

// Whether the file has a certificate that proves what it states, by a checker that was given no byte yet.
fn check_file<S: Shelf, K: Sink>(
    checker: &mut DenseChecker,
    piece: &mut [u8],
    name: &str,
    shelf: &mut S,
    out: &mut K,
) -> Status
    requires piece { 0 < length piece.old }
    requires ready { IsReady checker.old }
    requires fresh { IsChecking checker.old [] }
    requires none { checker.old.read ≡ 0 }
    ensures wrote { Wrote (K.written out.old) (K.written out.new) (K.faults out.old) (K.faults out.new) result
        (ChecksDenseFile name.now (S.told shelf.old name.now) (λ n. RoseBy n (S.given shelf.old) (S.given shelf.new)) (game_of checker.old.machine)) }
    ensures usage { result ≢ Status.Usage }
    ensures read_fault { result ≡ Status.ReadFault → Rose (S.faults shelf.old) (S.faults shelf.new) }
    ensures no_read_fault { result ≢ Status.ReadFault → S.faults shelf.new ≡ S.faults shelf.old }
{
    match feed_file(shelf, name, piece, checker) {
        Ok(()) => tell(out, checker.finish()),
        Err(Unread::TooLong) => too_long(out, name),
        Err(Unread::Fault) => Status::ReadFault,
        Err(Unread::Memory) => Status::Memory,
    }
}

// Tells what the bytes come to.
fn tell<K: Sink>(out: &mut K, checked: Checked) -> Status
    ensures wrote { Wrote (K.written out.old) (K.written out.new) (K.faults out.old) (K.faults out.new) result
        (λ s t. (g : Game) (bytes : List ℕ) → Comes g bytes checked → ChecksDenseBytes g bytes s t) }
    ensures rows { (result ≡ Status.Done) ⊎ (result ≡ Status.NotProved) ⊎ (result ≡ Status.BadCertificate) ⊎ (result ≡ Status.WriteFault) }
{
    match checked {
        Checked::Yes { outcome, optimum } => confirm_outcome(out, outcome, optimum),
        Checked::NotProved => finish(out, b"no\n", Status::NotProved),
        Checked::NotACertificate { at } => refuse_certificate(out, b"bad certificate at ", at),
    }
}
