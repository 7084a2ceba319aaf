//! The file of a certificate, handed to a checker piece by piece.
ghost use Rattle.std.specs.Prelude.{◌≡◌, ◌≢◌, ◌++◌, List, ℕ, ◌+◌, ◌<◌, ◌≤◌, ◌-◌, ◌^◌, [], length, min, IfOk, IfErr, IfSome, OnOk, IsErrOf};
ghost use Rattle.qc_io.specs.Counts.{Rose, RoseBy};
ghost use Rattle.qc_io.specs.Shelf.{EndsBy};
ghost use Rattle.qc_model.specs.Content.{Game};
ghost use Rattle.lemma_check.specs.Machine.{game_of as game_of_list, IsReady as IsReadyMachine};
ghost use Rattle.lemma_judge.specs.Checking.{IsChecking as IsCheckingList};
ghost use Rattle.dense_check.specs.Telling.{game_of as game_of_machine};
ghost use Rattle.dense_judge.specs.Checking.{IsChecking as IsCheckingDense, IsReady as IsReadyDense};
ghost use Rattle.dense_commands.specs.Fed.{FedTo, IsFed};

use dense_judge::DenseChecker;
use lemma_judge::ListChecker;
use qc_io::{Failed, Shelf};
use std::alloc::AllocError;

/// The most bytes of a certificate.
pub(crate) const CERTIFICATE_LIMIT: u64 = 1_073_741_824;

/// A checker of certificates that is given bytes piece by piece.
pub(crate) trait ByteChecker {
    /// The game against which it checks.
    ghost game: { Self → Game };

    /// How many bytes it has read, at most.
    ghost read: { Self → ℕ };

    /// More bytes may be given.
    ghost is_ready: { Self → Type 0 };

    /// It was given these bytes.
    ghost is_checking: { Self → List ℕ → Type 0 };

    /// Reads the next bytes, up to 2^32 in all. It fails where memory runs out.
    fn give(&mut self, bytes: &[u8]) -> Result<(), AllocError>
        requires ready { is_ready self.old }
        requires room { read self.old + length bytes.now ≤ 2 ^ 32 }
        ensures checking { OnOk result ((before : List ℕ) → is_checking self.old before → is_checking self.new (before ++ bytes.now)) }
        ensures ready { is_ready self.new }
        ensures same { game self.new ≡ game self.old }
        ensures read { read self.new ≤ read self.old + length bytes.now };
}

impl ByteChecker for ListChecker<'_> {
    ghost game = { λ c. game_of_list c.machine };

    ghost read = { λ c. c.read };

    ghost is_ready = { λ c. IsReadyMachine c.machine };

    ghost is_checking = { λ c bytes. IsCheckingList c bytes };

    fn give(&mut self, bytes: &[u8]) -> Result<(), AllocError> {
        self.feed(bytes)
    }
}

impl ByteChecker for DenseChecker<'_> {
    ghost game = { λ c. game_of_machine c.machine };

    ghost read = { λ c. c.read };

    ghost is_ready = { λ c. IsReadyDense c };

    ghost is_checking = { λ c bytes. IsCheckingDense c bytes };

    fn give(&mut self, bytes: &[u8]) -> Result<(), AllocError> {
        self.feed(bytes)
    }
}

/// Why a certificate's file wasn't read to its end.
#[derive(Clone, Copy, PartialEq, Eq)]
pub(crate) enum Unread {
    /// The shelf failed.
    Fault,
    /// The file is longer than the limit.
    TooLong,
    /// There was no memory for what has to be kept.
    Memory,
}

/// Hands the bytes of the name to a checker that was given none yet. The shelf is asked for as many bytes at once as the
/// piece has, and for one past the limit at most.
pub(crate) fn feed_file<S: Shelf, C: ByteChecker>(
    shelf: &mut S,
    name: &str,
    piece: &mut [u8],
    checker: &mut C,
) -> Result<(), Unread>
    requires piece { 0 < length piece.old }
    requires ready { C.is_ready checker.old }
    requires fresh { C.is_checking checker.old [] }
    requires none { C.read checker.old ≡ 0 }
    ensures fed { OnOk result (IsFed (S.told shelf.old name.now) (C.is_checking checker.new)) }
    ensures ready { C.is_ready checker.new }
    ensures same { C.game checker.new ≡ C.game checker.old }
    ensures fault { IsErrOf result Unread.Fault → Rose (S.faults shelf.old) (S.faults shelf.new) }
    ensures no_other { (IsErrOf result Unread.Fault → ⊥) → S.faults shelf.new ≡ S.faults shelf.old }
    ensures too_long { IsErrOf result Unread.TooLong → RoseBy 1073741825 (S.given shelf.old) (S.given shelf.new) }
    ensures too_long_told { IsErrOf result Unread.TooLong → IfSome (S.told shelf.old name.now) (λ bytes. 1073741824 < length bytes) }
{
    let end = CERTIFICATE_LIMIT + 1;
    let mut at: u64 = 0;
    while at < end {
        let count = feed_piece(shelf, name, at, piece, checker)?;
        if count == 0 {
            return Ok(());
        }
        at += count;
    }
    Err(Unread::TooLong)
}

// Hands the bytes from a place on to a checker that was given those before it, and says how many came.
fn feed_piece<S: Shelf, C: ByteChecker>(
    shelf: &mut S,
    name: &str,
    at: u64,
    piece: &mut [u8],
    checker: &mut C,
) -> Result<u64, Unread>
    requires at { at ≤ 1073741824 }
    requires piece { 0 < length piece.old }
    requires ready { C.is_ready checker.old }
    requires read { C.read checker.old ≤ at }
    ensures count { IfOk result (λ n. at + n ≤ 1073741825) }
    ensures fed { IfOk result (λ n. FedTo (S.told shelf.old name.now) at (C.is_checking checker.old) → FedTo (S.told shelf.old name.now) (at + n) (C.is_checking checker.new)) }
    ensures end { IfOk result (λ n. n ≡ 0 → EndsBy (S.told shelf.old name.now) at) }
    ensures length { length piece.new ≡ length piece.old }
    ensures ready { C.is_ready checker.new }
    ensures same { C.game checker.new ≡ C.game checker.old }
    ensures read { IfOk result (λ n. C.read checker.new ≤ at + n) }
    ensures fault { IsErrOf result Unread.Fault → Rose (S.faults shelf.old) (S.faults shelf.new) }
    ensures no_other { (IsErrOf result Unread.Fault → ⊥) → S.faults shelf.new ≡ S.faults shelf.old }
    ensures given { IfOk result (λ n. S.given shelf.new ≡ min (S.given shelf.old + n) (2 ^ 64 - 1)) }
    ensures stays { S.told shelf.new ≡ S.told shelf.old }
    ensures err { IfErr result (λ e. e ≢ Unread.TooLong) }
{
    let left = (CERTIFICATE_LIMIT + 1 - at) as usize;
    let room = piece.len().min(left);
    let into = &mut piece[..room];
    match shelf.read_at(name, at, into) {
        // Bytes with a fault are read to the end all the same: a file that fails later on, or is too long, is turned
        // down for that.
        Ok(count) => match checker.give(&into[..count]) {
            Ok(()) => Ok(count as u64),
            Err(AllocError) => Err(Unread::Memory),
        },
        Err(Failed) => Err(Unread::Fault),
    }
}
