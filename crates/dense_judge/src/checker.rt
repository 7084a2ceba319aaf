//! The checker. It reads a line, or a value of a tuple, at once where all its bytes are there, and else byte by byte.
ghost use Rattle.std.specs.Prelude.{◌≡◌, ◌≤◌, ◌+◌, ◌^◌, ◌++◌, ◌∷◌, [], None, Some, length, IfOk, OnOk, OnErr, IsErr, ℕ, List};
ghost use Rattle.qc_model.specs.Content.{Game};
ghost use Rattle.dense_check.specs.Telling.{game_of, IsReady as IsReadyMachine};
ghost use Rattle.dense_judge.specs.Stated.{first_head};
ghost use Rattle.dense_judge.specs.Gathered.{Gathered, gathered};
ghost use Rattle.dense_judge.specs.Checking.{Comes, HasTaken, IsChecking, IsReady, IsSpent, IsStopped, ReadsOn};

use crate::finding::Checked;
use crate::gather::Gather;
use crate::heads::head_after;
use crate::laws::pieces_gather_to_lines;
use crate::outcome::is_shown;
use crate::progress::{DenseChecker, Stop};
use dense_check::DenseMachine;
use dense_laws::certificates_are_true;
use dense_ledger::ledgers_are_right;
use dense_text::{DenseReader, End, Fed, Piece, each_standing_is_right};
use qc_model::Problem;
use std::alloc::{AllocError, Global};

// What is answered where no more bytes were read.
fn stopped(stop: Stop, at: u64) -> Checked
    ensures { (g : Game) (bytes : List ℕ) → IsStopped stop at bytes → Comes g bytes result }
{
    match stop {
        Stop::Bad => Checked::NotACertificate { at },
        Stop::Spent => Checked::NotProved,
    }
}

// Passes bytes over after a fault. Where memory was refused before, the call fails.
fn pass_over(stop: Stop) -> Result<(), AllocError>
    ensures ok { OnOk result (stop ≡ Stop.Bad) }
    ensures err { OnErr result (stop ≡ Stop.Spent) }
{
    match stop {
        Stop::Bad => Ok(()),
        Stop::Spent => Err(AllocError),
    }
}

impl<'p> DenseChecker<'p> {
    /// A checker before the first byte. It takes the memory of a store and its trail, and what closing and comparing need.
    pub fn new(alloc: Global, problem: &'p Problem) -> Result<DenseChecker<'p>, AllocError>
        ensures ready { IfOk result (λ c. IsReady c) }
        ensures same { IfOk result (λ c. game_of c.machine ≡ problem.now) }
        ensures checking { IfOk result (λ c. IsChecking c []) }
        ensures read { IfOk result (λ c. c.read ≡ 0) }
    {
        each_standing_is_right();
        let gather = Gather::new(alloc)?;
        // last, since it has most to let go where a later one fails
        let machine = DenseMachine::new(alloc, problem)?;
        Ok(DenseChecker {
            problem,
            reader: DenseReader::new(),
            gather,
            machine,
            head: None,
            stop: None,
            read: 0,
        })
    }

    // Hands a piece on to the line that it is of, and that to the machine where it is whole with it. Where memory is refused, no more
    // bytes are read.
    #[inline(always)]
    fn hand_on(&mut self, piece: Piece) -> Result<(), AllocError>
        requires ready { IsReadyMachine self.old.machine }
        requires going { self.old.stop ≡ None }
        ensures ready { OnOk result (IsReadyMachine self.new.machine) }
        ensures same { game_of self.new.machine ≡ game_of self.old.machine }
        ensures reader { self.new.reader ≡ self.old.reader }
        ensures read { self.new.read ≡ self.old.read }
        ensures head { self.new.head ≡ self.old.head }
        ensures taken { OnOk result ((a : Gathered) → HasTaken self.old.gather self.old.machine a → HasTaken self.new.gather self.new.machine (gathered a piece)) }
        ensures going { OnOk result (self.new.stop ≡ None) }
        ensures spent { OnErr result (IsSpent self.new) }
    {
        let Some(line) = self.gather.take(piece) else {
            return Ok(());
        };
        match self.machine.take(line, self.gather.values.as_slice()) {
            Ok(()) => Ok(()),
            Err(error) => {
                self.stop = Some(Stop::Spent);
                Err(error)
            }
        }
    }

    // Takes a piece. Where memory is refused, no more bytes are read.
    fn take(&mut self, piece: Piece) -> Result<(), AllocError>
        requires ready { IsReadyMachine self.old.machine }
        requires going { self.old.stop ≡ None }
        ensures ready { OnOk result (IsReadyMachine self.new.machine) }
        ensures same { game_of self.new.machine ≡ game_of self.old.machine }
        ensures reader { self.new.reader ≡ self.old.reader }
        ensures read { self.new.read ≡ self.old.read }
        ensures head { self.new.head ≡ first_head self.old.head piece }
        ensures taken { OnOk result ((a : Gathered) → HasTaken self.old.gather self.old.machine a → HasTaken self.new.gather self.new.machine (gathered a piece)) }
        ensures going { OnOk result (self.new.stop ≡ None) }
        ensures spent { OnErr result (IsSpent self.new) }
    {
        self.head = head_after(self.head, piece);
        self.hand_on(piece)
    }

    // Reads the next byte, where none was a fault.
    fn next(&mut self, byte: u8) -> Result<(), AllocError>
        requires ready { IsReadyMachine self.old.machine }
        requires room { self.old.read + 1 ≤ 2 ^ 32 }
        requires going { self.old.stop ≡ None }
        ensures ready { IsReady self.new }
        ensures same { game_of self.new.machine ≡ game_of self.old.machine }
        ensures read { self.new.read ≤ self.old.read + 1 }
        ensures checking { OnOk result ((bytes : List ℕ) → IsChecking self.old bytes → IsChecking self.new (bytes ++ byte ∷ [])) }
        ensures spent { OnErr result (IsSpent self.new) }
    {
        match self.reader.feed(byte) {
            Fed::More => {
                self.read += 1;
                Ok(())
            }
            Fed::Whole(piece) => {
                self.read += 1;
                self.take(piece)?;
                Ok(())
            }
            Fed::Bad => {
                self.stop = Some(Stop::Bad);
                Ok(())
            }
        }
    }

    // Reads the next line with values, the beginning of a tuple's, or the next value of one, or else the next byte, where none was a
    // fault: the bytes that are left.
    #[inline(never)]
    fn next_seldom<'a>(&mut self, bytes: &'a [u8]) -> Result<&'a [u8], AllocError>
        requires ready { IsReadyMachine self.old.machine }
        requires room { self.old.read + length bytes.now ≤ 2 ^ 32 }
        requires some { 1 ≤ length bytes.now }
        requires going { self.old.stop ≡ None }
        ensures ready { IsReady self.new }
        ensures same { game_of self.new.machine ≡ game_of self.old.machine }
        ensures read { self.new.read ≤ self.old.read + length bytes.now }
        ensures reads { IfOk result (λ rest. ReadsOn self.old self.new bytes.now rest.now) }
        ensures spent { OnErr result (IsSpent self.new) }
    {
        match self.reader.feed_values(bytes) {
            Some((piece, rest)) => {
                self.read += (bytes.len() - rest.len()) as u64;
                self.hand_on(piece)?;
                Ok(rest)
            }
            None => {
                let Some((byte, rest)) = bytes.split_first() else {
                    return Ok(bytes);
                };
                self.next(*byte)?;
                Ok(rest)
            }
        }
    }

    // Reads the next line, or else the next byte, where none was a fault: the bytes that are left.
    #[inline(always)]
    fn next_some<'a>(&mut self, bytes: &'a [u8]) -> Result<&'a [u8], AllocError>
        requires ready { IsReadyMachine self.old.machine }
        requires room { self.old.read + length bytes.now ≤ 2 ^ 32 }
        requires some { 1 ≤ length bytes.now }
        requires going { self.old.stop ≡ None }
        ensures ready { IsReady self.new }
        ensures same { game_of self.new.machine ≡ game_of self.old.machine }
        ensures read { self.new.read ≤ self.old.read + length bytes.now }
        ensures reads { IfOk result (λ rest. ReadsOn self.old self.new bytes.now rest.now) }
        ensures spent { OnErr result (IsSpent self.new) }
    {
        match self.reader.feed_line(bytes) {
            Some((piece, rest)) => {
                self.read += (bytes.len() - rest.len()) as u64;
                self.hand_on(piece)?;
                Ok(rest)
            }
            None => self.next_seldom(bytes),
        }
    }

    // Reads on where memory sufficed so far, and passes over all bytes after a fault: the bytes that are left.
    #[inline(always)]
    fn some<'a>(&mut self, bytes: &'a [u8]) -> Result<&'a [u8], AllocError>
        requires ready { IsReady self.old }
        requires room { self.old.read + length bytes.now ≤ 2 ^ 32 }
        requires some { 1 ≤ length bytes.now }
        ensures ready { IsReady self.new }
        ensures same { game_of self.new.machine ≡ game_of self.old.machine }
        ensures read { self.new.read ≤ self.old.read + length bytes.now }
        ensures reads { IfOk result (λ rest. ReadsOn self.old self.new bytes.now rest.now) }
        ensures spent { OnErr result (IsSpent self.new) }
    {
        match self.stop {
            None => self.next_some(bytes),
            Some(stop) => {
                pass_over(stop)?;
                Ok(&[])
            }
        }
    }

    // Reads the next bytes. After a fault they are passed over.
    fn read_each(&mut self, bytes: &[u8]) -> Result<(), AllocError>
        requires ready { IsReady self.old }
        requires room { self.old.read + length bytes.now ≤ 2 ^ 32 }
        ensures ready { IsReady self.new }
        ensures same { game_of self.new.machine ≡ game_of self.old.machine }
        ensures read { self.new.read ≤ self.old.read + length bytes.now }
        ensures checking { OnOk result ((before : List ℕ) → IsChecking self.old before → IsChecking self.new (before ++ bytes.now)) }
        ensures spent { OnErr result (IsSpent self.new) }
    {
        let mut rest = bytes;
        while !rest.is_empty() {
            rest = self.some(rest)?;
        }
        Ok(())
    }

    /// Reads the next bytes, up to 2^32 in all. After a fault they are passed over.
    ///
    /// Memory is taken for what is open and for each named node, and never for what was told before. Where it is refused, or where
    /// the numbers of a scope's leaves are larger together than 64 bits hold, the certificate can't be judged any more: each later
    /// call fails as well, and what `finish` answers says nothing.
    pub fn feed(&mut self, bytes: &[u8]) -> Result<(), AllocError>
        requires ready { IsReady self.old }
        requires room { self.old.read + length bytes.now ≤ 2 ^ 32 }
        ensures checking { OnOk result ((before : List ℕ) → IsChecking self.old before → IsChecking self.new (before ++ bytes.now)) }
        ensures spent { OnErr result (IsSpent self.new) }
        ensures fails { IsSpent self.old → IsErr result }
        ensures ready { IsReady self.new }
        ensures same { game_of self.new.machine ≡ game_of self.old.machine }
        ensures read { self.new.read ≤ self.old.read + length bytes.now }
    {
        match self.stop {
            None => self.read_each(bytes),
            Some(stop) => {
                pass_over(stop)?;
                Ok(())
            }
        }
    }

    // What the bytes come to, where none was a fault.
    fn judged(&self) -> Checked
        requires going { self.now.stop ≡ None }
        ensures { (bytes : List ℕ) → IsChecking self.now bytes → Comes (game_of self.now.machine) bytes result }
    {
        self.problem.known();
        certificates_are_true();
        ledgers_are_right();
        pieces_gather_to_lines();
        match self.reader.finish() {
            End::CutShort => Checked::NotACertificate { at: self.read },
            End::Bad => Checked::NotACertificate { at: self.read },
            End::Whole => {
                let Some(head) = self.head else {
                    return Checked::NotACertificate { at: self.read };
                };
                if is_shown(self.problem, self.machine.answer(), head) {
                    Checked::Yes {
                        outcome: head.outcome,
                        optimum: head.optimum,
                    }
                } else {
                    Checked::NotProved
                }
            }
        }
    }

    /// What all bytes that were read come to. It takes no memory.
    pub fn finish(&self) -> Checked
        ensures { (bytes : List ℕ) → IsChecking self.now bytes → Comes (game_of self.now.machine) bytes result }
    {
        match self.stop {
            Some(stop) => stopped(stop, self.read),
            None => self.judged(),
        }
    }
}
