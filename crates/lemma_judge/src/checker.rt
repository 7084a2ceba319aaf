//! The checker, byte by byte.
ghost use Rattle.std.specs.Prelude.{◌≡◌, ◌≤◌, ◌+◌, ◌^◌, ◌++◌, ◌∷◌, [], None, Some, length, IfOk, OnOk, OnErr, IsErr, ℕ, List};
ghost use Rattle.qc_model.specs.Content.{Game};
ghost use Rattle.lemma_check.specs.Books.{goes};
ghost use Rattle.lemma_check.specs.Machine.{game_of, book_of, IsReady};
ghost use Rattle.lemma_judge.specs.Stated.{first_head};
ghost use Rattle.lemma_judge.specs.Checking.{Comes, IsChecking, IsSpent, IsStopped};

use crate::finding::Checked;
use crate::heads::head_after;
use crate::progress::{ListChecker, Stop};
use lemma_check::LemmaMachine;
use lemma_laws::lists_are_true;
use lemma_text::{End, Fed, Item, LemmaReader, each_standing_is_right};
use qc_model::{Kind, Problem};
use std::alloc::{AllocError, Global};

// What is answered where no more bytes were read.
fn stopped(stop: Stop, at: u64) -> Checked
    ensures { (g : Game) (bytes : List ℕ) → IsStopped stop at bytes → Comes g bytes result }
{
    match stop {
        Stop::Bad => Checked::NotACertificate { at },
        Stop::Spent => Checked::NotProved,
    }
}

// Passes bytes over after a fault. Where memory was refused before, the call fails.
fn pass_over(stop: Stop) -> Result<(), AllocError>
    ensures ok { OnOk result (stop ≡ Stop.Bad) }
    ensures err { OnErr result (stop ≡ Stop.Spent) }
{
    match stop {
        Stop::Bad => Ok(()),
        Stop::Spent => Err(AllocError),
    }
}

impl<'p> ListChecker<'p> {
    /// A checker before the first byte. It takes the memory of a store and its trail.
    pub fn new(alloc: Global, problem: &'p Problem) -> Result<ListChecker<'p>, AllocError>
        ensures ready { IfOk result (λ c. IsReady c.machine) }
        ensures same { IfOk result (λ c. game_of c.machine ≡ problem.now) }
        ensures checking { IfOk result (λ c. IsChecking c []) }
        ensures read { IfOk result (λ c. c.read ≡ 0) }
    {
        each_standing_is_right();
        let machine = LemmaMachine::new(alloc, problem)?;
        Ok(ListChecker {
            problem,
            reader: LemmaReader::new(),
            machine,
            loser: None,
            stop: None,
            read: 0,
        })
    }

    // Takes an item. Where memory is refused, no more bytes are read.
    fn take(&mut self, item: Item) -> Result<(), AllocError>
        requires ready { IsReady self.old.machine }
        requires going { self.old.stop ≡ None }
        ensures ready { IsReady self.new.machine }
        ensures same { game_of self.new.machine ≡ game_of self.old.machine }
        ensures reader { self.new.reader ≡ self.old.reader }
        ensures read { self.new.read ≡ self.old.read }
        ensures loser { self.new.loser ≡ first_head self.old.loser item }
        ensures book { OnOk result (book_of self.new.machine ≡ goes (game_of self.old.machine) (book_of self.old.machine) item) }
        ensures going { OnOk result (self.new.stop ≡ None) }
        ensures spent { OnErr result (IsSpent self.new) }
    {
        self.loser = head_after(self.loser, item);
        match self.machine.item(item) {
            Ok(()) => Ok(()),
            Err(error) => {
                self.stop = Some(Stop::Spent);
                Err(error)
            }
        }
    }

    // Reads the next byte, where none was a fault.
    fn next(&mut self, byte: u8) -> Result<(), AllocError>
        requires ready { IsReady self.old.machine }
        requires room { self.old.read + 1 ≤ 2 ^ 32 }
        requires going { self.old.stop ≡ None }
        ensures ready { IsReady self.new.machine }
        ensures same { game_of self.new.machine ≡ game_of self.old.machine }
        ensures read { self.new.read ≤ self.old.read + 1 }
        ensures checking { OnOk result ((bytes : List ℕ) → IsChecking self.old bytes → IsChecking self.new (bytes ++ byte ∷ [])) }
        ensures spent { OnErr result (IsSpent self.new) }
    {
        match self.reader.feed(byte) {
            Fed::More => {
                self.read += 1;
                Ok(())
            }
            Fed::Whole(item) => {
                self.read += 1;
                self.take(item)?;
                Ok(())
            }
            Fed::Bad => {
                self.stop = Some(Stop::Bad);
                Ok(())
            }
        }
    }

    // Reads the next byte, where memory sufficed so far, and passes it over after a fault.
    fn some(&mut self, byte: u8) -> Result<(), AllocError>
        requires ready { IsReady self.old.machine }
        requires room { self.old.read + 1 ≤ 2 ^ 32 }
        ensures ready { IsReady self.new.machine }
        ensures same { game_of self.new.machine ≡ game_of self.old.machine }
        ensures read { self.new.read ≤ self.old.read + 1 }
        ensures checking { OnOk result ((bytes : List ℕ) → IsChecking self.old bytes → IsChecking self.new (bytes ++ byte ∷ [])) }
        ensures spent { OnErr result (IsSpent self.new) }
    {
        match self.stop {
            None => self.next(byte),
            Some(stop) => {
                pass_over(stop)?;
                Ok(())
            }
        }
    }

    // Reads the next bytes. After a fault they are passed over.
    fn read_each(&mut self, bytes: &[u8]) -> Result<(), AllocError>
        requires ready { IsReady self.old.machine }
        requires room { self.old.read + length bytes.now ≤ 2 ^ 32 }
        ensures ready { IsReady self.new.machine }
        ensures same { game_of self.new.machine ≡ game_of self.old.machine }
        ensures read { self.new.read ≤ self.old.read + length bytes.now }
        ensures checking { OnOk result ((before : List ℕ) → IsChecking self.old before → IsChecking self.new (before ++ bytes.now)) }
        ensures spent { OnErr result (IsSpent self.new) }
    {
        let mut rest = bytes;
        while let Some((byte, after)) = rest.split_first() {
            self.some(*byte)?;
            rest = after;
        }
        Ok(())
    }

    /// Reads the next bytes, up to 2^32 in all. After a fault they are passed over.
    ///
    /// Memory is taken for literals, sums and lemmas alone. Where it is refused the list can't be judged any more: each
    /// later call fails as well, and what `finish` answers says nothing.
    pub fn feed(&mut self, bytes: &[u8]) -> Result<(), AllocError>
        requires ready { IsReady self.old.machine }
        requires room { self.old.read + length bytes.now ≤ 2 ^ 32 }
        ensures checking { OnOk result ((before : List ℕ) → IsChecking self.old before → IsChecking self.new (before ++ bytes.now)) }
        ensures spent { OnErr result (IsSpent self.new) }
        ensures fails { IsSpent self.old → IsErr result }
        ensures ready { IsReady self.new.machine }
        ensures same { game_of self.new.machine ≡ game_of self.old.machine }
        ensures read { self.new.read ≤ self.old.read + length bytes.now }
    {
        match self.stop {
            None => self.read_each(bytes),
            Some(stop) => {
                pass_over(stop)?;
                Ok(())
            }
        }
    }

    // What the bytes come to, where none was a fault.
    fn judged(&mut self) -> Checked
        requires ready { IsReady self.old.machine }
        requires going { self.old.stop ≡ None }
        ensures { (bytes : List ℕ) → IsChecking self.old bytes → Comes (game_of self.old.machine) bytes result }
    {
        self.problem.known();
        lists_are_true();
        match self.reader.finish() {
            End::CutShort => Checked::NotACertificate { at: self.read },
            End::Bad => Checked::NotACertificate { at: self.read },
            End::Whole => {
                let Some(loser) = self.loser else {
                    return Checked::NotACertificate { at: self.read };
                };
                if self.machine.finish(loser) {
                    Checked::Yes { loser }
                } else {
                    Checked::NotProved
                }
            }
        }
    }

    /// What all bytes that were read come to. It takes no memory.
    pub fn finish(&mut self) -> Checked
        requires ready { IsReady self.old.machine }
        ensures { (bytes : List ℕ) → IsChecking self.old bytes → Comes (game_of self.old.machine) bytes result }
    {
        match self.stop {
            Some(stop) => stopped(stop, self.read),
            None => self.judged(),
        }
    }
}
