//! The checker, byte by byte.
ghost use Rattle.std.specs.Prelude.{◌≡◌, ◌≤◌, ◌<◌, ◌+◌, ◌^◌, ◌++◌, ◌∷◌, [], None, Some, length, take, IfOk, IfNone, IfSome, ℕ, List};
ghost use Rattle.check_lines.specs.Machine.{game_of, IsReady};
ghost use Rattle.qc_model.specs.Content.{Game};
ghost use Rattle.qc_check.specs.Checking.{Comes, Feeds, IsChecking, IsStopped, answered, answered_by};
ghost use Rattle.qc_check.specs.Keeping.{WasGiven};
ghost use Rattle.qc_check.specs.declared.finding.Fed.TheVariants as fed_as;

use crate::finding::{Checked, Fed};
use crate::progress::Checker;
use crate::shown::is_shown;
use crate::starts::Starts;
use crate::stated::{Stated, Stop};
use check_lines::{Machine, answers_are_right};
use check_memory::NodeMemory;
use proof_meaning::outcomes_are_true;
use proof_text::{LineReader, Read, bytes_are_one_text_or_have_one_fault, each_standing_is_right};
use qc_model::Problem;
use std::alloc::{AllocError, Global};

// What bytes with a fault at a place come to.
fn stopped(stop: Stop, at: u64) -> Checked
    ensures { (g : Game) (bytes : List ℕ) → IsStopped stop at bytes → Comes g bytes result }
{
    match stop {
        Stop::Bad => Checked::NotACertificate { at },
        Stop::Deep => Checked::TooDeep { at },
    }
}

// What bytes with a fault at a place are answered with, piece by piece.
fn faulty(stop: Stop, at: u64) -> Fed
    ensures answer { result ≡ answered_by (Some stop) at }
    ensures feeds { (bytes : List ℕ) → IsStopped stop at bytes → Feeds bytes result }
{
    match stop {
        Stop::Bad => Fed::NotACertificate { at },
        Stop::Deep => Fed::TooDeep { at },
    }
}

impl<'p> Checker<'p> {
    /// A checker before the first byte. All memory is taken here.
    pub fn new(alloc: Global, problem: &'p Problem) -> Result<Checker<'p>, AllocError>
        ensures given { IfOk result (λ c. WasGiven c) }
        ensures same { IfOk result (λ c. game_of c.machine ≡ problem.now) }
        ensures checking { IfOk result (λ c. IsChecking c []) }
        ensures read { IfOk result (λ c. c.read ≡ 0) }
        ensures answer { IfOk result (λ c. answered c ≡ fed_as.More) }
    {
        each_standing_is_right();
        let starts = Starts::new(alloc, problem.scopes(), problem.variables())?;
        let machine = Machine::new(alloc, problem)?;
        let memory = NodeMemory::new(alloc, machine.levels())?;
        Ok(Checker {
            problem,
            reader: LineReader::new(),
            machine,
            memory,
            starts,
            head: None,
            stop: None,
            read: 0,
        })
    }

    // Reads the next byte, where none was a fault.
    pub(crate) fn next(&mut self, byte: u8)
        requires ready { IsReady self.old.machine }
        requires room { self.old.read + 1 ≤ 2 ^ 32 }
        requires going { self.old.stop ≡ None }
        ensures ready { IsReady self.new.machine }
        ensures same { game_of self.new.machine ≡ game_of self.old.machine }
        ensures read { self.new.read ≤ self.old.read + 1 }
        ensures starts { self.new.starts ≡ self.old.starts }
        ensures checking { (bytes : List ℕ) → IsChecking self.old bytes → IsChecking self.new (bytes ++ byte ∷ []) }
    {
        match self.reader.byte(byte) {
            Read::Within => self.read += 1,
            Read::Head {
                version: _,
                outcome,
                optimum,
            } => {
                self.head = Some(Stated { outcome, optimum });
                self.read += 1;
            }
            Read::Whole(line) => {
                self.read += 1;
                self.machine.line(line);
            }
            Read::TooDeep => self.stop = Some(Stop::Deep),
            Read::Bad => self.stop = Some(Stop::Bad),
        }
    }

    // Reads some of the next bytes, where none was a fault: a whole line where they begin with one, else
    // one byte. How many were read; None where the byte is a fault, and all bytes after it are passed over.
    fn some(&mut self, bytes: &[u8]) -> Option<usize>
        requires ready { IsReady self.old.machine }
        requires more { 0 < length bytes.now }
        requires room { self.old.read + length bytes.now ≤ 2 ^ 32 }
        requires going { self.old.stop ≡ None }
        ensures ready { IsReady self.new.machine }
        ensures same { game_of self.new.machine ≡ game_of self.old.machine }
        ensures read { IfSome result (λ size. self.new.read ≤ self.old.read + size) }
        ensures last { IfNone result (self.new.read ≤ self.old.read + length bytes.now) }
        ensures size { IfSome result (λ size. (0 < size) × (size ≤ length bytes.now)) }
        ensures goes_on { IfSome result (λ size. self.new.stop ≡ None) }
        ensures checking { IfSome result (λ size. (before : List ℕ) → IsChecking self.old before → IsChecking self.new (before ++ take size bytes.now)) }
        ensures stopped { IfNone result ((before : List ℕ) → IsChecking self.old before → IsChecking self.new (before ++ bytes.now)) }
    {
        match self.reader.line(bytes) {
            Some((whole, size)) => {
                self.read += size as u64;
                self.machine.line(whole);
                Some(size)
            }
            None => {
                self.next(bytes[0]);
                match self.stop {
                    None => Some(1),
                    Some(_) => None,
                }
            }
        }
    }

    // Reads the next bytes, where none was a fault: line by line where they are whole lines, and else one by one. After a
    // fault all are passed over. Not inlined, so that the loop has the registers to itself.
    #[inline(never)]
    fn read_each(&mut self, bytes: &[u8])
        requires ready { IsReady self.old.machine }
        requires room { self.old.read + length bytes.now ≤ 2 ^ 32 }
        requires going { self.old.stop ≡ None }
        ensures ready { IsReady self.new.machine }
        ensures same { game_of self.new.machine ≡ game_of self.old.machine }
        ensures read { self.new.read ≤ self.old.read + length bytes.now }
        ensures checking { (before : List ℕ) → IsChecking self.old before → IsChecking self.new (before ++ bytes.now) }
    {
        let mut rest = bytes;
        while !rest.is_empty() {
            match self.some(rest) {
                Some(size) => rest = &rest[size..],
                None => return,
            }
        }
    }

    // What the bytes so far are.
    fn fed(&self) -> Fed
        ensures answer { result ≡ answered self.now }
        ensures feeds { (bytes : List ℕ) → IsChecking self.now bytes → Feeds bytes result }
    {
        match self.stop {
            None => Fed::More,
            Some(stop) => faulty(stop, self.read),
        }
    }

    // Reads the next bytes. After a fault they are passed over.
    fn read_piece(&mut self, bytes: &[u8])
        requires given { WasGiven self.old }
        requires room { self.old.read + length bytes.now ≤ 2 ^ 32 }
        ensures given { WasGiven self.new }
        ensures same { game_of self.new.machine ≡ game_of self.old.machine }
        ensures read { self.new.read ≤ self.old.read + length bytes.now }
        ensures stays { (answered self.old ≡ fed_as.More → ⊥) → answered self.new ≡ answered self.old }
        ensures checking { (before : List ℕ) → IsChecking self.old before → IsChecking self.new (before ++ bytes.now) }
    {
        match self.stop {
            Some(_) => {}
            None => {
                if self.memory.serves() {
                    self.read_keeping(bytes);
                } else {
                    self.read_each(bytes);
                }
            }
        }
    }

    /// Reads the next bytes, up to 2^32 in all, and says what all bytes so far are. After a fault they are passed over, and
    /// the answer stays the same.
    pub fn feed(&mut self, bytes: &[u8]) -> Fed
        requires given { WasGiven self.old }
        requires room { self.old.read + length bytes.now ≤ 2 ^ 32 }
        ensures feeds { (before : List ℕ) → IsChecking self.old before → Feeds (before ++ bytes.now) result }
        ensures answer { result ≡ answered self.new }
        ensures stays { (answered self.old ≡ fed_as.More → ⊥) → result ≡ answered self.old }
        ensures given { WasGiven self.new }
        ensures same { game_of self.new.machine ≡ game_of self.old.machine }
        ensures read { self.new.read ≤ self.old.read + length bytes.now }
        ensures checking { (before : List ℕ) → IsChecking self.old before → IsChecking self.new (before ++ bytes.now) }
    {
        self.read_piece(bytes);
        self.fed()
    }

    // What the bytes come to, where none was a fault.
    fn judged(&mut self) -> Checked
        requires ready { IsReady self.old.machine }
        requires going { self.old.stop ≡ None }
        ensures { (bytes : List ℕ) → IsChecking self.old bytes → Comes (game_of self.old.machine) bytes result }
    {
        self.problem.known();
        bytes_are_one_text_or_have_one_fault();
        answers_are_right();
        outcomes_are_true();
        if !self.reader.is_ended() {
            return Checked::NotACertificate { at: self.read };
        }
        let Some(stated) = self.head else {
            return Checked::NotACertificate { at: self.read };
        };
        if is_shown(self.problem, self.machine.finish(), stated) {
            Checked::Yes {
                outcome: stated.outcome,
                optimum: stated.optimum,
            }
        } else {
            Checked::NotProved
        }
    }

    /// What all bytes that were read come to.
    pub fn finish(&mut self) -> Checked
        requires given { WasGiven self.old }
        ensures { (bytes : List ℕ) → IsChecking self.old bytes → Comes (game_of self.old.machine) bytes result }
    {
        match self.stop {
            Some(stop) => stopped(stop, self.read),
            None => self.judged(),
        }
    }
}
