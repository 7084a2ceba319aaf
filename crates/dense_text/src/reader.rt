//! Reading the text of a dense certificate byte by byte, or a line or a value at once.
ghost use Rattle.std.specs.Prelude.{◌≡◌, ◌∷◌, [], ◌++◌, ◌+◌, ◌<◌, ◌^◌, length, List, ℕ, IfNone, IfSome};
ghost use Rattle.dense_text.specs.declared.piece.Piece.{Piece};
ghost use Rattle.dense_text.specs.Grammar.{open_after as open_then};
ghost use Rattle.dense_text.specs.Reader.{StandsFor, Says, Ends, Goes, HasRoom, tell};
ghost use Rattle.dense_text.specs.Kept.{state_of, kept, FitsKept};
ghost use Rattle.dense_text.specs.Telling.{is_ended as has_ended, is_last as ends_text};
ghost use Rattle.dense_text.specs.Grammar.{Place, at, at_value};
ghost use Rattle.dense_text.specs.WholeLines.{GoesOver, IsAt, held_after};

use crate::part::{Part, PartNext, next_part, part_after, value_begins};
use crate::parts::{Due, Word};
use crate::piece::{Piece, Tuple};
use crate::whole_line::{line_with_values, whole_line, whole_value};
use std::marker::Model;

/// What became of the text with a byte.
#[derive(Clone, Copy, PartialEq, Eq)]
pub enum Fed {
    /// The bytes begin a text, and no piece ends with this one.
    More,
    /// A piece ends with this byte.
    Whole(Piece),
    /// Here or before, the bytes stopped being the beginning of a text.
    Bad,
}

/// What the bytes are that end here.
#[derive(Clone, Copy, PartialEq, Eq)]
pub enum End {
    /// The text of a certificate.
    Whole,
    /// The beginning of a text, cut off before its end.
    CutShort,
    /// No beginning of a text.
    Bad,
}

/// A reader of a certificate's text, byte by byte. It takes no memory: it keeps what it has read of the piece that isn't whole
/// yet, and counts the branches whose cases haven't ended. What it says is so of fewer than 2^64 bytes.
#[derive(Drop)]
pub struct DenseReader {
    // nothing after a fault
    part: Option<Part>,
    branches: u64,
}

impl Model for DenseReader {
    ghost use Rattle.std.specs.Prelude.{Option};
    ghost use Rattle.dense_text.specs.Kept.{Held, kept, FitsKept};

    ghost Value = { Option Held };

    ghost view = { λ a. kept a.part a.branches };

    ghost invariant = { λ a. FitsKept a.part };
}

impl DenseReader {
    /// A reader before the first byte.
    pub fn new() -> DenseReader
        ensures { StandsFor result [] [] }
    {
        DenseReader {
            part: Some(Part::Word {
                word: Word::Name,
                read: 0,
            }),
            branches: 0,
        }
    }

    /// Reads the next byte. After `Bad` every byte is answered so.
    pub fn feed(&mut self, byte: u8) -> Fed
        ensures stands { (bytes : List ℕ) (told : List Piece) → length bytes + 1 < 2 ^ 64 → StandsFor self.old bytes told → StandsFor self.new (bytes ++ byte ∷ []) (tell told result) }
        ensures says { (bytes : List ℕ) (told : List Piece) → length bytes + 1 < 2 ^ 64 → StandsFor self.old bytes told → Says bytes told byte result }
    {
        let (part, branches, fed) = next_byte(self.part, self.branches, byte);
        self.part = part;
        self.branches = branches;
        fed
    }

    // Which lines may come here, where one begins.
    #[inline(always)]
    fn due(&self) -> Option<Due>
        ensures { IfSome result (λ d. IsAt self.now (at d)) }
    {
        let Some(part) = self.part else {
            return None;
        };
        match part {
            Part::Line(due) => Some(due),
            Part::Word { .. }
            | Part::Outcome
            | Part::Won
            | Part::Lettered(_)
            | Part::Number { .. } => None,
        }
    }

    // Of which tuple a value comes, where one begins.
    fn value_due(&self) -> Option<Tuple>
        ensures { IfSome result (λ u. IsAt self.now (at_value u)) }
    {
        let Some(part) = self.part else {
            return None;
        };
        value_begins(part)
    }

    // Goes over a whole piece.
    #[inline(always)]
    fn go_over(&mut self, piece: Piece)
        ensures { (p : Place) → IsAt self.old p → HasRoom self.old → self.new ≡ held_after self.old piece }
    {
        self.branches = open_after(self.branches, piece);
        self.part = Some(part_after(self.branches, piece));
    }

    /// Reads a line at once, where the bytes begin with all of one that may come and that is a letter, or a letter and a number that
    /// counts something: its piece, and the bytes after it. Else nothing changes.
    #[inline(always)]
    pub fn feed_line<'a>(&mut self, bytes: &'a [u8]) -> Option<(Piece, &'a [u8])>
        ensures none { IfNone result (self.new ≡ self.old) }
        ensures line { IfSome result (λ r. GoesOver self.old self.new bytes.now r.0 r.1.now) }
    {
        let Some(due) = self.due() else {
            return None;
        };
        let Some((piece, rest)) = whole_line(due, bytes) else {
            return None;
        };
        self.go_over(piece);
        Some((piece, rest))
    }

    /// The same for a line with values. Of a tuple's line the beginning is read at once, and then each value.
    pub fn feed_values<'a>(&mut self, bytes: &'a [u8]) -> Option<(Piece, &'a [u8])>
        ensures none { IfNone result (self.new ≡ self.old) }
        ensures line { IfSome result (λ r. GoesOver self.old self.new bytes.now r.0 r.1.now) }
    {
        let Some(due) = self.due() else {
            return self.feed_value(bytes);
        };
        let Some((piece, rest)) = line_with_values(due, bytes) else {
            return None;
        };
        self.go_over(piece);
        Some((piece, rest))
    }

    // The same for a value of a tuple.
    fn feed_value<'a>(&mut self, bytes: &'a [u8]) -> Option<(Piece, &'a [u8])>
        ensures none { IfNone result (self.new ≡ self.old) }
        ensures line { IfSome result (λ r. GoesOver self.old self.new bytes.now r.0 r.1.now) }
    {
        let Some(of) = self.value_due() else {
            return None;
        };
        let Some((piece, rest)) = whole_value(of, bytes) else {
            return None;
        };
        self.go_over(piece);
        Some((piece, rest))
    }

    /// What the bytes so far are, where no more come.
    pub fn finish(&self) -> End
        ensures { (bytes : List ℕ) (told : List Piece) → StandsFor self.now bytes told → Ends bytes told result }
    {
        let Some(part) = self.part else {
            return End::Bad;
        };
        if is_ended(part) {
            End::Whole
        } else {
            End::CutShort
        }
    }
}

// The next byte: what is kept after it, and what it tells.
fn next_byte(part: Option<Part>, branches: u64, byte: u8) -> (Option<Part>, u64, Fed)
    requires { FitsKept part }
    ensures goes { Goes (kept part branches) byte (kept result.0 result.1) result.2 }
    ensures fits { FitsKept result.0 }
{
    let Some(part) = part else {
        return (None, branches, Fed::Bad);
    };
    match next_part(part, byte) {
        PartNext::More(part) => (Some(part), branches, Fed::More),
        PartNext::Whole(piece) => {
            let branches = open_after(branches, piece);
            (
                Some(part_after(branches, piece)),
                branches,
                Fed::Whole(piece),
            )
        }
        PartNext::Wrong => (None, branches, Fed::Bad),
    }
}

// How many branches are open after a piece. More than can be counted are never open within 2^64 bytes.
fn open_after(branches: u64, piece: Piece) -> u64
    ensures { branches + 1 < 2 ^ 64 → result ≡ open_then branches piece }
{
    match piece {
        Piece::Branch(_) => branches.saturating_add(1),
        Piece::Dot => branches.saturating_sub(1),
        Piece::Head { .. }
        | Piece::Given { .. }
        | Piece::Reply { .. }
        | Piece::Chosen { .. }
        | Piece::Value { .. }
        | Piece::Named
        | Piece::Horizon(_)
        | Piece::Stuck
        | Piece::Goal
        | Piece::Again(_)
        | Piece::NoPlay(_)
        | Piece::Close
        | Piece::Bound { .. }
        | Piece::Empty
        | Piece::Barred
        | Piece::BestLeft
        | Piece::Next
        | Piece::Range(_)
        | Piece::Skip
        | Piece::LeftOpen => branches,
    }
}

// Whether nothing more may come.
fn is_ended(part: Part) -> bool
    ensures { result ≡ has_ended (state_of part) }
{
    match part {
        Part::Line(due) => is_last(due),
        Part::Word { .. } | Part::Outcome | Part::Won | Part::Lettered(_) | Part::Number { .. } =>
            false,
    }
}

fn is_last(due: Due) -> bool
    ensures { result ≡ ends_text due }
{
    match due {
        Due::Ended => true,
        Due::Givens
        | Due::Node
        | Due::AfterName
        | Due::AfterHorizon
        | Due::AfterStep
        | Due::Case
        | Due::AfterRange => false,
    }
}
