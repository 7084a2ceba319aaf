//! Reading the text of a list of lemmas byte by byte.
ghost use Rattle.std.specs.Prelude.{◌≡◌, ◌∷◌, [], ◌++◌, List, ℕ};
ghost use Rattle.lemma_text.specs.declared.item.Item.{Item};
ghost use Rattle.lemma_text.specs.Reader.{StandsFor, Says, Ends, Goes, tell};
ghost use Rattle.lemma_text.specs.Kept.{state_of, kept_state, FitsKept};
ghost use Rattle.lemma_text.specs.Telling.{is_between as starts_line};

use crate::item::Item;
use crate::part::{Part, PartNext, next_part, part_after};
use crate::parts::Word;
use std::marker::Model;

/// What became of the text with a byte.
#[derive(Clone, Copy, PartialEq, Eq)]
pub enum Fed {
    /// The bytes begin a text, and no piece ends with this one.
    More,
    /// A piece ends with this byte.
    Whole(Item),
    /// Here or before, the bytes stopped being the beginning of a text.
    Bad,
}

/// What the bytes are that end here.
#[derive(Clone, Copy, PartialEq, Eq)]
pub enum End {
    /// The text of a list.
    Whole,
    /// The beginning of a text, cut off within a piece.
    CutShort,
    /// No beginning of a text.
    Bad,
}

/// A reader of a list's text, byte by byte. It takes no memory, and keeps what it has read of the piece that isn't
/// whole yet.
///
/// A text has no mark at its end, and the text of one list may begin that of another. So whoever has the bytes tells
/// where they end, by `finish`.
#[derive(Drop)]
pub struct LemmaReader {
    // nothing after a fault
    part: Option<Part>,
}

impl Model for LemmaReader {
    ghost use Rattle.std.specs.Prelude.{Option};
    ghost use Rattle.lemma_text.specs.States.{State};

    ghost Value = { Option State };

    ghost use Rattle.lemma_text.specs.Kept.{kept_state, FitsKept};

    ghost view = { λ a. kept_state a.part };

    ghost invariant = { λ a. FitsKept a.part };
}

impl LemmaReader {
    /// A reader before the first byte.
    pub fn new() -> LemmaReader
        ensures { StandsFor result [] [] }
    {
        LemmaReader {
            part: Some(Part::Word {
                word: Word::Name,
                read: 0,
            }),
        }
    }

    /// Reads the next byte. After `Bad` every byte is answered so.
    pub fn feed(&mut self, byte: u8) -> Fed
        ensures stands { (bytes : List ℕ) (told : List Item) → StandsFor self.old bytes told → StandsFor self.new (bytes ++ byte ∷ []) (tell told result) }
        ensures says { (bytes : List ℕ) (told : List Item) → StandsFor self.old bytes told → Says bytes told byte result }
    {
        let (part, fed) = next_byte(self.part, byte);
        self.part = part;
        fed
    }

    /// What the bytes so far are, where no more come.
    pub fn finish(&self) -> End
        ensures { (bytes : List ℕ) (told : List Item) → StandsFor self.now bytes told → Ends bytes told result }
    {
        let Some(part) = self.part else {
            return End::Bad;
        };
        if is_between(part) {
            End::Whole
        } else {
            End::CutShort
        }
    }
}

// The next byte: what is kept after it, and what it tells.
fn next_byte(part: Option<Part>, byte: u8) -> (Option<Part>, Fed)
    requires { FitsKept part }
    ensures goes { Goes (kept_state part) byte (kept_state result.0) result.1 }
    ensures fits { FitsKept result.0 }
{
    let Some(part) = part else {
        return (None, Fed::Bad);
    };
    match next_part(part, byte) {
        PartNext::More(part) => (Some(part), Fed::More),
        PartNext::Whole(item) => (Some(part_after(item)), Fed::Whole(item)),
        PartNext::Wrong => (None, Fed::Bad),
    }
}

// Whether a line begins.
fn is_between(part: Part) -> bool
    ensures { result ≡ starts_line (state_of part) }
{
    match part {
        Part::Word { word: _, read: _ } => false,
        Part::Outcome => false,
        Part::Line(_) => true,
        Part::Begun(_) => false,
        Part::Lettered(_) => false,
        Part::Reached => false,
        Part::Number {
            slot: _,
            numeral: _,
        } => false,
    }
}
