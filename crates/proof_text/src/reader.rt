//! Reading the lines of a certificate byte by byte.
ghost use Rattle.proof_text.specs.Standing.{standing, Tells};
ghost use Rattle.proof_text.specs.Places.{IsText, BeginsText};
ghost use Rattle.proof_text.specs.Answers.{Told, nothing, tell, tell_all, is_nothing, StandsFor, Says, IsTold, BeginsLine, SaysLine};
ghost use Rattle.proof_text.specs.declared.answer.Read.TheVariants.{Whole as WholeLine};
ghost use Rattle.proof_tree.specs.Tree.{Tree};
ghost use Rattle.proof_tree.specs.Counts.{depth_of};
ghost use Rattle.proof_tree.specs.Lines.{tree_lines};
ghost use Rattle.proof_tree.specs.Text.{line_text, tree_fits};
ghost use Rattle.proof_tree.specs.declared.tree.Version.TheVariants.{Two};
ghost use Rattle.std.specs.Prelude.{◌≡◌, ◌≤◌, ◌↔◌, ◌++◌, ◌∷◌, [], take, flat_map, false, IsTrue, IsFalse, IfSome, MatchOption, List, ℕ};

use crate::answer::Read;
use crate::front::{Front, Word};
use crate::letters::Place;
use crate::levels::Levels;
use crate::ranges::DEEPEST;
use crate::walk::{At, Nested, is_over, read_byte};
use crate::whole_line::whole_line;
use proof_tree::{Line, Version};
use std::marker::Model;

/// What any bytes say of the texts of certificates, byte by byte.
pub fn each_standing_is_right()
    ensures { (bytes : List ℕ) → Tells (standing bytes) bytes }
{}

/// A reader of a certificate's text, byte by byte. It takes no memory, and keeps of the bytes what
/// the unfinished line says and how the tree is nested.
#[derive(Drop)]
pub struct LineReader {
    tree: Nested,
    at: At,
}

impl Model for LineReader {
    ghost use Rattle.std.specs.Prelude.{◌≤◌};
    ghost use Rattle.proof_text.specs.Readings.{Reading};

    ghost Value = { Reading };

    ghost use Rattle.proof_text.specs.Walks.{reading_of, FitsAt};

    ghost view = { λ a. reading_of a.tree a.at };

    ghost invariant = { λ a. (a.tree.nesting ≤ 1000) × FitsAt a.at };
}

impl LineReader {
    /// A reader before the first byte.
    pub fn new() -> LineReader
        ensures { StandsFor result [] nothing }
    {
        LineReader {
            tree: Nested {
                version: Version::One,
                levels: Levels::new(),
                nesting: 0,
            },
            at: At::Head(Front::Letters {
                word: Word::Name,
                read: 0,
            }),
        }
    }

    /// Reads the next byte. After `TooDeep` or `Bad` every byte is answered so.
    // Inlined into a loop that reads line by line, it would take the registers of that loop.
    #[inline(never)]
    pub fn byte(&mut self, byte: u8) -> Read
        ensures stands { (bytes : List ℕ) (told : Told) → StandsFor self.old bytes told → StandsFor self.new (bytes ++ byte ∷ []) (tell told result) }
        ensures says { (bytes : List ℕ) (told : Told) → StandsFor self.old bytes told → Says bytes told byte result }
    {
        let (at, read) = read_byte(&mut self.tree, self.at, byte);
        self.at = at;
        read
    }

    /// Reads a whole line of the tree at once, where the reader stands before one and the bytes begin
    /// with all of it: the line, and how many bytes it has. `byte` answers `Within` to each of these
    /// but the last, and to that one `Whole`. Where it is `None`, nothing has changed.
    // Its answer is of several words, which would go through memory at a call.
    #[inline(always)]
    pub fn line(&mut self, bytes: &[u8]) -> Option<(Line, usize)>
        ensures line { MatchOption result (self.new ≡ self.old) (λ r. BeginsLine bytes.now r.0 r.1) }
        ensures stands { IfSome result (λ r. (before : List ℕ) (told : Told) → StandsFor self.old before told → StandsFor self.new (before ++ take r.1 bytes.now) (tell told (WholeLine r.0))) }
        ensures says { IfSome result (λ r. (before : List ℕ) (told : Told) → StandsFor self.old before told → SaysLine before told (take r.1 bytes.now) r.0) }
    {
        let At::Letter(place) = &mut self.at else {
            return None;
        };
        let Some((line, next, rest)) = whole_line(&mut self.tree, *place, bytes) else {
            return None;
        };
        *place = next;
        Some((line, bytes.len() - rest.len()))
    }

    /// Passes over the lines of a node, where one is due in a certificate of the second version with so
    /// many levels of nesting left: the reader stands as it would after the bytes of these lines.
    /// Whether it did; where it did not, nothing has changed.
    pub fn pass_node(&mut self, depth: usize) -> bool
        ensures kept { IsFalse result → self.new ≡ self.old }
        ensures stands { IsTrue result → (before : List ℕ) (told : Told) (t : Tree) → StandsFor self.old before told → IsTrue (tree_fits Two t) → depth_of t ≤ depth → StandsFor self.new (before ++ flat_map line_text (tree_lines t)) (tell_all told (tree_lines t)) }
        ensures says { IsTrue result → (before : List ℕ) (told : Told) (t : Tree) → StandsFor self.old before told → IsTrue (tree_fits Two t) → depth_of t ≤ depth → BeginsText 1000 (before ++ flat_map line_text (tree_lines t)) × (is_nothing told ≡ false) }
    {
        let At::Letter(Place::Node) = self.at else {
            return false;
        };
        let Version::Two = self.tree.version else {
            return false;
        };
        if depth > usize::from(DEEPEST - self.tree.nesting) {
            return false;
        }
        self.at = At::Letter(Place::Closed);
        true
    }

    /// Whether the bytes so far are a whole text.
    pub fn is_ended(&self) -> bool
        ensures ended { (bytes : List ℕ) (told : Told) → StandsFor self.now bytes told → IsTrue result ↔ IsText 1000 bytes }
        ensures told { (bytes : List ℕ) (told : Told) → StandsFor self.now bytes told → IsTrue result → IsTold bytes told }
    {
        is_over(&self.tree, self.at)
    }
}
