// One byte of a certificate's text after the other.
ghost use Rattle.std.specs.Prelude.{◌≡◌, ◌≤◌, ◌<◌, ◌+◌, ◌∷◌, [], ◌↔◌, cond, false, IsTrue};
ghost use Rattle.proof_text.specs.Fronts.{FitsFront};
ghost use Rattle.proof_text.specs.PartLines.{FitsPart};
ghost use Rattle.proof_tree.specs.declared.tree.Version.{Version};
ghost use Rattle.proof_text.specs.Nesting.{open_branches, tree_owes};
ghost use Rattle.proof_text.specs.Symbols.{branches};
ghost use Rattle.proof_text.specs.Standing.{owing};
ghost use Rattle.proof_text.specs.Readings.{GoesOn};
ghost use Rattle.proof_text.specs.Walks.{reading_of, at_standing, at_head, at_text, FitsAt, OpensTree};
ghost use Rattle.proof_text.specs.declared.letters.Place.TheVariants.{Closed as ClosedPlace};
ghost use Rattle.proof_text.specs.declared.walk.Nested.{Nested};
ghost use Rattle.proof_text.specs.declared.walk.At.TheVariants.{Head as HeadAt, Letter as LetterAt, Line as LineAt};

use crate::answer::Read;
use crate::front::{Front, FrontNext, read_front};
use crate::letters::{
    Opened, Place, open_body, open_branch, open_case, open_cases, open_horizon, open_node,
};
use crate::levels::Levels;
use crate::part_line::{Kind, PartLine, PartNext, read_part};
use proof_tree::{Line, Version};

// The version of the text, and how the place in it is nested in the tree.
#[derive(Drop)]
pub(crate) struct Nested {
    pub(crate) version: Version,
    pub(crate) levels: Levels,
    pub(crate) nesting: u16,
}

// Which byte comes next.
#[derive(Clone, Copy)]
pub(crate) enum At {
    Head(Front),
    // the letter of a line of the tree
    Letter(Place),
    // a byte of a line, and what comes after the line
    Line { part: PartLine, place: Place },
    TooDeep,
    Bad,
}

// Reads the next byte: where it leads, and what it tells.
pub(crate) fn read_byte(tree: &mut Nested, at: At, byte: u8) -> (At, Read)
    requires nesting { tree.old.nesting ≤ 1000 }
    requires fits { FitsAt at }
    ensures goes { GoesOn (reading_of tree.old at) byte (reading_of tree.new result.0) result.1 }
    ensures nesting { tree.new.nesting ≤ 1000 }
    ensures fits { FitsAt result.0 }
{
    match at {
        At::Head(front) => head_byte(tree, front, byte),
        At::Letter(place) => letter_byte(tree, place, byte),
        At::Line { part, place } => line_byte(part, place, byte),
        At::TooDeep => (at, Read::TooDeep),
        At::Bad => (at, Read::Bad),
    }
}

fn head_byte(tree: &mut Nested, front: Front, byte: u8) -> (At, Read)
    requires nesting { tree.old.nesting ≤ 1000 }
    requires fits { FitsFront front }
    ensures goes { GoesOn (reading_of tree.old (HeadAt front)) byte (reading_of tree.new result.0) result.1 }
    ensures nesting { tree.new.nesting ≤ 1000 }
    ensures fits { FitsAt result.0 }
{
    match read_front(front, byte) {
        FrontNext::More(front) => (At::Head(front), Read::Within),
        FrontNext::Chosen(version) => {
            tree.version = version;
            (At::Head(Front::FirstEnd), Read::Within)
        }
        FrontNext::Whole { outcome, optimum } => {
            // the tree begins
            tree.nesting = 0;
            let read = Read::Head {
                version: tree.version,
                outcome,
                optimum,
            };
            (At::Letter(Place::Node), read)
        }
        FrontNext::Wrong => (At::Bad, Read::Bad),
    }
}

fn line_byte(part: PartLine, place: Place, byte: u8) -> (At, Read)
    requires fits { FitsPart part }
    ensures goes { (tree : Nested) → GoesOn (reading_of tree (LineAt part place)) byte (reading_of tree result.0) result.1 }
    ensures fits { FitsAt result.0 }
{
    match read_part(part, byte) {
        PartNext::More(part) => (At::Line { part, place }, Read::Within),
        PartNext::Whole(line) => (At::Letter(place), Read::Whole(line)),
        PartNext::Wrong => (At::Bad, Read::Bad),
    }
}

fn letter_byte(tree: &mut Nested, place: Place, byte: u8) -> (At, Read)
    requires nesting { tree.old.nesting ≤ 1000 }
    ensures goes { GoesOn (reading_of tree.old (LetterAt place)) byte (reading_of tree.new result.0) result.1 }
    ensures nesting { tree.new.nesting ≤ 1000 }
    ensures fits { FitsAt result.0 }
{
    match open_letter(tree, place, byte) {
        Opened::Line { part, place } => (At::Line { part, place }, Read::Within),
        Opened::Next => {
            go_in(tree, false);
            let at = At::Line {
                part: PartLine::Short {
                    letter: byte,
                    line: Line::Next,
                },
                place: Place::Node,
            };
            (at, Read::Within)
        }
        Opened::Branch => {
            go_in(tree, true);
            let at = At::Line {
                part: PartLine::Letter(Kind::Branch),
                place: Place::Closed,
            };
            (at, Read::Within)
        }
        Opened::TooDeep => (At::TooDeep, Read::TooDeep),
        Opened::Wrong => (At::Bad, Read::Bad),
    }
}

// Goes one level deeper, into a branch or a next node.
pub(crate) fn go_in(tree: &mut Nested, branch: bool)
    requires { tree.old.nesting < 1000 }
    ensures version { tree.new.version ≡ tree.old.version }
    ensures nesting { tree.new.nesting ≡ tree.old.nesting + 1 }
    ensures levels { (version : Version) → open_branches version tree.new.levels.marks (tree.old.nesting + 1) ≡ cond branch (branches version (tree.old.nesting + 1) ∷ open_branches version tree.old.levels.marks tree.old.nesting) (open_branches version tree.old.levels.marks tree.old.nesting) }
{
    tree.levels.enter(tree.nesting, branch);
    tree.nesting += 1;
}

// Opens a line by its letter. Of the tree the nesting alone may change.
#[inline(always)]
pub(crate) fn open_letter(tree: &mut Nested, place: Place, byte: u8) -> Opened
    requires nesting { tree.old.nesting ≤ 1000 }
    ensures opens { OpensTree tree.new (tree_owes tree.old.version tree.old.levels.marks tree.old.nesting place) byte result }
    ensures nesting { tree.new.nesting ≤ 1000 }
    ensures kept { (tree.new.version ≡ tree.old.version) × (tree.new.levels ≡ tree.old.levels) }
{
    match place {
        Place::Node => open_node(tree.version, tree.nesting, byte),
        Place::Horizon => open_horizon(tree.version, tree.nesting, byte),
        Place::Body => open_body(tree.version, tree.nesting, byte),
        Place::Cases => open_cases(tree.version, tree.nesting, byte),
        Place::Case => open_case(tree.version, tree.nesting, byte),
        Place::Closed => open_after(tree, byte),
    }
}

// The letter after a part that has ended: of the deepest open branch, its next case or its end.
#[inline(always)]
fn open_after(tree: &mut Nested, byte: u8) -> Opened
    requires nesting { tree.old.nesting ≤ 1000 }
    ensures opens { OpensTree tree.new (tree_owes tree.old.version tree.old.levels.marks tree.old.nesting ClosedPlace) byte result }
    ensures nesting { tree.new.nesting ≤ 1000 }
    ensures kept { (tree.new.version ≡ tree.old.version) × (tree.new.levels ≡ tree.old.levels) }
{
    let Some(level) = tree.levels.deepest(tree.nesting) else {
        return Opened::Wrong;
    };
    if byte == b'.' {
        tree.nesting = level - 1;
        return Opened::Line {
            part: PartLine::Short {
                letter: byte,
                line: Line::Dot,
            },
            place: Place::Closed,
        };
    }
    tree.nesting = level;
    open_branch(tree.version, level, byte)
}

// Whether nothing is owed.
pub(crate) fn is_over(tree: &Nested, at: At) -> bool
    requires nesting { tree.now.nesting ≤ 1000 }
    requires fits { FitsAt at }
    ensures owes { IsTrue result ↔ (at_standing tree.now at ≡ owing []) }
    ensures between { IsTrue result → (at_head at ≡ false) × (at_text tree.now.version at ≡ []) }
{
    match at {
        At::Head(_) => false,
        At::Letter(place) => is_closed(tree, place),
        At::Line { part: _, place: _ } => false,
        At::TooDeep => false,
        At::Bad => false,
    }
}

fn is_closed(tree: &Nested, place: Place) -> bool
    requires { tree.now.nesting ≤ 1000 }
    ensures { IsTrue result ↔ (tree_owes tree.now.version tree.now.levels.marks tree.now.nesting place ≡ []) }
{
    match place {
        Place::Node => false,
        Place::Horizon => false,
        Place::Body => false,
        Place::Cases => false,
        Place::Case => false,
        Place::Closed => tree.levels.deepest(tree.nesting).is_none(),
    }
}
