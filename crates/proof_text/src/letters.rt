// The letters that begin lines of a tree.
ghost use Rattle.std.specs.Prelude.{◌≤◌, ◌≡◌, ◌∷◌, []};
ghost use Rattle.proof_text.specs.declared.letters.Opened.TheVariants.{Line as LineOpened};
ghost use Rattle.proof_text.specs.declared.part_line.PartLine.TheVariants.{Short, Letter};
ghost use Rattle.proof_text.specs.Symbols.{chosen, ending_choices, case_choices, body_choices, node_choices, one_choices, node as a_node, body as a_body, cases as some_cases, case as a_case, branches as some_branches, prunes};
ghost use Rattle.proof_text.specs.Letters.{Opens, Opening};

use crate::part_line::{Kind, PartLine};
use crate::ranges::DEEPEST;
use proof_tree::{Line, Version};

// Where a tree stands at the beginning of a line.
#[derive(Clone, Copy)]
pub(crate) enum Place {
    Node,
    // the removals of a horizon
    Horizon,
    Body,
    Cases,
    // a case of a branch, after the line of its range
    Case,
    // a part has ended: the next case of a branch comes, or the branch's end
    Closed,
}

// How a tree goes on with a letter.
pub(crate) enum Opened {
    // by a line, and what comes after it, at the same nesting
    Line { part: PartLine, place: Place },
    // by a next node, one deeper
    Next,
    // by a branch, whose cases are one deeper
    Branch,
    TooDeep,
    Wrong,
}

fn short(letter: u8, line: Line, place: Place) -> Opened
    ensures { result ≡ LineOpened (Short letter line) place }
{
    Opened::Line {
        part: PartLine::Short { letter, line },
        place,
    }
}

fn long(kind: Kind, place: Place) -> Opened
    ensures { result ≡ LineOpened (Letter kind) place }
{
    Opened::Line {
        part: PartLine::Letter(kind),
        place,
    }
}

fn end_letter(version: Version, nesting: u16, byte: u8) -> Opened
    requires { nesting ≤ 1000 }
    ensures { Opens version nesting byte (chosen byte (ending_choices version nesting)) result }
{
    let _ = version;
    match byte {
        b'e' => short(byte, Line::Empty, Place::Closed),
        b'x' => short(byte, Line::Barred, Place::Closed),
        b'n' => {
            if nesting == DEEPEST {
                Opened::TooDeep
            } else {
                Opened::Next
            }
        }
        b'v' => {
            if nesting == DEEPEST {
                Opened::TooDeep
            } else {
                Opened::Branch
            }
        }
        _ => Opened::Wrong,
    }
}

fn cases_letter(version: Version, nesting: u16, byte: u8) -> Opened
    requires { nesting ≤ 1000 }
    ensures { Opens version nesting byte (chosen byte (case_choices version nesting)) result }
{
    match byte {
        b'p' => long(Kind::Prune, Place::Cases),
        b'b' => long(Kind::Bound, Place::Cases),
        _ => end_letter(version, nesting, byte),
    }
}

fn body_letter(version: Version, nesting: u16, byte: u8) -> Opened
    requires { nesting ≤ 1000 }
    ensures { Opens version nesting byte (chosen byte (body_choices version nesting)) result }
{
    match byte {
        b't' => short(byte, Line::Stuck, Place::Closed),
        b'g' => short(byte, Line::Goal, Place::Closed),
        _ => cases_letter(version, nesting, byte),
    }
}

fn node_letter(version: Version, nesting: u16, byte: u8) -> Opened
    requires { nesting ≤ 1000 }
    ensures { Opens version nesting byte (chosen byte (node_choices version nesting)) result }
{
    match byte {
        b'h' => long(Kind::Horizon, Place::Horizon),
        _ => body_letter(version, nesting, byte),
    }
}

fn case_letter(version: Version, nesting: u16, byte: u8) -> Opened
    requires { nesting ≤ 1000 }
    ensures { Opens version nesting byte (chosen byte (one_choices version nesting)) result }
{
    match byte {
        b's' => short(byte, Line::Skip, Place::Closed),
        b'o' => short(byte, Line::Open, Place::Closed),
        _ => cases_letter(version, nesting, byte),
    }
}

pub(crate) fn open_node(version: Version, nesting: u16, byte: u8) -> Opened
    requires { nesting ≤ 1000 }
    ensures { Opening version nesting (a_node version nesting ∷ []) [] byte result }
{
    node_letter(version, nesting, byte)
}

pub(crate) fn open_body(version: Version, nesting: u16, byte: u8) -> Opened
    requires { nesting ≤ 1000 }
    ensures { Opening version nesting (a_body version nesting ∷ []) [] byte result }
{
    body_letter(version, nesting, byte)
}

pub(crate) fn open_cases(version: Version, nesting: u16, byte: u8) -> Opened
    requires { nesting ≤ 1000 }
    ensures { Opening version nesting (some_cases version nesting ∷ []) [] byte result }
{
    cases_letter(version, nesting, byte)
}

// The letter of a case of a branch, after the line of its range.
pub(crate) fn open_case(version: Version, nesting: u16, byte: u8) -> Opened
    requires { nesting ≤ 1000 }
    ensures { Opening version nesting (a_case version nesting ∷ []) [] byte result }
{
    case_letter(version, nesting, byte)
}

// The letter of a line of a horizon, after its first line.
pub(crate) fn open_horizon(version: Version, nesting: u16, byte: u8) -> Opened
    requires { nesting ≤ 1000 }
    ensures { Opening version nesting (prunes ∷ a_body version nesting ∷ []) [] byte result }
{
    let _ = (version, nesting);
    match byte {
        b'p' => long(Kind::Prune, Place::Horizon),
        b'.' => short(byte, Line::Dot, Place::Body),
        _ => Opened::Wrong,
    }
}

// The letter of a line in a branch that doesn't end.
#[inline(always)]
pub(crate) fn open_branch(version: Version, nesting: u16, byte: u8) -> Opened
    requires limit { nesting ≤ 1000 }
    requires goes_on { byte ≡ 46 → ⊥ }
    ensures { Opening version nesting (some_branches version nesting ∷ []) (some_branches version nesting ∷ []) byte result }
{
    match byte {
        b'r' => match version {
            Version::One => Opened::Wrong,
            Version::Two => long(Kind::Range, Place::Case),
        },
        _ => case_letter(version, nesting, byte),
    }
}
