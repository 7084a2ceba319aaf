// Lines of trees, byte by byte.
ghost use Rattle.std.specs.Prelude.{true, false};
ghost use Rattle.proof_text.specs.Numerals.{FitsCounted, FitsSigned};
ghost use Rattle.proof_text.specs.PartLines.{FitsPart, PartGoes};
ghost use Rattle.proof_text.specs.declared.part_line.PartLine.TheVariants.{Letter as LetterPart, Horizon as HorizonPart, Branch as BranchPart, Range as RangePart, Variable as VariablePart, Low as LowPart, High as HighPart, Constraint as ConstraintPart};

use crate::numeral::{Counted, CountedNext, Signed, SignedNext, read_counted, read_signed};
use crate::ranges;
use proof_tree::Line;
use qc_model::{ConId, VarId, limits};

// The lines that have numbers.
#[derive(Clone, Copy)]
pub(crate) enum Kind {
    Horizon,
    Branch,
    Range,
    Prune,
    Bound,
}

// A line, as far as it is read.
#[derive(Clone, Copy)]
pub(crate) enum PartLine {
    // a line without numbers, but for its end
    Short {
        letter: u8,
        line: Line,
    },
    // the letter of a line with numbers
    Letter(Kind),
    Horizon(Counted),
    Branch(Counted),
    Range(Signed),
    // a removal up to its variable, its least value, its greatest value
    Variable {
        prune: bool,
        x: Counted,
    },
    Low {
        prune: bool,
        x: u16,
        lo: Signed,
    },
    High {
        prune: bool,
        x: u16,
        lo: i64,
        hi: Signed,
    },
    // a removal of refuted values up to its constraint
    Constraint {
        x: u16,
        lo: i64,
        hi: i64,
        c: Counted,
    },
}

pub(crate) enum PartNext {
    More(PartLine),
    Whole(Line),
    Wrong,
}

pub(crate) fn read_part(part: PartLine, byte: u8) -> PartNext
    requires { FitsPart part }
    ensures { PartGoes part byte result }
{
    match part {
        PartLine::Short { letter: _, line } => {
            if byte == b'\n' {
                PartNext::Whole(line)
            } else {
                PartNext::Wrong
            }
        }
        PartLine::Letter(kind) => letter_byte(kind, byte),
        PartLine::Horizon(k) => horizon_byte(k, byte),
        PartLine::Branch(x) => branch_byte(x, byte),
        PartLine::Range(high) => range_byte(high, byte),
        PartLine::Variable { prune, x } => variable_byte(prune, x, byte),
        PartLine::Low { prune, x, lo } => low_byte(prune, x, lo, byte),
        PartLine::High { prune, x, lo, hi } => {
            if prune {
                high_byte(x, lo, hi, byte)
            } else {
                last_byte(x, lo, hi, byte)
            }
        }
        PartLine::Constraint { x, lo, hi, c } => constraint_byte(x, lo, hi, c, byte),
    }
}

fn letter_byte(kind: Kind, byte: u8) -> PartNext
    ensures { PartGoes (LetterPart kind) byte result }
{
    if byte != b' ' {
        return PartNext::Wrong;
    }
    match kind {
        Kind::Horizon => PartNext::More(PartLine::Horizon(Counted::Start)),
        Kind::Branch => PartNext::More(PartLine::Branch(Counted::Start)),
        Kind::Range => PartNext::More(PartLine::Range(Signed::Start)),
        Kind::Prune => PartNext::More(PartLine::Variable {
            prune: true,
            x: Counted::Start,
        }),
        Kind::Bound => PartNext::More(PartLine::Variable {
            prune: false,
            x: Counted::Start,
        }),
    }
}

fn horizon_byte(k: Counted, byte: u8) -> PartNext
    requires { FitsCounted 65 k }
    ensures { PartGoes (HorizonPart k) byte result }
{
    match read_counted(k, byte, ranges::SCOPES, b'\n') {
        CountedNext::More(k) => PartNext::More(PartLine::Horizon(k)),
        CountedNext::Done(k) => PartNext::Whole(Line::Horizon { k: k as u8 }),
        CountedNext::Wrong => PartNext::Wrong,
    }
}

fn branch_byte(x: Counted, byte: u8) -> PartNext
    requires { FitsCounted 500 x }
    ensures { PartGoes (BranchPart x) byte result }
{
    match read_counted(x, byte, ranges::VARIABLES, b'\n') {
        CountedNext::More(x) => PartNext::More(PartLine::Branch(x)),
        CountedNext::Done(x) => PartNext::Whole(Line::Branch {
            x: VarId((x - 1) as u16),
        }),
        CountedNext::Wrong => PartNext::Wrong,
    }
}

fn range_byte(high: Signed, byte: u8) -> PartNext
    requires { FitsSigned 1000000000 high }
    ensures { PartGoes (RangePart high) byte result }
{
    match read_signed(high, byte, limits::NUMBER, b'\n') {
        SignedNext::More(high) => PartNext::More(PartLine::Range(high)),
        SignedNext::Done(hi) => PartNext::Whole(Line::Range { hi }),
        SignedNext::Wrong => PartNext::Wrong,
    }
}

fn variable_byte(prune: bool, x: Counted, byte: u8) -> PartNext
    requires { FitsCounted 500 x }
    ensures { PartGoes (VariablePart prune x) byte result }
{
    match read_counted(x, byte, ranges::VARIABLES, b' ') {
        CountedNext::More(x) => PartNext::More(PartLine::Variable { prune, x }),
        CountedNext::Done(x) => PartNext::More(PartLine::Low {
            prune,
            x: (x - 1) as u16,
            lo: Signed::Start,
        }),
        CountedNext::Wrong => PartNext::Wrong,
    }
}

fn low_byte(prune: bool, x: u16, lo: Signed, byte: u8) -> PartNext
    requires { FitsPart (LowPart prune x lo) }
    ensures { PartGoes (LowPart prune x lo) byte result }
{
    match read_signed(lo, byte, limits::NUMBER, b' ') {
        SignedNext::More(lo) => PartNext::More(PartLine::Low { prune, x, lo }),
        SignedNext::Done(lo) => PartNext::More(PartLine::High {
            prune,
            x,
            lo,
            hi: Signed::Start,
        }),
        SignedNext::Wrong => PartNext::Wrong,
    }
}

fn high_byte(x: u16, lo: i64, hi: Signed, byte: u8) -> PartNext
    requires { FitsPart (HighPart true x lo hi) }
    ensures { PartGoes (HighPart true x lo hi) byte result }
{
    match read_signed(hi, byte, limits::NUMBER, b' ') {
        SignedNext::More(hi) => PartNext::More(PartLine::High {
            prune: true,
            x,
            lo,
            hi,
        }),
        SignedNext::Done(hi) => PartNext::More(PartLine::Constraint {
            x,
            lo,
            hi,
            c: Counted::Start,
        }),
        SignedNext::Wrong => PartNext::Wrong,
    }
}

// The greatest value of a removal that ends with it.
fn last_byte(x: u16, lo: i64, hi: Signed, byte: u8) -> PartNext
    requires { FitsPart (HighPart false x lo hi) }
    ensures { PartGoes (HighPart false x lo hi) byte result }
{
    match read_signed(hi, byte, limits::NUMBER, b'\n') {
        SignedNext::More(hi) => PartNext::More(PartLine::High {
            prune: false,
            x,
            lo,
            hi,
        }),
        SignedNext::Done(hi) => PartNext::Whole(Line::Bound {
            x: VarId(x),
            lo,
            hi,
        }),
        SignedNext::Wrong => PartNext::Wrong,
    }
}

fn constraint_byte(x: u16, lo: i64, hi: i64, c: Counted, byte: u8) -> PartNext
    requires { FitsPart (ConstraintPart x lo hi c) }
    ensures { PartGoes (ConstraintPart x lo hi c) byte result }
{
    match read_counted(c, byte, ranges::CONSTRAINTS, b'\n') {
        CountedNext::More(c) => PartNext::More(PartLine::Constraint { x, lo, hi, c }),
        CountedNext::Done(c) => PartNext::Whole(Line::Prune {
            x: VarId(x),
            lo,
            hi,
            c: ConId((c - 1) as u16),
        }),
        CountedNext::Wrong => PartNext::Wrong,
    }
}
