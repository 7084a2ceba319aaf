//! A line in half the memory, where its numbers fit 32 bits.
ghost use Rattle.std.specs.Prelude.{◌≡◌, ◌≤◌, List, length, slice_index_or, IfOk, IfSome};
ghost use Rattle.proof_tree.specs.declared.line.Line.{Line};
ghost use Rattle.proof_tree.specs.declared.line.Line.TheVariants.{Dot};
ghost use Rattle.strategy_arena.specs.Short.{line_of, reach, Extends};

use proof_tree::Line;
use qc_model::{ConId, VarId};
use std::alloc::AllocError;

/// A line in 16 bytes, or the place of a line that does not fit them among the wide ones.
#[derive(Clone, Copy)]
pub(crate) enum Short {
    Horizon {
        k: u8,
    },
    Prune {
        x: VarId,
        lo: i32,
        hi: i32,
        c: ConId,
    },
    Bound {
        x: VarId,
        lo: i32,
        hi: i32,
    },
    Dot,
    Stuck,
    Goal,
    Empty,
    Barred,
    Next,
    Branch {
        x: VarId,
    },
    Skip,
    Open,
    Range {
        hi: i32,
    },
    Wide {
        at: u32,
    },
}

/// The short line that stands for this one, a wide one where its numbers do not fit. After a refusal nothing has
/// changed.
#[inline(always)]
pub(crate) fn keep(wide: &mut Vec<Line>, line: &Line) -> Result<Short, AllocError>
    ensures kept { IfOk result (λ s. (line_of wide.new.items s ≡ line.now) × (reach s ≤ length wide.new.items)) }
    ensures grown { Extends wide.old.items wide.new.items }
{
    match shorten(line) {
        Some(short) => Ok(short),
        None => widen(wide, line),
    }
}

/// The short line of the last wide one, which it appends.
///
/// There are places for 2^32 of them, and one more is refused as a vector too large to be asked for would be. That is out of
/// reach: they alone would fill some hundred milliards of bytes, and no line that speaks of a problem is wide, since its
/// values lie between -10^9 and 10^9.
#[inline(never)]
fn widen(wide: &mut Vec<Line>, line: &Line) -> Result<Short, AllocError>
    ensures kept { IfOk result (λ s. (line_of wide.new.items s ≡ line.now) × (reach s ≤ length wide.new.items)) }
    ensures grown { Extends wide.old.items wide.new.items }
{
    let at = wide.len();
    if at > u32::MAX as usize {
        return Err(AllocError);
    }
    wide.push(*line)?;
    Ok(Short::Wide { at: at as u32 })
}

/// The line in 16 bytes. None comes only where its numbers do not fit.
#[inline(always)]
fn shorten(line: &Line) -> Option<Short>
    ensures line { IfSome result (λ s. (wide : List Line) → line_of wide s ≡ line.now) }
    ensures alone { IfSome result (λ s. reach s ≡ 0) }
{
    match *line {
        Line::Horizon { k } => Some(Short::Horizon { k }),
        Line::Prune { x, lo, hi, c } => {
            let lo = narrow(&lo)?;
            let hi = narrow(&hi)?;
            Some(Short::Prune { x, lo, hi, c })
        }
        Line::Bound { x, lo, hi } => {
            let lo = narrow(&lo)?;
            let hi = narrow(&hi)?;
            Some(Short::Bound { x, lo, hi })
        }
        Line::Dot => Some(Short::Dot),
        Line::Stuck => Some(Short::Stuck),
        Line::Goal => Some(Short::Goal),
        Line::Empty => Some(Short::Empty),
        Line::Barred => Some(Short::Barred),
        Line::Next => Some(Short::Next),
        Line::Branch { x } => Some(Short::Branch { x }),
        Line::Skip => Some(Short::Skip),
        Line::Open => Some(Short::Open),
        Line::Range { hi } => {
            let hi = narrow(&hi)?;
            Some(Short::Range { hi })
        }
    }
}

/// The line that it stands for.
pub(crate) fn lengthen(short: Short, wide: &[Line]) -> Line
    ensures { result ≡ line_of wide.now short }
{
    match short {
        Short::Horizon { k } => Line::Horizon { k },
        Short::Prune { x, lo, hi, c } => Line::Prune {
            x,
            lo: lo as i64,
            hi: hi as i64,
            c,
        },
        Short::Bound { x, lo, hi } => Line::Bound {
            x,
            lo: lo as i64,
            hi: hi as i64,
        },
        Short::Dot => Line::Dot,
        Short::Stuck => Line::Stuck,
        Short::Goal => Line::Goal,
        Short::Empty => Line::Empty,
        Short::Barred => Line::Barred,
        Short::Next => Line::Next,
        Short::Branch { x } => Line::Branch { x },
        Short::Skip => Line::Skip,
        Short::Open => Line::Open,
        Short::Range { hi } => Line::Range { hi: hi as i64 },
        Short::Wide { at } => wide_at(wide, at),
    }
}

/// The short line that stands for the same beside other wide ones, where those that it stands beside are known. After a refusal
/// nothing has changed.
#[inline(always)]
pub(crate) fn carry(short: Short, known: &[Line], wide: &mut Vec<Line>) -> Result<Short, AllocError>
    ensures kept { IfOk result (λ s. (line_of wide.new.items s ≡ line_of known.now short) × (reach s ≤ length wide.new.items)) }
    ensures grown { Extends wide.old.items wide.new.items }
{
    match short {
        Short::Wide { at } => keep(wide, &wide_at(known, at)),
        narrow => Ok(narrow),
    }
}

#[inline(never)]
fn wide_at(wide: &[Line], at: u32) -> Line
    ensures { result ≡ slice_index_or wide.now at Dot }
{
    match wide.get(at as usize) {
        Some(line) => *line,
        None => Line::Dot,
    }
}

/// The number in 32 bits, where it fits them.
fn narrow(number: &i64) -> Option<i32>
    ensures { IfSome result (λ n. n ≡ number.now) }
{
    let number = *number;
    if number < i32::MIN as i64 {
        return None;
    }
    if number > i32::MAX as i64 {
        return None;
    }
    Some(number as i32)
}
