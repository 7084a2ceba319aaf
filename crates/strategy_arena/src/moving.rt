//! Short lines that are made, moved and read together.
ghost use Rattle.std.specs.Prelude.{◌≡◌, ◌≤◌, ◌+◌, ◌++◌, [], length, take, drop, OnOk, OnErr};
ghost use Rattle.std.specs.Vec.{vec_len, vec_capacity};
ghost use Rattle.strategy_arena.specs.Short.{AllStand, Extends, lines_of, written_over};

use crate::short::{Short, carry, keep};
use proof_tree::Line;
use std::alloc::AllocError;

/// The short lines that stand for these.
pub(crate) fn keep_all(
    wide: &mut Vec<Line>,
    lines: &[Line],
    room: &mut Vec<Short>,
) -> Result<(), AllocError>
    requires { room.old.items ≡ [] }
    ensures kept { OnOk result (lines_of wide.new.items room.new.items ≡ lines.now) }
    ensures stand { OnOk result (AllStand (length wide.new.items) room.new.items) }
    ensures grown { Extends wide.old.items wide.new.items }
{
    for line in lines {
        let short = keep(wide, line)?;
        room.push(short)?;
    }
    Ok(())
}

/// Appends these lines, for which there is room. After a refusal some of them are there.
pub(crate) fn put_each(
    lines: &mut Vec<Short>,
    wide: &mut Vec<Line>,
    with: &[Line],
) -> Result<(), AllocError>
    requires room { vec_len lines.old + length with.now ≤ vec_capacity lines.old }
    requires stand { AllStand (length wide.old.items) lines.old.items }
    ensures put { OnOk result (lines_of wide.new.items lines.new.items ≡ lines_of wide.old.items lines.old.items ++ with.now) }
    ensures stand { AllStand (length wide.new.items) lines.new.items }
    ensures first { lines.old.items ≡ take (length lines.old.items) lines.new.items }
    ensures grown { Extends wide.old.items wide.new.items }
{
    for line in with {
        let short = keep(wide, line)?;
        lines.push_reserved(short);
    }
    Ok(())
}

/// Puts these lines in place of those from `start` to `at`, and moves all that come after at once. After a refusal nothing has
/// changed.
pub(crate) fn shift(
    lines: &mut Vec<Short>,
    start: usize,
    at: usize,
    with: &[Short],
) -> Result<(), AllocError>
    requires start { start ≤ at }
    requires place { at ≤ length lines.old.items }
    ensures put { OnOk result (lines.new.items ≡ take start lines.old.items ++ (with.now ++ drop at lines.old.items)) }
    ensures refused { OnErr result (lines.new.items ≡ lines.old.items) }
{
    let len = lines.len();
    let more = with.len().saturating_sub(at - start);
    lines.reserve(more)?;
    lines.resize(len + more, Short::Dot)?;
    lines.copy_within(at..len, start + with.len());
    write_over(lines, start, with);
    lines.truncate(start + with.len() + (len - at));
    Ok(())
}

/// Puts these lines over those from `start` on.
fn write_over(lines: &mut Vec<Short>, start: usize, with: &[Short])
    requires { start + length with.now ≤ length lines.old.items }
    ensures { lines.new.items ≡ written_over lines.old.items start with.now (length with.now) }
{
    for k in 0..with.len() {
        lines[start + k] = with[k];
    }
}

/// Appends the lines that others stand for, of which the wide ones are known, and for which there is room. After a refusal some of
/// them are there.
pub(crate) fn carry_each(
    from: &[Short],
    known: &[Line],
    lines: &mut Vec<Short>,
    wide: &mut Vec<Line>,
) -> Result<(), AllocError>
    requires known { AllStand (length known.now) from.now }
    requires room { vec_len lines.old + length from.now ≤ vec_capacity lines.old }
    requires stand { AllStand (length wide.old.items) lines.old.items }
    ensures put { OnOk result (lines_of wide.new.items lines.new.items ≡ lines_of wide.old.items lines.old.items ++ lines_of known.now from.now) }
    ensures stand { AllStand (length wide.new.items) lines.new.items }
    ensures first { lines.old.items ≡ take (length lines.old.items) lines.new.items }
    ensures grown { Extends wide.old.items wide.new.items }
{
    // where none is wide, each stands for the same there
    if known.len() == 0 {
        lines.extend_from_slice(from)?;
        return Ok(());
    }
    for short in from {
        let carried = carry(*short, known, wide)?;
        lines.push_reserved(carried);
    }
    Ok(())
}
