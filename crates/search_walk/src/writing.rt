//! Lines that are put in or taken out together.
ghost use Rattle.proof_tree.specs.declared.line.Line.TheVariants.{Skip};
ghost use Rattle.std.specs.Prelude.{◌≡◌, ◌≤◌, ◌<◌, ◌++◌, ◌∷◌, ◌&&◌, [], None, List, if◌then◌else◌, length, drop, map, IfOk, IfSome, OnOk, IsTrue};
ghost use Rattle.qc_model.specs.Valid.{is_number};
ghost use Rattle.qc_model.specs.Verdict.{Seen};
ghost use Rattle.proof_tree.specs.InPlace.{horizon_below};
ghost use Rattle.proof_tree.specs.Lines.{horizon_lines, step_line, upto_lines};
ghost use Rattle.proof_tree.specs.Text.{horizon_fits};
ghost use Rattle.search_box.specs.Looking.{scope_number};
ghost use Rattle.joins.specs.Joins.{game_of, StandsAt, KeepsOthers};
ghost use Rattle.search_walk.specs.Trimmed.{TrimmedPut};
ghost use Rattle.search_parts.specs.Uppers.{upto_between, skipped_between, seen_between, without_before};

use joins::Joins;
use proof_tree::{Horizon, Line, Step};
use qc_model::{Problem, ScopeId};
use search_trim::trim;
use std::alloc::{AllocError, Global};
use strategy_arena::Arena;

fn line_of(step: Step) -> Line
    ensures { result ≡ step_line step }
{
    match step {
        Step::Prune { x, lo, hi, c } => Line::Prune { x, lo, hi, c },
        Step::Bound { x, lo, hi } => Line::Bound { x, lo, hi },
    }
}

/// A line for each step.
pub(crate) fn put_steps(lines: &mut Arena, steps: &[Step]) -> Result<(), AllocError>
    ensures { OnOk result (lines.new ≡ lines.old ++ map step_line steps.now) }
{
    for step in steps {
        lines.put(line_of(*step))?;
    }
    Ok(())
}

/// The lines of those steps on which the empty domain depends that they end with, for which `needed` has room.
pub(crate) fn put_needed(
    lines: &mut Arena,
    needed: &mut Vec<Step>,
    problem: &Problem,
    steps: &[Step],
) -> Result<(), AllocError>
    ensures { OnOk result (TrimmedPut problem.now steps.now lines.old lines.new) }
{
    trim(problem, steps, needed)?;
    put_steps(lines, needed.as_slice())
}

/// The lines of a horizon that begins at a node, where there is one, and the horizon in force below them.
pub fn put_horizon(
    lines: &mut Arena,
    in_force: Option<ScopeId>,
    ahead: Option<Horizon>,
) -> Result<Option<ScopeId>, AllocError>
    requires { IsTrue (horizon_fits ahead) }
    ensures lines { OnOk result (lines.new ≡ lines.old ++ horizon_lines ahead) }
    ensures below { IfOk result (λ h. scope_number h ≡ horizon_below ahead (scope_number in_force)) }
{
    match ahead {
        None => Ok(in_force),
        Some(horizon) => {
            lines.put(Line::Horizon {
                k: horizon.scope.0 + 1,
            })?;
            put_steps(lines, horizon.steps.items())?;
            lines.put(Line::Dot)?;
            Ok(Some(horizon.scope))
        }
    }
}

/// One case for the values from the first to the last, which this line leaves out.
pub(crate) fn leave_out(
    lines: &mut Arena,
    first: i64,
    last: i64,
    line: Line,
) -> Result<(), AllocError>
    ensures { OnOk result (lines.new ≡ lines.old ++ (upto_lines (upto_between first last) ++ line ∷ [])) }
{
    if first != last {
        lines.put(Line::Range { hi: last })?;
    }
    lines.put(line)
}

/// One case that skips the values from the first to the last, where there are such.
pub(crate) fn skip_between(
    lines: &mut Arena,
    first: Option<i64>,
    last: Option<i64>,
) -> Result<(), AllocError>
    ensures { OnOk result (lines.new ≡ lines.old ++ skipped_between first last) }
{
    let Some(first) = first else {
        return Ok(());
    };
    match last {
        None => Ok(()),
        Some(last) => leave_out(lines, first, last, Line::Skip),
    }
}

/// The same, of which the join of scope i is told.
pub(crate) fn skip_and_tell(
    lines: &mut Arena,
    joins: &mut Joins,
    i: ScopeId,
    first: Option<i64>,
    last: Option<i64>,
) -> Result<(), AllocError>
    requires { i.0 < length (game_of joins.old).scopes }
    ensures lines { OnOk result (lines.new ≡ lines.old ++ skipped_between first last) }
    ensures told { (xs : List Seen) → StandsAt joins.old i.0 xs → StandsAt joins.new i.0 (xs ++ seen_between first last) }
    ensures others { KeepsOthers i.0 joins.old joins.new }
    ensures same { game_of joins.new ≡ game_of joins.old }
{
    let Some(first) = first else {
        return Ok(());
    };
    match last {
        None => Ok(()),
        Some(last) => {
            joins.add_skipped(i);
            leave_out(lines, first, last, Line::Skip)
        }
    }
}

/// The last of the values before a case that go, where the case settled the scope and stands without them.
pub(crate) fn last_to_drop(cuts: bool, settled: bool, before: Option<i64>) -> Option<i64>
    ensures { result ≡ (if (cuts && settled) then before else None) }
{
    if cuts && settled { before } else { None }
}

/// Puts one case that skips the values from the first to the last, where there is a last one, in place of the lines from
/// `start` to `at`.
pub(crate) fn drop_before(
    lines: &mut Arena,
    start: usize,
    at: usize,
    first: i64,
    last: Option<i64>,
) -> Result<(), AllocError>
    requires start { start ≤ at }
    requires place { at ≤ length lines.old }
    ensures { OnOk result (lines.new ≡ without_before last first start at lines.old) }
{
    let Some(last) = last else {
        return Ok(());
    };
    if first == last {
        return lines.replace(start, at, [Line::Skip].as_slice());
    }
    lines.replace(start, at, [Line::Range { hi: last }, Line::Skip].as_slice())
}

/// A copy of the lines from place `at` on.
pub(crate) fn copied_from(alloc: Global, lines: &Arena, at: usize) -> Result<Arena, AllocError>
    requires { at ≤ length lines.now }
    ensures { IfOk result (λ copy. copy ≡ drop at lines.now) }
{
    lines.copied(alloc, at)
}
