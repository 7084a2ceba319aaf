//! The tree whose lines these are: each call reads one part from the front of the lines, and `first` is the line that
//! it begins with where the caller has taken it off.
//!
//! Lines that begin no part are refused as if memory had run out; the lines of a tree never are.
ghost use Rattle.std.specs.Prelude.{◌≡◌, ◌≤◌, ◌<◌, ◌++◌, ◌∷◌, [], length, map, Some, IfOk, IfSome, OnOk, MatchOption};
ghost use Rattle.proof_tree.specs.declared.line.Line.TheVariants.{Dot, Horizon as HorizonLine};
ghost use Rattle.proof_tree.specs.Lines.{step_line, horizon_lines, upto_lines, tree_lines, body_lines, ending_lines, branches_lines, case_lines};
ghost use Rattle.proof_tree.specs.Shape.{tree_of, body_of, ending_of, branches_of, pieces_of, case_of};

use crate::line_cursor::LineCursor;
use proof_tree::{Body, Case, CaseList, Cases, End, Horizon, Line, Node, Piece, Step, StepList};
use qc_model::ScopeId;
use std::alloc::{AllocError, Global};

/// A node.
#[cycle(read)]
pub(crate) fn node(alloc: Global, lines: &mut LineCursor<'_>) -> Result<Node, AllocError>
    ensures told { IfOk result (λ n. lines.old ≡ tree_lines (tree_of n) ++ lines.new) }
    ensures shorter { OnOk result (length lines.new ≤ length lines.old) }
{
    let first = take(lines)?;
    if let Line::Horizon { k } = first {
        let horizon = horizon(alloc, k, lines)?;
        let second = take(lines)?;
        let body = body(alloc, second, lines)?;
        return Ok(Node {
            horizon: Some(horizon),
            body,
        });
    }
    let body = body(alloc, first, lines)?;
    Ok(Node {
        horizon: None,
        body,
    })
}

/// What follows a node's horizon.
#[cycle(read)]
fn body(alloc: Global, first: Line, lines: &mut LineCursor<'_>) -> Result<Body, AllocError>
    ensures told { IfOk result (λ b. first ∷ lines.old ≡ body_lines (body_of b) ++ lines.new) }
    ensures shorter { OnOk result (length lines.new ≤ length lines.old) }
{
    match first {
        Line::Stuck => Ok(Body::Stuck),
        Line::Goal => Ok(Body::Goal),
        _ => {
            let cases = part(alloc, first, lines)?;
            Ok(Body::Tree(cases))
        }
    }
}

/// Steps, and the end after them.
#[cycle(read)]
fn part(alloc: Global, first: Line, lines: &mut LineCursor<'_>) -> Result<Cases, AllocError>
    ensures told { IfOk result (λ c. first ∷ lines.old ≡ map step_line c.steps ++ (ending_lines (ending_of c.end) ++ lines.new)) }
    ensures shorter { OnOk result (length lines.new ≤ length lines.old) }
{
    let (steps, line) = steps(alloc, first, lines)?;
    let end = end(alloc, line, lines)?;
    Ok(Cases { steps, end })
}

/// The end of a part.
#[cycle(read)]
fn end(alloc: Global, first: Line, lines: &mut LineCursor<'_>) -> Result<End, AllocError>
    ensures told { IfOk result (λ e. first ∷ lines.old ≡ ending_lines (ending_of e) ++ lines.new) }
    ensures shorter { OnOk result (length lines.new ≤ length lines.old) }
{
    match first {
        Line::Empty => Ok(End::Empty),
        Line::Barred => Ok(End::Barred),
        Line::Next => {
            let node = node(alloc, lines)?;
            Ok(End::Next(Box::new(alloc, node)?))
        }
        Line::Branch { x } => {
            let cases = branches(alloc, lines)?;
            Ok(End::Branch { x, cases })
        }
        _ => Err(AllocError),
    }
}

/// The cases of a branch, and the line that ends it.
#[cycle(read)]
fn branches(alloc: Global, lines: &mut LineCursor<'_>) -> Result<CaseList, AllocError>
    ensures told { IfOk result (λ list. lines.old ≡ branches_lines (branches_of (pieces_of list)) ++ Dot ∷ lines.new) }
    ensures shorter { OnOk result (length lines.new ≤ length lines.old) }
{
    let mut list = CaseList::new(alloc);
    while let Some(found) = piece(alloc, lines)? {
        list.push(found)?;
    }
    Ok(list)
}

/// The next case of a branch, or none where its last line comes.
#[cycle(read)]
fn piece(alloc: Global, lines: &mut LineCursor<'_>) -> Result<Option<Piece>, AllocError>
    ensures told { IfOk result (λ found. MatchOption found (lines.old ≡ Dot ∷ lines.new) (λ p. lines.old ≡ (upto_lines p.upto ++ case_lines (case_of p.case)) ++ lines.new)) }
    ensures shorter { IfOk result (λ found. MatchOption found (length lines.new ≤ length lines.old) (λ p. length lines.new < length lines.old)) }
{
    let first = take(lines)?;
    match first {
        Line::Dot => Ok(None),
        Line::Range { hi } => {
            let second = take(lines)?;
            let case = case(alloc, second, lines)?;
            Ok(Some(Piece {
                upto: Some(hi),
                case,
            }))
        }
        _ => {
            let case = case(alloc, first, lines)?;
            Ok(Some(Piece { upto: None, case }))
        }
    }
}

/// A case, after the line of its range.
#[cycle(read)]
fn case(alloc: Global, first: Line, lines: &mut LineCursor<'_>) -> Result<Case, AllocError>
    ensures told { IfOk result (λ c. first ∷ lines.old ≡ case_lines (case_of c) ++ lines.new) }
    ensures shorter { OnOk result (length lines.new ≤ length lines.old) }
{
    match first {
        Line::Skip => Ok(Case::Skip),
        Line::Open => Ok(Case::Open),
        _ => {
            let inner = part(alloc, first, lines)?;
            Ok(Case::Go(inner))
        }
    }
}

/// The removals of a horizon at scope `k`, counted from 1, and the line that ends them.
fn horizon(alloc: Global, k: u8, lines: &mut LineCursor<'_>) -> Result<Horizon, AllocError>
    ensures told { IfOk result (λ z. HorizonLine k ∷ lines.old ≡ horizon_lines (Some z) ++ lines.new) }
    ensures shorter { OnOk result (length lines.new ≤ length lines.old) }
{
    if k == 0 {
        return Err(AllocError);
    }
    let first = take(lines)?;
    let (steps, line) = steps(alloc, first, lines)?;
    match line {
        Line::Dot => Ok(Horizon {
            scope: ScopeId(k - 1),
            steps,
        }),
        _ => Err(AllocError),
    }
}

/// Steps, and the line after them.
fn steps(
    alloc: Global,
    first: Line,
    lines: &mut LineCursor<'_>,
) -> Result<(StepList, Line), AllocError>
    ensures told { IfOk result (λ r. first ∷ lines.old ≡ map step_line r.0 ++ r.1 ∷ lines.new) }
    ensures shorter { OnOk result (length lines.new ≤ length lines.old) }
{
    let mut steps = StepList::new(alloc);
    let mut line = first;
    while let Some(step) = step_of(line) {
        steps.push(step)?;
        line = take(lines)?;
    }
    Ok((steps, line))
}

/// The step that the line says, if it says one.
fn step_of(line: Line) -> Option<Step>
    ensures { IfSome result (λ step. line ≡ step_line step) }
{
    match line {
        Line::Prune { x, lo, hi, c } => Some(Step::Prune { x, lo, hi, c }),
        Line::Bound { x, lo, hi } => Some(Step::Bound { x, lo, hi }),
        _ => None,
    }
}

/// The next line.
fn take(lines: &mut LineCursor<'_>) -> Result<Line, AllocError>
    ensures told { IfOk result (λ line. lines.old ≡ line ∷ lines.new) }
    ensures shorter { OnOk result (length lines.new < length lines.old) }
{
    match lines.next() {
        Some(line) => Ok(line),
        None => Err(AllocError),
    }
}
