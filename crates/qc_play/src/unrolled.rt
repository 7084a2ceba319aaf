//! The lines of a certificate's tree, in a row.
ghost use Rattle.std.specs.Prelude.{◌≡◌, ◌+◌, ◌++◌, ◌∷◌, [], map, OnOk, IfOk};
ghost use Rattle.proof_tree.specs.Shape.{tree_of, ending_of, branches_of, case_of};
ghost use Rattle.proof_tree.specs.Lines.{step_line, horizon_lines, tree_lines, ending_lines, branches_lines, case_lines, upto_lines};
ghost use Rattle.proof_tree.specs.declared.line.Line.TheVariants as line_of;

use proof_tree::{Body, Case, Cases, End, Horizon, Line, Node, Piece, Step};
use qc_model::ScopeId;
use std::alloc::{AllocError, Global};

/// The lines of a tree.
///
/// A horizon at the last number of a scope has no line, and is refused as if memory had run out. It stands in place in no
/// game, since none has as many scopes.
pub(crate) fn lines_of(alloc: Global, root: &Node) -> Result<Vec<Line>, AllocError>
    ensures { IfOk result (λ lines. lines.items ≡ tree_lines (tree_of root.now)) }
{
    let mut lines = Vec::new(alloc);
    put_node(&mut lines, root)?;
    Ok(lines)
}

fn put(lines: &mut Vec<Line>, line: Line) -> Result<(), AllocError>
    ensures { OnOk result (lines.new.items ≡ lines.old.items ++ line ∷ []) }
{
    lines.push(line)?;
    Ok(())
}

fn put_step(lines: &mut Vec<Line>, step: Step) -> Result<(), AllocError>
    ensures { OnOk result (lines.new.items ≡ lines.old.items ++ step_line step ∷ []) }
{
    match step {
        Step::Prune { x, lo, hi, c } => put(lines, Line::Prune { x, lo, hi, c }),
        Step::Bound { x, lo, hi } => put(lines, Line::Bound { x, lo, hi }),
    }
}

fn put_steps(lines: &mut Vec<Line>, steps: &[Step]) -> Result<(), AllocError>
    ensures { OnOk result (lines.new.items ≡ lines.old.items ++ map step_line steps.now) }
{
    for step in steps {
        put_step(lines, *step)?;
    }
    Ok(())
}

fn put_scope(lines: &mut Vec<Line>, scope: ScopeId) -> Result<(), AllocError>
    ensures { OnOk result (lines.new.items ≡ lines.old.items ++ line_of.Horizon (scope.0 + 1) ∷ []) }
{
    if scope.0 == u8::MAX {
        return Err(AllocError);
    }
    put(lines, Line::Horizon { k: scope.0 + 1 })
}

fn put_horizon(lines: &mut Vec<Line>, horizon: &Option<Horizon>) -> Result<(), AllocError>
    ensures { OnOk result (lines.new.items ≡ lines.old.items ++ horizon_lines horizon.now) }
{
    match horizon {
        None => Ok(()),
        Some(horizon) => {
            put_scope(lines, horizon.scope)?;
            put_steps(lines, horizon.steps.items())?;
            put(lines, Line::Dot)
        }
    }
}

fn put_upto(lines: &mut Vec<Line>, upto: Option<i64>) -> Result<(), AllocError>
    ensures { OnOk result (lines.new.items ≡ lines.old.items ++ upto_lines upto) }
{
    match upto {
        None => Ok(()),
        Some(hi) => put(lines, Line::Range { hi }),
    }
}

#[cycle(put)]
fn put_node(lines: &mut Vec<Line>, node: &Node) -> Result<(), AllocError>
    ensures { OnOk result (lines.new.items ≡ lines.old.items ++ tree_lines (tree_of node.now)) }
{
    put_horizon(lines, &node.horizon)?;
    match &node.body {
        Body::Stuck => put(lines, Line::Stuck),
        Body::Goal => put(lines, Line::Goal),
        Body::Tree(cases) => put_part(lines, cases),
    }
}

#[cycle(put)]
fn put_part(lines: &mut Vec<Line>, cases: &Cases) -> Result<(), AllocError>
    ensures { OnOk result (lines.new.items ≡ lines.old.items ++ (map step_line cases.now.steps ++ ending_lines (ending_of cases.now.end))) }
{
    put_steps(lines, cases.steps.items())?;
    put_end(lines, &cases.end)
}

#[cycle(put)]
fn put_end(lines: &mut Vec<Line>, end: &End) -> Result<(), AllocError>
    ensures { OnOk result (lines.new.items ≡ lines.old.items ++ ending_lines (ending_of end.now)) }
{
    match end {
        End::Empty => put(lines, Line::Empty),
        End::Barred => put(lines, Line::Barred),
        End::Next(node) => {
            put(lines, Line::Next)?;
            put_node(lines, node)
        }
        End::Branch { x, cases } => {
            put(lines, Line::Branch { x: *x })?;
            put_cases(lines, cases.items())?;
            put(lines, Line::Dot)
        }
    }
}

#[cycle(put)]
fn put_cases(lines: &mut Vec<Line>, cases: &[Piece]) -> Result<(), AllocError>
    ensures { OnOk result (lines.new.items ≡ lines.old.items ++ branches_lines (branches_of cases.now)) }
{
    for piece in cases {
        put_upto(lines, piece.upto)?;
        put_case(lines, &piece.case)?;
    }
    Ok(())
}

#[cycle(put)]
fn put_case(lines: &mut Vec<Line>, case: &Case) -> Result<(), AllocError>
    ensures { OnOk result (lines.new.items ≡ lines.old.items ++ case_lines (case_of case.now)) }
{
    match case {
        Case::Skip => put(lines, Line::Skip),
        Case::Open => put(lines, Line::Open),
        Case::Go(inner) => put_part(lines, inner),
    }
}
