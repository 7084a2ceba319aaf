//! The lines that a part of a tree begins with.
ghost use Rattle.std.specs.Prelude.{◌≡◌, ◌≤◌, ◌<◌, ◌∷◌, ◌++◌, List, Option, length, map, IfSome, MatchOption};
ghost use Rattle.proof_tree.specs.declared.line.Line.{Line as OneLine};
ghost use Rattle.proof_tree.specs.declared.line.Line.TheVariants.{Dot};
ghost use Rattle.proof_tree.specs.declared.tree.Horizon.{Horizon};
ghost use Rattle.proof_tree.specs.declared.tree.Step.{Step as OneStep};
ghost use Rattle.proof_tree.specs.Lines.{step_line, tree_lines, body_lines, branches_lines};
ghost use Rattle.proof_tree.specs.Tree.{Tree, tree, Body, Branches, no_more};
ghost use Rattle.qc_play.specs.Beginnings.{IsNextCase};

use crate::line_cursor::LineCursor;
use proof_tree::{Line, Step};

/// The step that the line says, if it says one.
pub(crate) fn step_of(line: Line) -> Option<Step>
    ensures { MatchOption result ((step : OneStep) → line ≡ step_line step → ⊥) (λ step. line ≡ step_line step) }
{
    match line {
        Line::Prune { x, lo, hi, c } => Some(Step::Prune { x, lo, hi, c }),
        Line::Bound { x, lo, hi } => Some(Step::Bound { x, lo, hi }),
        _ => None,
    }
}

/// Passes over the removals of a horizon, and over the line that ends them.
fn pass_horizon(lines: &mut LineCursor<'_>)
    requires { (steps : List OneStep) × (rest : List OneLine) × (lines.old ≡ map step_line steps ++ Dot ∷ rest) }
    ensures passed { (steps : List OneStep) (rest : List OneLine) → lines.old ≡ map step_line steps ++ Dot ∷ rest → lines.new ≡ rest }
    ensures shorter { length lines.new ≤ length lines.old }
{
    let mut line = lines.take();
    while step_of(line).is_some() {
        line = lines.take();
    }
}

/// Passes over the horizon of a node, where it has one: the line that its body begins with.
pub(crate) fn begin_body(lines: &mut LineCursor<'_>) -> Line
    requires { (t : Tree) × (rest : List OneLine) × (lines.old ≡ tree_lines t ++ rest) }
    ensures body { (z : Option Horizon) (b : Body) (rest : List OneLine) → lines.old ≡ tree_lines (tree z b) ++ rest → result ∷ lines.new ≡ body_lines b ++ rest }
    ensures shorter { length lines.new < length lines.old }
{
    let first = lines.take();
    match first {
        Line::Horizon { k: _ } => {
            pass_horizon(lines);
            lines.take()
        }
        _ => first,
    }
}

/// The next case of a branch: the last value that it covers, where it says it, and the line that it begins with. None comes
/// where the branch ends.
pub(crate) fn next_case(lines: &mut LineCursor<'_>) -> Option<(Option<i64>, Line)>
    requires { (bs : Branches) × (rest : List OneLine) × (lines.old ≡ branches_lines bs ++ Dot ∷ rest) }
    ensures cases { (bs : Branches) (rest : List OneLine) → lines.old ≡ branches_lines bs ++ Dot ∷ rest → MatchOption result ((bs ≡ no_more) × (lines.new ≡ rest)) (λ r. IsNextCase r.0 (r.1 ∷ lines.new) bs rest) }
    ensures shorter { IfSome result (λ r. length lines.new < length lines.old) }
{
    let first = lines.take();
    match first {
        Line::Dot => None,
        Line::Range { hi } => Some((Some(hi), lines.take())),
        _ => Some((None, first)),
    }
}
