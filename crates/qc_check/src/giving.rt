//! Giving a certificate's tree to the machine, line by line.
ghost use Rattle.std.specs.Prelude.{◌≡◌, ◌+◌, ◌++◌, ◌∷◌, [], map};
ghost use Rattle.proof_tree.specs.Shape.{tree_of, ending_of, branches_of, case_of};
ghost use Rattle.proof_tree.specs.Lines.{step_line, horizon_lines, tree_lines, ending_lines, branches_lines, case_lines, upto_lines};
ghost use Rattle.proof_tree.specs.declared.line.Line.TheVariants as line_of;
ghost use Rattle.check_lines.specs.Machine.{IsReady};
ghost use Rattle.qc_check.specs.Giving.{Takes};

use crate::space::Space;
use proof_tree::{Body, Case, Cases, End, Horizon, Line, Node, Piece, Step};
use qc_model::ScopeId;

fn give(space: &mut Space, line: Line)
    requires ready { IsReady space.old.machine }
    ensures ready { IsReady space.new.machine }
    ensures takes { Takes space.old space.new (line ∷ []) }
{
    space.problem.known();
    space.machine.line(line);
}

fn give_step(space: &mut Space, step: Step)
    requires ready { IsReady space.old.machine }
    ensures ready { IsReady space.new.machine }
    ensures takes { Takes space.old space.new (step_line step ∷ []) }
{
    match step {
        Step::Prune { x, lo, hi, c } => give(space, Line::Prune { x, lo, hi, c }),
        Step::Bound { x, lo, hi } => give(space, Line::Bound { x, lo, hi }),
    }
}

fn give_steps(space: &mut Space, steps: &[Step])
    requires ready { IsReady space.old.machine }
    ensures ready { IsReady space.new.machine }
    ensures takes { Takes space.old space.new (map step_line steps.now) }
{
    for step in steps {
        give_step(space, *step);
    }
}

/// A horizon at the last number of a scope has no line. No game has as many scopes, so it is as wrong as one at none.
fn give_scope(space: &mut Space, scope: ScopeId)
    requires ready { IsReady space.old.machine }
    ensures ready { IsReady space.new.machine }
    ensures takes { Takes space.old space.new (line_of.Horizon (scope.0 + 1) ∷ []) }
{
    if scope.0 == u8::MAX {
        space.problem.known();
        give(space, Line::Horizon { k: 0 });
    } else {
        give(space, Line::Horizon { k: scope.0 + 1 });
    }
}

fn give_horizon(space: &mut Space, horizon: &Option<Horizon>)
    requires ready { IsReady space.old.machine }
    ensures ready { IsReady space.new.machine }
    ensures takes { Takes space.old space.new (horizon_lines horizon.now) }
{
    match horizon {
        None => {}
        Some(horizon) => {
            give_scope(space, horizon.scope);
            give_steps(space, horizon.steps.items());
            give(space, Line::Dot);
        }
    }
}

fn give_upto(space: &mut Space, upto: Option<i64>)
    requires ready { IsReady space.old.machine }
    ensures ready { IsReady space.new.machine }
    ensures takes { Takes space.old space.new (upto_lines upto) }
{
    match upto {
        None => {}
        Some(hi) => give(space, Line::Range { hi }),
    }
}

/// The lines of a node.
#[cycle(give)]
pub(crate) fn give_node(space: &mut Space, node: &Node)
    requires ready { IsReady space.old.machine }
    ensures ready { IsReady space.new.machine }
    ensures takes { Takes space.old space.new (tree_lines (tree_of node.now)) }
{
    give_horizon(space, &node.horizon);
    match &node.body {
        Body::Stuck => give(space, Line::Stuck),
        Body::Goal => give(space, Line::Goal),
        Body::Tree(cases) => give_cases(space, cases),
    }
}

#[cycle(give)]
fn give_cases(space: &mut Space, cases: &Cases)
    requires ready { IsReady space.old.machine }
    ensures ready { IsReady space.new.machine }
    ensures takes { Takes space.old space.new (map step_line cases.now.steps ++ ending_lines (ending_of cases.now.end)) }
{
    give_steps(space, cases.steps.items());
    give_end(space, &cases.end);
}

#[cycle(give)]
fn give_end(space: &mut Space, end: &End)
    requires ready { IsReady space.old.machine }
    ensures ready { IsReady space.new.machine }
    ensures takes { Takes space.old space.new (ending_lines (ending_of end.now)) }
{
    match end {
        End::Empty => give(space, Line::Empty),
        End::Barred => give(space, Line::Barred),
        End::Next(node) => {
            give(space, Line::Next);
            give_node(space, node);
        }
        End::Branch { x, cases } => {
            give(space, Line::Branch { x: *x });
            give_case_list(space, cases.items());
            give(space, Line::Dot);
        }
    }
}

#[cycle(give)]
fn give_case_list(space: &mut Space, cases: &[Piece])
    requires ready { IsReady space.old.machine }
    ensures ready { IsReady space.new.machine }
    ensures takes { Takes space.old space.new (branches_lines (branches_of cases.now)) }
{
    for piece in cases {
        give_upto(space, piece.upto);
        give_case(space, &piece.case);
    }
}

#[cycle(give)]
fn give_case(space: &mut Space, case: &Case)
    requires ready { IsReady space.old.machine }
    ensures ready { IsReady space.new.machine }
    ensures takes { Takes space.old space.new (case_lines (case_of case.now)) }
{
    match case {
        Case::Skip => give(space, Line::Skip),
        Case::Open => give(space, Line::Open),
        Case::Go(inner) => give_cases(space, inner),
    }
}
