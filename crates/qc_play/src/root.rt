//! What the tree of a certificate shows, read by a walk over its lines.
ghost use Rattle.std.specs.Prelude.{◌≡◌, ℤ, List, IfOk, IsTrue};
ghost use Rattle.qc_model.specs.Verdict.{is_exact, is_lost};
ghost use Rattle.proof_tree.specs.Lines.{tree_lines};
ghost use Rattle.proof_tree.specs.Read.{root_finding, strategy_of, counter_of};
ghost use Rattle.proof_tree.specs.Tree.{Tree};
ghost use Rattle.qc_play.specs.Roots.{CanReadRoot};
ghost use Rattle.qc_play.specs.Shape.{plan_of, tree_of_counter};
ghost use Rattle.qc_play.specs.Shown.{Shows};

use crate::counter::Counter;
use crate::line_cursor::LineCursor;
use crate::plan::Plan;
use crate::shown::Shown;
use crate::tables::Tables;
use crate::walk::Walk;
use proof_tree::Line;
use qc_model::{Problem, ScopeId};
use std::alloc::{AllocError, Global};

/// What the tree in place comes to whose lines these are.
fn read_root(alloc: Global, problem: &Problem, lines: &[Line]) -> Result<Shown, AllocError>
    requires { (t : Tree) × (lines.now ≡ tree_lines t) × CanReadRoot problem.now t }
    ensures { IfOk result (λ s. (t : Tree) → lines.now ≡ tree_lines t → CanReadRoot problem.now t → (v : List ℤ) × Shows (root_finding problem.now t) v s) }
{
    problem.known();
    let tables = Tables::new(alloc, problem)?;
    let mut walk = Walk::new(alloc, problem)?;
    let mut left = LineCursor::new(lines);
    walk.node(&tables, ScopeId(0), &mut left)
}

/// The strategy of a tree in place that comes to an exact verdict, by its lines.
pub(crate) fn plan_of_root(
    alloc: Global,
    problem: &Problem,
    lines: &[Line],
) -> Result<Plan, AllocError>
    requires { (t : Tree) × (lines.now ≡ tree_lines t) × CanReadRoot problem.now t }
    ensures { IfOk result (λ plan. (t : Tree) → lines.now ≡ tree_lines t → CanReadRoot problem.now t → IsTrue (is_exact (root_finding problem.now t).verdict) → plan_of plan ≡ strategy_of problem.now t) }
{
    let shown = read_root(alloc, problem, lines)?;
    Ok(shown.plan)
}

/// The counterstrategy of a tree in place that is lost, by its lines.
pub(crate) fn counter_of_root(
    alloc: Global,
    problem: &Problem,
    lines: &[Line],
) -> Result<Counter, AllocError>
    requires { (t : Tree) × (lines.now ≡ tree_lines t) × CanReadRoot problem.now t }
    ensures { IfOk result (λ counter. (t : Tree) → lines.now ≡ tree_lines t → CanReadRoot problem.now t → IsTrue (is_lost (root_finding problem.now t).verdict) → tree_of_counter counter ≡ counter_of problem.now t) }
{
    let shown = read_root(alloc, problem, lines)?;
    Ok(shown.counter)
}
