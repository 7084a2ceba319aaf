//! What the lines of a certificate come to.
ghost use Rattle.std.specs.Prelude.{◌≡◌, ◌≤◌, ◌^◌, true, Some, IfOk, length};
ghost use Rattle.proof_tree.specs.Tree.{Tree};
ghost use Rattle.proof_tree.specs.Counts.{depth_of};
ghost use Rattle.proof_tree.specs.InPlace.{root_in_place};
ghost use Rattle.proof_tree.specs.Lines.{tree_lines};
ghost use Rattle.check_lines.specs.declared.answer.Answer.{Answer as Told};
ghost use Rattle.check_lines.specs.Found.{IsAnswer};

use crate::answer::Answer;
use crate::laws::answers_are_right;
use crate::machine::Machine;
use proof_tree::Line;
use qc_model::Problem;
use std::alloc::{AllocError, Global};

/// What these lines come to: the answer of the tree whose lines they are, each in place; None where they are the lines of
/// no such tree, or of one that nests more than 1,000 deep. It fails only where memory runs out.
pub fn judge_lines(
    alloc: Global,
    problem: &Problem,
    lines: &[Line],
) -> Result<Option<Answer>, AllocError>
    requires few { length lines.now ≤ 2 ^ 32 }
    ensures right { IfOk result (λ o. (f : Told) → o ≡ Some f → (t : Tree) × (lines.now ≡ tree_lines t) × IsAnswer problem.now t f) }
    ensures all { IfOk result (λ o. (t : Tree) → lines.now ≡ tree_lines t → depth_of t ≤ 1000 → root_in_place problem.now t ≡ true → (f : Told) × (o ≡ Some f) × IsAnswer problem.now t f) }
{
    answers_are_right();
    let mut machine = Machine::new(alloc, problem)?;
    machine.lines(lines);
    Ok(machine.finish())
}
