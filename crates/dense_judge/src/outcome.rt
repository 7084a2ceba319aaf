//! Whether an answer shows what the head states.
ghost use Rattle.std.specs.Prelude.{◌≡◌};
ghost use Rattle.dense_judge.specs.Shown.{is_shown as is_shown_by};

use crate::heads::Head;
use check_lines::{Answer as Told, shows};
use dense_check::Answer;
use qc_model::Problem;

/// Whether what the lines come to, if anything, shows this outcome with this optimum.
pub(crate) fn is_shown(problem: &Problem, answer: Option<Answer>, head: Head) -> bool
    ensures { result ≡ is_shown_by problem.now.scopes answer head }
{
    let Some(answer) = answer else {
        return false;
    };
    let told = Told {
        found: answer.found,
        own: answer.own,
        turns: answer.turns,
        has_open: answer.has_open,
    };
    shows(problem, told, head.outcome, head.optimum)
}
