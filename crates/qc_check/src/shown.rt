//! Whether what the lines come to shows what the head states.
ghost use Rattle.std.specs.Prelude.{◌≡◌};
ghost use Rattle.qc_check.specs.Shown.{found_shows};

use crate::stated::Stated;
use check_lines::{Answer, shows};
use qc_model::Problem;

/// Whether it does; no answer shows nothing.
pub(crate) fn is_shown(problem: &Problem, answer: Option<Answer>, stated: Stated) -> bool
    ensures { result ≡ found_shows problem.now.scopes answer stated.outcome stated.optimum }
{
    match answer {
        None => false,
        Some(answer) => shows(problem, answer, stated.outcome, stated.optimum),
    }
}
