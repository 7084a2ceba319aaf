//! Whether what a certificate's head states can be shown at all, which takes no memory to tell.
ghost use Rattle.std.specs.Prelude.{◌≡◌};
ghost use Rattle.proof_tree.specs.Proves.{optimises_first};
ghost use Rattle.qc_play.specs.Heads.{is_head as is_head_of};

use check_lines::{Answer, Found, shows};
use proof_tree::Outcome;
use qc_model::Problem;

/// Whether the first scope is the player's and optimises. A game that is won shows no outcome without an optimum there.
fn optimises(problem: &Problem) -> bool
    ensures { result ≡ optimises_first problem.now.scopes }
{
    let won = Answer {
        found: Found::Exact,
        own: None,
        turns: 0,
        has_open: false,
    };
    !shows(problem, won, Outcome::True, None)
}

/// Whether some tree may show this outcome with this optimum: an optimum stands beside True where the first scope
/// optimises, and there alone.
pub(crate) fn is_head(problem: &Problem, outcome: Outcome, optimum: Option<i64>) -> bool
    ensures { result ≡ is_head_of problem.now.scopes outcome optimum }
{
    match (outcome, optimum) {
        (Outcome::True, None) => !optimises(problem),
        (Outcome::True, Some(_value)) => optimises(problem),
        (Outcome::False, None) => true,
        (Outcome::False, Some(_value)) => false,
        (Outcome::Open(_turns), None) => true,
        (Outcome::Open(_turns), Some(_value)) => false,
    }
}
