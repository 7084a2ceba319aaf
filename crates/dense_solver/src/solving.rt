//! A game solved by a dense certificate.
ghost use Rattle.std.specs.Prelude.{◌≤◌, length, IfOk, IfSome};
ghost use Rattle.dense_judge.specs.Checking.{Comes, IsProof};
ghost use Rattle.dense_solver.specs.Shown.{IsShown};

use dense_judge::{Checked, DenseChecker};
use dense_search::certify;
use proof_tree::Outcome;
use qc_model::Problem;
use std::alloc::{AllocError, Global};

/// The most bytes of a certificate's text.
const TEXT_LIMIT: usize = 1_073_741_824;

/// The text of a dense certificate that was judged, and what it states: who wins, with the best value of the first scope's condition
/// where it has one and the game is won.
#[derive(Drop)]
pub struct Shown {
    pub outcome: Outcome,
    pub optimum: Option<i64>,
    /// The bytes of the text, 1,073,741,824 at most.
    pub text: Vec<u8>,
}

/// A dense certificate of the game, found within so many turns, that says who wins.
///
/// None comes where the search gives up; where its text isn't believed, or is longer than a certificate's may be; and where memory
/// runs out, or the numbers of a scope's leaves are larger together than the checker takes.
pub fn solve_densely(alloc: Global, problem: &Problem, turns: u64) -> Option<Shown>
    ensures { IfSome result (λ it. IsShown problem.now it) }
{
    match certify(alloc, problem, turns) {
        Ok(Some(text)) => judged(alloc, problem, text),
        Ok(None) => None,
        Err(AllocError) => None,
    }
}

// A text, where it is that of a certificate that proves what it states.
fn judged(alloc: Global, problem: &Problem, text: Vec<u8>) -> Option<Shown>
    ensures { IfSome result (λ it. IsShown problem.now it) }
{
    if text.len() > TEXT_LIMIT {
        return None;
    }
    match verdict_on(alloc, problem, text.as_slice()) {
        Ok(Checked::Yes { outcome, optimum }) => settled(problem, text, outcome, optimum),
        Ok(Checked::NotProved) => None,
        Ok(Checked::NotACertificate { at: _ }) => None,
        Err(AllocError) => None,
    }
}

// The text with what it states, unless that is left open.
fn settled(
    problem: &Problem,
    text: Vec<u8>,
    outcome: Outcome,
    optimum: Option<i64>,
) -> Option<Shown>
    requires proof { IsProof problem.now text.items outcome optimum }
    requires within { length text.items ≤ 1073741824 }
    ensures { IfSome result (λ it. IsShown problem.now it) }
{
    problem.known();
    match outcome {
        Outcome::True => Some(Shown {
            outcome,
            optimum,
            text,
        }),
        Outcome::False => Some(Shown {
            outcome,
            optimum,
            text,
        }),
        Outcome::Open(_) => None,
    }
}

// What the checker says of a text.
fn verdict_on(alloc: Global, problem: &Problem, text: &[u8]) -> Result<Checked, AllocError>
    requires { length text.now ≤ 1073741824 }
    ensures { IfOk result (λ verdict. Comes problem.now text.now verdict) }
{
    let Ok(mut checker) = DenseChecker::new(alloc, problem) else {
        return Err(AllocError);
    };
    let fed = checker.feed(text);
    let verdict = checker.finish();
    // (let go without a word it would cost the proof half a minute)
    drop(checker);
    fed?;
    Ok(verdict)
}
