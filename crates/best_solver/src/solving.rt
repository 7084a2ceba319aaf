//! An optimum found by two lists of lemmas.
ghost use Rattle.std.specs.Prelude.{◌≤◌, length, IfOk, IfSome};
ghost use Rattle.best_solver.specs.Best.{IsBest};

use crate::bisection::bisect;
use crate::together::together;
use best_judge::{Verdict, judge_best};
use qc_model::Problem;
use std::alloc::{AllocError, Global};
use zero_sum::stake_of;

/// The optimum of a game, and a text that was judged and proves it.
#[derive(Drop)]
pub struct Best {
    pub value: i64,
    /// The bytes of the text, 1,073,741,824 at most.
    pub text: Vec<u8>,
}

/// The optimum of a game in which both sides care for one quantity. Each value that is tried has so many looks at constraints and
/// lemmas; about 31 are tried at most.
///
/// None comes at once where not both sides care for one quantity. It comes too where a search gives up or its list isn't
/// believed; where not even the worst declared value can be had, so that the game is lost, or what an opponent without a move
/// leaves counts; where an opponent without a move may leave less than the value; where there is no room for the bounds; and
/// where the text is longer than it may be. It fails only where memory runs out.
pub fn best_by_lemmas(
    alloc: Global,
    problem: &Problem,
    budget: u64,
) -> Result<Option<Best>, AllocError>
    ensures { IfOk result (λ found. IfSome found (λ it. IsBest problem.now it)) }
{
    match put_together(alloc, problem, budget)? {
        Some(text) => judged(alloc, problem, text),
        None => Ok(None),
    }
}

// The text of what a search finds.
fn put_together(
    alloc: Global,
    problem: &Problem,
    budget: u64,
) -> Result<Option<Vec<u8>>, AllocError>
    ensures { IfOk result (λ text. IfSome text (λ bytes. length bytes.items ≤ 1073741824)) }
{
    let Some(stake) = stake_of(problem) else {
        return Ok(None);
    };
    match bisect(alloc, problem, stake, budget)? {
        Some(found) => together(alloc, &found),
        None => Ok(None),
    }
}

// A text, where it proves an optimum.
fn judged(alloc: Global, problem: &Problem, text: Vec<u8>) -> Result<Option<Best>, AllocError>
    requires { length text.items ≤ 1073741824 }
    ensures { IfOk result (λ found. IfSome found (λ it. IsBest problem.now it)) }
{
    match judge_best(alloc, problem, text.as_slice())? {
        Verdict::Yes { value } => Ok(Some(Best { value, text })),
        Verdict::NotProved => Ok(None),
        Verdict::NotACertificate { at: _ } => Ok(None),
    }
}
