//! A game solved by a list of lemmas.
ghost use Rattle.std.specs.Prelude.{◌≤◌, length, IfOk, IfSome};
ghost use Rattle.lemma_judge.specs.Checking.{Comes};
ghost use Rattle.lemma_solver.specs.Believed.{IsBelieved};

use crate::spelling::text_of;
use lemma_judge::{Checked, ListChecker};
use lemma_search::learn;
use qc_model::{Kind, Problem};
use std::alloc::{AllocError, Global};

/// The text of a list of lemmas that was judged, and proves who wins.
#[derive(Drop)]
pub struct Believed {
    /// The side that owns the scopes of this kind loses the game.
    pub loser: Kind,
    /// The bytes of the text, 1,073,741,824 at most.
    pub text: Vec<u8>,
}

/// A list of lemmas that proves who wins the game, learnt within so many looks at constraints and lemmas.
///
/// None comes where the search gives up, which it does at once where the problem has a condition or an aggregate, where its list
/// isn't believed, and where the text is longer than a list's may be. It fails only where memory runs out.
pub fn solve_by_lemmas(
    alloc: Global,
    problem: &Problem,
    budget: u64,
) -> Result<Option<Believed>, AllocError>
    ensures { IfOk result (λ found. IfSome found (λ it. IsBelieved problem.now it)) }
{
    match learnt(alloc, problem, budget)? {
        Some(text) => judged(alloc, problem, text),
        None => Ok(None),
    }
}

// The text of what a search learns.
fn learnt(alloc: Global, problem: &Problem, budget: u64) -> Result<Option<Vec<u8>>, AllocError>
    ensures { IfOk result (λ text. IfSome text (λ bytes. length bytes.items ≤ 1073741824)) }
{
    match learn(alloc, problem, budget)? {
        Some(list) => text_of(alloc, list),
        None => Ok(None),
    }
}

// A text, where it is that of a list that proves what it states.
fn judged(alloc: Global, problem: &Problem, text: Vec<u8>) -> Result<Option<Believed>, AllocError>
    requires { length text.items ≤ 1073741824 }
    ensures { IfOk result (λ found. IfSome found (λ it. IsBelieved problem.now it)) }
{
    match verdict_on(alloc, problem, text.as_slice())? {
        Checked::Yes { loser } => Ok(Some(Believed { loser, text })),
        Checked::NotProved => Ok(None),
        Checked::NotACertificate { at: _ } => Ok(None),
    }
}

// What the checker says of a text.
fn verdict_on(alloc: Global, problem: &Problem, text: &[u8]) -> Result<Checked, AllocError>
    requires { length text.now ≤ 1073741824 }
    ensures { IfOk result (λ verdict. Comes problem.now text.now verdict) }
{
    let mut checker = ListChecker::new(alloc, problem)?;
    checker.feed(text)?;
    Ok(checker.finish())
}
