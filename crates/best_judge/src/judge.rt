//! The judge of the bytes.
ghost use Rattle.std.specs.Prelude.{◌≡◌, ◌≤◌, ◌+◌, ◌^◌, ◌++◌, length, IfOk, List, ℕ};
ghost use Rattle.best_text.specs.Text.{head_text, HeadFits};
ghost use Rattle.best_judge.specs.Asked.{AreAsked, NotAsked};
ghost use Rattle.best_judge.specs.Parts.{AreShown, IsWithin};
ghost use Rattle.best_judge.specs.Proof.{Comes};
ghost use Rattle.qc_model.specs.Content.{Game};

use crate::asked::asked;
use crate::part::Shown;
use crate::parts::both_shown;
use crate::verdict::Verdict;
use best_text::{Head, read_head};
use qc_model::Problem;
use std::alloc::{AllocError, Global};
use zero_sum::optimum_by_two_games;

/// What bytes come to, up to 2^32 of them, which are all in memory. It fails only where memory runs out.
pub fn judge_best(alloc: Global, problem: &Problem, bytes: &[u8]) -> Result<Verdict, AllocError>
    requires { length bytes.now ≤ 2 ^ 32 }
    ensures { IfOk result (λ verdict. Comes problem.now bytes.now verdict) }
{
    match read_head(bytes) {
        Head::Whole { value, many, size } => {
            behind_head(alloc, problem, value, many, size, &bytes[size..])
        }
        Head::Bad { at } => Ok(Verdict::NotACertificate { at: at as u64 }),
    }
}

// What the lists behind a head of so many bytes come to.
fn behind_head(
    alloc: Global,
    problem: &Problem,
    value: i64,
    many: u64,
    size: usize,
    lists: &[u8],
) -> Result<Verdict, AllocError>
    requires fits { HeadFits value many }
    requires size { size ≡ length (head_text value many) }
    requires small { size + length lists.now ≤ 2 ^ 32 }
    ensures { IfOk result (λ verdict. Comes problem.now (head_text value many ++ lists.now) verdict) }
{
    match asked(alloc, problem, value)? {
        Some(games) => against(alloc, problem, &games, value, many, size, lists),
        None => against_none(alloc, problem, value, many, size, lists),
    }
}

// The same, where the value asks for two games.
fn against(
    alloc: Global,
    problem: &Problem,
    games: &(Problem, Problem),
    value: i64,
    many: u64,
    size: usize,
    lists: &[u8],
) -> Result<Verdict, AllocError>
    requires fits { HeadFits value many }
    requires size { size ≡ length (head_text value many) }
    requires small { size + length lists.now ≤ 2 ^ 32 }
    requires asked { AreAsked problem.now value games.now.0 games.now.1 }
    ensures { IfOk result (λ verdict. Comes problem.now (head_text value many ++ lists.now) verdict) }
{
    let shown = both_shown(alloc, &games.0, &games.1, many, lists)?;
    Ok(verdict_of(problem, shown, value, size))
}

// The same, where it asks for none. Whether they are lists at all doesn't hang on the problem.
fn against_none(
    alloc: Global,
    problem: &Problem,
    value: i64,
    many: u64,
    size: usize,
    lists: &[u8],
) -> Result<Verdict, AllocError>
    requires fits { HeadFits value many }
    requires size { size ≡ length (head_text value many) }
    requires small { size + length lists.now ≤ 2 ^ 32 }
    requires asked { NotAsked problem.now value }
    ensures { IfOk result (λ verdict. Comes problem.now (head_text value many ++ lists.now) verdict) }
{
    let shown = both_shown(alloc, problem, problem, many, lists)?;
    Ok(no_verdict(problem, shown, value, size))
}

// What the lists come to, where they were held against the two problems that the value asks for.
fn verdict_of(problem: &Problem, shown: Shown, value: i64, size: usize) -> Verdict
    requires size { size ≤ 2 ^ 32 }
    requires within { IsWithin (2 ^ 32) shown }
    ensures { (won lost : Game) (many : ℕ) (lists : List ℕ) → HeadFits value many → size ≡ length (head_text value many) → AreAsked problem.now value won lost → AreShown won lost many lists shown → Comes problem.now (head_text value many ++ lists) result }
{
    problem.known();
    optimum_by_two_games();
    match shown {
        Shown::Proved => Verdict::Yes { value },
        Shown::NotProved => Verdict::NotProved,
        Shown::Fault { at } => Verdict::NotACertificate {
            at: size as u64 + at,
        },
    }
}

// What they come to, where the value asks for none.
fn no_verdict(problem: &Problem, shown: Shown, value: i64, size: usize) -> Verdict
    requires size { size ≤ 2 ^ 32 }
    requires within { IsWithin (2 ^ 32) shown }
    ensures { (won lost : Game) (many : ℕ) (lists : List ℕ) → HeadFits value many → size ≡ length (head_text value many) → NotAsked problem.now value → AreShown won lost many lists shown → Comes problem.now (head_text value many ++ lists) result }
{
    match shown {
        Shown::Proved => Verdict::NotProved,
        Shown::NotProved => Verdict::NotProved,
        Shown::Fault { at } => Verdict::NotACertificate {
            at: size as u64 + at,
        },
    }
}
