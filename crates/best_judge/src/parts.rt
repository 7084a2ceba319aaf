//! Two lists, one behind the other.
ghost use Rattle.std.specs.Prelude.{◌≤◌, ◌<◌, ◌-◌, ◌^◌, length, IfOk, List, ℕ, take, drop};
ghost use Rattle.lemma_judge.specs.Checking.{IsProof};
ghost use Rattle.qc_model.specs.Content.{Game};
ghost use Rattle.qc_model.specs.declared.problem.Kind.TheVariants.{Exists, Forall};
ghost use Rattle.best_judge.specs.Parts.{IsOther, IsShown, AreShown, IsWithin};

use crate::part::{Shown, judge_part};
use qc_model::{Kind, Problem};
use std::alloc::{AllocError, Global};

/// Whether the bytes are two lists, of which the first has so many bytes and proves that the first problem is won, and the
/// other that the second isn't.
pub(crate) fn both_shown(
    alloc: Global,
    won: &Problem,
    lost: &Problem,
    many: u64,
    bytes: &[u8],
) -> Result<Shown, AllocError>
    requires { length bytes.now ≤ 2 ^ 32 }
    ensures shown { IfOk result (λ it. AreShown won.now lost.now many bytes.now it) }
    ensures within { IfOk result (λ it. IsWithin (2 ^ 32) it) }
{
    if (bytes.len() as u64) < many {
        let it = cut_off(alloc, won, many, bytes)?;
        return Ok(it);
    }
    let (first, second) = bytes.split_at(many as usize);
    let first = judge_part(alloc, won, first, Kind::Forall)?;
    let second = judge_part(alloc, lost, second, Kind::Exists)?;
    Ok(joined(first, second, many))
}

// Fewer bytes than the first list has.
fn cut_off(alloc: Global, won: &Problem, many: u64, bytes: &[u8]) -> Result<Shown, AllocError>
    requires small { length bytes.now ≤ 2 ^ 32 }
    requires short { length bytes.now < many }
    ensures shown { IfOk result (λ it. (lost : Game) → AreShown won.now lost many bytes.now it) }
    ensures within { IfOk result (λ it. IsWithin (2 ^ 32) it) }
{
    match judge_part(alloc, won, bytes, Kind::Forall)? {
        Shown::Proved => Ok(Shown::Fault {
            at: bytes.len() as u64,
        }),
        Shown::NotProved => Ok(Shown::Fault {
            at: bytes.len() as u64,
        }),
        Shown::Fault { at } => Ok(Shown::Fault { at }),
    }
}

// What two lists come to, of which the first has so many bytes.
fn joined(first: Shown, second: Shown, many: u64) -> Shown
    requires small { many ≤ 2 ^ 32 }
    requires first { IsWithin (2 ^ 32) first }
    requires second { IsWithin (2 ^ 32 - many) second }
    ensures shown { (won lost : Game) (bytes : List ℕ) → many ≤ length bytes → IsShown won (take many bytes) Forall first → IsShown lost (drop many bytes) Exists second → AreShown won lost many bytes result }
    ensures within { IsWithin (2 ^ 32) result }
{
    match first {
        Shown::Proved => after_proof(second, many),
        Shown::NotProved => after_other(second, many),
        Shown::Fault { at } => Shown::Fault { at },
    }
}

// The same, where the first proves what it has to.
fn after_proof(second: Shown, many: u64) -> Shown
    requires small { many ≤ 2 ^ 32 }
    requires second { IsWithin (2 ^ 32 - many) second }
    ensures shown { (won lost : Game) (bytes : List ℕ) → many ≤ length bytes → IsProof won (take many bytes) Forall → IsShown lost (drop many bytes) Exists second → AreShown won lost many bytes result }
    ensures within { IsWithin (2 ^ 32) result }
{
    match second {
        Shown::Proved => Shown::Proved,
        Shown::NotProved => Shown::NotProved,
        Shown::Fault { at } => Shown::Fault { at: many + at },
    }
}

// The same, where it doesn't.
fn after_other(second: Shown, many: u64) -> Shown
    requires small { many ≤ 2 ^ 32 }
    requires second { IsWithin (2 ^ 32 - many) second }
    ensures shown { (won lost : Game) (bytes : List ℕ) → many ≤ length bytes → IsOther won (take many bytes) Forall → IsShown lost (drop many bytes) Exists second → AreShown won lost many bytes result }
    ensures within { IsWithin (2 ^ 32) result }
{
    match second {
        Shown::Proved => Shown::NotProved,
        Shown::NotProved => Shown::NotProved,
        Shown::Fault { at } => Shown::Fault { at: many + at },
    }
}
