//! Whether a part of the bytes is a list that proves what it has to.
ghost use Rattle.std.specs.Prelude.{◌≤◌, ◌^◌, length, IfOk, List, ℕ};
ghost use Rattle.qc_model.specs.Content.{Game};
ghost use Rattle.qc_model.specs.declared.problem.Kind.TheVariants.{Exists, Forall};
ghost use Rattle.lemma_judge.specs.Checking.{Comes as ComesTo, IsProof};
ghost use Rattle.best_judge.specs.Parts.{IsShown};

use lemma_judge::{Checked, ListChecker};
use lemma_text::each_text_is_of_one_list;
use qc_model::{Kind, Problem};
use std::alloc::{AllocError, Global};

/// What a part comes to.
#[derive(Clone, Copy)]
pub(crate) enum Shown {
    /// The text of a list that proves what it has to.
    Proved,
    /// The text of a list that doesn't.
    NotProved,
    /// No list's text, from this place on.
    Fault { at: u64 },
}

/// Whether the bytes are the text of a list that proves that the side which owns the scopes of this kind loses the game.
pub(crate) fn judge_part(
    alloc: Global,
    problem: &Problem,
    bytes: &[u8],
    loser: Kind,
) -> Result<Shown, AllocError>
    requires { length bytes.now ≤ 2 ^ 32 }
    ensures { IfOk result (λ it. IsShown problem.now bytes.now loser it) }
{
    let checked = checked_list(alloc, problem, bytes)?;
    Ok(shown_by(checked, loser))
}

fn checked_list(alloc: Global, problem: &Problem, bytes: &[u8]) -> Result<Checked, AllocError>
    requires { length bytes.now ≤ 2 ^ 32 }
    ensures { IfOk result (λ checked. ComesTo problem.now bytes.now checked) }
{
    let mut checker = ListChecker::new(alloc, problem)?;
    checker.feed(bytes)?;
    Ok(checker.finish())
}

fn shown_by(checked: Checked, loser: Kind) -> Shown
    ensures { (g : Game) (bytes : List ℕ) → ComesTo g bytes checked → IsShown g bytes loser result }
{
    each_text_is_of_one_list();
    match checked {
        Checked::Yes { loser: stated } => stated_by(stated, loser),
        Checked::NotProved => Shown::NotProved,
        Checked::NotACertificate { at } => Shown::Fault { at },
    }
}

// A list proves what it states, and nothing else.
fn stated_by(stated: Kind, loser: Kind) -> Shown
    ensures { (g : Game) (bytes : List ℕ) → IsProof g bytes stated → IsShown g bytes loser result }
{
    match stated {
        Kind::Exists => of_player(loser),
        Kind::Forall => of_opponent(loser),
    }
}

// It proves that the player loses.
fn of_player(loser: Kind) -> Shown
    ensures { (g : Game) (bytes : List ℕ) → IsProof g bytes Exists → IsShown g bytes loser result }
{
    each_text_is_of_one_list();
    match loser {
        Kind::Exists => Shown::Proved,
        Kind::Forall => Shown::NotProved,
    }
}

// It proves that the opponent does.
fn of_opponent(loser: Kind) -> Shown
    ensures { (g : Game) (bytes : List ℕ) → IsProof g bytes Forall → IsShown g bytes loser result }
{
    each_text_is_of_one_list();
    match loser {
        Kind::Exists => Shown::NotProved,
        Kind::Forall => Shown::Proved,
    }
}
