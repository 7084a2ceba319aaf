//! Whether an answer shows an outcome.
ghost use Rattle.std.specs.Prelude.{◌≡◌, []};
ghost use Rattle.qc_model.specs.Verdict.{is_exact as is_exact_verdict, is_lost as is_lost_verdict, is_unknown as is_unknown_verdict};
ghost use Rattle.joins.specs.Seen.{verdict_of};
ghost use Rattle.proof_tree.specs.Proves.{optimises_first as optimises, is_value as is_value_of};
ghost use Rattle.proof_tree.specs.declared.tree.Outcome.TheVariants as outcome_of;
ghost use Rattle.check_lines.specs.Shown.{answer_shows};

use crate::answer::Answer;
use joins::Found;
use proof_tree::Outcome;
use qc_model::{Kind, Problem, ScopeId};

fn is_exact(found: Found) -> bool
    ensures { result ≡ is_exact_verdict (verdict_of found []) }
{
    match found {
        Found::Exact => true,
        Found::Lost => false,
        Found::AtMost(_) => false,
        Found::Unknown => false,
    }
}

fn is_lost(found: Found) -> bool
    ensures { result ≡ is_lost_verdict (verdict_of found []) }
{
    match found {
        Found::Lost => true,
        Found::Exact => false,
        Found::AtMost(_) => false,
        Found::Unknown => false,
    }
}

fn is_unknown(found: Found) -> bool
    ensures { result ≡ is_unknown_verdict (verdict_of found []) }
{
    match found {
        Found::Unknown => true,
        Found::Exact => false,
        Found::Lost => false,
        Found::AtMost(_) => false,
    }
}

/// Whether the first scope is the player's and optimises.
fn optimises_first(problem: &Problem) -> bool
    ensures { result ≡ optimises problem.now.scopes }
{
    if problem.scopes() == 0 {
        return false;
    }
    let first = problem.scope(ScopeId(0));
    match first.kind {
        Kind::Exists => first.condition.is_some(),
        Kind::Forall => false,
    }
}

/// Whether this is the value.
fn is_value(value: i64, own: Option<i64>) -> bool
    ensures { result ≡ is_value_of value own }
{
    match own {
        None => false,
        Some(best) => value == best,
    }
}

fn shows_true(problem: &Problem, answer: Answer, optimum: Option<i64>) -> bool
    ensures { result ≡ answer_shows problem.now.scopes answer outcome_of.True optimum }
{
    if !is_exact(answer.found) {
        return false;
    }
    let optimises = optimises_first(problem);
    match optimum {
        None => !optimises,
        Some(value) => optimises && is_value(value, answer.own),
    }
}

fn shows_false(problem: &Problem, answer: Answer, optimum: Option<i64>) -> bool
    ensures { result ≡ answer_shows problem.now.scopes answer outcome_of.False optimum }
{
    match optimum {
        None => is_lost(answer.found),
        Some(_) => false,
    }
}

fn shows_open(problem: &Problem, answer: Answer, turns: u64, optimum: Option<i64>) -> bool
    ensures { result ≡ answer_shows problem.now.scopes answer (outcome_of.Open turns) optimum }
{
    match optimum {
        None => is_unknown(answer.found) && answer.turns == turns && answer.has_open,
        Some(_) => false,
    }
}

/// Whether lines that come to this answer show this outcome with this optimum: that the game is won by an exact verdict,
/// that it isn't by a lost one, and that it was left open after so many turns by an unknown one, with as many cases taken
/// and one left open.
///
/// An optimum is asked for where the first scope is the player's and optimises and the game is won; it is the answer's
/// own value then. Elsewhere none may stand.
pub fn shows(problem: &Problem, answer: Answer, outcome: Outcome, optimum: Option<i64>) -> bool
    ensures { result ≡ answer_shows problem.now.scopes answer outcome optimum }
{
    match outcome {
        Outcome::True => shows_true(problem, answer, optimum),
        Outcome::False => shows_false(problem, answer, optimum),
        Outcome::Open(turns) => shows_open(problem, answer, turns, optimum),
    }
}
