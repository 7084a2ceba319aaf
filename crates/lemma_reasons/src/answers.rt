//! Variables with which the winner may answer.
ghost use Rattle.std.specs.Prelude.{◌≡◌};
ghost use Rattle.lemma_list.specs.Places.{is_winners as is_winners_in, is_answer as is_answer_in};
ghost use Rattle.lemma_list.specs.InPlace.{no_answer};
ghost use Rattle.lemma_reasons.specs.Answering.{answered_by};

use crate::aim::Aim;
use crate::places::{is_chosen_from, opponent_of, variable_at};
use qc_model::{Kind, Problem, VarId};

/// With which variables the winner may answer: none, or those of this side's scopes from one on.
#[derive(Clone, Copy, PartialEq, Eq)]
pub enum Answers {
    Nobody,
    From { side: Kind, scope: usize },
}

/// Whether the winner may answer with y.
pub fn may_answer(problem: &Problem, answers: Answers, y: VarId) -> bool
    ensures { result ≡ answered_by problem.now answers y.0 }
{
    match answers {
        Answers::Nobody => false,
        Answers::From { side, scope } => is_chosen_from(problem, side, scope, y),
    }
}

/// Nobody answers.
pub fn no_answers(problem: &Problem) -> Answers
    ensures { answered_by problem.now result ≡ no_answer }
{
    let _ = problem;
    Answers::Nobody
}

/// Whether x is a variable that the winner has still to choose at the lemma's position.
pub fn is_winners(aim: &Aim, x: VarId) -> bool
    ensures { result ≡ is_winners_in aim.now.problem.now aim.now.lemma.now x.0 }
{
    is_chosen_from(aim.problem, opponent_of(aim.lemma.loser()), aim.place, x)
}

/// The variables with which the winner may answer to x: those that it has still to choose, of scopes after that of x.
pub fn answers_to(aim: &Aim, x: VarId) -> Answers
    ensures { answered_by aim.now.problem.now result ≡ is_answer_in aim.now.problem.now aim.now.lemma.now x.0 }
{
    match variable_at(aim.problem, x) {
        None => Answers::Nobody,
        Some(variable) => Answers::From {
            side: opponent_of(aim.lemma.loser()),
            scope: aim.place.max(variable.scope.0 as usize + 1),
        },
    }
}

/// Whether the winner may choose y in answer to x.
pub fn is_answer(aim: &Aim, x: VarId, y: VarId) -> bool
    ensures { result ≡ is_answer_in aim.now.problem.now aim.now.lemma.now x.0 y.0 }
{
    may_answer(aim.problem, answers_to(aim, x), y)
}
