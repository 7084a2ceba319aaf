//! The last value that can be had, and the next better one. Nothing is promised of them: whoever wants to rely on them has them
//! judged.
ghost use Rattle.std.specs.Prelude.{◌≡◌, Some};
ghost use Rattle.zero_sum.specs.Stake.{stake_of as stake_in};

use lemma_solver::solve_by_lemmas;
use qc_model::{Kind, Problem, Sense};
use std::alloc::{AllocError, Global};
use zero_sum::{NoBound, Stake, bounded, greatest_declared, least_declared};

/// A value that can be had, the text of a list that shows it, and that of one which shows that the next better value can't.
#[derive(Drop)]
pub(crate) struct Nearest {
    pub(crate) value: i64,
    pub(crate) had: Vec<u8>,
    pub(crate) not_had: Vec<u8>,
}

// A value, and the text of a list that shows whether it can be had.
#[derive(Drop)]
struct Tried {
    value: i64,
    text: Vec<u8>,
}

// Who wins the game bounded by a value.
#[derive(Drop)]
enum Answer {
    Had(Tried),
    NotHad(Tried),
    Unknown,
}

/// The best value that can be had. None comes where a search gives up, and where not even the worst declared value can be had.
pub(crate) fn bisect(
    alloc: Global,
    problem: &Problem,
    stake: Stake,
    budget: u64,
) -> Result<Option<Nearest>, AllocError>
    requires { stake_in problem.now ≡ Some stake }
{
    let Answer::Had(worst) = try_value(
        alloc,
        problem,
        stake,
        worst_declared(problem, stake),
        budget,
    )?
    else {
        return Ok(None);
    };
    let beyond = one_better(stake.sense, best_declared(problem, stake));
    let Answer::NotHad(beyond) = try_value(alloc, problem, stake, beyond, budget)? else {
        return Ok(None);
    };
    between(alloc, problem, stake, budget, worst, beyond)
}

// The same, between a value that can be had and a better one that can't.
fn between(
    alloc: Global,
    problem: &Problem,
    stake: Stake,
    budget: u64,
    worst: Tried,
    beyond: Tried,
) -> Result<Option<Nearest>, AllocError>
    requires { stake_in problem.now ≡ Some stake }
{
    let mut had = worst;
    let mut not_had = beyond;
    // what lies between halves with each turn
    for _ in 0..64 {
        if one_better(stake.sense, had.value) == not_had.value {
            return Ok(Some(Nearest {
                value: had.value,
                had: had.text,
                not_had: not_had.text,
            }));
        }
        let middle = had.value.saturating_add(not_had.value) / 2;
        match try_value(alloc, problem, stake, middle, budget)? {
            Answer::Had(it) => had = it,
            Answer::NotHad(it) => not_had = it,
            Answer::Unknown => return Ok(None),
        }
    }
    Ok(None)
}

fn try_value(
    alloc: Global,
    problem: &Problem,
    stake: Stake,
    value: i64,
    budget: u64,
) -> Result<Answer, AllocError>
    requires { stake_in problem.now ≡ Some stake }
{
    match bounded(alloc, problem, stake, value) {
        Ok(game) => who_wins(alloc, &game, value, budget),
        Err(NoBound::NoNumber) => Ok(Answer::Unknown),
        Err(NoBound::TooManyConstraints) => Ok(Answer::Unknown),
        Err(NoBound::Memory(error)) => Err(error),
    }
}

fn who_wins(alloc: Global, game: &Problem, value: i64, budget: u64) -> Result<Answer, AllocError> {
    match solve_by_lemmas(alloc, game, budget)? {
        Some(believed) => match believed.loser {
            Kind::Forall => Ok(Answer::Had(Tried {
                value,
                text: believed.text,
            })),
            Kind::Exists => Ok(Answer::NotHad(Tried {
                value,
                text: believed.text,
            })),
        },
        None => Ok(Answer::Unknown),
    }
}

fn worst_declared(problem: &Problem, stake: Stake) -> i64
    requires { stake_in problem.now ≡ Some stake }
{
    match stake.sense {
        Sense::Min => greatest_declared(problem, stake),
        Sense::Max => least_declared(problem, stake),
    }
}

fn best_declared(problem: &Problem, stake: Stake) -> i64
    requires { stake_in problem.now ≡ Some stake }
{
    match stake.sense {
        Sense::Min => least_declared(problem, stake),
        Sense::Max => greatest_declared(problem, stake),
    }
}

fn one_better(sense: Sense, value: i64) -> i64 {
    match sense {
        Sense::Min => value.saturating_sub(1),
        Sense::Max => value.saturating_add(1),
    }
}
