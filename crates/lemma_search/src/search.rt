//! The search.
use crate::attempt::Attempt;
use crate::deciding::next_choice;
use crate::listing::List;
use crate::ordering::Order;
use crate::pacing::Pace;
use crate::shortening::shorten;
use lemma_analysis::Analyst;
use lemma_engine::{Cause, Conflict, Engine};
use qc_model::{Kind, Problem};
use std::alloc::{AllocError, Global};

/// A list of lemmas that says who wins the game, for a plain one, without conditions and aggregates. None comes where the game
/// isn't plain, where the search gives up, where it has looked at as many constraints and lemmas as the budget says, and where
/// it keeps too much. Nothing is promised of a list that comes. It fails only where memory runs out.
///
/// Once it is known who wins, it is found again, as long as that is quick and looks are left: from the values with which the search
/// ended, or what conflicts rested on, every fourth time from nothing in an order by chance, and every other time without the loser's
/// constraints that the shortest list doesn't name. The lemmas of the shortest list are shown anew then, where no scope is restricted.
///
/// What is gone over besides counts for the budget too, so much of it for a look as takes about as long. All lemmas learnt are
/// kept with the steps that show them, up to 12,000,000 literals, sums and steps, where each lemma counts as 16 more: together
/// with the list they take about 1 GB at most. What the values of the variables take, and what one lemma may take, of some
/// steps for each value of the game, comes besides.
pub fn learn(alloc: Global, problem: &Problem, budget: u64) -> Result<Option<List>, AllocError> {
    if !is_plain(problem) {
        return Ok(None);
    }
    // (a `?` on what owns so much costs its proof minutes)
    let Ok(mut attempt) = Attempt::new(alloc, problem, budget) else {
        return Err(AllocError);
    };
    let found = shortest(&mut attempt, budget);
    drop(attempt);
    found
}

// The shortest list that a new search leads to, within so many looks.
fn shortest(attempt: &mut Attempt, budget: u64) -> Result<Option<List>, AllocError> {
    attempt.set_out()?;
    let Some(mut list) = attempt.list()? else {
        return Ok(None);
    };
    let left = budget.saturating_sub(attempt.looks());
    shorten(attempt, &mut list, left)?;
    Ok(Some(list))
}

fn is_plain(problem: &Problem) -> bool {
    problem.known();
    if problem.aggregates() > 0 {
        return false;
    }
    for i in 0..problem.scopes() {
        if problem
            .scope(qc_model::ScopeId(i as u8))
            .condition
            .is_some()
        {
            return false;
        }
    }
    true
}

// What a turn of the search comes to: it goes on, it met a conflict, or no turn is left.
enum Turn {
    Goes,
    Met(Conflict),
    Spent,
}

/// Goes on until the last lemma says who wins, or it gives up.
pub(crate) fn is_decided(engine: &mut Engine, analyst: &mut Analyst) -> Result<bool, AllocError> {
    let mut pace = Pace::new();
    let mut order = Order::new(engine.alloc, engine)?;
    for _ in 0..u64::MAX {
        match one_turn(engine, analyst, &mut pace, &mut order)? {
            Turn::Goes => {}
            Turn::Spent => return Ok(false),
            Turn::Met(conflict) => {
                match learn_from(engine, analyst, &mut pace, conflict)? {
                    Learnt::More => pace.count(),
                    Learnt::All => return Ok(true),
                    Learnt::Stuck => return Ok(false),
                }
                order.begin_again();
            }
        }
        if pace.is_full(engine.live) {
            engine.forget_half()?;
        }
    }
    Ok(false)
}

fn one_turn(
    engine: &mut Engine,
    analyst: &mut Analyst,
    pace: &mut Pace,
    order: &mut Order,
) -> Result<Turn, AllocError> {
    let most = analyst.looks_left();
    if let Some(conflict) = engine.propagate(most)? {
        return Ok(Turn::Met(conflict));
    }
    // else what still waits would be taken for looked at
    if analyst.is_spent(engine) || pace.keeps_too_much() {
        return Ok(Turn::Spent);
    }
    if engine.advance()? {
        return Ok(turn_by(engine.visit_new_lemmas()?));
    }
    if engine.scope >= engine.facts.goal() {
        return Ok(Turn::Met(met_goal(engine.alloc)));
    }
    if pace.is_over() && engine.trail.levels() > 0 {
        engine.go_back(0);
        order.begin_again();
        return Ok(Turn::Goes);
    }
    match next_choice(engine, analyst, order) {
        Some(choice) => engine.decide(choice.x, choice.v)?,
        None => return Ok(Turn::Spent),
    }
    Ok(Turn::Goes)
}

fn turn_by(met: Option<Conflict>) -> Turn {
    match met {
        Some(conflict) => Turn::Met(conflict),
        None => Turn::Goes,
    }
}

// The opponent has lost where all scopes have values and the goal holds.
fn met_goal(alloc: Global) -> Conflict {
    Conflict {
        loser: Kind::Forall,
        cause: Cause::Goal,
        choices: Vec::new(alloc),
    }
}

// What a conflict comes to: a lemma more, the last lemma, or the analysis gives up.
#[derive(Clone, Copy)]
enum Learnt {
    More,
    All,
    Stuck,
}

// Learns from a conflict, and from those that lemmas meet as soon as they are learnt.
fn learn_from(
    engine: &mut Engine,
    analyst: &mut Analyst,
    pace: &mut Pace,
    met: Conflict,
) -> Result<Learnt, AllocError> {
    let mut conflict = met;
    for _ in 0..u64::MAX {
        let Some(lesson) = analyst.study(engine, &conflict)? else {
            return Ok(Learnt::Stuck);
        };
        if lesson.lemma.conditions.is_empty() && lesson.lemma.sums.is_empty() {
            engine.known.push(lesson.lemma)?;
            return Ok(Learnt::All);
        }
        if lesson.levels >= engine.trail.levels() {
            return Ok(Learnt::Stuck);
        }
        pace.keep(&lesson.lemma);
        match engine.learn(lesson.lemma, lesson.levels, lesson.x)? {
            Some(next) => conflict = next,
            None => return Ok(Learnt::More),
        }
    }
    Ok(Learnt::Stuck)
}
