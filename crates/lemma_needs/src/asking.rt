//! Which changes a constraint needs to be refuted, or to hold: as few as are found by leaving out one after the other.
use crate::bench::Bench;
use crate::marks::{Needs, SumUse};
use lemma_engine::{Choice, Engine};
use lemma_ground::{Linear, Total};
use qc_model::{Arg, ConId, VarId};
use std::alloc::AllocError;

/// What is asked: whether the constraint is refuted by the changes before a place, where `kept`, if any, has its values from
/// `lo` to `hi` alone and the choices are taken; or whether it holds. The variables of scopes from `below` on have the values
/// that they have now.
#[derive(Clone, Copy)]
pub struct Question<'q> {
    pub c: ConId,
    pub end: usize,
    pub kept: Option<Kept>,
    pub choices: &'q [Choice],
    pub holds: bool,
    pub below: usize,
}

#[derive(Clone, Copy)]
pub struct Kept {
    pub x: VarId,
    pub lo: i64,
    pub hi: i64,
}

// A change that may be needed, by the number of its variable among the constraint's own, and whether it was tried already.
#[derive(Clone, Copy)]
struct Candidate {
    group: usize,
    place: usize,
    is_used: bool,
    is_tried: bool,
}

/// More changes than these aren't tried one by one.
const MOST_TRIED: usize = 60;

/// More changes of one variable than these aren't either.
const MOST_OF_ONE: usize = 12;

/// To find so many changes counts as a test.
const AS_A_TEST: usize = 128;

/// Appends the places of the changes that are needed, and counts the tests that this takes.
pub fn needed(
    engine: &Engine,
    bench: &mut Bench,
    question: &Question,
    needs: &mut Needs,
    tests: &mut u64,
) -> Result<(), AllocError> {
    let mut candidates = candidates_of(engine, question)?;
    *tests = tests.saturating_add((candidates.len() / AS_A_TEST) as u64);
    if candidates.len() <= MOST_TRIED
        && shows(engine, bench, question, &candidates, tests)?
        && !is_reduced_by_sum(engine, bench, question, &mut candidates, tests)?
    {
        reduce(engine, bench, question, &mut candidates, tests)?;
    }
    let sum = sum_asked(engine, question);
    for candidate in candidates.as_slice() {
        if candidate.is_used {
            needs.add(candidate.place, sum.is_some())?;
        }
    }
    if let Some(sum) = sum {
        needs.sums.push(sum)?;
    }
    Ok(())
}

// What is asked of a linear constraint's sum.
fn sum_asked(engine: &Engine, question: &Question) -> Option<SumUse> {
    let linear = engine.facts.linear_of(question.c)?;
    match linear.bound {
        Arg::Num(_) => Some(SumUse {
            c: question.c,
            no_less: linear.is_equal || !question.holds,
            no_more: linear.is_equal || question.holds,
        }),
        Arg::Var(_) => None,
    }
}

// Leaves out what a linear constraint doesn't need, by what each variable adds to its sum, where each has one change at most. Says
// whether that was done, and what is left was seen to show what is asked.
fn is_reduced_by_sum(
    engine: &Engine,
    bench: &mut Bench,
    question: &Question,
    candidates: &mut Vec<Candidate>,
    tests: &mut u64,
) -> Result<bool, AllocError> {
    let Some(linear) = engine.facts.linear_of(question.c) else {
        return Ok(false);
    };
    if matches!(linear.bound, Arg::Var(_)) || has_two_of_one(candidates) {
        return Ok(false);
    }
    bench.open()?;
    let _ = lay_given(engine, bench, question)?;
    let before = ends_of(engine, bench, candidates)?;
    let _ = lay(engine, bench, candidates, Part::All)?;
    leave_out_by_sum(engine, bench, linear, question.holds, candidates, &before)?;
    bench.close();
    if shows(engine, bench, question, candidates, tests)? {
        return Ok(true);
    }
    for candidate in candidates.iter_mut() {
        candidate.is_used = true;
    }
    Ok(false)
}

// The candidates of one variable stand one after the other.
fn has_two_of_one(candidates: &[Candidate]) -> bool {
    let mut last: Option<usize> = None;
    for candidate in candidates {
        if last == Some(candidate.group) {
            return true;
        }
        last = Some(candidate.group);
    }
    false
}

// The ends that the candidates' variables have on the bench.
fn ends_of(
    engine: &Engine,
    bench: &Bench,
    candidates: &[Candidate],
) -> Result<Vec<(i64, i64)>, AllocError> {
    let mut ends = Vec::new(engine.alloc);
    for candidate in candidates {
        ends.push(bench.ends(variable_of(engine, candidate)))?;
    }
    Ok(ends)
}

fn variable_of(engine: &Engine, candidate: &Candidate) -> VarId {
    engine
        .trail
        .at(candidate.place)
        .map_or(VarId(u16::MAX), |it| it.x)
}

// What a variable with these ends adds to a sum.
fn added(factor: i64, ends: (i64, i64)) -> Total {
    let (least, greatest) = ends;
    let (a, b) = (
        factor.saturating_mul(least),
        factor.saturating_mul(greatest),
    );
    Total {
        lo: a.min(b),
        hi: a.max(b),
    }
}

// Leaves out one candidate after the other, the latest first, as long as the sum keeps the constraint without it, or refutes it. All
// are laid; without one, its variable has the ends from before.
fn leave_out_by_sum(
    engine: &Engine,
    bench: &Bench,
    linear: &Linear,
    holds: bool,
    candidates: &mut Vec<Candidate>,
    before: &[(i64, i64)],
) -> Result<(), AllocError> {
    let mut order: Vec<(usize, usize)> = Vec::new(engine.alloc);
    for (k, candidate) in candidates.iter().enumerate() {
        order.push((candidate.place, k))?;
    }
    order.sort_unstable();
    let mut sum = bench.total(linear);
    for (_, k) in order.iter().rev() {
        let (Some(candidate), Some(ends)) = (candidates.get_mut(*k), before.get(*k)) else {
            continue;
        };
        let x = variable_of(engine, candidate);
        let factor = linear.factor_of(x);
        let (with, without) = (added(factor, bench.ends(x)), added(factor, *ends));
        let rest = Total {
            lo: sum.lo.saturating_sub(with.lo).saturating_add(without.lo),
            hi: sum.hi.saturating_sub(with.hi).saturating_add(without.hi),
        };
        if bench.is_told(linear, rest, holds) {
            candidate.is_used = false;
            sum = rest;
        }
    }
    Ok(())
}

fn candidates_of(engine: &Engine, question: &Question) -> Result<Vec<Candidate>, AllocError> {
    let mut candidates = Vec::new(engine.alloc);
    for (group, x) in engine.facts.own_of(question.c).iter().enumerate() {
        if engine.facts.scope_of(*x) >= question.below {
            continue;
        }
        let mut next = engine.trail.last_before(*x, question.end);
        for _ in 0..engine.trail.len() {
            let Some(place) = next else {
                break;
            };
            let Some(change) = engine.trail.at(place) else {
                break;
            };
            let counts = match question.kept {
                Some(kept) if kept.x.0 == x.0 => change.touches(kept.lo, kept.hi),
                _ => true,
            };
            if counts {
                candidates.push(Candidate {
                    group,
                    place,
                    is_used: true,
                    is_tried: false,
                })?;
            }
            next = change.before;
        }
    }
    Ok(candidates)
}

// Whether the changes in use show what is asked.
fn shows(
    engine: &Engine,
    bench: &mut Bench,
    question: &Question,
    candidates: &[Candidate],
    tests: &mut u64,
) -> Result<bool, AllocError> {
    bench.open()?;
    let is_laid = lay_given(engine, bench, question)? && lay(engine, bench, candidates, Part::All)?;
    let answer = is_laid && is_shown(engine, bench, question, tests);
    bench.close();
    Ok(answer)
}

// Whether what was laid shows what is asked.
fn is_shown(engine: &Engine, bench: &Bench, question: &Question, tests: &mut u64) -> bool {
    *tests = tests.saturating_add(1);
    if question.holds {
        bench.keeps(engine, question.c)
    } else {
        bench.refutes(question.c)
    }
}

// Lays what the question gives, and says whether values are left.
fn lay_given(engine: &Engine, bench: &mut Bench, question: &Question) -> Result<bool, AllocError> {
    for x in engine.facts.own_of(question.c) {
        if engine.facts.scope_of(*x) >= question.below {
            let v = engine.boxes.least(*x);
            if !bench.keep(*x, v, v)? {
                return Ok(false);
            }
        }
    }
    if let Some(kept) = question.kept
        && !bench.keep(kept.x, kept.lo, kept.hi)?
    {
        return Ok(false);
    }
    bench.choose(question.choices)
}

// Which of the changes in use are laid: all, those that were tried, or those of one variable.
#[derive(Clone, Copy)]
enum Part {
    All,
    Tried,
    Group(usize),
}

fn is_in(part: Part, candidate: &Candidate) -> bool {
    candidate.is_used
        && match part {
            Part::All => true,
            Part::Tried => candidate.is_tried,
            Part::Group(group) => candidate.group == group,
        }
}

// Lays changes, and says whether values are left.
fn lay(
    engine: &Engine,
    bench: &mut Bench,
    candidates: &[Candidate],
    part: Part,
) -> Result<bool, AllocError> {
    for candidate in candidates {
        if is_in(part, candidate)
            && let Some(change) = engine.trail.at(candidate.place)
            && !bench.make(&change)?
        {
            return Ok(false);
        }
    }
    Ok(true)
}

// Leaves out the changes of one variable after the other, and then single ones, as long as the others show it. All together
// leave values, so fewer do.
//
// What isn't tried yet is laid once, that which is tried last undermost, so that each try takes the uppermost away and lays
// only what was found to be needed before.
fn reduce(
    engine: &Engine,
    bench: &mut Bench,
    question: &Question,
    candidates: &mut Vec<Candidate>,
    tests: &mut u64,
) -> Result<(), AllocError> {
    let order = order_of(engine, candidates)?;
    bench.open()?;
    let _ = lay_given(engine, bench, question)?;
    for group in order.as_slice().iter().rev() {
        bench.open()?;
        let _ = lay(engine, bench, candidates, Part::Group(*group))?;
    }
    for (k, group) in order.as_slice().iter().enumerate() {
        let under = order.len().saturating_sub(k);
        bench.close_to(under);
        bench.open()?;
        let _ = lay(engine, bench, candidates, Part::Tried)?;
        try_without(candidates, *group);
        if !is_shown(engine, bench, question, tests) {
            use_group(candidates, *group);
            reduce_group(engine, bench, question, candidates, *group, under, tests)?;
        }
    }
    bench.close();
    Ok(())
}

// Leaves single changes of a variable out that are needed together. All that is used besides lies on the bench.
fn reduce_group(
    engine: &Engine,
    bench: &mut Bench,
    question: &Question,
    candidates: &mut Vec<Candidate>,
    group: usize,
    under: usize,
    tests: &mut u64,
) -> Result<(), AllocError> {
    let count = count_in(candidates, group);
    if count < 2 || count > MOST_OF_ONE {
        return Ok(());
    }
    for k in 0..candidates.len() {
        if !set_used(candidates, k, group, false) {
            continue;
        }
        bench.open()?;
        let _ = lay(engine, bench, candidates, Part::Group(group))?;
        if !is_shown(engine, bench, question, tests) {
            set_used(candidates, k, group, true);
        }
        bench.close_to(under.saturating_add(1));
    }
    Ok(())
}

// The groups, those first whose last change is late.
fn order_of(engine: &Engine, candidates: &[Candidate]) -> Result<Vec<usize>, AllocError> {
    let mut latest: Vec<(usize, usize)> = Vec::new(engine.alloc);
    for candidate in candidates {
        let is_new = match latest.last() {
            Some((_, group)) => *group != candidate.group,
            None => true,
        };
        if is_new {
            latest.push((candidate.place, candidate.group))?;
        }
    }
    latest.sort_unstable();
    let mut order = Vec::new(engine.alloc);
    for (_, group) in latest.iter().rev() {
        order.push(*group)?;
    }
    Ok(order)
}

// Leaves the changes of a variable out, which counts as tried.
fn try_without(candidates: &mut [Candidate], group: usize) {
    for candidate in candidates.iter_mut() {
        if candidate.group == group {
            candidate.is_used = false;
            candidate.is_tried = true;
        }
    }
}

fn use_group(candidates: &mut [Candidate], group: usize) {
    for candidate in candidates.iter_mut() {
        if candidate.group == group {
            candidate.is_used = true;
        }
    }
}

fn count_in(candidates: &[Candidate], group: usize) -> usize {
    candidates.iter().filter(|it| it.group == group).count()
}

// Says whether the k-th is of the group.
fn set_used(candidates: &mut [Candidate], k: usize, group: usize, is_used: bool) -> bool {
    match candidates.get_mut(k) {
        Some(candidate) if candidate.group == group => {
            candidate.is_used = is_used;
            true
        }
        _ => false,
    }
}
