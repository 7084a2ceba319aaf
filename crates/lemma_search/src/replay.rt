//! The steps of a lemma taken once more, on a box of their own: those that do nothing there are left out.
use crate::listing::{Shown, Use};
use lemma_engine::{Condition, Finish, Known, Taken};
use lemma_ground::{Boxes, Cut, Why};
use lemma_list::{Ending, Lemma, LemmaId, Literal, Reason, Step, SumLiteral};
use qc_model::VarId;
use std::alloc::{AllocError, Global};

/// The lemma as a list has it, with those of its steps that leave fewer values, up to the first that leaves none.
pub(crate) fn replayed(
    alloc: Global,
    bench: &mut Boxes,
    lemma: &Known,
    uses: &[Use],
) -> Result<Shown, AllocError> {
    bench.open_level()?;
    let shown = retaken(alloc, bench, lemma, uses);
    bench.close_to(0);
    shown
}

fn retaken(
    alloc: Global,
    bench: &mut Boxes,
    lemma: &Known,
    uses: &[Use],
) -> Result<Shown, AllocError> {
    let mut told = Lemma::new(alloc, lemma.loser);
    for condition in lemma.conditions.as_slice() {
        tell_condition(&mut told, condition)?;
        cut_to(bench, condition)?;
    }
    for sum in lemma.sums.as_slice() {
        told.push_sum(SumLiteral {
            c: sum.c,
            lo: sum.lo,
            hi: sum.hi,
        })?;
    }
    let mut steps = Vec::new(alloc);
    let mut ending = ending_of(lemma.finish, uses);
    for step in lemma.taken.as_slice() {
        match retake(bench, step)? {
            Cut::Nothing => {}
            Cut::Some => steps.push(told_step(step, uses))?,
            Cut::Emptied => {
                steps.push(told_step(step, uses))?;
                ending = Ending::Emptied;
                break;
            }
        }
    }
    Ok(Shown {
        lemma: told,
        steps,
        ending,
        forgotten: Vec::new(alloc),
    })
}

fn tell_condition(told: &mut Lemma, condition: &Condition) -> Result<(), AllocError> {
    let x = condition.x;
    if condition.ranges.is_empty() {
        return told.push_literal(Literal {
            x,
            lo: condition.lo,
            hi: condition.hi,
        });
    }
    for range in condition.ranges.as_slice() {
        told.push_literal(Literal {
            x,
            lo: range.lo,
            hi: range.hi,
        })?;
    }
    Ok(())
}

// Leaves the values that meet the condition.
fn cut_to(bench: &mut Boxes, condition: &Condition) -> Result<(), AllocError> {
    keep(bench, condition.x, condition.lo, condition.hi)?;
    let mut end: Option<i64> = None;
    for range in condition.ranges.as_slice() {
        if let Some(before) = end {
            bench.cut(
                condition.x,
                before.saturating_add(1),
                range.lo.saturating_sub(1),
            )?;
        }
        end = Some(range.hi);
    }
    Ok(())
}

// Leaves the values from lo to hi.
fn keep(bench: &mut Boxes, x: VarId, lo: i64, hi: i64) -> Result<Cut, AllocError> {
    let (least, greatest) = (bench.least(x), bench.greatest(x));
    let below = bench.cut(x, least, lo.saturating_sub(1))?;
    let above = bench.cut(x, hi.saturating_add(1), greatest)?;
    if below == Cut::Nothing {
        Ok(above)
    } else {
        Ok(below)
    }
}

fn retake(bench: &mut Boxes, step: &Taken) -> Result<Cut, AllocError> {
    match step {
        Taken::Cut { x, lo, hi, .. } => bench.cut(*x, *lo, *hi),
        Taken::Choose { x, v } => {
            if bench.is_fixed(*x) {
                return Ok(Cut::Nothing);
            }
            keep(bench, *x, *v, *v)
        }
    }
}

fn told_step(step: &Taken, uses: &[Use]) -> Step {
    match step {
        Taken::Cut { x, lo, hi, why } => Step::Cut {
            x: *x,
            lo: *lo,
            hi: *hi,
            by: match why {
                Why::Rule(c) => Reason::Constraint(*c),
                Why::Lemma(n) => Reason::Lemma(number_of(uses, *n)),
                Why::Decided => Reason::Lemma(LemmaId(u32::MAX)),
            },
        },
        Taken::Choose { x, v } => Step::Choose { x: *x, v: *v },
    }
}

fn number_of(uses: &[Use], n: usize) -> LemmaId {
    match uses.get(n) {
        Some(it) => it.number.unwrap_or(LemmaId(u32::MAX)),
        None => LemmaId(u32::MAX),
    }
}

fn ending_of(finish: Finish, uses: &[Use]) -> Ending {
    match finish {
        Finish::Emptied => Ending::Emptied,
        Finish::Rule(c) => Ending::Lost(Reason::Constraint(c)),
        Finish::Lemma(n) => Ending::Lost(Reason::Lemma(number_of(uses, n))),
        Finish::Goal => Ending::Goal,
    }
}
