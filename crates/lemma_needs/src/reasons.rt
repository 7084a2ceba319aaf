//! What a change rests on.
use crate::asking::{Kept, Question, needed};
use crate::bench::Bench;
use crate::marks::{Marks, Needs, SumUse};
use lemma_engine::{Condition, Engine, Known, Range};
use lemma_ground::{Change, Why};
use qc_model::{ConId, VarId};
use std::alloc::AllocError;

/// The ends of a sum's range where nothing is said of it.
pub const LEAST_SUM: i64 = -(1 << 62);

pub const GREATEST_SUM: i64 = 1 << 62;

// Appends the places of a variable's changes before a place.
fn changes_of(
    engine: &Engine,
    x: VarId,
    end: usize,
    places: &mut Vec<usize>,
) -> Result<(), AllocError> {
    let mut next = engine.trail.last_before(x, end);
    for _ in 0..engine.trail.len() {
        let Some(place) = next else {
            break;
        };
        places.push(place)?;
        next = match engine.trail.at(place) {
            Some(change) => change.before,
            None => None,
        };
    }
    Ok(())
}

/// Appends a variable's changes before a place.
pub fn add_changes_of(
    engine: &Engine,
    x: VarId,
    end: usize,
    needs: &mut Needs,
) -> Result<(), AllocError> {
    let mut next = engine.trail.last_before(x, end);
    for _ in 0..engine.trail.len() {
        let Some(place) = next else {
            break;
        };
        needs.add(place, false)?;
        next = match engine.trail.at(place) {
            Some(change) => change.before,
            None => None,
        };
    }
    Ok(())
}

/// What is left of a variable's domain after some changes, as ranges of numbers in order.
pub fn left_by(engine: &Engine, x: VarId, places: &[usize]) -> Result<Vec<Range>, AllocError> {
    let mut lo = engine.facts.least_of(x);
    let mut hi = engine.facts.greatest_of(x);
    let mut gone: Vec<(i64, i64)> = Vec::new(engine.alloc);
    for place in places {
        if let Some(change) = engine.trail.at(*place) {
            if change.keeps {
                lo = lo.max(change.lo);
                hi = hi.min(change.hi);
            } else {
                gone.push((change.lo, change.hi))?;
            }
        }
    }
    gone.sort_unstable();
    let mut left = Vec::new(engine.alloc);
    for (first, last) in gone.as_slice() {
        if *last >= lo {
            push_range(&mut left, lo, hi.min(first.saturating_sub(1)))?;
            lo = last.saturating_add(1);
        }
    }
    push_range(&mut left, lo, hi)?;
    Ok(left)
}

/// The ends of what is left of a variable's domain after one change, where no value between them went.
pub fn ends_left_by(engine: &Engine, x: VarId, places: &[usize]) -> Option<(i64, i64)> {
    let [place] = places else {
        return None;
    };
    let change = engine.trail.at(*place)?;
    let (least, greatest) = (engine.facts.least_of(x), engine.facts.greatest_of(x));
    let (lo, hi) = if change.keeps {
        (least.max(change.lo), greatest.min(change.hi))
    } else if change.lo <= least {
        (least.max(change.hi.saturating_add(1)), greatest)
    } else if greatest <= change.hi {
        (least, greatest.min(change.lo.saturating_sub(1)))
    } else {
        return None;
    };
    if lo <= hi { Some((lo, hi)) } else { None }
}

fn push_range(ranges: &mut Vec<Range>, lo: i64, hi: i64) -> Result<(), AllocError> {
    if lo <= hi {
        ranges.push(Range { lo, hi })?;
    }
    Ok(())
}

fn meets(range: &Range, condition: &Condition) -> bool {
    if condition.ranges.is_empty() {
        return condition.lo <= range.lo && range.hi <= condition.hi;
    }
    condition
        .ranges
        .iter()
        .any(|it| it.lo <= range.lo && range.hi <= it.hi)
}

/// Whether the changes at these places leave only values that meet the condition.
fn is_met_by(engine: &Engine, condition: &Condition, places: &[usize]) -> Result<bool, AllocError> {
    if let Some((lo, hi)) = ends_left_by(engine, condition.x, places) {
        return Ok(meets(&Range { lo, hi }, condition));
    }
    let left = left_by(engine, condition.x, places)?;
    Ok(left.iter().all(|range| meets(range, condition)))
}

// Whether a change takes values away that the condition excludes.
fn is_of_use(change: &Change, condition: &Condition) -> bool {
    let gone = Range {
        lo: change.lo,
        hi: change.hi,
    };
    change.keeps || !meets(&gone, condition)
}

/// More changes than these aren't left out one by one.
const MOST_LEFT_OUT: usize = 8;

// Appends the changes that a condition needs. One of the loser's is known to hold by them; one of the winner's may hold only
// once the winner answers, and then needs none.
fn needed_for_condition(
    engine: &Engine,
    condition: &Condition,
    end: usize,
    is_losers: bool,
    needs: &mut Needs,
) -> Result<(), AllocError> {
    let Some(last) = engine.trail.last_before(condition.x, end) else {
        return Ok(());
    };
    if let Some(change) = engine.trail.at(last)
        && change.before.is_none()
    {
        return needed_for_alone(engine, condition, last, &change, is_losers, needs);
    }
    let mut places = Vec::new(engine.alloc);
    changes_of(engine, condition.x, end, &mut places)?;
    if !is_losers && !is_met_by(engine, condition, &places)? {
        return Ok(());
    }
    places.retain(|place| match engine.trail.at(*place) {
        Some(change) => is_of_use(&change, condition),
        None => false,
    });
    if places.len() <= MOST_LEFT_OUT {
        leave_out(engine, condition, &mut places)?;
    }
    needs.add_all(&places, false)
}

// The same for a variable with one change alone.
fn needed_for_alone(
    engine: &Engine,
    condition: &Condition,
    place: usize,
    change: &Change,
    is_losers: bool,
    needs: &mut Needs,
) -> Result<(), AllocError> {
    if !is_losers && !is_met_by(engine, condition, &[place])? {
        return Ok(());
    }
    if is_of_use(change, condition) {
        needs.add(place, false)?;
    }
    Ok(())
}

// Leaves one change after the other out, as long as the others are enough.
fn leave_out(
    engine: &Engine,
    condition: &Condition,
    places: &mut Vec<usize>,
) -> Result<(), AllocError> {
    for k in (0..places.len()).rev() {
        if places.len() < 2 || k >= places.len() {
            break;
        }
        let place = places.remove(k);
        if !is_met_by(engine, condition, places)? {
            places.insert(k, place)?;
        }
    }
    Ok(())
}

/// Appends the changes before a place that a lemma's sums need.
pub fn needed_for_sums(
    engine: &Engine,
    lemma: &Known,
    end: usize,
    needs: &mut Needs,
) -> Result<(), AllocError> {
    let stop = lemma.place.saturating_sub(1);
    for sum in lemma.sums.as_slice() {
        let mut places = Vec::new(engine.alloc);
        for x in engine.facts.own_of(sum.c) {
            if engine.facts.scope_of(*x) < stop {
                changes_of(engine, *x, end, &mut places)?;
            }
        }
        needs.add_all(&places, true)?;
        needs.sums.push(SumUse {
            c: sum.c,
            no_less: sum.lo > LEAST_SUM,
            no_more: sum.hi < GREATEST_SUM,
        })?;
    }
    Ok(())
}

/// Appends the changes before a place by which a lemma holds but for conditions that are passed over: that on `x`, and those
/// that the winner can still meet.
pub fn needed_for_lemma(
    engine: &Engine,
    n: usize,
    x: Option<VarId>,
    end: usize,
    needs: &mut Needs,
) -> Result<(), AllocError> {
    let Some(lemma) = engine.known.get(n) else {
        return Ok(());
    };
    needed_for_sums(engine, lemma, end, needs)?;
    for condition in lemma.conditions.as_slice() {
        let is_own = match x {
            Some(x) => x.0 == condition.x.0,
            None => false,
        };
        if !is_own {
            let is_losers = engine.facts.side_of(condition.x) == lemma.loser;
            needed_for_condition(engine, condition, end, is_losers, needs)?;
        }
    }
    Ok(())
}

/// Appends the changes of the variables of a clause but one before a place.
pub fn needed_for_clause(
    engine: &Engine,
    c: ConId,
    x: Option<VarId>,
    end: usize,
    needs: &mut Needs,
) -> Result<(), AllocError> {
    for item in engine.facts.items_of(c) {
        let is_own = match x {
            Some(x) => x.0 == item.x.0,
            None => false,
        };
        if !is_own {
            add_changes_of(engine, item.x, end, needs)?;
        }
    }
    Ok(())
}

/// Appends what the change at a place rests on, and says whether it was no decision.
pub fn needed_for(
    engine: &Engine,
    bench: &mut Bench,
    place: usize,
    needs: &mut Needs,
    tests: &mut u64,
) -> Result<bool, AllocError> {
    let Some(change) = engine.trail.at(place) else {
        return Ok(false);
    };
    match change.why {
        Why::Decided => return Ok(false),
        Why::Lemma(n) => needed_for_lemma(engine, n, Some(change.x), place, needs)?,
        Why::Rule(c) => {
            if engine.facts.is_clause(c) {
                needed_for_clause(engine, c, Some(change.x), place, needs)?;
            } else {
                let question = Question {
                    c,
                    end: place,
                    kept: Some(Kept {
                        x: change.x,
                        lo: change.lo,
                        hi: change.hi,
                    }),
                    choices: &[],
                    holds: false,
                    below: usize::MAX,
                };
                needed(engine, bench, &question, needs, tests)?;
            }
        }
    }
    Ok(true)
}

/// Whether the change at a place is seen at once to rest on one that isn't marked. Where it isn't seen it may do so as well.
pub fn rests_on_others(engine: &Engine, marks: &Marks, place: usize) -> bool {
    let Some(change) = engine.trail.at(place) else {
        return true;
    };
    match change.why {
        Why::Decided => true,
        Why::Rule(c) => engine.facts.items_of(c).iter().any(|it| it.x.0 != change.x.0
            && has_other(engine, marks, it.x, place)),
        Why::Lemma(n) => match engine.known.get(n) {
            Some(lemma) => lemma.conditions.iter().any(|it| it.x.0 != change.x.0
                && engine.facts.side_of(it.x) == lemma.loser
                && has_other_for(engine, marks, it, place)),
            None => true,
        },
    }
}

// Whether the last change of x before a place isn't marked.
fn has_other(engine: &Engine, marks: &Marks, x: VarId, place: usize) -> bool {
    match engine.trail.last_before(x, place) {
        Some(last) => !marks.has(last),
        None => false,
    }
}

// Whether the one change of a condition's variable before a place isn't marked, and is of use.
fn has_other_for(engine: &Engine, marks: &Marks, condition: &Condition, place: usize) -> bool {
    let Some(last) = engine.trail.last_before(condition.x, place) else {
        return false;
    };
    match engine.trail.at(last) {
        Some(change) => {
            change.before.is_none() && !marks.has(last) && is_of_use(&change, condition)
        }
        None => false,
    }
}
