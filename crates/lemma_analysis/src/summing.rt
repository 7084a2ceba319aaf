//! Sums in the place of conditions: where variables count only for what a linear constraint's sum comes to, the lemma says so,
//! and holds for all values with such a sum.
use crate::drawing::Grouped;
use crate::resolving::Depth;
use crate::study::Analyst;
use lemma_engine::{Engine, SumCondition};
use lemma_needs::{GREATEST_SUM, LEAST_SUM, SumUse};
use qc_model::{Kind, VarId};
use std::alloc::AllocError;

/// The sums that a lemma tells, which variables' conditions they stand for, and the last level that they rest on.
#[derive(Drop)]
pub(crate) struct Summing {
    pub(crate) sums: Vec<SumCondition>,
    pub(crate) level: usize,
    is_dropped: Vec<bool>,
}

impl Summing {
    pub(crate) fn has_dropped(&self, x: VarId) -> bool {
        self.is_dropped.get(x.0 as usize).copied().unwrap_or(false)
    }
}

impl<'p> Analyst<'p> {
    /// The sums in the place of conditions.
    pub(crate) fn sums_told(
        &self,
        engine: &Engine,
        loser: Kind,
        depth: Depth,
        marked: &Grouped,
    ) -> Result<Summing, AllocError> {
        let mut summing = Summing {
            sums: Vec::new(engine.alloc),
            level: 0,
            is_dropped: Vec::new(engine.alloc),
        };
        let Some(stop) = depth.place.checked_sub(1) else {
            return Ok(summing);
        };
        if self.marks.sums().is_empty() {
            return Ok(summing);
        }
        summing.is_dropped = vec![in engine.alloc; false; engine.facts.variables()]?;
        let mut is_soft = self.soft_variables(engine, loser, depth, marked)?;
        for sum in self.marks.sums() {
            if !is_any_soft(engine, &is_soft, sum) {
                continue;
            }
            match told(engine, sum, stop) {
                Some(told) => summing.sums.push(told)?,
                None => harden(engine, &mut is_soft, sum, stop),
            }
        }
        // a sum was told before one of its variables came to need a condition; it says no more than is so
        for told in summing.sums.as_slice() {
            for x in engine.facts.own_of(told.c) {
                if engine.facts.scope_of(*x) < stop {
                    drop_soft(&mut summing.is_dropped, &is_soft, *x);
                }
            }
        }
        summing.level = level_of_sums(engine, &summing.sums, stop);
        Ok(summing)
    }

    // The variables with conditions that are needed for sums alone, of scopes before the lemma's last, with one value each.
    fn soft_variables(
        &self,
        engine: &Engine,
        loser: Kind,
        depth: Depth,
        marked: &Grouped,
    ) -> Result<Vec<bool>, AllocError> {
        let stop = depth.place.saturating_sub(1);
        let mut is_soft = vec![in engine.alloc; false; engine.facts.variables()]?;
        for (k, soft) in is_soft.iter_mut().enumerate() {
            let x = VarId(u16::try_from(k).unwrap_or(u16::MAX));
            if engine.facts.scope_of(x) < stop
                && engine.boxes.is_fixed(x)
                && self.is_condition(engine, x, loser, depth)
            {
                let places = marked.of(x);
                *soft = !places.is_empty() && !places.iter().any(|it| self.marks.has_hard(*it));
            }
        }
        Ok(is_soft)
    }
}

fn is_any_soft(engine: &Engine, is_soft: &[bool], sum: &SumUse) -> bool {
    engine
        .facts
        .own_of(sum.c)
        .iter()
        .any(|x| is_soft.get(x.0 as usize).copied().unwrap_or(false))
}

// What the lemma tells of a sum, where it has one value.
fn told(engine: &Engine, sum: &SumUse, stop: usize) -> Option<SumCondition> {
    let linear = engine.facts.linear_of(sum.c)?;
    let total = linear.total_before(&engine.facts, &engine.boxes, stop);
    if total.lo != total.hi {
        return None;
    }
    Some(SumCondition {
        c: sum.c,
        lo: if sum.no_less { total.lo } else { LEAST_SUM },
        hi: if sum.no_more { total.hi } else { GREATEST_SUM },
    })
}

fn harden(engine: &Engine, is_soft: &mut [bool], sum: &SumUse, stop: usize) {
    for x in engine.facts.own_of(sum.c) {
        if engine.facts.scope_of(*x) < stop
            && let Some(soft) = is_soft.get_mut(x.0 as usize)
        {
            *soft = false;
        }
    }
}

fn drop_soft(is_dropped: &mut [bool], is_soft: &[bool], x: VarId) {
    if is_soft.get(x.0 as usize).copied().unwrap_or(false)
        && let Some(dropped) = is_dropped.get_mut(x.0 as usize)
    {
        *dropped = true;
    }
}

// The last level on which a variable that the sums count changed.
fn level_of_sums(engine: &Engine, sums: &[SumCondition], stop: usize) -> usize {
    let mut level = 0usize;
    for sum in sums {
        for x in engine.facts.own_of(sum.c) {
            if engine.facts.scope_of(*x) < stop
                && let Some(place) = engine.trail.last_of(*x)
                && let Some(change) = engine.trail.at(place)
            {
                level = level.max(change.level);
            }
        }
    }
    level
}
