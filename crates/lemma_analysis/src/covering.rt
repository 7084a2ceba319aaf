//! Values by which clauses are true, as few as are found.
use crate::study::Analyst;
use lemma_engine::Engine;
use lemma_needs::add_changes_of;
use qc_model::{ConId, VarId};
use std::alloc::{AllocError, Global};

/// Clauses that aren't true yet by what is marked, by how many of the chosen variables each is, and these. A clause that needs no
/// mark counts as true by two more.
#[derive(Drop)]
pub(crate) struct Cover {
    is_open: Vec<bool>,
    times: Vec<u32>,
    chosen: Vec<VarId>,
}

impl Cover {
    /// Nothing is open, and there is no room for clauses.
    pub(crate) fn new(alloc: Global) -> Cover {
        Cover {
            is_open: Vec::new(alloc),
            times: Vec::new(alloc),
            chosen: Vec::new(alloc),
        }
    }

    /// Whether there is no room.
    pub(crate) fn is_empty(&self) -> bool {
        self.is_open.is_empty()
    }

    /// Makes room for all clauses, none of which is open.
    pub(crate) fn make_room(&mut self, engine: &Engine) -> Result<(), AllocError> {
        self.is_open = vec![in engine.alloc; false; engine.facts.rules()]?;
        self.times = vec![in engine.alloc; 2u32; engine.facts.rules()]?;
        Ok(())
    }

    /// A clause is to be true by what is marked.
    pub(crate) fn open(&mut self, c: ConId) {
        set(self.is_open.as_mut_slice(), c, true);
        if let Some(count) = self.times.get_mut(c.0 as usize) {
            *count = 0;
        }
    }

    /// Whether a clause isn't true yet by what is marked.
    pub(crate) fn has_open(&self, c: ConId) -> bool {
        has(self.is_open.as_slice(), c)
    }

    // A clause is true by one more of the chosen.
    fn close(&mut self, c: ConId) {
        set(self.is_open.as_mut_slice(), c, false);
        if let Some(count) = self.times.get_mut(c.0 as usize) {
            *count = count.saturating_add(1);
        }
    }

    // A clause is true by one less of the chosen.
    fn count_off(&mut self, c: ConId) {
        if let Some(count) = self.times.get_mut(c.0 as usize) {
            *count = count.saturating_sub(1);
        }
    }

    fn is_true_twice(&self, c: ConId) -> bool {
        self.times.get(c.0 as usize).copied().unwrap_or(0) > 1
    }
}

fn has(marks: &[bool], c: ConId) -> bool {
    marks.get(c.0 as usize).copied().unwrap_or(false)
}

fn set(marks: &mut [bool], c: ConId, value: bool) {
    if let Some(slot) = marks.get_mut(c.0 as usize) {
        *slot = value;
    }
}

impl<'p> Analyst<'p> {
    /// Marks a variable. Clauses that it makes true aren't open any more.
    pub(crate) fn mark_closing(
        &mut self,
        engine: &Engine,
        x: VarId,
        cover: &mut Cover,
    ) -> Result<(), AllocError> {
        self.mark_variable(engine, x)?;
        cover.chosen.push(x)?;
        let value = self.value(x);
        for mention in self.mentions_of(x) {
            if mention.value == value {
                cover.close(mention.c);
            }
        }
        Ok(())
    }

    /// Marks variables by which all these clauses are true, each time the one that makes most of them so.
    pub(crate) fn mark_cover(
        &mut self,
        engine: &Engine,
        clauses: &[ConId],
        cover: &mut Cover,
    ) -> Result<(), AllocError> {
        if clauses.is_empty() {
            return Ok(());
        }
        let mut counts = vec![in engine.alloc; 0usize; engine.facts.variables()]?;
        let mut is_counted = vec![in engine.alloc; false; engine.facts.rules()]?;
        for c in clauses {
            set(is_counted.as_mut_slice(), *c, true);
            self.count_items(engine, *c, &mut counts, true);
        }
        for _ in 0..engine.facts.variables().saturating_add(1) {
            self.go_over(engine.facts.variables());
            let Some(x) = self.most_of(&counts) else {
                return Ok(());
            };
            self.mark_closing(engine, x, cover)?;
            self.count_closed(engine, x, &mut counts, &mut is_counted);
        }
        Ok(())
    }

    // The clauses that a variable makes true don't count any more.
    fn count_closed(
        &mut self,
        engine: &Engine,
        x: VarId,
        counts: &mut [usize],
        is_counted: &mut [bool],
    ) {
        let value = self.value(x);
        for k in 0..self.mentions_of(x).len() {
            let Some(mention) = self.mentions_of(x).get(k).copied() else {
                break;
            };
            if mention.value == value && has(is_counted, mention.c) {
                set(is_counted, mention.c, false);
                self.count_items(engine, mention.c, counts, false);
            }
        }
    }

    // Counts a clause for the variables that make it true, or not any more.
    fn count_items(&mut self, engine: &Engine, c: ConId, counts: &mut [usize], is_more: bool) {
        let items = engine.facts.items_of(c);
        self.go_over(items.len());
        for item in items {
            if self.value(item.x) == item.value
                && let Some(count) = counts.get_mut(item.x.0 as usize)
            {
                *count = if is_more {
                    count.saturating_add(1)
                } else {
                    count.saturating_sub(1)
                };
            }
        }
    }

    // The variable with the greatest count above 0; of equal ones that which conflicts rested on most.
    fn most_of(&self, counts: &[usize]) -> Option<VarId> {
        let mut best: Option<(usize, usize)> = None;
        for (k, count) in counts.iter().enumerate() {
            let is_better = match best {
                Some((_, before)) => {
                    *count > before
                        || *count == before && best.map_or(false, |it| self.is_more_active(k, it.0))
                }
                None => *count > 0,
            };
            if is_better {
                best = Some((k, *count));
            }
        }
        let (k, _) = best?;
        Some(VarId(u16::try_from(k).unwrap_or(u16::MAX)))
    }

    fn is_more_active(&self, a: usize, b: usize) -> bool {
        match (self.activity.get(a), self.activity.get(b)) {
            (Some(a), Some(b)) => a > b,
            _ => false,
        }
    }

    fn mark_variable(&mut self, engine: &Engine, x: VarId) -> Result<(), AllocError> {
        self.needed.clear();
        add_changes_of(engine, x, engine.trail.len(), &mut self.needed)?;
        self.mark_needed()
    }

    /// Takes the marks of variables without which all clauses are true as well.
    pub(crate) fn unmark_spare(&mut self, engine: &Engine, cover: &mut Cover) {
        for k in 0..cover.chosen.len() {
            let Some(x) = cover.chosen.get(k).copied() else {
                break;
            };
            let mentions = self.mentions_of(x).len();
            self.go_over(mentions);
            if self.is_spare(x, cover) {
                self.count_off(x, cover);
                self.unmark(engine, x);
            }
        }
    }

    fn is_spare(&self, x: VarId, cover: &Cover) -> bool {
        let value = self.value(x);
        self.mentions_of(x)
            .iter()
            .all(|it| it.value != value || cover.is_true_twice(it.c))
    }

    fn count_off(&self, x: VarId, cover: &mut Cover) {
        let value = self.value(x);
        for mention in self.mentions_of(x) {
            if mention.value == value {
                cover.count_off(mention.c);
            }
        }
    }

    fn unmark(&mut self, engine: &Engine, x: VarId) {
        let mut next = engine.trail.last_of(x);
        for _ in 0..engine.trail.len() {
            let Some(place) = next else {
                break;
            };
            self.marks.remove(place);
            next = match engine.trail.at(place) {
                Some(change) => change.before,
                None => None,
            };
        }
    }
}
