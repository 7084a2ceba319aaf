//! Values of the player's that make clauses true, whatever the opponent's values are.
//!
//! Where all clauses of a goal can be made true so, the list has one lemma, and the search finds it at once. A walk looks for such
//! values: it takes one of the clauses that aren't true, and turns that of its variables over by which the least of the others
//! comes to be false. A clause weighs more each time that it is taken, so that the walk doesn't go round.
use lemma_engine::Engine;
use lemma_ground::{TruthOf, rule_at, variable_at};
use qc_model::{Kind, VarId};
use std::alloc::{AllocError, Global};
use std::mem;

/// How many values are turned over at most.
const MOST_TURNED: usize = 2000;

/// Values of the player's that make all clauses true, where some were found, and how much was gone over.
#[derive(Drop)]
pub(crate) struct Walked {
    pub(crate) values: Option<Vec<Option<i64>>>,
    pub(crate) gone_over: usize,
}

// A clause that a variable makes true by this value.
#[derive(Clone, Copy)]
struct Mention {
    clause: usize,
    value: i64,
}

// The player's items of each clause, by how many of them it is true, and its weight; and of each variable the clauses that
// mention it, its value, and when it was turned over last.
#[derive(Drop)]
struct Walk {
    items: Vec<Vec<TruthOf>>,
    counts: Vec<usize>,
    weights: Vec<u64>,
    mentions: Vec<Vec<Mention>>,
    values: Vec<Option<i64>>,
    turned: Vec<usize>,
    // How many clauses aren't true, and where the last one was taken.
    open: usize,
    next: usize,
    gone_over: usize,
}

/// Walks from these values. Nothing is found where the goal has something else than clauses, or none, or a scope is restricted.
pub(crate) fn walk_from(
    alloc: Global,
    engine: &Engine,
    values: Vec<Option<i64>>,
) -> Result<Walked, AllocError> {
    if !is_of_clauses(engine) {
        return Ok(Walked {
            values: None,
            gone_over: 0,
        });
    }
    let mut walk = Walk::new(alloc, values);
    take_walk(alloc, engine, &mut walk)
}

fn take_walk(alloc: Global, engine: &Engine, walk: &mut Walk) -> Result<Walked, AllocError> {
    walk.add_variables(alloc, engine)?;
    walk.add_clauses(alloc, engine)?;
    for turn in 0..MOST_TURNED {
        let Some(x) = walk.next_turned() else {
            break;
        };
        walk.turn_over(x, turn);
    }
    Ok(Walked {
        values: walk.take_values(alloc),
        gone_over: walk.gone_over,
    })
}

// Whether the goal has clauses and nothing else, and no scope is restricted.
fn is_of_clauses(engine: &Engine) -> bool {
    let goal = engine.facts.goal();
    let (first, end) = engine.facts.rules_at(goal);
    if first >= end {
        return false;
    }
    for k in first..end {
        if !engine.facts.is_clause(rule_at(k)) {
            return false;
        }
    }
    for scope in 0..goal {
        if engine.facts.is_restricted(scope) {
            return false;
        }
    }
    true
}

// The player's items of a clause.
fn items_kept(alloc: Global, engine: &Engine, k: usize) -> Result<Vec<TruthOf>, AllocError> {
    let mut items = Vec::new(alloc);
    for item in engine.facts.items_of(rule_at(k)) {
        if engine.facts.side_of(item.x) == Kind::Exists {
            items.push(*item)?;
        }
    }
    Ok(items)
}

impl Walk {
    // Without variables and clauses yet.
    fn new(alloc: Global, values: Vec<Option<i64>>) -> Walk {
        Walk {
            items: Vec::new(alloc),
            counts: Vec::new(alloc),
            weights: Vec::new(alloc),
            mentions: Vec::new(alloc),
            values,
            turned: Vec::new(alloc),
            open: 0,
            next: 0,
            gone_over: 0,
        }
    }

    fn add_variables(&mut self, alloc: Global, engine: &Engine) -> Result<(), AllocError> {
        self.turned = vec![in alloc; 0usize; engine.facts.variables()]?;
        for k in 0..engine.facts.variables() {
            self.mentions.push(Vec::new(alloc))?;
            if let Some(value) = self.values.get_mut(k)
                && value.is_none()
            {
                *value = Some(engine.facts.least_of(variable_at(k)));
            }
        }
        Ok(())
    }

    fn add_clauses(&mut self, alloc: Global, engine: &Engine) -> Result<(), AllocError> {
        let (first, end) = engine.facts.rules_at(engine.facts.goal());
        for k in first..end {
            self.add_clause(items_kept(alloc, engine, k)?)?;
        }
        Ok(())
    }

    // The values, where they make all clauses true. They aren't kept there any more.
    fn take_values(&mut self, alloc: Global) -> Option<Vec<Option<i64>>> {
        if self.open > 0 {
            return None;
        }
        Some(mem::replace(&mut self.values, Vec::new(alloc)))
    }

    fn add_clause(&mut self, items: Vec<TruthOf>) -> Result<(), AllocError> {
        let clause = self.items.len();
        let mut count = 0usize;
        for item in items.as_slice() {
            if self.value_of(item.x) == Some(item.value) {
                count = count.saturating_add(1);
            }
            if let Some(mentions) = self.mentions.get_mut(item.x.0 as usize) {
                mentions.push(Mention {
                    clause,
                    value: item.value,
                })?;
            }
        }
        if count == 0 {
            self.open = self.open.saturating_add(1);
        }
        self.counts.push(count)?;
        self.weights.push(1)?;
        self.items.push(items)?;
        Ok(())
    }

    fn value_of(&self, x: VarId) -> Option<i64> {
        self.values.get(x.0 as usize).copied().unwrap_or(None)
    }

    fn mentions_of(&self, x: VarId) -> &[Mention] {
        match self.mentions.get(x.0 as usize) {
            Some(mentions) => mentions.as_slice(),
            None => &[],
        }
    }

    // The variable to turn over next: of the next clause that isn't true. None where all are, or this one can't be.
    fn next_turned(&mut self) -> Option<VarId> {
        let clause = self.next_open()?;
        if let Some(weight) = self.weights.get_mut(clause) {
            *weight = weight.saturating_add(1);
        }
        self.gone_over = self.gone_over.saturating_add(self.mentions_in(clause));
        self.lightest(clause)
    }

    fn items_of(&self, clause: usize) -> &[TruthOf] {
        match self.items.get(clause) {
            Some(items) => items.as_slice(),
            None => &[],
        }
    }

    // How many clauses mention the variables of this one.
    fn mentions_in(&self, clause: usize) -> usize {
        let mut count = 0usize;
        for item in self.items_of(clause) {
            count = count.saturating_add(self.mentions_of(item.x).len());
        }
        count
    }

    fn next_open(&mut self) -> Option<usize> {
        for _ in 0..self.counts.len() {
            self.next = if self.next.saturating_add(1) < self.counts.len() {
                self.next.saturating_add(1)
            } else {
                0
            };
            self.gone_over = self.gone_over.saturating_add(1);
            if self.counts.get(self.next).copied() == Some(0) {
                return Some(self.next);
            }
        }
        None
    }

    // The variable of a clause by which the least weight comes to be false; of equal ones that which was turned over first.
    fn lightest(&self, clause: usize) -> Option<VarId> {
        let mut best: Option<(u64, usize, VarId)> = None;
        for item in self.items_of(clause) {
            let weight = self.weight_lost(item.x);
            let turned = self.turned.get(item.x.0 as usize).copied().unwrap_or(0);
            let is_better = match best {
                Some((least, first, _)) => weight < least || weight == least && turned < first,
                None => true,
            };
            if is_better {
                best = Some((weight, turned, item.x));
            }
        }
        let (_, _, x) = best?;
        Some(x)
    }

    // How much the clauses weigh that are true by this variable alone.
    fn weight_lost(&self, x: VarId) -> u64 {
        let value = self.value_of(x);
        let mut lost = 0u64;
        for mention in self.mentions_of(x) {
            if value == Some(mention.value) && self.counts.get(mention.clause).copied() == Some(1) {
                let weight = self.weights.get(mention.clause).copied().unwrap_or(0);
                lost = lost.saturating_add(weight);
            }
        }
        lost
    }

    fn turn_over(&mut self, x: VarId, turn: usize) {
        let value = if self.value_of(x) == Some(1) { 0 } else { 1 };
        for k in 0..self.mentions_of(x).len() {
            let Some(mention) = self.mentions_of(x).get(k).copied() else {
                break;
            };
            self.count_again(mention.clause, mention.value == value);
        }
        if let Some(slot) = self.values.get_mut(x.0 as usize) {
            *slot = Some(value);
        }
        if let Some(turned) = self.turned.get_mut(x.0 as usize) {
            *turned = turn.saturating_add(1);
        }
    }

    // One more item of a clause is true, or one less.
    fn count_again(&mut self, clause: usize, is_more: bool) {
        let Some(count) = self.counts.get_mut(clause) else {
            return;
        };
        if is_more {
            if *count == 0 {
                self.open = self.open.saturating_sub(1);
            }
            *count = count.saturating_add(1);
        } else {
            *count = count.saturating_sub(1);
            if *count == 0 {
                self.open = self.open.saturating_add(1);
            }
        }
    }
}
