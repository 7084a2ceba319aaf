//! Other values of the player's last variables by which the goal holds as well, and rests on fewer values of the opponent's.
//!
//! A lemma of the player's is the better the fewer of the opponent's values it needs. So where all values are taken and the goal
//! holds, values that the player takes last are turned over as long as more clauses are true by the player's own values then.
use crate::study::Analyst;
use lemma_engine::Engine;
use lemma_ground::{TruthOf, rule_at, variable_at};
use qc_model::{ConId, Kind, VarId};
use std::alloc::AllocError;

/// How often all variables are gone over.
const ROUNDS: u32 = 4;

/// A clause that mentions a variable, which makes it true by this value.
#[derive(Clone, Copy)]
pub(crate) struct Mention {
    pub(crate) c: ConId,
    pub(crate) value: i64,
}

/// The clauses that mention each variable, and whether values may be turned over.
#[derive(Drop)]
pub(crate) struct Slope {
    mentions: Vec<Vec<Mention>>,
    is_open: bool,
}

// By how many of its items a clause is true: of the player's and those that need no reason, and of the others.
#[derive(Clone, Copy)]
struct Count {
    own: usize,
    others: usize,
}

/// What is known of the game for this, once.
pub(crate) fn slope_of(engine: &Engine, last_forall: usize) -> Result<Slope, AllocError> {
    let mut mentions: Vec<Vec<Mention>> = Vec::new(engine.alloc);
    for _ in 0..engine.facts.variables() {
        mentions.push(Vec::new(engine.alloc))?;
    }
    let (first, _) = engine.facts.rules_at(engine.facts.goal());
    let mut is_open = true;
    for k in 0..engine.facts.rules() {
        let c = rule_at(k);
        if k >= first && !engine.facts.is_clause(c) {
            is_open = is_open
                && engine
                    .facts
                    .own_of(c)
                    .iter()
                    .all(|x| engine.facts.scope_of(*x) <= last_forall);
        }
        for item in engine.facts.items_of(c) {
            if let Some(list) = mentions.get_mut(item.x.0 as usize) {
                list.push(Mention {
                    c,
                    value: item.value,
                })?;
            }
        }
    }
    for scope in 0..engine.facts.goal() {
        if scope > last_forall && engine.facts.is_restricted(scope) {
            is_open = false;
        }
    }
    Ok(Slope { mentions, is_open })
}

impl<'p> Analyst<'p> {
    /// The value of x in the position at hand, after values were turned over.
    pub(crate) fn value(&self, x: VarId) -> i64 {
        self.values.get(x.0 as usize).copied().unwrap_or(0)
    }

    /// All values are as they are in the position.
    pub(crate) fn take_values(&mut self, engine: &Engine) {
        for (k, value) in self.values.iter_mut().enumerate() {
            *value = engine.boxes.least(variable_at(k));
        }
    }

    /// Turns values over.
    pub(crate) fn climb(&mut self, engine: &Engine) -> Result<(), AllocError> {
        if !self.slope.is_open {
            return Ok(());
        }
        let mut counts = self.counts(engine)?;
        for _ in 0..ROUNDS {
            let mut is_turned = false;
            for k in 0..engine.facts.variables() {
                let x = variable_at(k);
                if !self.may_turn(engine, x) {
                    continue;
                }
                let mentions = self.mentions_of(x).len();
                self.go_over(mentions);
                if self.gain(x, &counts) > 0 {
                    self.turn_over(x, &mut counts);
                    is_turned = true;
                }
            }
            if !is_turned {
                break;
            }
        }
        Ok(())
    }

    fn may_turn(&self, engine: &Engine, x: VarId) -> bool {
        engine.facts.scope_of(x) > self.last_forall
            && engine.facts.side_of(x) == Kind::Exists
            && engine.facts.least_of(x) == 0
            && engine.facts.greatest_of(x) == 1
    }

    fn counts(&mut self, engine: &Engine) -> Result<Vec<Count>, AllocError> {
        let mut counts = vec![in engine.alloc; Count { own: 0, others: 0 }; engine.facts.rules()]?;
        for (k, count) in counts.iter_mut().enumerate() {
            let items = engine.facts.items_of(rule_at(k));
            self.go_over(items.len());
            for item in items {
                if self.is_true(item) {
                    if self.is_free(engine, item.x) {
                        count.own = count.own.saturating_add(1);
                    } else {
                        count.others = count.others.saturating_add(1);
                    }
                }
            }
        }
        Ok(counts)
    }

    /// The clauses that mention a variable.
    pub(crate) fn mentions_of(&self, x: VarId) -> &[Mention] {
        match self.slope.mentions.get(x.0 as usize) {
            Some(list) => list.as_slice(),
            None => &[],
        }
    }

    fn is_true(&self, item: &TruthOf) -> bool {
        self.value(item.x) == item.value
    }

    fn is_free(&self, engine: &Engine, x: VarId) -> bool {
        engine.facts.side_of(x) == Kind::Exists || engine.trail.last_of(x).is_none()
    }

    // By how many more clauses are true by the player's own values once x is turned over; nothing, where one would be false.
    fn gain(&self, x: VarId, counts: &[Count]) -> i64 {
        let v = self.value(x);
        let mut gain = 0i64;
        for mention in self.mentions_of(x) {
            let Some(count) = counts.get(mention.c.0 as usize) else {
                return 0;
            };
            if mention.value == v {
                if count.own == 1 {
                    if count.others == 0 {
                        return 0;
                    }
                    gain = gain.saturating_sub(1);
                }
            } else if count.own == 0 {
                gain = gain.saturating_add(1);
            }
        }
        gain
    }

    fn turn_over(&mut self, x: VarId, counts: &mut [Count]) {
        let v = self.value(x);
        for mention in self.mentions_of(x) {
            if let Some(count) = counts.get_mut(mention.c.0 as usize) {
                count.own = if mention.value == v {
                    count.own.saturating_sub(1)
                } else {
                    count.own.saturating_add(1)
                };
            }
        }
        if let Some(value) = self.values.get_mut(x.0 as usize) {
            *value = if v == 1 { 0 } else { 1 };
        }
    }
}
