//! Going on to the next scope, deciding, learning, and going back.
use crate::engine::{Conflict, Engine};
use crate::known::Known;
use lemma_ground::{Cut, Why, variable_at};
use qc_model::VarId;
use std::alloc::AllocError;

impl<'p> Engine<'p> {
    // Whether all variables of the scope at hand have one value. Those before the first that was open last needn't be looked at again.
    fn is_chosen(&mut self) -> bool {
        let (first, end) = self.facts.variables_at(self.scope);
        for k in first.max(self.first_open)..end {
            if !self.boxes.is_fixed(variable_at(k)) {
                self.first_open = k;
                return false;
            }
        }
        true
    }

    /// Goes on to the next scope where all variables of this one have one value, and says whether it did. In a game with
    /// restrictions, or once lemmas have sums, it goes one scope at a time, since more is said there than before.
    pub fn advance(&mut self) -> Result<bool, AllocError> {
        let earlier = self.scope;
        for _ in 0..self.facts.goal() {
            if self.scope >= self.facts.goal() || !self.is_chosen() {
                break;
            }
            self.scope = self.scope.saturating_add(1);
            if self.steps_scopes {
                break;
            }
        }
        if self.scope == earlier {
            return Ok(false);
        }
        if self.steps_scopes {
            self.wake_active(Some(earlier))?;
        }
        Ok(true)
    }

    /// Looks at the lemmas that may speak here and didn't a scope before.
    pub fn visit_new_lemmas(&mut self) -> Result<Option<Conflict>, AllocError> {
        if !self.steps_scopes {
            return Ok(None);
        }
        for place in self.scope.saturating_add(1)..self.by_place.len() {
            let count = self.by_place.get(place).map_or(0, |list| list.len());
            self.pass_over(count);
            for k in 0..count {
                let Some(n) = self.lemma_at(place, k) else {
                    continue;
                };
                if let Some(conflict) = self.evaluate(n, None)? {
                    self.waiting.clear();
                    return Ok(Some(conflict));
                }
            }
        }
        Ok(None)
    }

    // The lemma, where it may say more here than a scope before: it has sums of which all is known now, or something in its way
    // was passed.
    fn lemma_at(&self, place: usize, k: usize) -> Option<usize> {
        let n = *self.by_place.get(place)?.get(k)?;
        let lemma = self.known.get(n)?;
        if lemma.is_dead {
            return None;
        }
        let is_summed = !lemma.sums.is_empty() && place == self.scope.saturating_add(1);
        let earlier = self.scope.saturating_sub(1);
        let is_reached = place > self.facts.reach_from(lemma.loser, earlier);
        if is_summed || is_reached {
            Some(n)
        } else {
            None
        }
    }

    /// The owner of x takes the value v.
    pub fn decide(&mut self, x: VarId, v: i64) -> Result<(), AllocError> {
        let (least, greatest) = (self.boxes.least(x), self.boxes.greatest(x));
        self.boxes.open_level()?;
        self.trail.open_level(x)?;
        let below = self.boxes.cut(x, least, v.saturating_sub(1))?;
        let above = self.boxes.cut(x, v.saturating_add(1), greatest)?;
        self.trail.push(x, v, v, true, Why::Decided)?;
        if below != Cut::Nothing || above != Cut::Nothing {
            self.wake(x, least, greatest)?;
        }
        Ok(())
    }

    /// Takes all decisions back but so many.
    pub fn go_back(&mut self, levels: usize) {
        if levels >= self.trail.levels() {
            return;
        }
        if let Some(x) = self.trail.decided_on(levels.saturating_add(1)) {
            self.scope = self.facts.scope_of(x);
        }
        for _ in self.trail.len_at(levels)..self.trail.len() {
            if let Some(change) = self.trail.pop()
                && self.boxes.is_fixed(change.x)
                && let Some(saved) = self.saved.get_mut(change.x.0 as usize)
            {
                *saved = Some(self.boxes.least(change.x));
            }
        }
        self.trail.forget_levels(levels);
        self.boxes.close_to(levels);
        self.first_open = 0;
        self.waiting.clear();
    }

    /// Learns a lemma, goes back to so many decisions, and looks at the lemma there, of which the condition on `x` isn't met
    /// yet.
    pub fn learn(
        &mut self,
        lemma: Known,
        levels: usize,
        x: Option<VarId>,
    ) -> Result<Option<Conflict>, AllocError> {
        let n = self.known.len();
        let place = lemma.place;
        if !lemma.sums.is_empty() {
            self.steps_scopes = true;
        }
        self.known.push(lemma)?;
        self.live = self.live.saturating_add(1);
        if let Some(list) = self.by_place.get_mut(place) {
            list.push(n)?;
        }
        self.go_back(levels);
        let first = self.place_of(n, x);
        let second = self.latest_beside(n, first);
        self.watch_new(n, first, second)?;
        let found = self.evaluate(n, None)?;
        if found.is_some() {
            self.waiting.clear();
        }
        Ok(found)
    }

    fn place_of(&self, n: usize, x: Option<VarId>) -> usize {
        let Some(x) = x else {
            return 0;
        };
        if let Some(lemma) = self.known.get(n) {
            for (k, condition) in lemma.conditions.iter().enumerate() {
                if condition.x.0 == x.0 {
                    return k;
                }
            }
        }
        0
    }
}
