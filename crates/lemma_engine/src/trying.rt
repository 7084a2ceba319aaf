//! Lemmas tried again: their conditions are assumed one after the other, and other lemmas are looked at on the way.
use crate::engine::{Conflict, Engine};
use crate::known::Outlook;
use crate::lemmas::Sight;
use lemma_ground::{Cut, Why};
use qc_model::VarId;
use std::alloc::AllocError;

impl<'p> Engine<'p> {
    /// Opens a level on which conditions are assumed, where the next scope is this one.
    pub fn open_trial(&mut self, scope: usize) -> Result<(), AllocError> {
        self.boxes.open_level()?;
        self.trail.open_level(VarId(0))?;
        self.scope = scope;
        Ok(())
    }

    /// Takes all values that don't meet a lemma's k-th condition out of its variable, and says whether others are left.
    pub fn assume(&mut self, n: usize, k: usize) -> Result<bool, AllocError> {
        let Some((x, lo, hi, ranges)) = self.condition_at(n, k) else {
            return Ok(false);
        };
        let (least, greatest) = (self.boxes.least(x), self.boxes.greatest(x));
        let changes = self.trail.len();
        if !self.let_go(x, least, lo.saturating_sub(1))? {
            return Ok(false);
        }
        if !self.let_go(x, hi.saturating_add(1), greatest)? {
            return Ok(false);
        }
        let mut end = lo;
        for r in 0..ranges {
            let Some((first, last)) = self.range_at(n, k, r) else {
                break;
            };
            if !self.let_go(x, end, first.saturating_sub(1))? {
                return Ok(false);
            }
            end = last.saturating_add(1);
        }
        if self.trail.len() > changes {
            self.wake(x, least, greatest)?;
        }
        Ok(true)
    }

    // Takes values out that are assumed to be gone, and says whether others are left.
    fn let_go(&mut self, x: VarId, lo: i64, hi: i64) -> Result<bool, AllocError> {
        match self.boxes.cut(x, lo, hi)? {
            Cut::Nothing => Ok(true),
            Cut::Emptied => Ok(false),
            Cut::Some => {
                self.trail.push(x, lo, hi, false, Why::Decided)?;
                Ok(true)
            }
        }
    }

    /// Looks at a lemma, and watches none of its conditions for that.
    pub fn look_once(&mut self, n: usize) -> Result<Option<Conflict>, AllocError> {
        let Some((loser, sight)) = self.sight_at(n) else {
            return Ok(None);
        };
        self.work = self.work.saturating_add(1);
        match sight {
            Sight::Void(_) | Sight::Open(_, _) => Ok(None),
            Sight::Last(k) => self.remove_last(n, k, loser),
            Sight::Lost => Ok(Some(self.lost_lemma(n, loser)?)),
        }
    }

    /// Watches two conditions of a lemma that aren't met yet, and says whether it has two.
    pub fn watch_open(&mut self, n: usize) -> Result<bool, AllocError> {
        let mut first: Option<usize> = None;
        let mut second: Option<usize> = None;
        if let Some(lemma) = self.known.get(n) {
            for (k, condition) in lemma.conditions.iter().enumerate() {
                if condition.outlook(&self.boxes) != Outlook::Met {
                    second = first;
                    first = Some(k);
                }
            }
        }
        match (first, second) {
            (Some(a), Some(b)) => {
                self.watch_new(n, a, b)?;
                Ok(true)
            }
            _ => Ok(false),
        }
    }
}
