//! Lemmas that aren't looked at any more.
use crate::engine::Engine;
use crate::known::Known;
use lemma_ground::Why;
use std::alloc::AllocError;

// A lemma with so many conditions is always looked at.
const FEW: usize = 2;

// How much is to be said for a lemma: how often it said something of late, by its length.
fn worth_of(lemma: &Known) -> u64 {
    match u64::try_from(lemma.conditions.len()) {
        Ok(count) => lemma.activity / count.saturating_add(1).max(1),
        Err(_) => 0,
    }
}

fn may_go(lemma: &Known) -> bool {
    !lemma.is_dead && lemma.conditions.len() > FEW
}

impl<'p> Engine<'p> {
    /// Looks no more at the lesser half of the longer lemmas, but for those that changes rest on. They may still be named.
    pub fn forget_half(&mut self) -> Result<(), AllocError> {
        let mut worths = Vec::new(self.alloc);
        for lemma in self.known.as_slice() {
            if may_go(lemma) {
                worths.push(worth_of(lemma))?;
            }
        }
        worths.sort_unstable();
        let Some(middle) = worths.get(worths.len() / 2).copied() else {
            return Ok(());
        };
        let is_kept = self.reasons()?;
        let mut gone = 0usize;
        for (n, lemma) in self.known.iter_mut().enumerate() {
            let stays = is_kept.get(n).copied().unwrap_or(true);
            if may_go(lemma) && !stays && worth_of(lemma) < middle {
                lemma.is_dead = true;
                gone = gone.saturating_add(1);
            }
            lemma.activity /= 2;
        }
        self.live = self.live.saturating_sub(gone);
        Ok(())
    }

    // Whether a change rests on the lemma, for each of them.
    fn reasons(&self) -> Result<Vec<bool>, AllocError> {
        let mut is_reason = vec![in self.alloc; false; self.known.len()]?;
        for place in 0..self.trail.len() {
            if let Some(change) = self.trail.at(place)
                && let Why::Lemma(n) = change.why
                && let Some(it) = is_reason.get_mut(n)
            {
                *it = true;
            }
        }
        Ok(is_reason)
    }
}
