//! When the search begins again from its first decision, when it forgets lemmas, and when it keeps too much.
use lemma_engine::Known;

/// The least number of conflicts between two beginnings.
const UNIT: u64 = 128;

/// The number of lemmas beyond which half of them are forgotten the first time.
const MOST_LEMMAS: usize = 4000;

/// The most that is kept of all lemmas learnt.
const MOST_KEPT: u64 = 12_000_000;

/// What is kept of a lemma besides its literals and steps.
const OF_EACH: u64 = 16;

/// How many conflicts there were since the search began again, after how many it does so, how many lemmas are too many, and
/// how much is kept.
#[derive(Clone, Copy)]
pub(crate) struct Pace {
    since: u64,
    limit: u64,
    // The two numbers from which the limits follow: 1, 1, 2, 1, 1, 2, 4, ..
    turn: u64,
    factor: u64,
    most: usize,
    kept: u64,
}

impl Pace {
    pub(crate) fn new() -> Pace {
        Pace {
            since: 0,
            limit: UNIT,
            turn: 1,
            factor: 1,
            most: MOST_LEMMAS,
            kept: 0,
        }
    }

    /// A lemma is kept.
    pub(crate) fn keep(&mut self, lemma: &Known) {
        self.kept = self.kept.saturating_add(kept_of(lemma));
    }

    /// Whether too much is kept.
    pub(crate) fn keeps_too_much(&self) -> bool {
        self.kept >= MOST_KEPT
    }

    /// One conflict more.
    pub(crate) fn count(&mut self) {
        self.since = self.since.saturating_add(1);
    }

    /// Whether to begin again now.
    pub(crate) fn is_over(&mut self) -> bool {
        if self.since < self.limit {
            return false;
        }
        self.since = 0;
        // Knuth's form of the series
        if self.turn & self.turn.wrapping_neg() == self.factor {
            self.turn = self.turn.saturating_add(1);
            self.factor = 1;
        } else {
            self.factor = self.factor.saturating_mul(2);
        }
        self.limit = UNIT.saturating_mul(self.factor);
        true
    }

    /// Whether so many lemmas are too many. If so, a tenth more are allowed from now on.
    pub(crate) fn is_full(&mut self, lemmas: usize) -> bool {
        if lemmas <= self.most {
            return false;
        }
        self.most = self.most.saturating_add(self.most / 10);
        true
    }
}

// The ranges of a lemma's conditions, its sums and its steps, and what each lemma takes.
fn kept_of(lemma: &Known) -> u64 {
    let mut count = lemma.sums.len().saturating_add(lemma.taken.len());
    for condition in lemma.conditions.as_slice() {
        count = count.saturating_add(condition.ranges.len().max(1));
    }
    OF_EACH.saturating_add(count as u64)
}
