//! The tuples that ended nodes of each scope that another can outdo, by how often they did.
//!
//! There the latest tuple often did no more than was needed at its node, and at the next one that isn't enough. So several are
//! kept, each with what came of it, and of those that are left whole the one that ended most of the nodes that it was tried at
//! goes first.
ghost use Rattle.std.specs.Prelude.{◌≡◌};

use model_levels::Level;
use qc_model::VarId;
use search_box::SearchBox;
use std::alloc::{AllocError, Global};

/// How many tuples of a scope are kept.
const KEPT: usize = 32;

/// From so many nodes on all counts of a tuple are halved, so that what came of it lately counts most.
const MOST_COUNTED: u32 = 256;

/// What came of a tuple.
#[derive(Clone, Copy)]
struct Tally {
    /// How many nodes it ended: 0 where there is no tuple.
    ended: u32,
    /// How many it was tried at in vain.
    failed: u32,
    /// The numbers of the last node that it ended, and of the last one that it was tried at.
    ended_at: u64,
    tried_at: u64,
}

impl Tally {
    /// That of a place without a tuple.
    fn new() -> Tally {
        Tally {
            ended: 0,
            failed: 0,
            ended_at: 0,
            tried_at: 0,
        }
    }

    fn halve_large(&mut self) {
        if self.ended.saturating_add(self.failed) >= MOST_COUNTED {
            self.ended = (self.ended / 2).max(1);
            self.failed /= 2;
        }
    }

    /// The share of nodes that it is likely to end, by the other's denominator.
    fn weight(&self, other: &Tally) -> u64 {
        let ended = u64::from(self.ended.saturating_add(1));
        let others = u64::from(other.ended.saturating_add(other.failed).saturating_add(2));
        ended.saturating_mul(others)
    }

    /// Whether its tuple is to be tried before the other's: it is likelier to end a node, or as likely and ended one later.
    fn is_before(&self, other: &Tally) -> bool {
        let here = self.weight(other);
        let there = other.weight(self);
        here > there || (here == there && self.ended_at > other.ended_at)
    }
}

/// The values of the kept tuples of all scopes, each in the place of its variable, and what came of them.
#[derive(Drop)]
pub(crate) struct Rated {
    values: Vec<i64>,
    tallies: Vec<Tally>,
    variables: usize,
    scopes: usize,
}

impl Rated {
    /// No tuples yet. It fails only where memory runs out.
    pub(crate) fn new(alloc: Global, variables: usize, scopes: usize) -> Result<Rated, AllocError> {
        Ok(Rated {
            values: vec![in alloc; 0i64; variables.saturating_mul(KEPT)]?,
            tallies: vec![in alloc; Tally::new(); scopes.saturating_mul(KEPT)]?,
            variables,
            scopes,
        })
    }

    /// The value of x in the scope's tuple at place k.
    pub(crate) fn value(&self, k: usize, x: usize) -> i64 {
        match self.values.get(self.value_place(k, x)) {
            Some(value) => *value,
            None => 0,
        }
    }

    /// Learns that the tuple in these values of all variables ended the scope's node of this number. It is kept from now on, where
    /// need be in place of the one that is tried last.
    pub(crate) fn keep(&mut self, level: &Level, node: u64, values: &[i64]) {
        let k = match self.find(level, values) {
            Some(k) => k,
            None => self.replace_last(level, values),
        };
        if let Some(tally) = self.tally_mut(level, k) {
            tally.ended = tally.ended.saturating_add(1);
            tally.ended_at = node;
            tally.halve_large();
        }
    }

    /// Learns that the scope's tuple at place k was tried in vain.
    pub(crate) fn fail(&mut self, level: &Level, k: usize) {
        if let Some(tally) = self.tally_mut(level, k) {
            tally.failed = tally.failed.saturating_add(1);
            tally.halve_large();
        }
    }

    /// Which of the scope's tuples is tried next at its node of this number, where one is left whole that wasn't tried there.
    pub(crate) fn take_best(
        &mut self,
        level: &Level,
        node: u64,
        remains: &SearchBox,
    ) -> Option<usize>
        requires game { remains.now.game ≡ level.now.problem.now }
    {
        let mut best = Tally::new();
        let mut place = None;
        for k in 0..KEPT {
            let tally = self.tally(level, k);
            if tally.ended > 0
                && tally.tried_at != node
                && (place.is_none() || tally.is_before(&best))
                && self.is_allowed(k, level, remains)
            {
                best = tally;
                place = Some(k);
            }
        }
        if let Some(k) = place {
            self.try_at(level, k, node);
        }
        place
    }

    fn try_at(&mut self, level: &Level, k: usize, node: u64) {
        if let Some(tally) = self.tally_mut(level, k) {
            tally.tried_at = node;
        }
    }

    /// The place of the tuple in these values of all variables.
    fn find(&self, level: &Level, values: &[i64]) -> Option<usize> {
        for k in 0..KEPT {
            if self.tally(level, k).ended > 0 && self.is_kept(k, level, values) {
                return Some(k);
            }
        }
        None
    }

    fn is_kept(&self, k: usize, level: &Level, values: &[i64]) -> bool {
        for x in level.from..level.stop {
            if values.get(x) != Some(&self.value(k, x)) {
                return false;
            }
        }
        true
    }

    fn is_allowed(&self, k: usize, level: &Level, remains: &SearchBox) -> bool
        requires game { remains.now.game ≡ level.now.problem.now }
    {
        level.problem.known();
        remains.known();
        for x in level.from..level.stop {
            if !remains.has(VarId(x as u16), self.value(k, x)) {
                return false;
            }
        }
        true
    }

    /// Puts the tuple in these values of all variables in place of the one that is tried last, and says where.
    fn replace_last(&mut self, level: &Level, values: &[i64]) -> usize {
        let k = self.last_place(level);
        if let Some(tally) = self.tally_mut(level, k) {
            *tally = Tally::new();
        }
        for x in level.from..level.stop {
            if let Some(value) = values.get(x) {
                self.put(k, x, *value);
            }
        }
        k
    }

    /// The first place without a tuple, or else that of the tuple that is tried last.
    fn last_place(&self, level: &Level) -> usize {
        let mut last = self.tally(level, 0);
        let mut place = 0;
        for k in 0..KEPT {
            let tally = self.tally(level, k);
            if tally.ended == 0 {
                return k;
            }
            if last.is_before(&tally) {
                last = tally;
                place = k;
            }
        }
        place
    }

    fn tally(&self, level: &Level, k: usize) -> Tally {
        match self.tallies.get(self.tally_place(level, k)) {
            Some(tally) => *tally,
            None => Tally::new(),
        }
    }

    fn tally_mut(&mut self, level: &Level, k: usize) -> Option<&mut Tally> {
        let place = self.tally_place(level, k);
        self.tallies.get_mut(place)
    }

    fn put(&mut self, k: usize, x: usize, value: i64) {
        let place = self.value_place(k, x);
        if let Some(kept) = self.values.get_mut(place) {
            *kept = value;
        }
    }

    fn value_place(&self, k: usize, x: usize) -> usize {
        k.wrapping_mul(self.variables).wrapping_add(x)
    }

    fn tally_place(&self, level: &Level, k: usize) -> usize {
        k.wrapping_mul(self.scopes)
            .wrapping_add(level.number as usize)
    }
}
