//! The last tuples that ended nodes of each scope.
//!
//! Several are kept, the latest first, since what ended the last node mostly isn't allowed where an earlier scope takes another
//! way, and one of those before it is.
ghost use Rattle.std.specs.Prelude.{◌≡◌};

use model_levels::Level;
use qc_model::VarId;
use search_box::SearchBox;
use std::alloc::{AllocError, Global};

/// How many tuples of a scope are kept.
pub(crate) const KEPT: usize = 8;

/// The values of the kept tuples of all scopes: those of the latest ones, each in the place of its variable, then those of the
/// ones before them, and so on.
#[derive(Drop)]
pub(crate) struct Tuples {
    values: Vec<i64>,
    variables: usize,
}

impl Tuples {
    /// No tuples yet: of each scope the values 0 stand for them. It fails only where memory runs out.
    pub(crate) fn new(alloc: Global, variables: usize) -> Result<Tuples, AllocError> {
        Ok(Tuples {
            values: vec![in alloc; 0i64; variables.saturating_mul(KEPT)]?,
            variables,
        })
    }

    /// The value of x in the scope's tuple k, where 0 is the latest.
    pub(crate) fn value(&self, k: usize, x: usize) -> i64 {
        match self.values.get(self.place(k, x)) {
            Some(value) => *value,
            None => 0,
        }
    }

    /// From now on the scope's latest tuple is the one in these values of all variables, which stands once.
    pub(crate) fn keep(&mut self, level: &Level, values: &[i64]) {
        let stop = self.place_of(level, values);
        for back in 0..stop {
            let k = stop - back;
            for x in level.from..level.stop {
                let earlier = self.value(k - 1, x);
                self.put(k, x, earlier);
            }
        }
        for x in level.from..level.stop {
            if let Some(value) = values.get(x) {
                self.put(0, x, *value);
            }
        }
    }

    /// Which of the scope's tuples this is, or the last place, from which one goes.
    fn place_of(&self, level: &Level, values: &[i64]) -> usize {
        for k in 0..KEPT - 1 {
            if self.is_kept(k, level, values) {
                return k;
            }
        }
        KEPT - 1
    }

    fn is_kept(&self, k: usize, level: &Level, values: &[i64]) -> bool {
        for x in level.from..level.stop {
            if values.get(x) != Some(&self.value(k, x)) {
                return false;
            }
        }
        true
    }

    /// The first of the scope's tuples from k on whose values are all left.
    pub(crate) fn allowed_from(&self, k: usize, level: &Level, remains: &SearchBox) -> Option<usize>
        requires game { remains.now.game ≡ level.now.problem.now }
    {
        for at in k..KEPT {
            if self.is_allowed(at, level, remains) {
                return Some(at);
            }
        }
        None
    }

    fn is_allowed(&self, k: usize, level: &Level, remains: &SearchBox) -> bool
        requires game { remains.now.game ≡ level.now.problem.now }
    {
        level.problem.known();
        remains.known();
        for x in level.from..level.stop {
            if !remains.has(VarId(x as u16), self.value(k, x)) {
                return false;
            }
        }
        true
    }

    fn put(&mut self, k: usize, x: usize, value: i64) {
        let place = self.place(k, x);
        if let Some(kept) = self.values.get_mut(place) {
            *kept = value;
        }
    }

    fn place(&self, k: usize, x: usize) -> usize {
        k.wrapping_mul(self.variables).wrapping_add(x)
    }
}
