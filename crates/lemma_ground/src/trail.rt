//! Who removed which values, and why.
use qc_model::{ConId, VarId};
use std::alloc::{AllocError, Global};

/// Why values went: the owner decided so, or a constraint or a lemma refutes them.
#[derive(Clone, Copy, PartialEq, Eq)]
pub enum Why {
    Decided,
    Rule(ConId),
    Lemma(usize),
}

/// The values of x from lo to hi went, or, where it `keeps` them, all others; on which level, and which change of x came
/// before.
#[derive(Clone, Copy)]
pub struct Change {
    pub x: VarId,
    pub lo: i64,
    pub hi: i64,
    pub keeps: bool,
    pub why: Why,
    pub level: usize,
    pub before: Option<usize>,
}

impl Change {
    /// Whether it has to do with the values from lo to hi, beyond keeping just these.
    pub fn touches(&self, lo: i64, hi: i64) -> bool {
        if self.keeps {
            !(lo == self.lo && hi == self.lo)
        } else {
            self.lo <= hi && lo <= self.hi
        }
    }
}

// Where a level begins, and which variable was decided there.
#[derive(Clone, Copy)]
struct Level {
    at: usize,
    x: VarId,
}

/// The changes, in the order in which they came, and the levels of decisions. Level 0 is before the first decision.
#[derive(Drop)]
pub struct Trail {
    changes: Vec<Change>,
    last: Vec<Option<usize>>,
    levels: Vec<Level>,
}

impl Trail {
    /// No changes of so many variables.
    pub fn new(alloc: Global, variables: usize) -> Result<Trail, AllocError> {
        let mut last = Vec::new(alloc);
        for _ in 0..variables {
            last.push(None)?;
        }
        Ok(Trail {
            changes: Vec::new(alloc),
            last,
            levels: Vec::new(alloc),
        })
    }

    /// How many changes there are.
    pub fn len(&self) -> usize {
        self.changes.len()
    }

    /// Whether there are none.
    pub fn is_empty(&self) -> bool {
        self.changes.is_empty()
    }

    /// The change at a place.
    pub fn at(&self, place: usize) -> Option<Change> {
        self.changes.get(place).copied()
    }

    /// The place of a variable's last change.
    pub fn last_of(&self, x: VarId) -> Option<usize> {
        match self.last.get(x.0 as usize) {
            Some(place) => *place,
            None => None,
        }
    }

    /// The place of a variable's last change before a place.
    pub fn last_before(&self, x: VarId, end: usize) -> Option<usize> {
        let mut place = self.last_of(x)?;
        for _ in 0..self.changes.len() {
            if place < end {
                return Some(place);
            }
            place = self.changes.get(place)?.before?;
        }
        None
    }

    /// How many decisions stand.
    pub fn levels(&self) -> usize {
        self.levels.len()
    }

    /// The variable that was decided on a level, from 1 on.
    pub fn decided_on(&self, level: usize) -> Option<VarId> {
        let k = level.checked_sub(1)?;
        Some(self.levels.get(k)?.x)
    }

    /// Opens a level with the decision of x.
    pub fn open_level(&mut self, x: VarId) -> Result<(), AllocError> {
        let at = self.changes.len();
        self.levels.push(Level { at, x })?;
        Ok(())
    }

    /// Puts a change at the end.
    pub fn push(
        &mut self,
        x: VarId,
        lo: i64,
        hi: i64,
        keeps: bool,
        why: Why,
    ) -> Result<(), AllocError> {
        let place = self.changes.len();
        let before = self.last_of(x);
        let level = self.levels.len();
        self.changes.push(Change {
            x,
            lo,
            hi,
            keeps,
            why,
            level,
            before,
        })?;
        if let Some(last) = self.last.get_mut(x.0 as usize) {
            *last = Some(place);
        }
        Ok(())
    }

    /// How many changes stand before the first of the levels beyond so many.
    pub fn len_at(&self, levels: usize) -> usize {
        match self.levels.get(levels) {
            Some(level) => level.at,
            None => self.changes.len(),
        }
    }

    /// Takes the last change off.
    pub fn pop(&mut self) -> Option<Change> {
        let change = self.changes.pop()?;
        if let Some(last) = self.last.get_mut(change.x.0 as usize) {
            *last = change.before;
        }
        Some(change)
    }

    /// Forgets all levels but so many.
    pub fn forget_levels(&mut self, levels: usize) {
        self.levels.truncate(levels);
    }
}
