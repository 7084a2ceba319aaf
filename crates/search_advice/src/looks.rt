//! When a tuple of the last scope is looked for.
//!
//! Where that scope is the player's and nothing is demanded after it, one allowed tuple settles it. The search goes over its
//! variables and values in order, so it can go astray for long where a free search (`search_scout`) doesn't. So the scout is asked at
//! the first node where the scope has many variables, and after a node that took many turns.
use crate::advice::demands_after;
use model_levels::{Level, Levels};
use qc_model::{Kind, Problem, ScopeId};
use search_scout::Scout;
use std::alloc::{AllocError, Global};

/// From so many variables on the first node is looked at.
const MANY_VARIABLES: usize = 8;

/// After a node that took so many turns the next one is looked at.
const MANY_TURNS: u64 = 60;

/// How many values a look takes at most, at first and once looks have served.
const FIRST_LOOK: u64 = 3_000;

const LONGEST_LOOK: u64 = 32_000;

/// After so many looks in vain there are no more.
const MOST_FAILURES: u8 = 3;

/// The scout, and whether it is asked next.
#[derive(Drop)]
pub(crate) struct Looks<'p> {
    alloc: Global,
    problem: &'p Problem,
    /// The scope whose tuples are looked for.
    scope: Option<u8>,
    /// It is made where it is asked first.
    scout: Option<Scout<'p>>,
    is_wanted: bool,
    turns: u64,
    failures: u8,
    /// How many turns were left where the node began.
    left: u64,
}

impl<'p> Looks<'p> {
    /// No look yet. Without `tries` there never is one.
    pub(crate) fn new(alloc: Global, levels: &Levels<'p>, tries: bool) -> Looks<'p> {
        let last = if tries { last_to_look_at(levels) } else { None };
        let (scope, is_wanted) = match last {
            Some(last) => (Some(last.number), last.is_wide),
            None => (None, false),
        };
        Looks {
            alloc,
            problem: levels.problem,
            scope,
            scout: None,
            is_wanted,
            turns: FIRST_LOOK,
            failures: 0,
            left: 0,
        }
    }

    /// Looks for a tuple at a node of the scope, where that is worth it, and says whether one was found. It fails only where
    /// memory runs out.
    pub(crate) fn look(
        &mut self,
        level: &Level,
        values: &[i64],
        left: u64,
    ) -> Result<bool, AllocError> {
        if self.scope != Some(level.number) {
            return Ok(false);
        }
        self.left = left;
        if !self.is_wanted {
            return Ok(false);
        }
        let found = self.ask(level, values)?;
        self.tell(found);
        Ok(found)
    }

    fn ask(&mut self, level: &Level, values: &[i64]) -> Result<bool, AllocError> {
        if self.scout.is_none() {
            self.scout = Some(Scout::new(self.alloc, self.problem)?);
        }
        match &mut self.scout {
            Some(scout) => scout.look(ScopeId(level.number), values, self.turns),
            None => Ok(false),
        }
    }

    fn tell(&mut self, found: bool) {
        if found {
            self.turns = self.turns.saturating_mul(2).min(LONGEST_LOOK);
        } else {
            self.failures = self.failures.saturating_add(1);
        }
    }

    /// The value of x in the tuple that was found last.
    pub(crate) fn value(&self, x: usize) -> i64 {
        match &self.scout {
            Some(scout) => match scout.values().get(x) {
                Some(value) => *value,
                None => 0,
            },
            None => 0,
        }
    }

    /// Learns how many turns are left after the scope's node.
    pub(crate) fn learn(&mut self, level: &Level, left: u64) {
        if self.scope == Some(level.number) {
            let took = self.left.saturating_sub(left);
            self.is_wanted = took > MANY_TURNS && self.failures < MOST_FAILURES;
        }
    }
}

/// The last scope, and whether it has many variables.
#[derive(Clone, Copy)]
struct Last {
    number: u8,
    is_wide: bool,
}

/// The last scope, where one allowed tuple of it settles it.
fn last_to_look_at(levels: &Levels) -> Option<Last> {
    levels.problem.known();
    let mut demands = false;
    let mut last = None;
    for i in 0..levels.problem.scopes() {
        let level = levels.level(ScopeId(i as u8));
        demands = demands_after(level, demands);
        last = if_settled_by_one(level, demands);
    }
    last
}

/// The scope, where it is the player's and nothing is demanded after it.
fn if_settled_by_one(level: &Level, demands: bool) -> Option<Last> {
    match level.kind {
        Kind::Exists if !demands => Some(Last {
            number: level.number,
            is_wide: level.stop - level.from > MANY_VARIABLES,
        }),
        _ => None,
    }
}
