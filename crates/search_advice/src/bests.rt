//! When the best value is looked for that the last scope can give to the variable that it optimises.
//!
//! The search finds tuples that get better bit by bit, each by a case of its own. A free search (`search_scout`) that goes for the best
//! value gets there sooner, and a bound that gives up all worse ones before the first case leaves little to go over. So the
//! scout is asked at a node after one that took many turns, and as long as that serves.
use model_levels::{Level, Levels};
use qc_model::{Problem, ScopeId, Sense, VarId};
use search_scout::Scout;
use std::alloc::{AllocError, Global};

/// After a node that took so many turns the next one is looked at.
const MANY_TURNS: u64 = 500;

/// A look takes one in so many of the turns of that node, and at least so many values.
const SHARE: u64 = 16;

const SHORTEST_LOOK: u64 = 60;

/// What a value costs that a look takes, in turns of the search.
const LOOK_COST: u64 = 2;

/// After so many looks in vain, more than served, there are no more.
const MOST_FAILURES: u8 = 3;

/// The variable of which a node seeks the best value, and which value is best.
#[derive(Clone, Copy)]
pub struct Sought {
    pub sense: Sense,
    pub variable: VarId,
}

/// The scout, and whether it is asked next.
#[derive(Drop)]
pub(crate) struct Bests<'p> {
    alloc: Global,
    problem: &'p Problem,
    /// The scope whose values are looked for.
    scope: Option<u8>,
    /// It is made where it is asked first.
    scout: Option<Scout<'p>>,
    /// How many values the next look takes at most; 0 where there is none.
    turns: u64,
    failures: u8,
    /// How many turns the last node took that was searched without a bound.
    plain: u64,
    /// Whether a value was found at the node that the search is at.
    is_tried: bool,
    /// How many turns were left where the node began.
    left: u64,
}

impl<'p> Bests<'p> {
    /// No look yet. Without `tries` there never is one.
    pub(crate) fn new(alloc: Global, levels: &Levels<'p>, tries: bool) -> Bests<'p> {
        levels.problem.known();
        let scopes = levels.problem.scopes();
        let scope = if tries && scopes > 0 {
            Some((scopes - 1) as u8)
        } else {
            None
        };
        Bests {
            alloc,
            problem: levels.problem,
            scope,
            scout: None,
            turns: 0,
            failures: 0,
            plain: 0,
            is_tried: false,
            left: 0,
        }
    }

    /// The best value found for what is sought at a node of the scope, where it is worth to look for it. It fails only where memory
    /// runs out.
    pub(crate) fn look(
        &mut self,
        level: &Level,
        sought: Option<Sought>,
        values: &[i64],
        left: u64,
    ) -> Result<Option<i64>, AllocError> {
        if self.scope != Some(level.number) {
            return Ok(None);
        }
        self.left = left;
        self.is_tried = false;
        let Some(sought) = sought else {
            return Ok(None);
        };
        if self.turns == 0 {
            return Ok(None);
        }
        let best = self.ask(level, sought, values)?;
        match best {
            Some(_) => self.is_tried = true,
            None => self.fail(),
        }
        Ok(best)
    }

    fn ask(
        &mut self,
        level: &Level,
        sought: Sought,
        values: &[i64],
    ) -> Result<Option<i64>, AllocError> {
        if self.scout.is_none() {
            self.scout = Some(Scout::new(self.alloc, self.problem)?);
        }
        match &mut self.scout {
            Some(scout) => scout.look_best(
                ScopeId(level.number),
                values,
                self.turns,
                sought.sense,
                sought.variable,
            ),
            None => Ok(None),
        }
    }

    /// Learns whether a bound by the value that was found served.
    pub(crate) fn tell(&mut self, served: bool) {
        if !served {
            self.fail();
        }
    }

    /// A look serves where it and the node together cost no more than the last node without one did.
    fn judge(&mut self, took: u64) {
        let cost = self.turns.saturating_mul(LOOK_COST).saturating_add(took);
        if cost > self.plain {
            self.fail();
        } else {
            self.failures = self.failures.saturating_sub(1);
        }
    }

    fn fail(&mut self) {
        self.is_tried = false;
        self.turns = 0;
        self.failures = self.failures.saturating_add(1);
    }

    /// Learns how many turns are left after the scope's node. Where a value served the next node is looked at as this one was.
    pub(crate) fn learn(&mut self, level: &Level, left: u64) {
        if self.scope != Some(level.number) {
            return;
        }
        let took = self.left.saturating_sub(left);
        if self.is_tried {
            self.judge(took);
            return;
        }
        self.plain = took;
        self.turns = if took > MANY_TURNS && self.failures < MOST_FAILURES {
            (took / SHARE).max(SHORTEST_LOOK)
        } else {
            0
        };
    }
}
