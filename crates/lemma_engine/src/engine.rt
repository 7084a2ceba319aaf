//! What a search goes over, and what it changes.
use crate::clauses::is_hinted;
use crate::known::Known;
use crate::waiting::Waiting;
use lemma_ground::{Boxes, Cut, Facts, Trail, TruthOf, Wakes, Why, rule_at};
use qc_model::{ConId, Kind, Problem, VarId};
use std::alloc::{AllocError, Global};

/// A value that the winner takes.
#[derive(Clone, Copy)]
pub struct Choice {
    pub x: VarId,
    pub v: i64,
}

/// What a conflict comes from: no value is left to a variable, a constraint is refuted, a lemma holds, or all values are taken
/// and the goal holds.
#[derive(Clone, Copy)]
pub enum Cause {
    Emptied(VarId),
    Rule(ConId),
    Lemma(usize),
    Goal,
}

/// The loser loses here, whatever it does, where the winner takes these values.
#[derive(Drop)]
pub struct Conflict {
    pub loser: Kind,
    pub cause: Cause,
    pub choices: Vec<Choice>,
}

// A condition of a lemma that is watched, and another one that hasn't been met when it was looked at last.
#[derive(Clone, Copy)]
pub(crate) struct Watch {
    pub(crate) lemma: usize,
    pub(crate) place: usize,
    pub(crate) lo: i64,
    pub(crate) hi: i64,
    pub(crate) other: VarId,
    pub(crate) other_lo: i64,
    pub(crate) other_hi: i64,
}

// Of a constraint its scope, or one that isn't there where it is left out, and its keeper; of a clause two items to look at first,
// once they were seen.
#[derive(Clone, Copy)]
pub(crate) struct Hint {
    pub(crate) scope: usize,
    pub(crate) side: Kind,
    pub(crate) first: Option<TruthOf>,
    pub(crate) second: Option<TruthOf>,
}

/// The values left, the changes that led to them, the lemmas known, what waits to be looked at, and the scope whose variables
/// are chosen next: those of earlier scopes have one value each.
#[derive(Drop)]
pub struct Engine<'p> {
    pub alloc: Global,
    pub facts: Facts,
    pub boxes: Boxes<'p>,
    pub trail: Trail,
    pub known: Vec<Known>,
    pub scope: usize,
    // All variables before this one have one value.
    pub(crate) first_open: usize,
    /// The value that each variable had last.
    pub saved: Vec<Option<i64>>,
    // Constraints and lemmas that were looked at.
    pub(crate) work: u64,
    // What was passed over besides: watched conditions, lemmas, and constraints that mention a variable.
    passed_over: u64,
    /// Lemmas that are looked at.
    pub live: usize,
    pub(crate) watches: Vec<Vec<Watch>>,
    pub(crate) by_place: Vec<Vec<usize>>,
    pub(crate) waiting: Waiting,
    pub(crate) hints: Vec<Hint>,
    pub(crate) steps_scopes: bool,
}

// From this scope on those of the player's that are of scopes before `exists` speak, and of the opponent's before `forall`.
#[derive(Clone, Copy)]
struct Reach {
    first: usize,
    exists: usize,
    forall: usize,
}

fn is_within(hint: &Hint, reach: &Reach) -> bool {
    let end = match hint.side {
        Kind::Exists => reach.exists,
        Kind::Forall => reach.forall,
    };
    reach.first <= hint.scope && hint.scope < end
}

// A constraint of so many variables takes long.
const MANY: usize = 4;

/// To pass over so many things counts as a look.
pub const AS_A_LOOK: u64 = 128;

impl<'p> Engine<'p> {
    /// The declared domains, before any decision; all constraints that speak there wait. It fails only where memory runs out.
    pub fn new(alloc: Global, problem: &'p Problem) -> Result<Engine<'p>, AllocError> {
        let facts = Facts::new(alloc, problem)?;
        let mut is_slow = Vec::new(alloc);
        let mut hints = Vec::new(alloc);
        for k in 0..facts.rules() {
            let c = rule_at(k);
            is_slow.push(!facts.is_clause(c) && facts.own_of(c).len() > MANY)?;
            hints.push(Hint {
                scope: facts.rule_scope(c),
                side: facts.rule_side(c),
                first: None,
                second: None,
            })?;
        }
        let mut watches: Vec<Vec<Watch>> = Vec::new(alloc);
        for _ in 0..facts.variables().saturating_mul(3) {
            watches.push(Vec::new(alloc))?;
        }
        let mut saved = Vec::new(alloc);
        for _ in 0..facts.variables() {
            saved.push(None)?;
        }
        let mut by_place: Vec<Vec<usize>> = Vec::new(alloc);
        let mut steps_scopes = false;
        for scope in 0..facts.goal().saturating_add(1) {
            by_place.push(Vec::new(alloc))?;
            if scope < facts.goal() && facts.is_restricted(scope) {
                steps_scopes = true;
            }
        }
        let mut engine = Engine {
            alloc,
            boxes: Boxes::new(alloc, problem)?,
            trail: Trail::new(alloc, facts.variables())?,
            known: Vec::new(alloc),
            scope: 0,
            first_open: 0,
            saved,
            work: 0,
            passed_over: 0,
            live: 0,
            watches,
            by_place,
            waiting: Waiting::new(alloc, facts.variables(), is_slow)?,
            hints,
            steps_scopes,
            facts,
        };
        engine.wake_active(None)?;
        Ok(engine)
    }

    /// How many constraints and lemmas were looked at. What was passed over counts for as many as take about as long.
    pub fn looks(&self) -> u64 {
        self.work.saturating_add(self.passed_over / AS_A_LOOK)
    }

    /// Counts what is passed over.
    pub(crate) fn pass_over(&mut self, count: usize) {
        self.passed_over = self.passed_over.saturating_add(count as u64);
    }

    /// Whether a constraint speaks where the next scope is this one.
    pub(crate) fn is_active_at(&self, c: ConId, scope: usize) -> bool {
        match self.hints.get(c.0 as usize) {
            Some(hint) => {
                hint.scope >= scope && hint.scope < self.facts.reach_from(hint.side, scope)
            }
            None => false,
        }
    }

    /// Leaves a constraint out from now on: it isn't looked at any more.
    pub fn leave_out(&mut self, c: ConId) {
        if let Some(hint) = self.hints.get_mut(c.0 as usize) {
            hint.scope = usize::MAX;
        }
    }

    /// Whether a constraint is left out.
    pub fn is_left_out(&self, c: ConId) -> bool {
        match self.hints.get(c.0 as usize) {
            Some(hint) => hint.scope == usize::MAX,
            None => true,
        }
    }

    /// Lets all constraints wait that speak here and didn't at an earlier scope.
    pub(crate) fn wake_active(&mut self, earlier: Option<usize>) -> Result<(), AllocError> {
        let count = self.facts.rules();
        self.pass_over(count);
        for k in 0..count {
            let c = rule_at(k);
            let did = match earlier {
                Some(scope) => self.is_active_at(c, scope),
                None => false,
            };
            if !did && self.is_active_at(c, self.scope) {
                self.waiting.add_rule(c)?;
            }
        }
        Ok(())
    }

    /// Lets what a change of x concerns wait, where its ends were these before.
    pub(crate) fn wake(&mut self, x: VarId, least: i64, greatest: i64) -> Result<(), AllocError> {
        let is_raised = self.boxes.least(x) > least;
        let is_lowered = self.boxes.greatest(x) < greatest;
        let reach = self.reach();
        let mut count = 0usize;
        for waker in self.facts.wakers_of(x) {
            count = count.saturating_add(1);
            let concerns = match waker.when {
                Wakes::Raised => is_raised,
                Wakes::Lowered => is_lowered,
                Wakes::Changed => true,
            };
            if concerns
                && let Some(hint) = self.hints.get(waker.c.0 as usize)
                && is_within(hint, &reach)
                && !is_hinted(hint, &self.boxes)
            {
                self.waiting.add_rule(waker.c)?;
            }
        }
        self.pass_over(count);
        self.waiting.add_variable(x)
    }

    // Which constraints speak here.
    fn reach(&self) -> Reach {
        Reach {
            first: self.scope,
            exists: self.facts.reach_from(Kind::Exists, self.scope),
            forall: self.facts.reach_from(Kind::Forall, self.scope),
        }
    }

    /// Takes values of the loser's out of x, and notes why. A conflict comes where none would be left.
    pub(crate) fn remove(
        &mut self,
        x: VarId,
        lo: i64,
        hi: i64,
        why: Why,
        loser: Kind,
    ) -> Result<Option<Conflict>, AllocError> {
        let (least, greatest) = (self.boxes.least(x), self.boxes.greatest(x));
        match self.boxes.cut(x, lo, hi)? {
            Cut::Nothing => Ok(None),
            Cut::Emptied => {
                self.trail.push(x, lo, hi, false, why)?;
                Ok(Some(Conflict {
                    loser,
                    cause: Cause::Emptied(x),
                    choices: Vec::new(self.alloc),
                }))
            }
            Cut::Some => {
                self.trail.push(x, lo, hi, false, why)?;
                self.wake(x, least, greatest)?;
                Ok(None)
            }
        }
    }

    /// Looks at all that waits, until nothing does, a conflict is found, or there were so many looks in all. In large domains
    /// constraints may take one value after the other out, so that nothing else would end this soon.
    pub fn propagate(&mut self, most: u64) -> Result<Option<Conflict>, AllocError> {
        for _ in 0..u64::MAX {
            if self.looks() >= most {
                return Ok(None);
            }
            let Some(found) = self.look_at_next()? else {
                return Ok(None);
            };
            if found.is_some() {
                self.waiting.clear();
                return Ok(found);
            }
        }
        Ok(None)
    }

    // What looking at the next comes to. None: nothing waits.
    fn look_at_next(&mut self) -> Result<Option<Option<Conflict>>, AllocError> {
        if let Some(x) = self.waiting.next_variable() {
            return Ok(Some(self.visit_lemmas(x)?));
        }
        let Some(c) = self.waiting.next_rule() else {
            return Ok(None);
        };
        let found = self.look_at_rule(c)?;
        self.waiting.finish_rule(c);
        Ok(Some(found))
    }

    fn look_at_rule(&mut self, c: ConId) -> Result<Option<Conflict>, AllocError> {
        if !self.is_active_at(c, self.scope) {
            return Ok(None);
        }
        self.work = self.work.saturating_add(1);
        if self.facts.is_clause(c) {
            return self.run_clause(c);
        }
        self.run_rule(c)
    }
}
