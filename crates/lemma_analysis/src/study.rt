//! The analysis of a conflict as the search calls it.
use crate::climbing::{Slope, slope_of};
use crate::resolving::Settled;
use lemma_engine::{AS_A_LOOK, Cause, Conflict, Engine, Known};
use lemma_needs::{
    Bench, Marks, Needs, Question, add_changes_of, needed, needed_for_clause, needed_for_lemma,
};
use qc_model::{Kind, Problem, VarId};
use std::alloc::{AllocError, Global};
use std::mem;

/// What a conflict teaches: a lemma, to how many decisions to go back, and the loser's variable whose condition isn't met
/// there.
#[derive(Drop)]
pub struct Lesson {
    pub lemma: Known,
    pub levels: usize,
    pub x: Option<VarId>,
}

/// Analyses conflicts, on a box of its own.
#[derive(Drop)]
pub struct Analyst<'p> {
    pub(crate) bench: Bench<'p>,
    pub(crate) marks: Marks,
    pub(crate) resolved: Vec<usize>,
    pub(crate) needed: Needs,
    // The winner's restricted scopes that were passed on the way to the conflict, as far as they count.
    pub(crate) is_passed: Vec<bool>,
    // The value of each variable in the position at hand, once values were turned over, and what is known for that.
    pub(crate) values: Vec<i64>,
    pub(crate) slope: Slope,
    pub(crate) last_exists: usize,
    pub(crate) last_forall: usize,
    /// How much conflicts rested on each variable of late.
    pub activity: Vec<f64>,
    pub(crate) weight: f64,
    // How often a constraint was asked what it needs.
    pub(crate) tests: u64,
    // How many items, changes and variables were gone over besides.
    gone_over: u64,
    budget: u64,
}

// By how much a conflict counts more than the one before.
const GROWTH: f64 = 1.05;

const TOO_MUCH: f64 = 1e100;

const LITTLE: f64 = 1e-100;

impl<'p> Analyst<'p> {
    /// An analyst for this problem, which gives up once so many constraints and lemmas were looked at, by the engine and by
    /// itself. It fails only where memory runs out.
    pub fn new(
        alloc: Global,
        problem: &'p Problem,
        engine: &Engine,
        budget: u64,
    ) -> Result<Analyst<'p>, AllocError> {
        let goal = engine.facts.goal();
        let mut last_exists = 0usize;
        let mut last_forall = 0usize;
        for scope in 0..goal {
            match engine.facts.side_at(scope) {
                Kind::Exists => last_exists = scope,
                Kind::Forall => last_forall = scope,
            }
        }
        Ok(Analyst {
            values: vec![in alloc; 0i64; engine.facts.variables()]?,
            slope: slope_of(engine, last_forall)?,
            bench: Bench::new(alloc, problem)?,
            marks: Marks::new(alloc),
            resolved: Vec::new(alloc),
            needed: Needs::new(alloc),
            is_passed: vec![in alloc; false; goal]?,
            last_exists,
            last_forall,
            activity: vec![in alloc; 0.0f64; engine.facts.variables()]?,
            weight: 1.0,
            tests: 0,
            gone_over: 0,
            budget,
        })
    }

    /// Whether there were as many looks as there may be: those of the engine, the questions what a constraint needs, and for
    /// what else was gone over as many as take about as long.
    pub fn is_spent(&self, engine: &Engine) -> bool {
        engine.looks() >= self.looks_left()
    }

    /// How many looks the engine may come to: all but those that the analysis took.
    pub fn looks_left(&self) -> u64 {
        self.budget.saturating_sub(self.looks())
    }

    /// How many looks the analysis took.
    pub fn looks(&self) -> u64 {
        self.tests.saturating_add(self.gone_over / AS_A_LOOK)
    }

    /// Counts what was gone over.
    pub fn go_over(&mut self, count: usize) {
        self.gone_over = self.gone_over.saturating_add(count as u64);
    }

    /// The lemma that a conflict leaves. None where the analysis gives up, as it does once all looks are spent.
    pub fn study(
        &mut self,
        engine: &Engine,
        conflict: &Conflict,
    ) -> Result<Option<Lesson>, AllocError> {
        for passed in self.is_passed.iter_mut() {
            *passed = false;
        }
        self.take_values(engine);
        if matches!(conflict.cause, Cause::Goal) {
            self.climb(engine)?;
        }
        // each time it begins anew one scope more is passed
        for _ in 0..engine.facts.goal().saturating_add(1) {
            self.marks.clear();
            self.resolved.clear();
            self.mark_cause(engine, conflict)?;
            self.mark_passed(engine, conflict.loser)?;
            match self.resolve(engine, conflict)? {
                Settled::At(depth) => {
                    self.weight *= GROWTH;
                    return Ok(Some(self.draw(engine, conflict, depth)?));
                }
                Settled::Anew => {}
                Settled::Stuck => return Ok(None),
            }
        }
        Ok(None)
    }

    /// A variable counts as one that conflicts rest on.
    pub(crate) fn bump(&mut self, x: VarId) {
        let mut is_too_much = false;
        if let Some(activity) = self.activity.get_mut(x.0 as usize) {
            *activity += self.weight;
            is_too_much = *activity > TOO_MUCH;
        }
        if is_too_much {
            for activity in self.activity.iter_mut() {
                *activity *= LITTLE;
            }
            self.weight *= LITTLE;
        }
    }

    /// How much conflicts rested on each variable of late, by the most of all, which is 1. Nothing of it is left.
    pub fn take_activity(&mut self, alloc: Global) -> Vec<f64> {
        let mut taken = mem::replace(&mut self.activity, Vec::new(alloc));
        let mut most = 0.0f64;
        for activity in taken.iter() {
            if *activity > most {
                most = *activity;
            }
        }
        if most > 0.0 {
            for activity in taken.iter_mut() {
                *activity /= most;
            }
        }
        taken
    }

    /// Marks what was found to be needed.
    pub(crate) fn mark_needed(&mut self) -> Result<(), AllocError> {
        self.marks.add_needs(&self.needed)
    }

    fn mark_passed(&mut self, engine: &Engine, loser: Kind) -> Result<(), AllocError> {
        for scope in 0..self.is_passed.len() {
            if self.is_passed.get(scope).copied().unwrap_or(false) {
                self.mark_passing(engine, scope, loser)?;
            }
        }
        Ok(())
    }

    /// Marks the changes that a conflict rests on.
    pub(crate) fn mark_cause(
        &mut self,
        engine: &Engine,
        conflict: &Conflict,
    ) -> Result<(), AllocError> {
        let end = engine.trail.len();
        self.needed.clear();
        match conflict.cause {
            Cause::Emptied(x) => {
                add_changes_of(engine, x, end, &mut self.needed)?;
            }
            Cause::Lemma(n) => {
                needed_for_lemma(engine, n, None, end, &mut self.needed)?;
            }
            Cause::Rule(c) => {
                if engine.facts.is_clause(c) {
                    needed_for_clause(engine, c, None, end, &mut self.needed)?;
                } else {
                    let question = Question {
                        c,
                        end,
                        kept: None,
                        choices: conflict.choices.as_slice(),
                        holds: false,
                        below: usize::MAX,
                    };
                    needed(
                        engine,
                        &mut self.bench,
                        &question,
                        &mut self.needed,
                        &mut self.tests,
                    )?;
                }
            }
            Cause::Goal => {
                let (first, stop) = engine.facts.rules_at(engine.facts.goal());
                return self.mark_holding(engine, first, stop, usize::MAX, conflict.loser);
            }
        }
        self.mark_needed()
    }
}
