//! Lists made shorter, by showing their lemmas anew.
//!
//! What shows a lemma was whatever the search had at hand. Here the lemmas of a list are gone over again, from the last one to the
//! first: the conditions of each are assumed once more, and only constraints and lemmas that are needed already are looked at.
//! The lemmas that its proof names besides come in one by one, so that it may turn out to need none of them, or fewer
//! conditions; and lemmas that nothing names any more go. In between they are gone over from the first to the last, with all that
//! come before at hand, by which some lose more of their conditions.
use crate::listing::{add_named, core_of};
use lemma_analysis::Analyst;
use lemma_engine::{Cause, Conflict, Engine, Finish, Known, Taken};
use lemma_ground::{Why, rule_at};
use qc_model::{Kind, Problem};
use std::alloc::{AllocError, Global};
use std::mem;

/// How often the lemmas are gone over at most.
const PASSES: usize = 5;

/// What a condition, a step and a choice count, and a lemma that nothing named before.
const CONDITION: usize = 16;

const CUT: usize = 12;

const CHOICE: usize = 7;

const LEMMA: usize = 140;

// The lemmas at hand, which of them are needed, and those that are too short to be watched.
#[derive(Drop)]
struct Trimmer<'p> {
    alloc: Global,
    engine: Engine<'p>,
    analyst: Analyst<'p>,
    is_needed: Vec<bool>,
    lone: Vec<usize>,
    // How many lemmas got a better proof.
    bettered: usize,
}

/// The lemmas that the last one of these needs, after those that can be were shown anew, within so many looks.
pub(crate) fn trimmed(
    alloc: Global,
    problem: &Problem,
    core: Vec<Known>,
    budget: u64,
) -> Result<Vec<Known>, AllocError> {
    let mut known = core;
    let mut left = budget;
    for pass in 0..PASSES {
        if left == 0 {
            break;
        }
        let bettered = trim_once(alloc, problem, pass, &mut known, &mut left)?;
        known = core_of(alloc, known)?;
        if pass > 0 && bettered == 0 {
            break;
        }
    }
    Ok(known)
}

// Goes over the lemmas once, within the looks that are left, and says how many got a better proof.
fn trim_once(
    alloc: Global,
    problem: &Problem,
    pass: usize,
    known: &mut Vec<Known>,
    left: &mut u64,
) -> Result<usize, AllocError> {
    // (a `?` on what owns so much costs its proof minutes)
    let Ok(mut trimmer) = Trimmer::new(alloc, problem, *left) else {
        return Err(AllocError);
    };
    let bettered = go_over(alloc, &mut trimmer, pass, known, left);
    drop(trimmer);
    bettered
}

fn go_over(
    alloc: Global,
    trimmer: &mut Trimmer,
    pass: usize,
    known: &mut Vec<Known>,
    left: &mut u64,
) -> Result<usize, AllocError> {
    trimmer.set_out(mem::replace(known, Vec::new(alloc)), *left)?;
    if pass % 2 == 0 {
        trimmer.go_down()?;
    } else {
        trimmer.go_up()?;
    }
    *left = left.saturating_sub(trimmer.looks());
    *known = trimmer.take_known();
    Ok(trimmer.bettered)
}

/// Whether lemmas of this game can be shown anew: no scope is restricted.
pub(crate) fn can_trim(engine: &Engine) -> bool {
    for scope in 0..engine.facts.goal() {
        if engine.facts.is_restricted(scope) {
            return false;
        }
    }
    true
}

impl<'p> Trimmer<'p> {
    // Without lemmas yet.
    fn new(alloc: Global, problem: &'p Problem, budget: u64) -> Result<Trimmer<'p>, AllocError> {
        let Ok(engine) = Engine::new(alloc, problem) else {
            return Err(AllocError);
        };
        let Ok(analyst) = Analyst::new(alloc, problem, &engine, budget) else {
            drop(engine);
            return Err(AllocError);
        };
        Ok(Trimmer {
            alloc,
            engine,
            analyst,
            is_needed: Vec::new(alloc),
            lone: Vec::new(alloc),
            bettered: 0,
        })
    }

    // Takes the lemmas, of which the last is needed, and looks at what the loser's constraints come to by themselves.
    fn set_out(&mut self, known: Vec<Known>, budget: u64) -> Result<(), AllocError> {
        self.is_needed = last_needed(self.alloc, known.len())?;
        take_lemmas(&mut self.engine, known, budget)
    }

    fn looks(&self) -> u64 {
        self.engine.looks().saturating_add(self.analyst.looks())
    }

    // The lemmas. They aren't at hand any more.
    fn take_known(&mut self) -> Vec<Known> {
        mem::replace(&mut self.engine.known, Vec::new(self.alloc))
    }

    // From the last lemma to the first, each with those before it that are needed by then.
    fn go_down(&mut self) -> Result<(), AllocError> {
        for n in (0..self.engine.known.len()).rev() {
            if !self.has_needed(n) {
                continue;
            }
            mark(&mut self.engine.known, n, true);
            self.show_anew(n)?;
            self.need_named(n)?;
        }
        Ok(())
    }

    // From the first lemma to the last, each with all before it.
    fn go_up(&mut self) -> Result<(), AllocError> {
        need_all(&mut self.is_needed);
        for n in 0..self.engine.known.len() {
            self.show_anew(n)?;
            self.watch(n)?;
        }
        Ok(())
    }

    fn has_needed(&self, n: usize) -> bool {
        self.is_needed.get(n).copied().unwrap_or(false)
    }

    // What a lemma names is needed from now on.
    fn need_named(&mut self, n: usize) -> Result<(), AllocError> {
        let named = named_by(self.alloc, &self.engine.known, n)?;
        for m in named.as_slice() {
            if is_newly_needed(&mut self.is_needed, *m) {
                self.watch(*m)?;
            }
        }
        Ok(())
    }

    fn watch(&mut self, n: usize) -> Result<(), AllocError> {
        watch_again(&mut self.engine, &mut self.lone, n)
    }

    // The scope before a lemma's position. None where it isn't known, or ends with the goal.
    fn trial_scope(&self, n: usize) -> Option<usize> {
        let lemma = self.engine.known.get(n)?;
        if matches!(lemma.finish, Finish::Goal) {
            return None;
        }
        Some(lemma.place.saturating_sub(1))
    }

    // Puts a better proof in the place of that of a lemma, where one is found. What ends with the goal stays as it is.
    fn show_anew(&mut self, n: usize) -> Result<(), AllocError> {
        let Some(scope) = self.trial_scope(n) else {
            return Ok(());
        };
        if self.analyst.is_spent(&self.engine) {
            return Ok(());
        }
        self.engine.open_trial(scope)?;
        let met = self.conflict_of(n)?;
        if let Some(conflict) = met
            && let Some(other) = self.analyst.redraw(&self.engine, n, &conflict)?
        {
            self.take_better(n, other);
        }
        self.engine.go_back(0);
        Ok(())
    }

    fn take_better(&mut self, n: usize, other: Known) {
        if is_bettered(&mut self.engine.known, n, other, &self.is_needed) {
            self.bettered = self.bettered.saturating_add(1);
        }
    }

    // The first conflict that is met, with what is needed already, then with one after the other that the lemma's proof names.
    fn conflict_of(&mut self, n: usize) -> Result<Option<Conflict>, AllocError> {
        if let Some(conflict) = self.look_at_lone()? {
            return Ok(Some(conflict));
        }
        if let Some(conflict) = self.assume_conditions(n)? {
            return Ok(Some(conflict));
        }
        let steps = self.engine.known.get(n).map_or(0, |it| it.taken.len());
        for k in 0..steps {
            if let Some(conflict) = self.take_step(n, k)? {
                return Ok(Some(conflict));
            }
        }
        match self.engine.known.get(n) {
            Some(lemma) => match lemma.finish {
                Finish::Lemma(m) => self.engine.look_once(m),
                _ => Ok(None),
            },
            None => Ok(None),
        }
    }

    fn propagate(&mut self) -> Result<Option<Conflict>, AllocError> {
        let most = self.analyst.looks_left();
        self.engine.propagate(most)
    }

    fn look_at_lone(&mut self) -> Result<Option<Conflict>, AllocError> {
        for k in 0..self.lone.len() {
            if let Some(n) = self.lone.get(k).copied()
                && self.engine.known.get(n).map_or(false, |it| !it.is_dead)
                && let Some(conflict) = self.engine.look_once(n)?
            {
                return Ok(Some(conflict));
            }
        }
        self.propagate()
    }

    // Assumes the conditions, those of later scopes first: then some follow from the others.
    fn assume_conditions(&mut self, n: usize) -> Result<Option<Conflict>, AllocError> {
        let count = self.engine.known.get(n).map_or(0, |it| it.conditions.len());
        for k in (0..count).rev() {
            if !self.engine.assume(n, k)? {
                return Ok(self.emptied(n, k));
            }
            if let Some(conflict) = self.propagate()? {
                return Ok(Some(conflict));
            }
        }
        Ok(None)
    }

    // No value is left that meets a condition.
    fn emptied(&self, n: usize, k: usize) -> Option<Conflict> {
        let lemma = self.engine.known.get(n)?;
        let condition = lemma.conditions.get(k)?;
        Some(Conflict {
            loser: lemma.loser,
            cause: Cause::Emptied(condition.x),
            choices: Vec::new(self.alloc),
        })
    }

    // Takes a step of a lemma's proof: the winner's choice, or a look at the lemma that is named.
    fn take_step(&mut self, n: usize, k: usize) -> Result<Option<Conflict>, AllocError> {
        let Some(lemma) = self.engine.known.get(n) else {
            return Ok(None);
        };
        let Some(step) = lemma.taken.get(k).copied() else {
            return Ok(None);
        };
        match step {
            Taken::Choose { x, v } => {
                if self.engine.boxes.is_fixed(x) || !self.engine.boxes.has(x, v) {
                    return Ok(None);
                }
                self.engine.decide(x, v)?;
            }
            Taken::Cut {
                why: Why::Lemma(m),
                ..
            } => {
                if let Some(conflict) = self.engine.look_once(m)? {
                    return Ok(Some(conflict));
                }
            }
            Taken::Cut { .. } => return Ok(None),
        }
        self.propagate()
    }
}

// Of so many lemmas the last is needed.
fn last_needed(alloc: Global, count: usize) -> Result<Vec<bool>, AllocError> {
    let mut is_needed = vec![in alloc; false; count]?;
    if let Some(needed) = is_needed.last_mut() {
        *needed = true;
    }
    Ok(is_needed)
}

fn need_all(is_needed: &mut [bool]) {
    for needed in is_needed.iter_mut() {
        *needed = true;
    }
}

// A lemma is needed from now on. Whether it wasn't before.
fn is_newly_needed(is_needed: &mut [bool], n: usize) -> bool {
    match is_needed.get_mut(n) {
        Some(needed) => !mem::replace(needed, true),
        None => false,
    }
}

fn named_by(alloc: Global, known: &[Known], n: usize) -> Result<Vec<usize>, AllocError> {
    let mut named = Vec::new(alloc);
    if let Some(lemma) = known.get(n) {
        add_named(lemma, &mut named)?;
    }
    Ok(named)
}

fn take_lemmas(engine: &mut Engine, known: Vec<Known>, budget: u64) -> Result<(), AllocError> {
    if let Some(last) = known.last() {
        leave_out_others(engine, last.loser);
    }
    engine.known = known;
    engine.propagate(budget)?;
    Ok(())
}

// A lemma is watched from now on, or among those that are too short for it.
fn watch_again(engine: &mut Engine, lone: &mut Vec<usize>, n: usize) -> Result<(), AllocError> {
    mark(&mut engine.known, n, false);
    if !engine.watch_open(n)? {
        lone.push(n)?;
    }
    Ok(())
}

fn mark(known: &mut [Known], n: usize, is_dead: bool) {
    if let Some(lemma) = known.get_mut(n) {
        lemma.is_dead = is_dead;
    }
}

// Puts a proof in the place of a lemma's where it costs less. Whether it does.
fn is_bettered(known: &mut [Known], n: usize, other: Known, is_needed: &[bool]) -> bool {
    let Some(lemma) = known.get_mut(n) else {
        return false;
    };
    if cost_of(&other, is_needed) >= cost_of(lemma, is_needed) {
        return false;
    }
    let is_dead = lemma.is_dead;
    *lemma = other;
    lemma.is_dead = is_dead;
    true
}

// The winner's constraints can't be reasons.
fn leave_out_others(engine: &mut Engine, loser: Kind) {
    for k in 0..engine.facts.rules() {
        if engine.facts.rule_side(rule_at(k)) != loser {
            engine.leave_out(rule_at(k));
        }
    }
}

// About how many letters a lemma takes with its proof, and what it names for the first time.
fn cost_of(lemma: &Known, is_needed: &[bool]) -> usize {
    let mut cost = lemma.conditions.len().saturating_mul(CONDITION);
    for step in lemma.taken.as_slice() {
        cost = cost.saturating_add(match step {
            Taken::Cut { why, .. } => CUT.saturating_add(match why {
                Why::Lemma(m) => cost_of_naming(*m, is_needed),
                _ => 0,
            }),
            Taken::Choose { .. } => CHOICE,
        });
    }
    match lemma.finish {
        Finish::Lemma(m) => cost.saturating_add(cost_of_naming(m, is_needed)),
        _ => cost,
    }
}

fn cost_of_naming(m: usize, is_needed: &[bool]) -> usize {
    if is_needed.get(m).copied().unwrap_or(true) {
        0
    } else {
        LEMMA
    }
}
