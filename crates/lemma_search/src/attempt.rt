//! One search, from the start of the game until it is known who wins, and the list that it leaves.
use crate::deciding::first_values;
use crate::listing::{List, core_of, listed};
use crate::search::is_decided;
use crate::trimming::{can_trim, trimmed};
use crate::walking::walk_from;
use lemma_analysis::Analyst;
use lemma_engine::{Engine, Known};
use lemma_ground::rule_at;
use lemma_list::{Ending, Reason, Step};
use qc_model::{ConId, Problem};
use std::alloc::{AllocError, Global};
use std::mem;

// The next of some numbers by chance is the one before by this, and this more (Knuth's choice for 64 bits).
const FACTOR: u64 = 6_364_136_223_846_793_005;

const SUMMAND: u64 = 1_442_695_040_888_963_407;

/// What a search that begins again keeps of where it ended: the value that each variable had last, how much conflicts rested on
/// each of late, or both; or nothing, and it takes the variables of a scope in an order by chance, one for each number.
#[derive(Clone, Copy)]
pub(crate) enum Keeps {
    Values,
    Activity,
    Both,
    Nothing(u64),
}

/// A search: what it goes over, and what analyses its conflicts.
#[derive(Drop)]
pub(crate) struct Attempt<'p> {
    problem: &'p Problem,
    alloc: Global,
    engine: Engine<'p>,
    analyst: Analyst<'p>,
}

impl<'p> Attempt<'p> {
    /// A search that gives up after so many looks. It has no values to begin with yet.
    pub(crate) fn new(
        alloc: Global,
        problem: &'p Problem,
        budget: u64,
    ) -> Result<Attempt<'p>, AllocError> {
        // (a `?` on what owns so much costs its proof minutes)
        let Ok(engine) = Engine::new(alloc, problem) else {
            return Err(AllocError);
        };
        let Ok(analyst) = Analyst::new(alloc, problem, &engine, budget) else {
            drop(engine);
            return Err(AllocError);
        };
        Ok(Attempt {
            problem,
            alloc,
            engine,
            analyst,
        })
    }

    /// Begins with what clauses say of values, or with values that make all of them true, where a walk finds some.
    pub(crate) fn set_out(&mut self) -> Result<(), AllocError> {
        walk_first(self.alloc, &mut self.engine, &mut self.analyst)
    }

    /// Searches anew, without the lemmas, with what it keeps, and without the loser's constraints that a list doesn't name. It
    /// gives up after so many looks.
    pub(crate) fn begin_again(
        &mut self,
        keeps: Keeps,
        core: Option<&List>,
        budget: u64,
    ) -> Result<(), AllocError> {
        let values = take_values(self.alloc, &mut self.engine);
        let activity = self.analyst.take_activity(self.alloc);
        self.renew(budget)?;
        if let Some(list) = core {
            keep_named(self.alloc, &mut self.engine, list)?;
        }
        keep_values(self.alloc, &mut self.engine, keeps, values)?;
        keep_activity(&mut self.analyst, keeps, activity);
        Ok(())
    }

    fn renew(&mut self, budget: u64) -> Result<(), AllocError> {
        renew_engine(self.alloc, self.problem, &mut self.engine)?;
        renew_analyst(
            self.alloc,
            self.problem,
            &self.engine,
            budget,
            &mut self.analyst,
        )
    }

    /// The list, where it came to be known who wins.
    pub(crate) fn list(&mut self) -> Result<Option<List>, AllocError> {
        if !is_decided(&mut self.engine, &mut self.analyst)? {
            return Ok(None);
        }
        listed(self.alloc, self.problem, &self.engine.known)
    }

    /// The lemmas of the list. They aren't known any more then.
    pub(crate) fn take_core(&mut self) -> Result<Vec<Known>, AllocError> {
        let known = mem::replace(&mut self.engine.known, Vec::new(self.alloc));
        core_of(self.alloc, known)
    }

    /// Whether lemmas of this game can be shown anew.
    pub(crate) fn can_trim(&self) -> bool {
        can_trim(&self.engine)
    }

    /// The list of these lemmas after they were shown anew, within so many looks. None where they can't be.
    pub(crate) fn trimmed(
        &self,
        core: Vec<Known>,
        budget: u64,
    ) -> Result<Option<List>, AllocError> {
        if !self.can_trim() {
            return Ok(None);
        }
        let known = trimmed(self.alloc, self.problem, core, budget)?;
        listed(self.alloc, self.problem, &known)
    }

    /// How many looks it took.
    pub(crate) fn looks(&self) -> u64 {
        self.engine.looks().saturating_add(self.analyst.looks())
    }
}

// Takes the values that a walk finds, or what clauses say of values.
fn walk_first(alloc: Global, engine: &mut Engine, analyst: &mut Analyst) -> Result<(), AllocError> {
    let walk = walk_from(alloc, engine, first_values(alloc, engine)?)?;
    analyst.go_over(walk.gone_over);
    engine.saved = match walk.values {
        Some(values) => values,
        None => first_values(alloc, engine)?,
    };
    Ok(())
}

// The value that each variable had last. They aren't kept there any more.
fn take_values(alloc: Global, engine: &mut Engine) -> Vec<Option<i64>> {
    engine.go_back(0);
    mem::replace(&mut engine.saved, Vec::new(alloc))
}

fn renew_engine<'p>(
    alloc: Global,
    problem: &'p Problem,
    engine: &mut Engine<'p>,
) -> Result<(), AllocError> {
    let Ok(other) = Engine::new(alloc, problem) else {
        return Err(AllocError);
    };
    *engine = other;
    Ok(())
}

fn renew_analyst<'p>(
    alloc: Global,
    problem: &'p Problem,
    engine: &Engine,
    budget: u64,
    analyst: &mut Analyst<'p>,
) -> Result<(), AllocError> {
    let Ok(other) = Analyst::new(alloc, problem, engine, budget) else {
        return Err(AllocError);
    };
    *analyst = other;
    Ok(())
}

fn keep_values(
    alloc: Global,
    engine: &mut Engine,
    keeps: Keeps,
    values: Vec<Option<i64>>,
) -> Result<(), AllocError> {
    engine.saved = match keeps {
        Keeps::Values | Keeps::Both => values,
        Keeps::Activity | Keeps::Nothing(_) => first_values(alloc, engine)?,
    };
    Ok(())
}

fn keep_activity(analyst: &mut Analyst, keeps: Keeps, activity: Vec<f64>) {
    match keeps {
        Keeps::Values => {}
        Keeps::Activity | Keeps::Both => analyst.activity = activity,
        Keeps::Nothing(k) => analyst.activity = by_chance(activity, k),
    }
}

// Numbers from 0 to 1 in place of these, by chance, and the same in each run.
fn by_chance(mut activity: Vec<f64>, k: u64) -> Vec<f64> {
    let mut state = k.wrapping_add(1);
    for place in activity.iter_mut() {
        state = state.wrapping_mul(FACTOR).wrapping_add(SUMMAND);
        *place = (state >> 40) as f64 / (1u64 << 24) as f64;
    }
    activity
}

// Leaves out the loser's constraints that a list doesn't name.
fn keep_named(alloc: Global, engine: &mut Engine, list: &List) -> Result<(), AllocError> {
    let mut is_named = vec![in alloc; false; engine.facts.rules()]?;
    for shown in list.shown.as_slice() {
        for step in shown.steps.as_slice() {
            if let Step::Cut {
                by: Reason::Constraint(c),
                ..
            } = step
            {
                name(&mut is_named, *c);
            }
        }
        if let Ending::Lost(Reason::Constraint(c)) = shown.ending {
            name(&mut is_named, c);
        }
    }
    for (k, named) in is_named.iter().enumerate() {
        if !*named && engine.facts.rule_side(rule_at(k)) == list.loser {
            engine.leave_out(rule_at(k));
        }
    }
    Ok(())
}

fn name(is_named: &mut [bool], c: ConId) {
    if let Some(it) = is_named.get_mut(c.0 as usize) {
        *it = true;
    }
}
