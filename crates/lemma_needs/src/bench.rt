//! Boxes that are made of some changes, to ask what these alone show.
use lemma_engine::{Choice, Engine};
use lemma_ground::{Boxes, Change, Cut, Linear, Total};
use model_arguments::{arguments, items_at, one_at};
use qc_model::{Arg, Argument, ConId, Meaning, Problem, VarId, meaning_of};
use std::alloc::{AllocError, Global};

/// A box to try changes on. Between two tries it is the declared one.
#[derive(Drop)]
pub struct Bench<'p> {
    problem: &'p Problem,
    boxes: Boxes<'p>,
}

impl<'p> Bench<'p> {
    pub fn new(alloc: Global, problem: &'p Problem) -> Result<Bench<'p>, AllocError> {
        Ok(Bench {
            problem,
            boxes: Boxes::new(alloc, problem)?,
        })
    }

    pub fn open(&mut self) -> Result<(), AllocError> {
        self.boxes.open_level()
    }

    pub fn close(&mut self) {
        self.boxes.close_to(0);
    }

    /// Gives up all tries but so many that are open.
    pub(crate) fn close_to(&mut self, tries: usize) {
        self.boxes.close_to(tries);
    }

    /// Makes a change, and says whether values are left.
    pub fn make(&mut self, change: &Change) -> Result<bool, AllocError> {
        if change.keeps {
            return self.keep(change.x, change.lo, change.hi);
        }
        Ok(self.boxes.cut(change.x, change.lo, change.hi)? != Cut::Emptied)
    }

    /// Keeps the values from lo to hi alone, and says whether some are left.
    pub fn keep(&mut self, x: VarId, lo: i64, hi: i64) -> Result<bool, AllocError> {
        let (least, greatest) = (self.boxes.least(x), self.boxes.greatest(x));
        if self.boxes.cut(x, least, lo.saturating_sub(1))? == Cut::Emptied {
            return Ok(false);
        }
        Ok(self.boxes.cut(x, hi.saturating_add(1), greatest)? != Cut::Emptied)
    }

    /// Takes the values that the winner chooses, and says whether all were left.
    pub fn choose(&mut self, choices: &[Choice]) -> Result<bool, AllocError> {
        for choice in choices {
            if !self.boxes.has(choice.x, choice.v) || !self.keep(choice.x, choice.v, choice.v)? {
                return Ok(false);
            }
        }
        Ok(true)
    }

    pub fn refutes(&self, c: ConId) -> bool {
        self.boxes.refutes(c)
    }

    /// The least and the greatest value left.
    pub(crate) fn ends(&self, x: VarId) -> (i64, i64) {
        (self.boxes.least(x), self.boxes.greatest(x))
    }

    /// Where a sum lies.
    pub(crate) fn total(&self, linear: &Linear) -> Total {
        linear.total(&self.boxes)
    }

    /// Whether a sum that lies there keeps its constraint, or where that isn't asked, refutes it.
    pub(crate) fn is_told(&self, linear: &Linear, sum: Total, holds: bool) -> bool {
        if holds {
            linear.is_kept_by(sum, &self.boxes)
        } else {
            linear.is_refuted_by(sum, &self.boxes)
        }
    }

    /// Whether the constraint holds on all that is left, as far as is seen at once.
    pub fn keeps(&self, engine: &Engine, c: ConId) -> bool {
        if let Some(linear) = engine.facts.linear_of(c) {
            return linear.is_kept_by(linear.total(&self.boxes), &self.boxes);
        }
        if self.is_picked(c) {
            return true;
        }
        engine
            .facts
            .own_of(c)
            .iter()
            .all(|x| self.boxes.is_fixed(*x))
            && !self.boxes.refutes(c)
    }

    // Whether it is an element of variables whose index has one value, and the item there and the result have one, the same.
    fn is_picked(&self, c: ConId) -> bool {
        self.problem.known();
        if c.0 as usize >= self.problem.constraints() {
            return false;
        }
        let rule = self.problem.constraint(c);
        let row = meaning_of(rule.pred);
        if row.reified || row.meaning != Meaning::VariableElement {
            return false;
        }
        let args = arguments(rule);
        let Some(item) = self.item_of(args) else {
            return false;
        };
        let value = self.value_of(item);
        value.is_some() && value == self.value_of(one_at(args, 2))
    }

    // The item at the index, where that has one value.
    fn item_of(&self, args: &[Argument]) -> Option<Arg> {
        let place = self.value_of(one_at(args, 0))?;
        match usize::try_from(place.saturating_sub(1)) {
            Ok(k) => items_at(args, 1).get(k).copied(),
            Err(_) => None,
        }
    }

    // The value of an argument that has one.
    fn value_of(&self, arg: Arg) -> Option<i64> {
        let (least, greatest) = self.boxes.ends(arg);
        if least == greatest { Some(least) } else { None }
    }
}
