//! The values left to each variable on the way down a search, level by level.
ghost use Rattle.std.specs.Prelude.{◌≡◌, ◌<◌, length, IfOk, IsTrue};

use crate::filtered::filtered;
use crate::stack::{cut_from, mark_at, push_mark};
use fd_store::{Mark, Store};
use proof_tree::{Step, StepList};
use qc_model::{Arg, ConId, Problem, VarId};
use qc_refuter::refutes;
use std::alloc::{AllocError, Global};
use std::marker::Model;

/// What a cut came to: no such value was left, some went and some stay, or none would stay, in which case all stay.
#[derive(Clone, Copy, PartialEq, Eq)]
pub enum Cut {
    Nothing,
    Some,
    Emptied,
}

/// The values left to each variable of a problem, none of which is without any, and levels to which they can be brought
/// back.
///
/// A clause sees the problem alone. A variable or constraint that the problem doesn't have counts as one without values, or
/// as one that refutes nothing.
#[derive(Drop)]
pub struct Boxes<'p> {
    problem: &'p Problem,
    alloc: Global,
    store: Store,
    marks: Vec<Mark>,
    steps: StepList,
}

impl<'p> Model for Boxes<'p> {
    ghost use Rattle.qc_model.specs.Content.{Game};
    ghost use Rattle.lemma_ground.specs.Steady.{IsSteady};

    ghost Value = { Game };

    ghost view = { λ b. b.problem.now };

    ghost invariant = { λ b. IsSteady b.problem.now b.store b.marks.items };
}

// Whether the store has such a variable.
fn has_variable(store: &Store, x: VarId) -> bool
    ensures { IsTrue result → x.0 < length store.now.box }
{
    (x.0 as usize) < store.count()
}

impl<'p> Boxes<'p> {
    /// The declared domains, on no level. It fails only where memory runs out.
    pub fn new(alloc: Global, problem: &'p Problem) -> Result<Boxes<'p>, AllocError>
        ensures { IfOk result (λ b. b ≡ problem.now) }
    {
        problem.known();
        let store = Store::new(alloc, problem)?;
        Ok(Boxes {
            problem,
            alloc,
            store,
            marks: Vec::new(alloc),
            steps: StepList::new(alloc),
        })
    }

    /// How many values are left.
    pub fn size(&self, x: VarId) -> u32 {
        if has_variable(&self.store, x) {
            self.store.size(x)
        } else {
            0
        }
    }

    /// Whether one value is left.
    pub fn is_fixed(&self, x: VarId) -> bool {
        self.size(x) == 1
    }

    /// The least value left.
    pub fn least(&self, x: VarId) -> i64 {
        if has_variable(&self.store, x) {
            self.store.min(x)
        } else {
            0
        }
    }

    /// The greatest value left.
    pub fn greatest(&self, x: VarId) -> i64 {
        if has_variable(&self.store, x) {
            self.store.max(x)
        } else {
            0
        }
    }

    /// Whether this value is left.
    pub fn has(&self, x: VarId, v: i64) -> bool {
        has_variable(&self.store, x) && self.store.has(x, v)
    }

    /// The least value left that is at least v.
    pub fn next(&self, x: VarId, v: i64) -> Option<i64> {
        if has_variable(&self.store, x) {
            self.store.next(x, v)
        } else {
            None
        }
    }

    /// The least and the greatest value of an argument.
    pub fn ends(&self, arg: Arg) -> (i64, i64) {
        match arg {
            Arg::Num(n) => (n, n),
            Arg::Var(x) => (self.least(x), self.greatest(x)),
        }
    }

    /// Takes the values from lo to hi out of x.
    pub fn cut(&mut self, x: VarId, lo: i64, hi: i64) -> Result<Cut, AllocError>
        ensures { self.new ≡ self.old }
    {
        if !has_variable(&self.store, x) {
            return Ok(Cut::Nothing);
        }
        let (least, greatest) = (self.store.min(x), self.store.max(x));
        if hi < least || greatest < lo || hi < lo {
            return Ok(Cut::Nothing);
        }
        if lo <= least && greatest <= hi {
            return Ok(Cut::Emptied);
        }
        cut_from(&mut self.store, x, lo, hi)
    }

    /// Opens a level, to which the values can be brought back.
    pub fn open_level(&mut self) -> Result<(), AllocError>
        ensures { self.new ≡ self.old }
    {
        let mark = self.store.mark();
        push_mark(&mut self.marks, mark)
    }

    /// Gives up all levels but so many, with what was cut on them.
    pub fn close_to(&mut self, levels: usize)
        ensures { self.new ≡ self.old }
    {
        if levels >= self.marks.len() {
            return;
        }
        let mark = mark_at(&self.marks, levels);
        self.marks.truncate(levels);
        self.store.undo_to(mark);
    }

    /// Whether the constraint is refuted by what is left.
    pub fn refutes(&self, c: ConId) -> bool {
        self.problem.known();
        (c.0 as usize) < self.problem.constraints() && refutes(self.problem, c, &self.store)
    }

    /// Asks the constraint's filter which values it refutes, one range after the other; what is left stays as it was.
    pub fn filter(&mut self, c: ConId) -> Result<(), AllocError>
        ensures { self.new ≡ self.old }
    {
        self.problem.known();
        self.steps.clear();
        if c.0 as usize >= self.problem.constraints() {
            return Ok(());
        }
        filtered(
            self.alloc,
            self.problem,
            c,
            &mut self.store,
            &mut self.steps,
        )
    }

    /// What the filter that was asked last refutes.
    pub fn refuted(&self) -> &[Step] {
        self.steps.items()
    }
}
