//! What the machine does with steps.
ghost use Rattle.std.specs.Prelude.{◌≡◌, IsFalse};
ghost use Rattle.qc_model.specs.Domains.{has_empty};
ghost use Rattle.lemma_check.specs.Books.{stepped};
ghost use Rattle.lemma_check.specs.Machine.{game_of, book_of, IsReady};
ghost use Rattle.lemma_list.specs.declared.lemma.Step.TheVariants as step_as;
ghost use Rattle.lemma_check.specs.declared.machine.Stage.TheVariants as stage_as;

use crate::cuts::keep_within;
use crate::machine::{LemmaMachine, Stage};
use crate::showing::Showing;
use lemma_list::{Reason, Step};
use lemma_reasons::{Aim, reason_place};
use qc_model::VarId;

impl<'p> LemmaMachine<'p> {
    /// The loser can't take the values from lo to hi for x, if the reason shows it.
    fn cut(&mut self, x: VarId, lo: i64, hi: i64, by: Reason)
        requires ready { IsReady self.old }
        requires closing { self.old.stage ≡ stage_as.Closing }
        requires full { IsFalse (has_empty self.old.remains.box) }
        ensures book { book_of self.new ≡ stepped (game_of self.old) (step_as.Cut x lo hi by) (book_of self.old) }
        ensures ready { IsReady self.new }
        ensures same { game_of self.new ≡ game_of self.old }
    {
        let showing = Showing {
            aim: Aim {
                problem: self.levels.problem,
                lemma: &self.lemma,
                place: self.place,
            },
            levels: &self.levels,
            known: self.known.as_slice(),
            passed: self.passed,
        };
        if !showing.may_cut(&mut self.remains, x, lo, hi, by) {
            self.refuse();
            return;
        }
        let stop = reason_place(self.levels.problem, self.known.as_slice(), by);
        self.passed = self.passed.max(stop);
        self.remains.cut(x, lo, hi);
    }

    /// The winner takes v for x, if it may.
    fn choose(&mut self, x: VarId, v: i64)
        requires ready { IsReady self.old }
        requires closing { self.old.stage ≡ stage_as.Closing }
        requires full { IsFalse (has_empty self.old.remains.box) }
        ensures book { book_of self.new ≡ stepped (game_of self.old) (step_as.Choose x v) (book_of self.old) }
        ensures ready { IsReady self.new }
        ensures same { game_of self.new ≡ game_of self.old }
    {
        let showing = Showing {
            aim: Aim {
                problem: self.levels.problem,
                lemma: &self.lemma,
                place: self.place,
            },
            levels: &self.levels,
            known: self.known.as_slice(),
            passed: self.passed,
        };
        if !showing.may_choose(&self.remains, x, v) {
            self.refuse();
            return;
        }
        keep_within(&mut self.remains, x, v, v);
    }

    fn take_step(&mut self, step: Step)
        requires ready { IsReady self.old }
        requires closing { self.old.stage ≡ stage_as.Closing }
        ensures book { book_of self.new ≡ stepped (game_of self.old) step (book_of self.old) }
        ensures ready { IsReady self.new }
        ensures same { game_of self.new ≡ game_of self.old }
    {
        if self.remains.is_empty() {
            self.refuse();
            return;
        }
        match step {
            Step::Cut { x, lo, hi, by } => self.cut(x, lo, hi, by),
            Step::Choose { x, v } => self.choose(x, v),
        }
    }

    /// A step of the lemma.
    pub(crate) fn step(&mut self, step: Step)
        requires { IsReady self.old }
        ensures book { book_of self.new ≡ stepped (game_of self.old) step (book_of self.old) }
        ensures ready { IsReady self.new }
        ensures same { game_of self.new ≡ game_of self.old }
    {
        match self.stage {
            Stage::Closing => self.take_step(step),
            Stage::Between => self.refuse(),
            Stage::Heading => self.refuse(),
            Stage::Wrong => self.refuse(),
        }
    }
}
