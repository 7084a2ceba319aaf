//! A lemma that is being shown: whether a step may be taken, and whether an end is reached.
ghost use Rattle.std.specs.Prelude.{◌≡◌, IsFalse};
ghost use Rattle.qc_model.specs.Domains.{has_empty, is_none_left, values_left, values_within, box_within};
ghost use Rattle.lemma_list.specs.declared.lemma.Step.TheVariants as step_as;
ghost use Rattle.lemma_list.specs.Places.{is_answer};
ghost use Rattle.lemma_list.specs.Reasons.{reason_shows as reason_shows_in, reason_place as reason_place_in, goes_on as goes_on_in};
ghost use Rattle.lemma_list.specs.InPlace.{may_step, ends};
ghost use Rattle.lemma_check.specs.Held.{IsHeldOf};

use crate::cuts::keep_within;
use check_box::Remains;
use lemma_list::{Ending, Lemma, Reason};
use lemma_reasons::{
    Aim, Answers, answers_to, goal_shows, goes_on, is_winners, reason_place, reason_shows, shows,
};
use model_levels::Levels;
use qc_model::VarId;

/// A lemma that is being shown after those that are known, where play is known to go on to the scope `passed`.
#[derive(Clone, Copy)]
pub(crate) struct Showing<'a> {
    pub(crate) aim: Aim<'a>,
    pub(crate) levels: &'a Levels<'a>,
    pub(crate) known: &'a [Option<Lemma>],
    pub(crate) passed: usize,
    pub(crate) ghost same: { levels.now.problem.now ≡ aim.problem.now },
}

impl<'a> Showing<'a> {
    /// Whether the reason is met where x keeps its values from lo to hi, to which the winner may answer.
    fn shows_within(&self, remains: &mut Remains, x: VarId, lo: i64, hi: i64, by: Reason) -> bool
        requires held { IsHeldOf self.now.aim.problem.now remains.old }
        requires full { IsFalse (has_empty remains.old.box) }
        requires some { IsFalse (is_none_left (values_within lo hi (values_left remains.old.box x.0))) }
        ensures shown { result ≡ reason_shows_in self.now.aim.problem.now self.now.known.now self.now.aim.lemma.now (is_answer self.now.aim.problem.now self.now.aim.lemma.now x.0) (box_within remains.old.box x.0 lo hi) by }
        ensures content { remains.new.box ≡ remains.old.box }
        ensures held { IsHeldOf self.now.aim.problem.now remains.new }
    {
        let mark = remains.mark();
        keep_within(remains, x, lo, hi);
        let answers = answers_to(&self.aim, x);
        let shown = reason_shows(&self.aim, self.known, answers, remains.store(), by);
        remains.undo_to(mark);
        shown
    }

    /// Whether play goes on to the place of the reason.
    fn goes_on_to(&self, remains: &Remains, by: Reason) -> bool
        requires held { IsHeldOf self.now.aim.problem.now remains.now }
        requires full { IsFalse (has_empty remains.now.box) }
        ensures { result ≡ goes_on_in self.now.aim.problem.now self.now.aim.lemma.now self.now.passed (reason_place_in self.now.aim.problem.now self.now.known.now by) remains.now.box }
    {
        let stop = reason_place(self.aim.problem, self.known, by);
        goes_on(&self.aim, self.levels, self.passed, stop, remains.store())
    }

    /// Whether the values from lo to hi may be cut from x.
    pub(crate) fn may_cut(
        &self,
        remains: &mut Remains,
        x: VarId,
        lo: i64,
        hi: i64,
        by: Reason,
    ) -> bool
        requires held { IsHeldOf self.now.aim.problem.now remains.old }
        requires full { IsFalse (has_empty remains.old.box) }
        ensures may { result ≡ may_step self.now.aim.problem.now self.now.known.now self.now.aim.lemma.now (step_as.Cut x lo hi by) self.now.passed remains.old.box }
        ensures content { remains.new.box ≡ remains.old.box }
        ensures held { IsHeldOf self.now.aim.problem.now remains.new }
    {
        if is_winners(&self.aim, x) {
            return false;
        }
        if !remains.has_within(x, lo, hi) {
            return false;
        }
        if !self.goes_on_to(remains, by) {
            return false;
        }
        self.shows_within(remains, x, lo, hi, by)
    }

    /// Whether the winner may take v for x.
    pub(crate) fn may_choose(&self, remains: &Remains, x: VarId, v: i64) -> bool
        ensures { result ≡ may_step self.now.aim.problem.now self.now.known.now self.now.aim.lemma.now (step_as.Choose x v) self.now.passed remains.now.box }
    {
        is_winners(&self.aim, x) && remains.has_within(x, v, v)
    }

    /// Whether the lemma ends so.
    pub(crate) fn may_end(&self, remains: &Remains, end: Ending) -> bool
        requires { IsHeldOf self.now.aim.problem.now remains.now }
        ensures { result ≡ ends self.now.aim.problem.now self.now.known.now self.now.aim.lemma.now end self.now.passed remains.now.box }
    {
        if remains.is_empty() {
            return matches!(end, Ending::Emptied);
        }
        match end {
            Ending::Emptied => false,
            Ending::Lost(by) => shows(
                &self.aim,
                self.levels,
                self.known,
                Answers::Nobody,
                self.passed,
                remains.store(),
                by,
            ),
            Ending::Goal => goal_shows(&self.aim, self.levels, self.passed, remains.store()),
        }
    }
}
