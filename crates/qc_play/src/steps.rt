//! Removals in a scope's own tree, and the marks of bounds.
ghost use Rattle.std.specs.Prelude.{◌≡◌, ◌∷◌, ◌++◌, ◌<◌, ◌≤◌, [], List, ℕ, true, false, length};
ghost use Rattle.qc_model.specs.declared.problem.Scope.{Scope as OneScope};
ghost use Rattle.qc_model.specs.Content.{Game};
ghost use Rattle.qc_model.specs.Domains.{is_none_left, values_left, values_within};
ghost use Rattle.qc_model.specs.Verdict.{Seen};
ghost use Rattle.joins.specs.DemandLists.{HasLists};
ghost use Rattle.joins.specs.Joins.{StandsAt};
ghost use Rattle.proof_tree.specs.Place.{tracked_variable};
ghost use Rattle.proof_tree.specs.Steps.{after_step, is_tracked, step_marks};
ghost use Rattle.proof_tree.specs.declared.line.Line.{Line as OneLine};
ghost use Rattle.proof_tree.specs.declared.tree.Step.{Step as OneStep};
ghost use Rattle.proof_tree.specs.declared.tree.Step.TheVariants.{Bound as BoundStep};
ghost use Rattle.proof_tree.specs.Lines.{ending_lines};
ghost use Rattle.proof_tree.specs.Tree.{Ending};
ghost use Rattle.qc_play.specs.Beginnings.{ArePart, BeginsPart};
ghost use Rattle.qc_play.specs.Walk.{game_of, steps_fit, marks_seen, IsWithin, LeadsOn, TakesSteps};

use crate::line_cursor::LineCursor;
use crate::tables::Tables;
use crate::taking::step_of;
use crate::walk::Walk;
use fd_store::Store;
use proof_tree::{Line, Step};
use qc_model::{Condition, ScopeId, Sense, VarId};

/// The best value of x from lo to hi, where the list wishes for x first.
fn best_of(list: &[Condition], store: &Store, x: VarId, lo: i64, hi: i64) -> i64
    requires var { x.0 < length store.now.box }
    requires left { is_none_left (values_within lo hi (values_left store.now.box x.0)) ≡ false }
    ensures { (g : Game) (later : List OneScope) (i : ℕ) → is_tracked x.0 (tracked_variable g later i list.now) ≡ true → step_marks (tracked_variable g later i list.now) (BoundStep x lo hi ∷ []) store.now.box ≡ result ∷ [] }
{
    match list.first() {
        None => 0,
        Some(entry) => match entry.sense {
            Sense::Min => store.min_in(x, lo, hi),
            Sense::Max => store.max_in(x, lo, hi),
        },
    }
}

impl<'p> Walk<'p> {
    fn take_bound(&mut self, tables: &Tables<'p>, i: ScopeId, x: VarId, lo: i64, hi: i64)
        requires lists { HasLists (game_of tables.now) tables.now.demands }
        requires within { IsWithin (game_of tables.now) self.old i.0 }
        requires scope { i.0 < length (game_of tables.now).scopes }
        requires fits { steps_fit (game_of tables.now) (BoundStep x lo hi ∷ []) i.0 self.old.remains.box ≡ true }
        ensures content { self.new.remains.box ≡ after_step (BoundStep x lo hi) self.old.remains.box }
        ensures within { IsWithin (game_of tables.now) self.new i.0 }
        ensures on { LeadsOn (game_of tables.now) i.0 self.old self.new }
        ensures stands { (xs : List Seen) → StandsAt self.old.joins i.0 xs → StandsAt self.new.joins i.0 (xs ++ marks_seen (game_of tables.now) i.0 (BoundStep x lo hi ∷ []) self.old.remains.box) }
    {
        tables.levels.problem.known();
        let after = tables.demands.list(ScopeId(i.0 + 1));
        let best = best_of(after, self.remains.store(), x, lo, hi);
        self.remains.cut(x, lo, hi);
        self.joins.add_bound(i, best);
    }

    /// Takes one removal of scope i's own tree.
    fn take_step(&mut self, tables: &Tables<'p>, i: ScopeId, step: Step)
        requires lists { HasLists (game_of tables.now) tables.now.demands }
        requires within { IsWithin (game_of tables.now) self.old i.0 }
        requires scope { i.0 < length (game_of tables.now).scopes }
        requires fits { steps_fit (game_of tables.now) (step ∷ []) i.0 self.old.remains.box ≡ true }
        ensures content { self.new.remains.box ≡ after_step step self.old.remains.box }
        ensures within { IsWithin (game_of tables.now) self.new i.0 }
        ensures on { LeadsOn (game_of tables.now) i.0 self.old self.new }
        ensures stands { (xs : List Seen) → StandsAt self.old.joins i.0 xs → StandsAt self.new.joins i.0 (xs ++ marks_seen (game_of tables.now) i.0 (step ∷ []) self.old.remains.box) }
    {
        match step {
            Step::Prune { x, lo, hi, c: _ } => self.remains.cut(x, lo, hi),
            Step::Bound { x, lo, hi } => self.take_bound(tables, i, x, lo, hi),
        }
    }

    /// Takes the removals of a part of scope i's own tree, which begins with a line that was taken: the line after them.
    pub(crate) fn take_steps(
        &mut self,
        tables: &Tables<'p>,
        i: ScopeId,
        first: Line,
        lines: &mut LineCursor<'_>,
    ) -> Line
        requires lists { HasLists (game_of tables.now) tables.now.demands }
        requires within { IsWithin (game_of tables.now) self.old i.0 }
        requires scope { i.0 < length (game_of tables.now).scopes }
        requires tree { BeginsPart (game_of tables.now) (first ∷ lines.old) i.0 self.old.remains.box }
        ensures within { IsWithin (game_of tables.now) self.new i.0 }
        ensures on { LeadsOn (game_of tables.now) i.0 self.old self.new }
        ensures taken { (steps : List OneStep) (e : Ending) (rest : List OneLine) → ArePart (first ∷ lines.old) steps e rest → steps_fit (game_of tables.now) steps i.0 self.old.remains.box ≡ true →
            (result ∷ lines.new ≡ ending_lines e ++ rest) × TakesSteps (game_of tables.now) i.0 steps self.old self.new }
        ensures shorter { length lines.new ≤ length lines.old }
    {
        let mut line = first;
        while let Some(step) = step_of(line) {
            self.take_step(tables, i, step);
            line = lines.take();
        }
        line
    }
}
