//! The steps of a scope's own tree.
ghost use Rattle.std.specs.Prelude.{◌≡◌, true, Bool, Some, None, List, ℤ, MatchBool};
ghost use Rattle.fd_store.specs.Held.{Follows};
ghost use Rattle.model_arguments.specs.Asked.{is_box_of};
ghost use Rattle.dense_tree.specs.Place.{closed_box};
ghost use Rattle.dense_tree.specs.Lines.{close_line, bound_line, reply_line};
ghost use Rattle.dense_ledger.specs.Ledger.{Ledger as Kept, setting_of, part_line};
ghost use Rattle.dense_check.specs.Telling.{game_of, here_in, with_remains, with_due, due_after, IsPart, InPart, PartGoes, IsGathered};

use crate::machine::DenseMachine;
use dense_box::reply;
use dense_quiet::Taking;
use qc_model::VarId;

impl<'p> DenseMachine<'p> {
    /// Goes on in the scope's own tree where a step was in place.
    fn step_on(&mut self, placed: bool, bounded: bool)
        ensures { self.new ≡ with_due (due_after placed bounded) self.old }
    {
        if placed {
            self.nest.go_on(bounded);
        } else {
            self.nest.refuse();
        }
    }

    /// The box becomes the greatest closed box within it for the constraints in force, and whether there is one.
    pub(crate) fn close_here(&mut self) -> bool
        requires part { InPart self.old }
        ensures closed { (d : Kept) → IsPart self.old d → (bounded : Bool) → MatchBool result (closed_box (setting_of (game_of self.old) d) (here_in self.old bounded) ≡ Some self.new.nest.remains.box) (closed_box (setting_of (game_of self.old) d) (here_in self.old bounded) ≡ None) }
        ensures past { Follows self.old.nest.remains self.new.nest.remains }
        ensures declared { is_box_of (game_of self.old) self.new.nest.remains.box ≡ true }
        ensures rest { self.new ≡ with_remains self.new.nest.remains self.old }
    {
        let i = self.nest.scope();
        let stop = self.freedom.joint_stop(i);
        let nest = &mut self.nest;
        self.closer.close(
            &nest.levels,
            &mut nest.remains,
            Taking::Owners,
            i.0 as usize,
            stop,
        )
    }

    /// `c`: the box becomes the greatest closed box within it.
    pub(crate) fn close_line(&mut self, bounded: bool)
        requires part { InPart self.old }
        ensures goes { PartGoes self.old self.new (λ d. part_line (setting_of (game_of self.old) d) d (here_in self.old bounded) close_line) }
        ensures same { game_of self.new ≡ game_of self.old }
    {
        let placed = self.close_here();
        self.step_on(placed, bounded);
    }

    /// `b`: a variable gives values up, since they are no better than what may be had elsewhere.
    pub(crate) fn bound_line(&mut self, bounded: bool, x: VarId, lo: i64, hi: i64)
        requires part { InPart self.old }
        ensures goes { PartGoes self.old self.new (λ d. part_line (setting_of (game_of self.old) d) d (here_in self.old bounded) (bound_line x lo hi)) }
        ensures same { game_of self.new ≡ game_of self.old }
    {
        self.nest.levels.problem.known();
        let i = self.nest.scope();
        let Some(best) = self.wishes.bound(&mut self.nest.remains, i, x, lo, hi) else {
            self.nest.refuse();
            return;
        };
        self.nest.add_mark(best);
        self.nest.go_on(true);
    }

    /// `f`: a tuple that the owner of the last scope can count on, so that worse values go.
    pub(crate) fn reply_line(&mut self, bounded: bool, tuple: &[i64])
        requires part { InPart self.old }
        ensures goes { (t : List ℤ) → IsGathered tuple.now t → PartGoes self.old self.new (λ d. part_line (setting_of (game_of self.old) d) d (here_in self.old bounded) (reply_line t)) }
        ensures same { game_of self.new ≡ game_of self.old }
    {
        self.nest.levels.problem.known();
        let i = self.nest.scope();
        let nest = &mut self.nest;
        let placed = reply(&nest.levels, i, &mut nest.remains, tuple);
        self.step_on(placed, bounded);
    }
}
