//! The values left in a search, and what it does to them.
ghost use Rattle.std.specs.Prelude.{◌≡◌, ◌<◌, ◌≤◌, ◌↔◌, ◌∷◌, ℕ, [], suc, false, length, IsTrue, IsFalse, IfOk, IfSome, OnOk, OnErr};
ghost use Rattle.qc_model.specs.Content.{Game};
ghost use Rattle.qc_model.specs.Domains.{box_without, declared_box, has_empty, has_value, is_single, values_left};
ghost use Rattle.qc_model.specs.Game.{allows, before, is_of_scope};
ghost use Rattle.qc_model.specs.Valid.{is_number};
ghost use Rattle.model_arguments.specs.Asked.{is_box_of};
ghost use Rattle.proof_tree.specs.Cover.{box_to};
ghost use Rattle.proof_tree.specs.Place.{is_fixed, position};
ghost use Rattle.fd_store.specs.Held.{Held, Follows, IsUndone, past_box, trail_len};
ghost use Rattle.search_box.specs.Bounds.{BoundAnswers};
ghost use Rattle.search_box.specs.Closes.{IsClosedAt, IsClosingAt, IsPruned, WasClosed};
ghost use Rattle.search_box.specs.Complete.{IsClosedAtGoal};
ghost use Rattle.search_box.specs.Looking.{LooksAhead, scope_number};
ghost use Rattle.search_box.specs.Boxed.{KeepsValues, IsMarked, LeadsOn};
ghost use Rattle.search_box.specs.Entered.{IsEntered, IsWithin};
ghost use Rattle.search_box.specs.Fresh.{IsFreshFrom};
ghost use Rattle.search_box.specs.Rests.{IsFirst, IsLast, IsNext, IsPrevious};

use crate::ahead::look;
use crate::bounding::{Bounded, give_up};
use crate::closing::{close_changed, close_once};
use crate::foresight::{Foresight, forget_after, nothing_foreseen};
use crate::mentioning::all_shown;
use crate::reading::{are_whole, next_unfixed};
use crate::taking::keep_one;
use crate::tuple::{goal_is_met, read_tuple};
use fd_store::{Mark, Store};
use model_levels::{Level, Levels};
use proof_tree::{Horizon, StepList};
use prop_engine::{Closed, Engine};
use prop_families::Families;
use qc_model::{Problem, ScopeId, Sense, VarId};
use search_joint::Joint;
use std::alloc::{AllocError, Global};
use std::marker::Model;

/// The values left to each variable of a problem, with a trail of changes, the filters that close them, the boxes on the
/// way by which it looks ahead, and a place for one value of each variable.
///
/// At a scope the values of the variables before it, which have one left each, stand in their places; those of its own
/// variables are read once its tuple is complete. A call takes memory only for the trail, whose pages are kept when it is
/// undone, and for the steps that it appends or keeps.
#[derive(Drop)]
pub struct SearchBox<'p> {
    problem: &'p Problem,
    alloc: Global,
    store: Store,
    engine: Engine,
    joint: Joint<'p>,
    values: Vec<i64>,
    // How the box was closed when it was looked ahead from.
    foresight: Foresight,
    // Whether each constraint of the problem has a variable or holds without any.
    all_shown: bool,
}

impl<'p> Model for SearchBox<'p> {
    ghost use Rattle.search_box.specs.Bounds.{BoundAnswers};
    ghost use Rattle.search_box.specs.Closes.{IsClosingAt, IsPruned, WasClosed};
    ghost use Rattle.search_box.specs.Looking.{LooksAhead, scope_number};
    ghost use Rattle.search_box.specs.Boxed.{Boxed};
    ghost use Rattle.search_box.specs.Inside.{IsSound};

    ghost Value = { Boxed };

    ghost view = { λ b. record { game = b.problem.now; store = b.store; values = b.values.items } };

    ghost invariant = { λ b. IsSound b.problem.now b.store b.engine b.joint b.values.items b.foresight b.all_shown };
}

impl<'p> SearchBox<'p> {
    /// The declared values of a problem's variables, with nothing to undo. It fails only where memory runs out.
    pub fn new(alloc: Global, problem: &'p Problem) -> Result<SearchBox<'p>, AllocError>
        ensures declared { IfOk result (λ b. b.store.box ≡ declared_box problem.now) }
        ensures past { IfOk result (λ b. b.store.past ≡ []) }
        ensures here { IfOk result (λ b. IsEntered problem.now 0 b) }
    {
        problem.known();
        let all_shown = all_shown(alloc, problem)?;
        let values = vec![in alloc; 0i64; problem.variables()]?;
        let store = Store::new(alloc, problem)?;
        let engine = Engine::new(alloc, problem)?;
        let joint = Joint::new(alloc, problem)?;
        Ok(SearchBox {
            problem,
            alloc,
            store,
            engine,
            joint,
            values,
            foresight: nothing_foreseen(alloc),
            all_shown,
        })
    }

    /// The values left are values of the game's variables, and there is a place for each variable.
    pub fn known(&self)
        ensures declared { IsTrue (is_box_of self.now.game self.now.store.box) }
        ensures size { length self.now.store.box ≡ length self.now.game.variables }
        ensures value_each { length self.now.values ≡ length self.now.game.variables }
    {
        let _ = &self.store;
    }

    /// The trail's length.
    pub fn mark(&self) -> Mark
        ensures at { result.at ≡ trail_len self.now.store }
        ensures marked { IsMarked result.at self.now }
    {
        self.store.mark()
    }

    /// Takes the changes since the mark back: the box is the past box at the mark. It takes no memory.
    pub fn undo_to(&mut self, mark: Mark)
        requires { IsMarked mark.at self.old }
        ensures past { IsUndone mark.at self.old.store self.new.store }
        ensures content { self.new.store.box ≡ past_box self.old.store mark.at }
        ensures back { (s : Held) → trail_len s ≡ mark.at → Follows s self.old.store → (self.new.store.box ≡ s.box) × (self.new.store.past ≡ s.past) }
        ensures game { self.new.game ≡ self.old.game }
        ensures values { self.new.values ≡ self.old.values }
    {
        forget_after(&mut self.foresight, mark);
        self.store.undo_to(mark);
    }

    /// The first variable of the scope from x on that has more than one value left, or the one after the scope's last.
    pub fn next_free(&self, level: &Level, x: usize) -> usize
        requires { IsWithin level.now.problem.now level.now.number x self.now }
        ensures after { x ≤ result }
        ensures place { IsWithin level.now.problem.now level.now.number result self.now }
        ensures free { result < level.now.stop → is_single (values_left self.now.store.box result) ≡ false }
        ensures own { result < level.now.stop → IsTrue (is_of_scope level.now.problem.now level.now.number result) }
    {
        self.problem.known();
        next_unfixed(&self.store, x, level.stop)
    }

    /// Whether the variables of the scope and of later ones have all their declared values left. It takes no memory, and
    /// looks at each of them once.
    pub fn is_fresh(&self, level: &Level) -> bool
        ensures { IsTrue result ↔ IsFreshFrom self.now.game (before level.now.problem.now level.now.number) self.now.store.box }
    {
        are_whole(self.problem, &self.store, level.from)
    }

    /// The first of the values left to x, which is the least.
    pub fn first(&self, x: VarId) -> i64
        requires var { x.0 < length self.now.store.box }
        requires full { IsFalse (has_empty self.now.store.box) }
        ensures { IsFirst (values_left self.now.store.box x.0) result }
    {
        self.store.known(x);
        self.store.min(x)
    }

    /// Whether v is left to x.
    pub fn has(&self, x: VarId, v: i64) -> bool
        requires var { x.0 < length self.now.store.box }
        ensures { result ≡ has_value (values_left self.now.store.box x.0) v }
    {
        self.store.has(x, v)
    }

    /// The value left to x that comes after v, one of them. None comes exactly where there is none.
    pub fn next(&self, x: VarId, v: i64) -> Option<i64>
        requires var { x.0 < length self.now.store.box }
        requires left { IsTrue (has_value (values_left self.now.store.box x.0) v) }
        ensures { IsNext (values_left self.now.store.box x.0) v result }
    {
        self.store.known(x);
        self.store.next(x, v + 1)
    }

    /// The value left to x that comes before v, one of them. None comes exactly where v is the first.
    pub fn previous(&self, x: VarId, v: i64) -> Option<i64>
        requires var { x.0 < length self.now.store.box }
        requires left { IsTrue (has_value (values_left self.now.store.box x.0) v) }
        ensures { IsPrevious (values_left self.now.store.box x.0) v result }
    {
        self.store.known(x);
        self.store.prev(x, v - 1)
    }

    /// The last of the values left to x, which is the greatest.
    pub fn last(&self, x: VarId) -> i64
        requires var { x.0 < length self.now.store.box }
        requires full { IsFalse (has_empty self.now.store.box) }
        ensures { IsLast (values_left self.now.store.box x.0) result }
    {
        self.store.known(x);
        self.store.max(x)
    }

    /// Reads the values of the scope's variables, and says whether its constraints hold on them and those before. The box
    /// is closed for them, so they are evaluated only where some constraint of the problem has no variable and doesn't hold.
    /// It takes no memory.
    pub fn tuple_allowed(&mut self, level: &Level) -> bool
        requires here { IsEntered level.now.problem.now level.now.number self.old }
        requires fixed { IsTrue (is_fixed level.now.problem.now level.now.number self.old.store.box) }
        requires closed { IsClosedAt level.now.problem.now level.now.number self.old.store.box }
        ensures allowed { result ≡ allows level.now.problem.now level.now.number (position level.now.problem.now (suc level.now.number) self.old.store.box) }
        ensures entered { IsEntered level.now.problem.now (suc level.now.number) self.new }
        ensures store { self.new.store ≡ self.old.store }
        ensures kept { KeepsValues level.now.problem.now level.now.number self.old self.new }
    {
        read_tuple(level, self.all_shown, &self.store, &mut self.values)
    }

    /// Whether the constraints of the goal hold on the values. Where the last scope is existential, the box is closed for
    /// them, so there they are evaluated only where some constraint of the problem has no variable and doesn't hold. It takes no
    /// memory.
    pub fn goal_holds(&self, levels: &Levels) -> bool
        requires here { IsEntered levels.now.problem.now (length levels.now.problem.now.scopes) self.now }
        requires closed { IsClosedAtGoal levels.now.problem.now self.now.store.box }
        ensures { result ≡ allows levels.now.problem.now (length levels.now.problem.now.scopes) (position levels.now.problem.now (length levels.now.problem.now.scopes) self.now.store.box) }
    {
        goal_is_met(levels, self.all_shown, &self.store, &self.values)
    }

    /// The values of the variables before the scope.
    pub fn values_before(&self, level: &Level) -> &[i64]
        requires { IsEntered level.now.problem.now level.now.number self.now }
        ensures { result.now ≡ position level.now.problem.now level.now.number self.now.store.box }
    {
        let values = self.values.as_slice();
        &values[..level.from]
    }

    /// The values in the places of all variables; at the goal they are the position.
    pub fn all_values(&self) -> &[i64]
        ensures { (g : Game) → IsEntered g (length g.scopes) self.now → result.now ≡ position g (length g.scopes) self.now.store.box }
    {
        self.problem.known();
        self.values.as_slice()
    }

    /// Leaves x the value v alone, one that is left to it. After a refusal the box is as before.
    pub fn take(&mut self, x: VarId, v: i64) -> Result<(), AllocError>
        requires var { x.0 < length self.old.store.box }
        requires left { IsTrue (has_value (values_left self.old.store.box x.0) v) }
        ensures content { OnOk result (self.new.store.box ≡ box_to self.old.store.box x.0 (v ∷ [])) }
        ensures same { OnErr result (self.new.store.box ≡ self.old.store.box) }
        ensures on { LeadsOn self.old self.new }
        ensures full { IsFalse (has_empty self.old.store.box) → IsFalse (has_empty self.new.store.box) }
        ensures here { (g : Game) (i : ℕ) → IsEntered g i self.old → IsEntered g i self.new }
    {
        self.store.known(x);
        keep_one(&mut self.store, x, v)
    }

    /// Gives up the values of x from lo to hi, and appends the bound, at a scope in whose own tree x is optimised in this
    /// sense. None comes where x has no such value. After a refusal the box and the steps are as before.
    pub fn bound(
        &mut self,
        sense: Sense,
        x: VarId,
        lo: i64,
        hi: i64,
        steps: &mut StepList,
    ) -> Result<Option<Bounded>, AllocError>
        requires var { x.0 < length self.old.store.box }
        requires lo { IsTrue (is_number lo) }
        requires hi { IsTrue (is_number hi) }
        requires full { IsFalse (has_empty self.old.store.box) }
        ensures answer { IfOk result (λ b. BoundAnswers sense x lo hi self.old.store.box self.new.store.box steps.old steps.new b) }
        ensures content { OnOk result (self.new.store.box ≡ box_without self.old.store.box x.0 lo hi) }
        ensures same { OnErr result ((self.new.store.box ≡ self.old.store.box) × (steps.new ≡ steps.old)) }
        ensures on { LeadsOn self.old self.new }
        ensures here { (g : Game) (i : ℕ) → IsEntered g i self.old → IsFalse (has_empty self.new.store.box) → IsEntered g i self.new }
    {
        self.problem.known();
        give_up(sense, x, lo, hi, &mut self.store, steps)
    }

    /// Closes the box for the constraints in force at the scope, and appends the removals. After a refusal the steps
    /// appended are exactly the removals made.
    pub fn close(&mut self, level: &Level, steps: &mut StepList) -> Result<Closed, AllocError>
        requires { IsEntered level.now.problem.now level.now.number self.old }
        ensures pruned { IsPruned level.now.problem.now level.now.number self.old.store.box self.new.store.box steps.old steps.new }
        ensures answer { IfOk result (λ a. IsClosingAt a level.now.problem.now level.now.number self.new.store.box) }
        ensures on { LeadsOn self.old self.new }
        ensures here { IsFalse (has_empty self.new.store.box) → IsEntered level.now.problem.now level.now.number self.new }
    {
        close_once(
            &Families {},
            self.alloc,
            level,
            &self.foresight,
            &mut self.engine,
            &mut self.store,
            steps,
        )
    }

    /// The same, where a box was closed before in which only these variables have changed since: only the constraints
    /// that mention them, and those that removals wake, run.
    pub fn close_after(
        &mut self,
        level: &Level,
        changed: &[VarId],
        steps: &mut StepList,
    ) -> Result<Closed, AllocError>
        requires here { IsEntered level.now.problem.now level.now.number self.old }
        requires earlier { WasClosed level.now.problem.now level.now.number changed.now self.old.store.box }
        ensures pruned { IsPruned level.now.problem.now level.now.number self.old.store.box self.new.store.box steps.old steps.new }
        ensures answer { IfOk result (λ a. IsClosingAt a level.now.problem.now level.now.number self.new.store.box) }
        ensures on { LeadsOn self.old self.new }
        ensures here { IsFalse (has_empty self.new.store.box) → IsEntered level.now.problem.now level.now.number self.new }
    {
        close_changed(
            &Families {},
            self.alloc,
            level,
            changed,
            &mut self.engine,
            &mut self.store,
            steps,
        )
    }

    /// A horizon for the node of scope i, nearer than the one in force, or None. With what it answers the node sees ahead,
    /// as a certificate has to. The box and the past boxes are as before, also after a refusal.
    pub fn look_ahead(
        &mut self,
        levels: &Levels,
        i: ScopeId,
        in_force: Option<ScopeId>,
    ) -> Result<Option<Horizon>, AllocError>
        requires here { IsEntered levels.now.problem.now i.0 self.old }
        requires scope { i.0 < length levels.now.problem.now.scopes }
        requires horizon { IfSome in_force (λ h. h.0 ≤ length levels.now.problem.now.scopes) }
        ensures answer { IfOk result (λ z. LooksAhead levels.now.problem.now i.0 self.old.store.box (scope_number in_force) z) }
        ensures content { self.new.store.box ≡ self.old.store.box }
        ensures past { self.new.store.past ≡ self.old.store.past }
        ensures game { self.new.game ≡ self.old.game }
        ensures values { self.new.values ≡ self.old.values }
    {
        look(
            &Families {},
            self.alloc,
            levels,
            &mut self.joint,
            &mut self.engine,
            i,
            in_force,
            &mut self.store,
            &mut self.foresight,
        )
    }
}
