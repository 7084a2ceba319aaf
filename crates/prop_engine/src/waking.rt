//! Waking the constraints that a change concerns.
ghost use Rattle.std.specs.Prelude.{◌≡◌, ◌==◌, ◌≤◌, ℕ, Some, length, slice_get, IsTrue, IsFalse};
ghost use Rattle.qc_model.specs.Domains.{has_empty};
ghost use Rattle.proof_tree.specs.declared.tree.Step.{Step};
ghost use Rattle.prop_engine.specs.Closing.{is_between};
ghost use Rattle.prop_engine.specs.Watching.{is_marked, MarkedWait, all_waiting, is_own, is_watched, names, step_variable, moved_by, moved_ever, IsSpared, MayRest, IsWatchOf, IsHintsOf, IsNow, IsRight};
ghost use Rattle.prop_engine.specs.Skipping.{IsSkipOf};
ghost use Rattle.model_arguments.specs.Asked.{is_box_of};

use crate::hints::Hints;
use crate::moved::Moved;
use crate::skipping::Skips;
use crate::waiting::WorkList;
use crate::watching::{HeldBy, Watch, Watches};
use fd_store::Store;
use model_arguments::Span;
use proof_tree::Step;
use qc_model::{ConId, Problem, VarId};

// Whether the constraint is in the span.
fn is_in(span: Span, c: ConId) -> bool
    ensures { result ≡ is_between span.first span.end c.0 }
{
    let k = c.0 as usize;
    span.first <= k && k < span.end
}

// The variable that a step takes values from.
fn variable_of(step: &Step) -> VarId
    ensures { result ≡ step_variable step.now }
{
    match step {
        Step::Prune { x, .. } => *x,
        Step::Bound { x, .. } => *x,
    }
}

// Whether c is the constraint that needn't wait.
fn is_same(own: Option<ConId>, c: ConId) -> bool
    ensures { result ≡ is_own own c.0 }
{
    match own {
        Some(d) => d.0 == c.0,
        None => false,
    }
}

// Lets c wait where it is in the span, unless it is `own` or keeps its ends anyway.
#[inline(always)]
fn wake_one(
    problem: &Problem,
    span: Span,
    own: Option<ConId>,
    c: ConId,
    store: &Store,
    hints: &mut Hints,
    list: &mut WorkList,
)
    requires span { span.end ≤ length problem.now.constraints }
    requires declared { IsTrue (is_box_of problem.now store.now.box) }
    requires hints { IsHintsOf problem.now hints.old }
    requires count { length list.old.marks ≡ length problem.now.constraints }
    requires waiting { MarkedWait list.old }
    requires inside { IsTrue (all_waiting (is_between span.first span.end) list.old) }
    ensures hints { IsHintsOf problem.now hints.new }
    ensures count { length list.new.marks ≡ length problem.now.constraints }
    ensures waiting { MarkedWait list.new }
    ensures inside { IsTrue (all_waiting (is_between span.first span.end) list.new) }
    ensures kept { (k : ℕ) → IsTrue (is_marked list.old k) → IsTrue (is_marked list.new k) }
    ensures spared { IsTrue (is_between span.first span.end c.0) → IsFalse (is_own own c.0) → IsSpared problem.now list.new store.now.box c.0 }
{
    if is_same(own, c) {
        return;
    }
    if is_in(span, c) {
        if list.has(c) {
            return;
        }
        if hints.is_idle(problem, c, store) {
            return;
        }
        list.add(c);
    }
}

// Lets c wait where it is in the span, unless it is `own`.
#[inline(always)]
fn wake_any(span: Span, own: Option<ConId>, c: ConId, list: &mut WorkList)
    requires span { span.end ≤ length list.old.marks }
    requires waiting { MarkedWait list.old }
    requires inside { IsTrue (all_waiting (is_between span.first span.end) list.old) }
    ensures count { length list.new.marks ≡ length list.old.marks }
    ensures waiting { MarkedWait list.new }
    ensures inside { IsTrue (all_waiting (is_between span.first span.end) list.new) }
    ensures kept { (k : ℕ) → IsTrue (is_marked list.old k) → IsTrue (is_marked list.new k) }
    ensures marked { IsTrue (is_between span.first span.end c.0) → IsFalse (is_own own c.0) → IsTrue (is_marked list.new c.0) }
{
    if is_same(own, c) {
        return;
    }
    if is_in(span, c) {
        list.add(c);
    }
}

// By which value, the only one that is left to x, clauses hold.
fn held_now(x: VarId, store: &Store) -> HeldBy
    ensures { IsNow result store.now.box x.0 }
{
    if x.0 as usize >= store.count() {
        return HeldBy::Neither;
    }
    if !store.is_fixed(x) {
        return HeldBy::Neither;
    }
    let value = store.min(x);
    if value == 1 {
        return HeldBy::One;
    }
    if value == 0 {
        return HeldBy::Zero;
    }
    HeldBy::Neither
}

// Which ends of its variable the step may have moved.
fn ends_moved(step: &Step, store: &Store) -> Moved
    requires full { IsFalse (has_empty store.now.box) }
    ensures least { IsFalse result.least → IsFalse (moved_by step.now store.now.box).least }
    ensures greatest { IsFalse result.greatest → IsFalse (moved_by step.now store.now.box).greatest }
{
    match step {
        Step::Bound { .. } => Moved {
            least: true,
            greatest: true,
        },
        Step::Prune { x, lo, hi, .. } => {
            if x.0 as usize >= store.count() {
                return Moved {
                    least: true,
                    greatest: true,
                };
            }
            Moved {
                least: *hi < store.min(*x),
                greatest: store.max(*x) < *lo,
            }
        }
    }
}

// Which ends of x may have moved since it had all its declared values.
fn ends_moved_ever(problem: &Problem, x: VarId, store: &Store) -> Moved
    requires declared { IsTrue (is_box_of problem.now store.now.box) }
    requires full { IsFalse (has_empty store.now.box) }
    ensures least { IsFalse result.least → IsFalse (moved_ever problem.now store.now.box x.0).least }
    ensures greatest { IsFalse result.greatest → IsFalse (moved_ever problem.now store.now.box x.0).greatest }
{
    if x.0 as usize >= store.count() {
        return Moved {
            least: true,
            greatest: true,
        };
    }
    problem.known();
    let domain = &problem.variable(x).domain;
    let size = domain.size();
    Moved {
        least: domain.value_at(0) < store.min(x),
        greatest: store.max(x) < domain.value_at(size - 1),
    }
}

// Lets a constraint that mentions x wait where it is in the span, unless it is `own`. A clause needn't where x makes it hold;
// otherwise its literals tell. A sum needn't where the end of x that it rests on didn't move.
#[inline(always)]
fn wake_watch(
    problem: &Problem,
    span: Span,
    own: Option<ConId>,
    x: VarId,
    now: HeldBy,
    moved: Moved,
    watch: Watch,
    store: &Store,
    hints: &mut Hints,
    list: &mut WorkList,
)
    requires span { span.end ≤ length problem.now.constraints }
    requires declared { IsTrue (is_box_of problem.now store.now.box) }
    requires hints { IsHintsOf problem.now hints.old }
    requires count { length list.old.marks ≡ length problem.now.constraints }
    requires waiting { MarkedWait list.old }
    requires inside { IsTrue (all_waiting (is_between span.first span.end) list.old) }
    requires now { IsNow now store.now.box x.0 }
    requires right { IsRight problem.now x.0 watch }
    ensures hints { IsHintsOf problem.now hints.new }
    ensures count { length list.new.marks ≡ length problem.now.constraints }
    ensures waiting { MarkedWait list.new }
    ensures inside { IsTrue (all_waiting (is_between span.first span.end) list.new) }
    ensures kept { (k : ℕ) → IsTrue (is_marked list.old k) → IsTrue (is_marked list.new k) }
    ensures spared { IsTrue (is_between span.first span.end watch.c.0) → IsFalse (is_own own watch.c.0) → MayRest problem.now list.new store.now.box moved x.0 watch.c.0 }
{
    match watch.held_by {
        HeldBy::Neither => wake_any(span, own, watch.c, list),
        HeldBy::One => match now {
            HeldBy::One => {}
            _ => wake_one(problem, span, own, watch.c, store, hints, list),
        },
        HeldBy::Zero => match now {
            HeldBy::Zero => {}
            _ => wake_one(problem, span, own, watch.c, store, hints, list),
        },
        HeldBy::Least => {
            if moved.least {
                wake_any(span, own, watch.c, list);
            }
        }
        HeldBy::Greatest => {
            if moved.greatest {
                wake_any(span, own, watch.c, list);
            }
        }
    }
}

// Lets those of the constraints that mention x and are in the span wait, but for `own` and those that keep their ends anyway.
fn wake_all(
    problem: &Problem,
    watches: &Watches,
    span: Span,
    own: Option<ConId>,
    x: VarId,
    moved: Moved,
    store: &Store,
    hints: &mut Hints,
    list: &mut WorkList,
)
    requires watches { IsWatchOf problem.now watches.now }
    requires span { span.end ≤ length problem.now.constraints }
    requires declared { IsTrue (is_box_of problem.now store.now.box) }
    requires hints { IsHintsOf problem.now hints.old }
    requires count { length list.old.marks ≡ length problem.now.constraints }
    requires waiting { MarkedWait list.old }
    requires inside { IsTrue (all_waiting (is_between span.first span.end) list.old) }
    ensures hints { IsHintsOf problem.now hints.new }
    ensures count { length list.new.marks ≡ length problem.now.constraints }
    ensures waiting { MarkedWait list.new }
    ensures inside { IsTrue (all_waiting (is_between span.first span.end) list.new) }
    ensures kept { (k : ℕ) → IsTrue (is_marked list.old k) → IsTrue (is_marked list.new k) }
    ensures spared { (k : ℕ) → IsTrue (is_between span.first span.end k) → IsFalse (is_own own k) → IsTrue (is_watched watches.now k x.0) → MayRest problem.now list.new store.now.box moved x.0 k }
{
    let now = held_now(x, store);
    for watch in watches.of(x) {
        // They ascend.
        if span.end <= watch.c.0 as usize {
            return;
        }
        wake_watch(
            problem, span, own, x, now, moved, *watch, store, hints, list,
        );
    }
}

/// Lets the constraints of the span that mention one of the variables wait, but for those that keep their ends anyway, and sums
/// that rest on declared ends of it.
pub(crate) fn wake_variables(
    problem: &Problem,
    watches: &Watches,
    span: Span,
    variables: &[VarId],
    store: &Store,
    hints: &mut Hints,
    list: &mut WorkList,
)
    requires watches { IsWatchOf problem.now watches.now }
    requires span { span.end ≤ length problem.now.constraints }
    requires declared { IsTrue (is_box_of problem.now store.now.box) }
    requires full { IsFalse (has_empty store.now.box) }
    requires hints { IsHintsOf problem.now hints.old }
    requires count { length list.old.marks ≡ length problem.now.constraints }
    requires waiting { MarkedWait list.old }
    requires inside { IsTrue (all_waiting (is_between span.first span.end) list.old) }
    ensures hints { IsHintsOf problem.now hints.new }
    ensures count { length list.new.marks ≡ length problem.now.constraints }
    ensures waiting { MarkedWait list.new }
    ensures inside { IsTrue (all_waiting (is_between span.first span.end) list.new) }
    ensures kept { (k : ℕ) → IsTrue (is_marked list.old k) → IsTrue (is_marked list.new k) }
    ensures spared { (k x : ℕ) → IsTrue (is_between span.first span.end k) → IsTrue (names variables.now x) → IsTrue (is_watched watches.now k x) → MayRest problem.now list.new store.now.box (moved_ever problem.now store.now.box x) x k }
{
    for x in variables {
        wake_all(
            problem,
            watches,
            span,
            None,
            *x,
            ends_moved_ever(problem, *x, store),
            store,
            hints,
            list,
        );
    }
}

/// Lets the constraints of the span that mention a variable of the steps wait, but for `own` and those that keep their ends
/// anyway.
pub(crate) fn wake_changed(
    problem: &Problem,
    watches: &Watches,
    span: Span,
    own: ConId,
    steps: &[Step],
    store: &Store,
    hints: &mut Hints,
    list: &mut WorkList,
)
    requires watches { IsWatchOf problem.now watches.now }
    requires span { span.end ≤ length problem.now.constraints }
    requires declared { IsTrue (is_box_of problem.now store.now.box) }
    requires full { IsFalse (has_empty store.now.box) }
    requires hints { IsHintsOf problem.now hints.old }
    requires count { length list.old.marks ≡ length problem.now.constraints }
    requires waiting { MarkedWait list.old }
    requires inside { IsTrue (all_waiting (is_between span.first span.end) list.old) }
    ensures hints { IsHintsOf problem.now hints.new }
    ensures count { length list.new.marks ≡ length problem.now.constraints }
    ensures waiting { MarkedWait list.new }
    ensures inside { IsTrue (all_waiting (is_between span.first span.end) list.new) }
    ensures kept { (k : ℕ) → IsTrue (is_marked list.old k) → IsTrue (is_marked list.new k) }
    ensures spared { (k i : ℕ) (s : Step) → IsTrue (is_between span.first span.end k) → IsFalse (own.0 == k) → slice_get steps.now i ≡ Some s → IsTrue (is_watched watches.now k (step_variable s).0) → MayRest problem.now list.new store.now.box (moved_by s store.now.box) (step_variable s).0 k }
{
    for step in steps {
        wake_all(
            problem,
            watches,
            span,
            Some(own),
            variable_of(step),
            ends_moved(step, store),
            store,
            hints,
            list,
        );
    }
}

/// Lets all constraints of the span wait, but for those that keep their ends anyway. Those that do so in any box are passed
/// over.
pub(crate) fn wake_span(
    problem: &Problem,
    skips: &Skips,
    span: Span,
    store: &Store,
    hints: &mut Hints,
    list: &mut WorkList,
)
    requires skips { IsSkipOf problem.now skips.now }
    requires span { span.end ≤ length problem.now.constraints }
    requires declared { IsTrue (is_box_of problem.now store.now.box) }
    requires hints { IsHintsOf problem.now hints.old }
    requires count { length list.old.marks ≡ length problem.now.constraints }
    requires waiting { MarkedWait list.old }
    requires inside { IsTrue (all_waiting (is_between span.first span.end) list.old) }
    ensures hints { IsHintsOf problem.now hints.new }
    ensures count { length list.new.marks ≡ length problem.now.constraints }
    ensures waiting { MarkedWait list.new }
    ensures inside { IsTrue (all_waiting (is_between span.first span.end) list.new) }
    ensures spared { (k : ℕ) → IsTrue (is_between span.first span.end k) → IsSpared problem.now list.new store.now.box k }
{
    problem.known();
    let mut k = skips.from(span.first);
    while k < span.end {
        wake_one(problem, span, None, ConId(k as u16), store, hints, list);
        k = skips.from(k + 1);
    }
}
