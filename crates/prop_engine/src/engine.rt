//! Closing again after a change.
ghost use Rattle.std.specs.Prelude.{◌≡◌, ◌≤◌, [], length, nat_lt, IsTrue, IsFalse, IfOk};
ghost use Rattle.qc_model.specs.Domains.{has_empty};
ghost use Rattle.model_arguments.specs.Asked.{is_box_of};
ghost use Rattle.prop_base.specs.Pruning.{IsPruning};
ghost use Rattle.prop_engine.specs.Closing.{EachRule, IsClosing, is_between};
ghost use Rattle.prop_engine.specs.Skipping.{IsSkipOf};
ghost use Rattle.prop_engine.specs.Watching.{MarkedWait, all_waiting, IsWatchOf, IsHintsOf, KeepsUnmarked, IsFound, IsReady, WasKept};

use crate::answer::Closed;
use crate::filtering::Filter;
use crate::found::Found;
use crate::hints::Hints;
use crate::running::run_filter;
use crate::skipping::Skips;
use crate::waiting::WorkList;
use crate::waking::{wake_changed, wake_span, wake_variables};
use crate::watching::Watches;
use fd_store::Store;
use model_arguments::Span;
use proof_tree::StepList;
use prop_base::Filtered;
use qc_model::{Problem, VarId};
use std::alloc::{AllocError, Global};
use std::marker::Model;

// Runs what waits, until a constraint removes something or nothing waits.
fn next_change<F: Filter>(
    filter: &F,
    alloc: Global,
    problem: &Problem,
    span: Span,
    list: &mut WorkList,
    store: &mut Store,
    steps: &mut StepList,
) -> Result<Found, AllocError>
    requires span { span.end ≤ length problem.now.constraints }
    requires known { EachRule (is_between span.first span.end) problem.now F.knows }
    requires declared { IsTrue (is_box_of problem.now store.old.box) }
    requires full { IsFalse (has_empty store.old.box) }
    requires count { length list.old.marks ≡ length problem.now.constraints }
    requires waiting { MarkedWait list.old }
    requires inside { IsTrue (all_waiting (is_between span.first span.end) list.old) }
    requires kept { KeepsUnmarked (is_between span.first span.end) problem.now list.old store.old.box }
    ensures pruning { IsPruning (is_between span.first span.end) problem.now store.old store.new steps.old steps.new }
    ensures count { length list.new.marks ≡ length problem.now.constraints }
    ensures waiting { MarkedWait list.new }
    ensures inside { IsTrue (all_waiting (is_between span.first span.end) list.new) }
    ensures answer { IfOk result (λ f. IsFound f (is_between span.first span.end) problem.now list.new store.old.box store.new.box steps.old steps.new) }
{
    while let Some(c) = list.pop() {
        match run_filter(filter, alloc, problem, c, store, steps)? {
            Filtered::Emptied => return Ok(Found::Emptied),
            Filtered::Stable => {}
            Filtered::Changed => return Ok(Found::Changed(c)),
        }
    }
    Ok(Found::Settled)
}

// Runs what waits, and what the removals wake, until nothing waits.
fn settle<F: Filter>(
    filter: &F,
    alloc: Global,
    problem: &Problem,
    watches: &Watches,
    span: Span,
    hints: &mut Hints,
    list: &mut WorkList,
    store: &mut Store,
    steps: &mut StepList,
) -> Result<Closed, AllocError>
    requires span { span.end ≤ length problem.now.constraints }
    requires known { EachRule (is_between span.first span.end) problem.now F.knows }
    requires watches { IsWatchOf problem.now watches.now }
    requires declared { IsTrue (is_box_of problem.now store.old.box) }
    requires full { IsFalse (has_empty store.old.box) }
    requires hints { IsHintsOf problem.now hints.old }
    requires count { length list.old.marks ≡ length problem.now.constraints }
    requires waiting { MarkedWait list.old }
    requires inside { IsTrue (all_waiting (is_between span.first span.end) list.old) }
    requires kept { KeepsUnmarked (is_between span.first span.end) problem.now list.old store.old.box }
    ensures pruning { IsPruning (is_between span.first span.end) problem.now store.old store.new steps.old steps.new }
    ensures hints { IsHintsOf problem.now hints.new }
    ensures count { length list.new.marks ≡ length problem.now.constraints }
    ensures waiting { MarkedWait list.new }
    ensures inside { IsTrue (all_waiting (is_between span.first span.end) list.new) }
    ensures answer { IfOk result (λ a. IsClosing a (is_between span.first span.end) problem.now store.new.box) }
{
    loop {
        let before = steps.items().len();
        match next_change(filter, alloc, problem, span, list, store, steps)? {
            Found::Settled => return Ok(Closed::Open),
            Found::Emptied => return Ok(Closed::Empty),
            Found::Changed(own) => {
                let fresh = &steps.items()[before..];
                wake_changed(problem, watches, span, own, fresh, store, hints, list);
            }
        }
    }
}

// Lets the constraints that a change concerns wait, and settles them.
fn close_woken<F: Filter>(
    filter: &F,
    alloc: Global,
    problem: &Problem,
    watches: &Watches,
    span: Span,
    changed: &[VarId],
    hints: &mut Hints,
    list: &mut WorkList,
    store: &mut Store,
    steps: &mut StepList,
) -> Result<Closed, AllocError>
    requires span { span.end ≤ length problem.now.constraints }
    requires known { EachRule (is_between span.first span.end) problem.now F.knows }
    requires watches { IsWatchOf problem.now watches.now }
    requires declared { IsTrue (is_box_of problem.now store.old.box) }
    requires full { IsFalse (has_empty store.old.box) }
    requires hints { IsHintsOf problem.now hints.old }
    requires count { length list.old.marks ≡ length problem.now.constraints }
    requires waiting { MarkedWait list.old }
    requires inside { IsTrue (all_waiting (is_between span.first span.end) list.old) }
    requires earlier { WasKept (is_between span.first span.end) problem.now changed.now store.old.box }
    ensures pruning { IsPruning (is_between span.first span.end) problem.now store.old store.new steps.old steps.new }
    ensures hints { IsHintsOf problem.now hints.new }
    ensures count { length list.new.marks ≡ length problem.now.constraints }
    ensures waiting { MarkedWait list.new }
    ensures inside { IsTrue (all_waiting (is_between span.first span.end) list.new) }
    ensures answer { IfOk result (λ a. IsClosing a (is_between span.first span.end) problem.now store.new.box) }
{
    wake_variables(problem, watches, span, changed, store, hints, list);
    settle(
        filter, alloc, problem, watches, span, hints, list, store, steps,
    )
}

// Lets all constraints of the span wait, and settles them.
fn close_all<F: Filter>(
    filter: &F,
    alloc: Global,
    problem: &Problem,
    watches: &Watches,
    skips: &Skips,
    span: Span,
    hints: &mut Hints,
    list: &mut WorkList,
    store: &mut Store,
    steps: &mut StepList,
) -> Result<Closed, AllocError>
    requires span { span.end ≤ length problem.now.constraints }
    requires known { EachRule (is_between span.first span.end) problem.now F.knows }
    requires watches { IsWatchOf problem.now watches.now }
    requires skips { IsSkipOf problem.now skips.now }
    requires declared { IsTrue (is_box_of problem.now store.old.box) }
    requires full { IsFalse (has_empty store.old.box) }
    requires hints { IsHintsOf problem.now hints.old }
    requires count { length list.old.marks ≡ length problem.now.constraints }
    requires waiting { MarkedWait list.old }
    requires inside { IsTrue (all_waiting (is_between span.first span.end) list.old) }
    ensures pruning { IsPruning (is_between span.first span.end) problem.now store.old store.new steps.old steps.new }
    ensures hints { IsHintsOf problem.now hints.new }
    ensures count { length list.new.marks ≡ length problem.now.constraints }
    ensures waiting { MarkedWait list.new }
    ensures inside { IsTrue (all_waiting (is_between span.first span.end) list.new) }
    ensures answer { IfOk result (λ a. IsClosing a (is_between span.first span.end) problem.now store.new.box) }
{
    wake_span(problem, skips, span, store, hints, list);
    settle(
        filter, alloc, problem, watches, span, hints, list, store, steps,
    )
}

// Takes out all that wait.
fn clear(list: &mut WorkList)
    requires waiting { MarkedWait list.old }
    requires exist { IsTrue (all_waiting (λ k. nat_lt k (length list.old.marks)) list.old) }
    ensures count { length list.new.marks ≡ length list.old.marks }
    ensures waiting { MarkedWait list.new }
    ensures empty { list.new.queue ≡ [] }
{
    while let Some(c) = list.pop() {
        let _ = c;
    }
}

/// What closing needs besides a problem and a store, made once for a problem: which constraints mention each variable, two
/// literals of each clause to look at first, which constraints never remove anything, and a queue with room for all of them,
/// which asks for no memory from then on: a refusal is always one of a filter. Between its calls the queue is empty.
#[derive(Drop)]
pub struct Engine {
    watches: Watches,
    hints: Hints,
    skips: Skips,
    list: WorkList,
}

impl Model for Engine {
    ghost use Rattle.prop_engine.specs.Watching.{Knowing};

    ghost Value = { Knowing };

    ghost view = { λ a. record { watches = a.watches; hints = a.hints; skips = a.skips; waiting = a.list } };
}

impl Engine {
    /// An engine for this problem.
    pub fn new(alloc: Global, problem: &Problem) -> Result<Engine, AllocError>
        ensures { IfOk result (λ e. IsReady problem.now e) }
    {
        let watches = Watches::of_problem(alloc, problem)?;
        let hints = Hints::of_problem(alloc, problem)?;
        let skips = Skips::of_problem(alloc, problem)?;
        let list = WorkList::of_problem(alloc, problem)?;
        Ok(Engine {
            watches,
            hints,
            skips,
            list,
        })
    }

    /// Runs the filters of the constraints of the span that mention a changed variable, and those that removals wake,
    /// until nothing more is removed. It asks for constraints that all kept their ends in an earlier box of declared values,
    /// since which the changed variables alone have lost values. After a refusal the steps appended are exactly the removals
    /// made.
    pub fn close_changed<F: Filter>(
        &mut self,
        filter: &F,
        alloc: Global,
        problem: &Problem,
        span: Span,
        changed: &[VarId],
        store: &mut Store,
        steps: &mut StepList,
    ) -> Result<Closed, AllocError>
        requires ready { IsReady problem.now self.old }
        requires span { span.end ≤ length problem.now.constraints }
        requires known { EachRule (is_between span.first span.end) problem.now F.knows }
        requires declared { IsTrue (is_box_of problem.now store.old.box) }
        requires full { IsFalse (has_empty store.old.box) }
        requires earlier { WasKept (is_between span.first span.end) problem.now changed.now store.old.box }
        ensures ready { IsReady problem.now self.new }
        ensures pruning { IsPruning (is_between span.first span.end) problem.now store.old store.new steps.old steps.new }
        ensures answer { IfOk result (λ a. IsClosing a (is_between span.first span.end) problem.now store.new.box) }
    {
        let answer = close_woken(
            filter,
            alloc,
            problem,
            &self.watches,
            span,
            changed,
            &mut self.hints,
            &mut self.list,
            store,
            steps,
        );
        clear(&mut self.list);
        answer
    }

    /// Runs the filters of all constraints of the span, and those that removals wake again, until nothing more is removed.
    /// After a refusal the steps appended are exactly the removals made.
    pub fn close_span<F: Filter>(
        &mut self,
        filter: &F,
        alloc: Global,
        problem: &Problem,
        span: Span,
        store: &mut Store,
        steps: &mut StepList,
    ) -> Result<Closed, AllocError>
        requires ready { IsReady problem.now self.old }
        requires span { span.end ≤ length problem.now.constraints }
        requires known { EachRule (is_between span.first span.end) problem.now F.knows }
        requires declared { IsTrue (is_box_of problem.now store.old.box) }
        requires full { IsFalse (has_empty store.old.box) }
        ensures ready { IsReady problem.now self.new }
        ensures pruning { IsPruning (is_between span.first span.end) problem.now store.old store.new steps.old steps.new }
        ensures answer { IfOk result (λ a. IsClosing a (is_between span.first span.end) problem.now store.new.box) }
    {
        let answer = close_all(
            filter,
            alloc,
            problem,
            &self.watches,
            &self.skips,
            span,
            &mut self.hints,
            &mut self.list,
            store,
            steps,
        );
        clear(&mut self.list);
        answer
    }
}
