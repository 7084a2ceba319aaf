//! Closing a box.
ghost use Rattle.std.specs.Prelude.{◌≡◌, ◌≤◌, ℕ, suc, None, Some, [], true, length, nat_lt, IsTrue, IsFalse, IfOk, MatchBool};
ghost use Rattle.std.specs.List.{list_any};
ghost use Rattle.qc_model.specs.Block.{constraints_within};
ghost use Rattle.qc_model.specs.Domains.{Box, has_empty, is_sub_box};
ghost use Rattle.qc_model.specs.Refuted.{refuted_by};
ghost use Rattle.model_arguments.specs.Asked.{is_box_of};
ghost use Rattle.model_levels.specs.Spans.{IsSpanOf};
ghost use Rattle.fd_store.specs.Held.{Follows};
ghost use Rattle.dense_closing.specs.ClosingSteps.{greatest_closed};
ghost use Rattle.dense_close.specs.Answerless.{is_answerless};
ghost use Rattle.dense_close.specs.Memory.{AreMemories};
ghost use Rattle.dense_close.specs.Narrowing.{IsNarrowed, IsListOf, IsLost, AreSettled};
ghost use Rattle.dense_close.specs.Ready.{IsIdle};
ghost use Rattle.dense_quiet.specs.Taking.{takes_of};
ghost use Rattle.dense_close.specs.Waiting.{MarkedWait, all_waiting};

use crate::answerless::some_answerless;
use crate::index::Index;
use crate::memories::Memories;
use crate::refuting::some_refuted;
use crate::revising::{Revised, revise};
use crate::task::Task;
use crate::waiting::WorkList;
use crate::waking::wake_pending;
use check_box::Remains;
use dense_quiet::Taking;
use fd_store::Store;
use model_arguments::Span;
use model_levels::Levels;
use qc_model::{Problem, ScopeId};
use std::alloc::{AllocError, Global};
use std::marker::Model;

// The constraints of the scopes, or the goal, from one to the one before another.
fn span_of(levels: &Levels, from: usize, stop: usize) -> Span
    requires order { from ≤ stop }
    requires bound { stop ≤ suc (length levels.now.problem.now.scopes) }
    ensures { IsSpanOf levels.now.problem.now from stop result.first result.end }
{
    levels.problem.known();
    if from == stop {
        return Span { first: 0, end: 0 };
    }
    levels.constraints_between(ScopeId(from as u8), ScopeId((stop - 1) as u8))
}

// Looks at what waits until nothing does, or no box within is closed. Whether there is a closed one.
fn settle(task: &Task, list: &mut WorkList, remains: &mut Remains) -> bool
    requires declared { IsTrue (is_box_of task.now.problem.now remains.old.box) }
    requires full { IsFalse (has_empty remains.old.box) }
    requires list { IsListOf task.now.problem.now task.now.span.first task.now.span.end list.old }
    requires settled { AreSettled task.now.taking task.now.problem.now task.now.span.first task.now.span.end list.old remains.old.box }
    ensures narrowed { IsNarrowed task.now.taking task.now.problem.now task.now.from task.now.stop remains.old.box remains.new.box }
    ensures past { Follows remains.old remains.new }
    ensures full { IsTrue result → IsFalse (has_empty remains.new.box) }
    ensures list { IsListOf task.now.problem.now task.now.span.first task.now.span.end list.new }
    ensures answer { MatchBool result (greatest_closed (takes_of task.now.taking task.now.problem.now) task.now.problem.now task.now.from task.now.stop remains.old.box ≡ Some remains.new.box) (greatest_closed (takes_of task.now.taking task.now.problem.now) task.now.problem.now task.now.from task.now.stop remains.old.box ≡ None) }
{
    task.problem.known();
    while let Some(c) = list.pop() {
        match revise(task, c, list, remains) {
            Revised::Lost => return false,
            Revised::Stable => {}
            Revised::Changed => list.known(),
        }
    }
    true
}

// Takes out all that wait.
fn clear(list: &mut WorkList)
    requires waiting { MarkedWait list.old }
    requires exist { IsTrue (all_waiting (λ k. nat_lt k (length list.old.marks)) list.old) }
    ensures count { length list.new.marks ≡ length list.old.marks }
    ensures waiting { MarkedWait list.new }
    ensures empty { list.new.queue ≡ [] }
{
    while let Some(c) = list.pop() {
        let _ = c;
    }
}

// Leaves the greatest closed box within, where there is one, and nothing waits.
fn close_all(
    task: &Task,
    memories: &mut Memories,
    list: &mut WorkList,
    remains: &mut Remains,
) -> bool
    requires declared { IsTrue (is_box_of task.now.problem.now remains.old.box) }
    requires full { IsFalse (has_empty remains.old.box) }
    requires memories { AreMemories task.now.taking task.now.problem.now memories.old }
    requires list { IsIdle task.now.problem.now list.old }
    ensures memories { AreMemories task.now.taking task.now.problem.now memories.new }
    ensures narrowed { IsNarrowed task.now.taking task.now.problem.now task.now.from task.now.stop remains.old.box remains.new.box }
    ensures past { Follows remains.old remains.new }
    ensures full { IsTrue result → IsFalse (has_empty remains.new.box) }
    ensures list { IsIdle task.now.problem.now list.new }
    ensures answer { MatchBool result (greatest_closed (takes_of task.now.taking task.now.problem.now) task.now.problem.now task.now.from task.now.stop remains.old.box ≡ Some remains.new.box) (greatest_closed (takes_of task.now.taking task.now.problem.now) task.now.problem.now task.now.from task.now.stop remains.old.box ≡ None) }
{
    task.problem.known();
    let at = remains.mark().at;
    memories.begin(task, remains);
    wake_pending(task, memories.present(), list);
    let closed = settle(task, list, remains);
    clear(list);
    if closed {
        memories.end(task, remains, at);
    }
    closed
}

/// What closings of a problem's boxes need besides a box, made once: which variables each constraint has, which constraints have
/// each variable, a queue with room for all of them, and what is remembered of those that were settled, for each choice of what
/// constraints may take. So nothing but `new` takes memory.
///
/// Clauses see the game.
#[derive(Drop)]
pub struct Closer<'p> {
    problem: &'p Problem,
    index: Index,
    list: WorkList,
    all: Memories,
    owners: Memories,
}

impl<'p> Model for Closer<'p> {
    ghost use Rattle.qc_model.specs.Content.{Game};
    ghost use Rattle.dense_close.specs.Ready.{IsReady};

    ghost Value = { Game };

    ghost view = { λ c. c.problem.now };

    ghost invariant = { λ c. IsReady c.problem.now c.index c.list c.all c.owners };
}

impl<'p> Closer<'p> {
    /// A closer for this problem. It fails only where memory runs out.
    pub fn new(alloc: Global, problem: &'p Problem) -> Result<Closer<'p>, AllocError>
        ensures { IfOk result (λ c. c ≡ problem.now) }
    {
        problem.known();
        let index = Index::new(alloc, problem)?;
        let list = WorkList::new(alloc, problem.constraints())?;
        Ok(Closer {
            problem,
            index,
            list,
            all: Memories::new(alloc, problem)?,
            owners: Memories::new(alloc, problem)?,
        })
    }

    /// Leaves the greatest box within this one that is closed for the constraints of the scopes from `from` to the one before `stop`,
    /// where the goal has the number of scopes, each of which takes what it may. `false` comes where there is none; then some values
    /// may be gone, none of which a closed box has. It takes no memory.
    pub fn close(
        &mut self,
        levels: &Levels,
        remains: &mut Remains,
        taking: Taking,
        from: usize,
        stop: usize,
    ) -> bool
        requires game { self.old ≡ levels.now.problem.now }
        requires order { from ≤ stop }
        requires bound { stop ≤ suc (length levels.now.problem.now.scopes) }
        requires declared { IsTrue (is_box_of levels.now.problem.now remains.old.box) }
        ensures closed { MatchBool result (greatest_closed (takes_of taking levels.now.problem.now) levels.now.problem.now from stop remains.old.box ≡ Some remains.new.box) (greatest_closed (takes_of taking levels.now.problem.now) levels.now.problem.now from stop remains.old.box ≡ None) }
        ensures past { Follows remains.old remains.new }
        ensures full { IsTrue result → IsFalse (has_empty remains.new.box) }
        ensures fewer { (large : Box) → IsTrue (is_sub_box remains.old.box large) → IsTrue (is_sub_box remains.new.box large) }
        ensures declared { IsTrue (is_box_of levels.now.problem.now remains.new.box) }
        ensures game { self.new ≡ self.old }
    {
        levels.problem.known();
        if remains.is_empty() {
            return false;
        }
        let task = Task {
            problem: levels.problem,
            index: &self.index,
            taking,
            from,
            stop,
            span: span_of(levels, from, stop),
        };
        match taking {
            Taking::All => close_all(&task, &mut self.all, &mut self.list, remains),
            Taking::Owners => close_all(&task, &mut self.owners, &mut self.list, remains),
        }
    }

    /// Whether one of the constraints of the scopes from `number` to the one before `stop` refutes the box with the least or the
    /// greatest value left to a variable of the opponent, of a scope without a restriction that is scope `number` or a later one: a
    /// move that has no answer. It takes no memory.
    pub fn has_answerless(&self, levels: &Levels, store: &Store, number: usize, stop: usize) -> bool
        requires game { self.now ≡ levels.now.problem.now }
        requires order { number ≤ stop }
        requires bound { stop ≤ suc (length levels.now.problem.now.scopes) }
        requires declared { IsTrue (is_box_of levels.now.problem.now store.now.box) }
        requires full { IsFalse (has_empty store.now.box) }
        ensures { result ≡ list_any (is_answerless levels.now.problem.now number store.now.box) (constraints_within levels.now.problem.now number stop) }
    {
        let span = span_of(levels, number, stop);
        some_answerless(levels, &self.index, store, number, span)
    }
    /// Whether the box refutes one of the constraints of the scopes from `from` to the one before `stop`. Those that were found settled
    /// in this box by a closing, in which constraints took what these take, aren't asked again. It takes no memory.
    pub fn has_refuted(
        &self,
        levels: &Levels,
        store: &Store,
        taking: Taking,
        from: usize,
        stop: usize,
    ) -> bool
        requires game { self.now ≡ levels.now.problem.now }
        requires order { from ≤ stop }
        requires bound { stop ≤ suc (length levels.now.problem.now.scopes) }
        requires declared { IsTrue (is_box_of levels.now.problem.now store.now.box) }
        requires full { IsFalse (has_empty store.now.box) }
        ensures { result ≡ list_any (λ c. refuted_by c store.now.box) (constraints_within levels.now.problem.now from stop) }
    {
        levels.problem.known();
        let task = Task {
            problem: levels.problem,
            index: &self.index,
            taking,
            from,
            stop,
            span: span_of(levels, from, stop),
        };
        let at = store.mark().at;
        match taking {
            Taking::All => some_refuted(&task, self.all.last(at), store),
            Taking::Owners => some_refuted(&task, self.owners.last(at), store),
        }
    }
}
