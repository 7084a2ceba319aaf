//! Which constraints are settled, and with which values of their variables.
ghost use Rattle.std.specs.Prelude.{◌≡◌, ◌≢◌, ◌<◌, ◌≤◌, ◌+◌, ℕ, false, length, slice_get, Some, IsTrue, IsFalse, IfOk};
ghost use Rattle.qc_model.specs.Content.{Rule};
ghost use Rattle.qc_model.specs.Domains.{Box, values_left, is_none_left, least_value, has_empty};
ghost use Rattle.qc_model.specs.Lists.{numbers_from};
ghost use Rattle.model_arguments.specs.Asked.{is_box_of};
ghost use Rattle.model_levels.specs.Spans.{is_between};
ghost use Rattle.fd_store.specs.Held.{trail_len, past_box};
ghost use Rattle.dense_closing.specs.Takes.{keeps_box};
ghost use Rattle.dense_quiet.specs.declared.taking.Taking.{Taking};
ghost use Rattle.dense_close.specs.Memory.{TellsOf, IsSeen, IsMemory, HasSeen, HasLooked, IsAsSeen, IsAlike, seen_of, is_pending as is_pending_in};
ghost use Rattle.dense_quiet.specs.Taking.{takes_of};
ghost use Rattle.dense_close.specs.Waiting.{stands_in};

use crate::index::Index;
use crate::task::Task;
use fd_store::Store;
use qc_model::{ConId, Problem, VarId};
use std::alloc::{AllocError, Global};
use std::marker::Model;

/// Values of a variable: so many numbers in a row from the least one on. Where the count is 0, nothing is known of them.
#[derive(Clone, Copy)]
pub(crate) struct Sight {
    least: i64,
    count: u32,
}

// Nothing is known.
fn nothing() -> Sight
    ensures { result.count ≡ 0 }
{
    Sight { least: 0, count: 0 }
}

// What is left to x, where it is numbers in a row.
#[inline(always)]
fn sight_of(store: &Store, x: VarId) -> Sight
    requires x { x.0 < length store.now.box }
    requires some { is_none_left (values_left store.now.box x.0) ≡ false }
    ensures { TellsOf result (values_left store.now.box x.0) }
{
    let least = store.min(x);
    let count = store.size(x);
    if store.is_row(x, least, count) {
        Sight { least, count }
    } else {
        nothing()
    }
}

/// What was left to each variable when it was last looked at, and whether each constraint is pending: one that isn't is settled
/// wherever its variables have the values that they had then. With it stands the trail's length when it was settled.
#[derive(Drop)]
pub(crate) struct Memory {
    seen: Vec<Sight>,
    pending: Vec<bool>,
    at: usize,
}

impl Model for Memory {
    ghost use Rattle.dense_close.specs.Memory.{Memory};

    ghost Value = { Memory };

    ghost view = { λ a. record { seen = a.seen.items; pending = a.pending.items; at = a.at } };
}

impl Memory {
    /// Nothing is known yet, and all constraints are pending. It fails only where memory runs out.
    pub(crate) fn new(alloc: Global, problem: &Problem) -> Result<Memory, AllocError>
        ensures { IfOk result (λ m. (t : Taking) → IsMemory t problem.now m) }
    {
        Ok(Memory {
            seen: vec![in alloc; nothing(); problem.variables()]?,
            pending: vec![in alloc; true; problem.constraints()]?,
            at: 0,
        })
    }

    /// The trail's length when it was settled.
    #[inline(always)]
    pub(crate) fn at(&self) -> usize
        ensures { result ≡ self.now.at }
    {
        self.at
    }

    /// Becomes the same as another one.
    pub(crate) fn copy(&mut self, other: &Memory)
        requires alike { IsAlike self.old other.now }
        ensures { self.new ≡ other.now }
    {
        self.seen
            .as_mut_slice()
            .copy_from_slice(other.seen.as_slice());
        self.pending
            .as_mut_slice()
            .copy_from_slice(other.pending.as_slice());
        self.at = other.at;
    }

    /// Whether c may be unsettled.
    #[inline(always)]
    pub(crate) fn is_pending(&self, c: ConId) -> bool
        requires { c.0 < length self.now.pending }
        ensures { result ≡ is_pending_in self.now c.0 }
    {
        self.pending[c.0 as usize]
    }

    // c may be unsettled.
    #[inline(always)]
    fn mark(&mut self, c: ConId)
        ensures seen { self.new.seen ≡ self.old.seen }
        ensures count { length self.new.pending ≡ length self.old.pending }
        ensures kept { (k : ℕ) → IsTrue (is_pending_in self.old k) → IsTrue (is_pending_in self.new k) }
        ensures marked { IsTrue (is_pending_in self.new c.0) }
    {
        let k = c.0 as usize;
        if k < self.pending.len() {
            self.pending[k] = true;
        }
    }

    // So may all of these.
    fn mark_all(&mut self, rules: &[ConId])
        ensures seen { self.new.seen ≡ self.old.seen }
        ensures count { length self.new.pending ≡ length self.old.pending }
        ensures kept { (k : ℕ) → IsTrue (is_pending_in self.old k) → IsTrue (is_pending_in self.new k) }
        ensures marked { (k : ℕ) → IsTrue (stands_in rules.now k) → IsTrue (is_pending_in self.new k) }
    {
        for c in rules {
            self.mark(*c);
        }
    }

    // Something else is left to x than was seen of it.
    fn see(&mut self, index: &Index, x: VarId, now: Sight)
        requires x { x.0 < length self.old.seen }
        ensures { HasSeen index.now.having x.0 now self.old self.new }
    {
        self.seen[x.0 as usize] = now;
        self.mark_all(index.having(x));
    }

    // Whether what is left to x was seen of it.
    #[inline(always)]
    fn is_as_seen(&self, store: &Store, x: VarId) -> bool
        requires store { x.0 < length store.now.box }
        requires x { x.0 < length self.now.seen }
        requires some { is_none_left (values_left store.now.box x.0) ≡ false }
        ensures { IsTrue result → IsSeen (seen_of self.now x.0) (values_left store.now.box x.0) }
    {
        let seen = self.seen[x.0 as usize];
        store.is_row(x, seen.least, seen.count)
    }

    // The first variable from this one on of which something else is left than was seen of it, or their number.
    fn next_unseen(&self, task: &Task, store: &Store, from: usize) -> usize
        requires declared { IsTrue (is_box_of task.now.problem.now store.now.box) }
        requires full { IsFalse (has_empty store.now.box) }
        requires from { from ≤ length task.now.problem.now.variables }
        requires before { IsAsSeen from task.now.taking task.now.problem.now self.now store.now.box }
        ensures from { from ≤ result }
        ensures inside { result ≤ length task.now.problem.now.variables }
        ensures before { IsAsSeen result task.now.taking task.now.problem.now self.now store.now.box }
    {
        task.problem.known();
        let end = task.problem.variables();
        for x in from..end {
            if !self.is_as_seen(store, VarId(x as u16)) {
                return x;
            }
        }
        end
    }

    // Looks at x.
    fn look_at(&mut self, task: &Task, store: &Store, x: VarId)
        requires declared { IsTrue (is_box_of task.now.problem.now store.now.box) }
        requires full { IsFalse (has_empty store.now.box) }
        requires x { x.0 < length task.now.problem.now.variables }
        requires variables { length self.old.seen ≡ length task.now.problem.now.variables }
        ensures { HasLooked task.now.index.now.having x.0 (values_left store.now.box x.0) self.old self.new }
    {
        if !self.is_as_seen(store, x) {
            self.see(task.index, x, sight_of(store, x));
        }
    }

    /// Looks at all variables. The constraints that have one of which something else is left than was seen of it are pending.
    pub(crate) fn look(&mut self, task: &Task, store: &Store)
        requires declared { IsTrue (is_box_of task.now.problem.now store.now.box) }
        requires full { IsFalse (has_empty store.now.box) }
        requires memory { IsMemory task.now.taking task.now.problem.now self.old }
        ensures { IsAsSeen (length task.now.problem.now.variables) task.now.taking task.now.problem.now self.new store.now.box }
    {
        task.problem.known();
        let end = task.problem.variables();
        let mut x = self.next_unseen(task, store, 0);
        while x < end {
            self.look_at(task, store, VarId(x as u16));
            x = self.next_unseen(task, store, x + 1);
        }
    }

    /// Whether what is left to each variable was seen of it.
    pub(crate) fn has_seen_all(&self, task: &Task, store: &Store) -> bool
        requires declared { IsTrue (is_box_of task.now.problem.now store.now.box) }
        requires full { IsFalse (has_empty store.now.box) }
        requires memory { IsMemory task.now.taking task.now.problem.now self.now }
        ensures { IsTrue result → IsAsSeen (length task.now.problem.now.variables) task.now.taking task.now.problem.now self.now store.now.box }
    {
        task.problem.known();
        self.next_unseen(task, store, 0) == task.problem.variables()
    }

    /// Looks again at the variables that changed since the trail was so long, where all were looked at.
    pub(crate) fn look_again(&mut self, task: &Task, store: &Store, at: usize)
        requires declared { IsTrue (is_box_of task.now.problem.now store.now.box) }
        requires full { IsFalse (has_empty store.now.box) }
        requires at { at ≤ trail_len store.now }
        requires seen { IsAsSeen (length task.now.problem.now.variables) task.now.taking task.now.problem.now self.old (past_box store.now at) }
        ensures { IsAsSeen (length task.now.problem.now.variables) task.now.taking task.now.problem.now self.new store.now.box }
    {
        task.problem.known();
        for n in at..store.mark().at {
            let x = store.changed_at(n);
            self.look_at(task, store, VarId(x as u16));
        }
    }

    // c is settled.
    #[inline(always)]
    fn pass(&mut self, c: ConId)
        requires { c.0 < length self.old.pending }
        ensures seen { self.new.seen ≡ self.old.seen }
        ensures count { length self.new.pending ≡ length self.old.pending }
        ensures others { (k : ℕ) → k ≢ c.0 → is_pending_in self.new k ≡ is_pending_in self.old k }
    {
        self.pending[c.0 as usize] = false;
    }

    // The constraints of the span are settled.
    fn pass_all(&mut self, task: &Task)
        requires memory { IsMemory task.now.taking task.now.problem.now self.old }
        ensures { (box : Box) → IsTrue (is_box_of task.now.problem.now box) → IsAsSeen (length task.now.problem.now.variables) task.now.taking task.now.problem.now self.old box →
            ((k : ℕ) (c : Rule) → IsTrue (is_between task.now.span.first task.now.span.end k) → slice_get task.now.problem.now.constraints k ≡ Some c → IsTrue (keeps_box (takes_of task.now.taking task.now.problem.now) box c)) →
            IsMemory task.now.taking task.now.problem.now self.new }
    {
        task.problem.known();
        for k in task.span.first..task.span.end {
            self.pass(ConId(k as u16));
        }
    }

    /// The constraints of the span are settled, at this length of the trail.
    pub(crate) fn settle(&mut self, task: &Task, at: usize)
        requires memory { IsMemory task.now.taking task.now.problem.now self.old }
        ensures { (box : Box) → IsTrue (is_box_of task.now.problem.now box) → IsAsSeen (length task.now.problem.now.variables) task.now.taking task.now.problem.now self.old box →
            ((k : ℕ) (c : Rule) → IsTrue (is_between task.now.span.first task.now.span.end k) → slice_get task.now.problem.now.constraints k ≡ Some c → IsTrue (keeps_box (takes_of task.now.taking task.now.problem.now) box c)) →
            IsMemory task.now.taking task.now.problem.now self.new }
    {
        self.pass_all(task);
        self.at = at;
    }
}
