//! The constraints that wait to be looked at, each once.
//!
//! Those that take long wait until no other does: the fewer values are left, the more they tell, and the less often they are looked at.
ghost use Rattle.std.specs.Prelude.{◌≡◌, ◌≢◌, ◌≤◌, ◌<◌, ℕ, Bool, length, [], ◌∷◌, IsTrue, IfOk, IfNone, IfSome, nat_lt};
ghost use Rattle.dense_close.specs.Waiting.{is_marked, MarkedWait, all_waiting};

use qc_model::ConId;
use std::alloc::{AllocError, Global};
use std::collections::VecDeque;
use std::marker::Model;

/// A queue of constraints, with a mark for each that stands in it. It has a place for each constraint, so it asks for no memory
/// once it is made.
///
/// It is kept in two: those that are late stand behind all others. Clauses see one queue.
#[derive(Drop)]
pub(crate) struct WorkList {
    marks: Vec<bool>,
    early: VecDeque<ConId>,
    late: VecDeque<ConId>,
}

impl Model for WorkList {
    ghost use Rattle.std.specs.Prelude.{◌++◌, ◌+◌};
    ghost use Rattle.std.specs.VecDeque.{deque_capacity, deque_len};
    ghost use Rattle.dense_close.specs.Waiting.{HasRoom, Waiting};

    ghost Value = { Waiting };

    ghost view = { λ a. record { marks = a.marks.items; queue = a.early.items ++ a.late.items } };

    ghost invariant = { λ a. HasRoom (deque_len a.early + deque_len a.late) (deque_capacity a.early) (deque_capacity a.late) a.marks.items };
}

impl WorkList {
    /// An empty queue, with room for so many constraints.
    pub(crate) fn new(alloc: Global, count: usize) -> Result<WorkList, AllocError>
        ensures count { IfOk result (λ w. length w.marks ≡ count) }
        ensures empty { IfOk result (λ w. w.queue ≡ []) }
        ensures waiting { IfOk result (λ w. MarkedWait w) }
    {
        Ok(WorkList {
            marks: vec![in alloc; false; count]?,
            early: VecDeque::with_capacity(alloc, count)?,
            late: VecDeque::with_capacity(alloc, count)?,
        })
    }

    /// No more wait than there are constraints.
    pub(crate) fn known(&self)
        ensures { length self.now.queue ≤ length self.now.marks }
    {
        let _ = &self.marks;
    }

    /// Lets c wait behind the others that are not late, unless it waits already.
    pub(crate) fn add(&mut self, c: ConId)
        requires c { c.0 < length self.old.marks }
        requires waiting { MarkedWait self.old }
        ensures waiting { MarkedWait self.new }
        ensures allowed { (ok : ℕ → Bool) → IsTrue (ok c.0) → IsTrue (all_waiting ok self.old) → IsTrue (all_waiting ok self.new) }
        ensures count { length self.new.marks ≡ length self.old.marks }
        ensures kept { (k : ℕ) → IsTrue (is_marked self.old k) → IsTrue (is_marked self.new k) }
        ensures marked { IsTrue (is_marked self.new c.0) }
    {
        if self.marks[c.0 as usize] {
            return;
        }
        self.early.push_back_reserved(c);
        self.marks[c.0 as usize] = true;
    }

    /// Lets c wait behind all others, as one that is late, unless it waits already.
    pub(crate) fn add_late(&mut self, c: ConId)
        requires c { c.0 < length self.old.marks }
        requires waiting { MarkedWait self.old }
        ensures waiting { MarkedWait self.new }
        ensures allowed { (ok : ℕ → Bool) → IsTrue (ok c.0) → IsTrue (all_waiting ok self.old) → IsTrue (all_waiting ok self.new) }
        ensures count { length self.new.marks ≡ length self.old.marks }
        ensures kept { (k : ℕ) → IsTrue (is_marked self.old k) → IsTrue (is_marked self.new k) }
        ensures marked { IsTrue (is_marked self.new c.0) }
    {
        if self.marks[c.0 as usize] {
            return;
        }
        self.late.push_back_reserved(c);
        self.marks[c.0 as usize] = true;
    }

    /// Takes the first that waits out.
    pub(crate) fn pop(&mut self) -> Option<ConId>
        requires waiting { MarkedWait self.old }
        requires exist { IsTrue (all_waiting (λ k. nat_lt k (length self.old.marks)) self.old) }
        ensures waiting { MarkedWait self.new }
        ensures count { length self.new.marks ≡ length self.old.marks }
        ensures none { IfNone result ((self.old.queue ≡ []) × (self.new ≡ self.old)) }
        ensures some { IfSome result (λ c. self.old.queue ≡ c ∷ self.new.queue) }
        ensures others { IfSome result (λ c. (k : ℕ) → k ≢ c.0 → is_marked self.new k ≡ is_marked self.old k) }
    {
        if let Some(first) = self.early.pop_front() {
            self.marks[first.0 as usize] = false;
            return Some(first);
        }
        let c = self.late.pop_front()?;
        self.marks[c.0 as usize] = false;
        Some(c)
    }
}
