//! The constraints that wait, each once.
//!
//! Those whose filters look at many items, or sort them, wait until no other does: then what they see changes less often.
//! Elements and clauses don't, since the others do little before these have told what is left.
ghost use Rattle.std.specs.Prelude.{◌≡◌, ◌≢◌, ◌<◌, ℕ, Bool, length, [], ◌∷◌, false, IsTrue, IfOk, IfNone, IfSome, nat_lt};
ghost use Rattle.prop_engine.specs.Watching.{is_marked, MarkedWait, all_waiting};

use model_arguments::arguments;
use qc_model::{Arg, Argument, ConId, Constraint, Pred, Problem};
use std::alloc::{AllocError, Global};
use std::collections::VecDeque;
use std::marker::Model;

/// Two queues of constraints, with a mark for each constraint that stands in one: those that have few items, and behind
/// them those that have many. No more wait than are marked, and each queue has a place for each mark, so it asks for no
/// memory once it is made.
#[derive(Drop)]
pub(crate) struct WorkList {
    marks: Vec<bool>,
    /// Whether each constraint has many items.
    many: Vec<bool>,
    first: VecDeque<ConId>,
    later: VecDeque<ConId>,
}

impl Model for WorkList {
    ghost use Rattle.std.specs.Prelude.{◌++◌};
    ghost use Rattle.std.specs.VecDeque.{deque_capacity, deque_len};
    ghost use Rattle.prop_engine.specs.Watching.{HasRoom, Waiting};

    ghost Value = { Waiting };

    ghost view = { λ a. record { marks = a.marks.items; queue = a.first.items ++ a.later.items } };

    ghost invariant = { λ a. HasRoom (deque_len a.first) (deque_len a.later) (deque_capacity a.first) (deque_capacity a.later) a.marks.items a.many.items };
}

/// So many items a constraint of few has at most.
const FEW_ITEMS: usize = 3;

/// How many items an argument has.
fn items_of(argument: &Argument) -> usize {
    match argument {
        Argument::One(Arg::Var(_)) => 1,
        Argument::Many(items) => items.items().len(),
        _ => 0,
    }
}

/// Whether a constraint waits until none of few items does.
fn has_many_items(rule: &Constraint) -> bool {
    match rule.pred {
        Pred::BoolClause => false,
        Pred::ArrayIntElement => false,
        Pred::ArrayVarIntElement => false,
        Pred::ArrayBoolElement => false,
        Pred::ArrayVarBoolElement => false,
        _ => {
            let mut count: usize = 0;
            for argument in arguments(rule) {
                count = count.saturating_add(items_of(argument));
            }
            count > FEW_ITEMS
        }
    }
}

impl WorkList {
    /// Empty queues, with room for each of the problem's constraints.
    pub(crate) fn of_problem(alloc: Global, problem: &Problem) -> Result<WorkList, AllocError>
        ensures count { IfOk result (λ w. length w.marks ≡ length problem.now.constraints) }
        ensures empty { IfOk result (λ w. w.queue ≡ []) }
        ensures idle { IfOk result (λ w. (k : ℕ) → is_marked w k ≡ false) }
    {
        problem.known();
        let count = problem.constraints();
        let mut many = vec![in alloc; false; count]?;
        for c in 0..count {
            many[c] = has_many_items(problem.constraint(ConId(c as u16)));
        }
        Ok(WorkList {
            marks: vec![in alloc; false; count]?,
            many,
            first: VecDeque::with_capacity(alloc, count)?,
            later: VecDeque::with_capacity(alloc, count)?,
        })
    }

    /// Whether c waits.
    pub(crate) fn has(&self, c: ConId) -> bool
        requires { c.0 < length self.now.marks }
        ensures { result ≡ is_marked self.now c.0 }
    {
        self.marks[c.0 as usize]
    }

    /// Lets c wait behind the others of its queue, unless it waits already.
    pub(crate) fn add(&mut self, c: ConId)
        requires c { c.0 < length self.old.marks }
        requires waiting { MarkedWait self.old }
        ensures waiting { MarkedWait self.new }
        ensures allowed { (ok : ℕ → Bool) → IsTrue (ok c.0) → IsTrue (all_waiting ok self.old) → IsTrue (all_waiting ok self.new) }
        ensures count { length self.new.marks ≡ length self.old.marks }
        ensures kept { (k : ℕ) → IsTrue (is_marked self.old k) → IsTrue (is_marked self.new k) }
        ensures marked { IsTrue (is_marked self.new c.0) }
    {
        if self.marks[c.0 as usize] {
            return;
        }
        if self.many[c.0 as usize] {
            self.later.push_back_reserved(c);
            self.marks[c.0 as usize] = true;
            return;
        }
        self.first.push_back_reserved(c);
        self.marks[c.0 as usize] = true;
    }

    /// Takes the first that waits out.
    pub(crate) fn pop(&mut self) -> Option<ConId>
        requires waiting { MarkedWait self.old }
        requires exist { IsTrue (all_waiting (λ k. nat_lt k (length self.old.marks)) self.old) }
        ensures waiting { MarkedWait self.new }
        ensures count { length self.new.marks ≡ length self.old.marks }
        ensures none { IfNone result ((self.old.queue ≡ []) × (self.new ≡ self.old)) }
        ensures some { IfSome result (λ c. self.old.queue ≡ c ∷ self.new.queue) }
        ensures others { IfSome result (λ c. (k : ℕ) → k ≢ c.0 → is_marked self.new k ≡ is_marked self.old k) }
    {
        if let Some(c) = self.first.pop_front() {
            self.marks[c.0 as usize] = false;
            return Some(c);
        }
        let c = self.later.pop_front()?;
        self.marks[c.0 as usize] = false;
        Some(c)
    }
}
