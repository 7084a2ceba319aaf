//! Which constraints a change lets wait.
ghost use Rattle.std.specs.Prelude.{◌≡◌, ◌≢◌, ◌<◌, ℕ, IsTrue, length};
ghost use Rattle.model_levels.specs.Spans.{is_between};
ghost use Rattle.dense_close.specs.Index.{has_it};
ghost use Rattle.dense_close.specs.Memory.{is_pending};
ghost use Rattle.dense_close.specs.Narrowing.{IsListOf};
ghost use Rattle.dense_close.specs.Waiting.{is_marked};

use crate::memory::Memory;
use crate::task::Task;
use crate::waiting::WorkList;
use qc_model::{ConId, VarId};

// Lets c wait where it is in the span.
#[inline(always)]
fn wake_one(task: &Task, c: ConId, list: &mut WorkList)
    requires list { IsListOf task.now.problem.now task.now.span.first task.now.span.end list.old }
    ensures list { IsListOf task.now.problem.now task.now.span.first task.now.span.end list.new }
    ensures kept { (k : ℕ) → IsTrue (is_marked list.old k) → IsTrue (is_marked list.new k) }
    ensures woken { IsTrue (is_between task.now.span.first task.now.span.end c.0) → IsTrue (is_marked list.new c.0) }
{
    let k = c.0 as usize;
    if task.span.first <= k && k < task.span.end {
        if task.index.is_late(c) {
            list.add_late(c);
        } else {
            list.add(c);
        }
    }
}

/// Lets the constraints of the span that have x wait.
pub(crate) fn wake(task: &Task, x: VarId, list: &mut WorkList)
    requires list { IsListOf task.now.problem.now task.now.span.first task.now.span.end list.old }
    ensures list { IsListOf task.now.problem.now task.now.span.first task.now.span.end list.new }
    ensures kept { (k : ℕ) → IsTrue (is_marked list.old k) → IsTrue (is_marked list.new k) }
    ensures woken { (k : ℕ) → IsTrue (is_between task.now.span.first task.now.span.end k) → IsTrue (has_it task.now.index.now.having k x.0) → IsTrue (is_marked list.new k) }
{
    for c in task.index.having(x) {
        wake_one(task, *c, list);
    }
}

// Lets c wait where it is in the span, unless it is this one.
fn wake_other(task: &Task, own: ConId, c: ConId, list: &mut WorkList)
    requires list { IsListOf task.now.problem.now task.now.span.first task.now.span.end list.old }
    ensures list { IsListOf task.now.problem.now task.now.span.first task.now.span.end list.new }
    ensures kept { (k : ℕ) → IsTrue (is_marked list.old k) → IsTrue (is_marked list.new k) }
    ensures woken { c.0 ≢ own.0 → IsTrue (is_between task.now.span.first task.now.span.end c.0) → IsTrue (is_marked list.new c.0) }
{
    if c.0 == own.0 {
        return;
    }
    wake_one(task, c, list);
}

/// Lets the constraints of the span that have x wait, but for this one.
pub(crate) fn wake_others(task: &Task, own: ConId, x: VarId, list: &mut WorkList)
    requires list { IsListOf task.now.problem.now task.now.span.first task.now.span.end list.old }
    ensures list { IsListOf task.now.problem.now task.now.span.first task.now.span.end list.new }
    ensures kept { (k : ℕ) → IsTrue (is_marked list.old k) → IsTrue (is_marked list.new k) }
    ensures woken { (k : ℕ) → IsTrue (is_between task.now.span.first task.now.span.end k) → k ≢ own.0 → IsTrue (has_it task.now.index.now.having k x.0) → IsTrue (is_marked list.new k) }
{
    for c in task.index.having(x) {
        wake_other(task, own, *c, list);
    }
}

/// Lets the constraints of the span that may be unsettled wait.
pub(crate) fn wake_pending(task: &Task, memory: &Memory, list: &mut WorkList)
    requires memory { length memory.now.pending ≡ length task.now.problem.now.constraints }
    requires list { IsListOf task.now.problem.now task.now.span.first task.now.span.end list.old }
    ensures list { IsListOf task.now.problem.now task.now.span.first task.now.span.end list.new }
    ensures woken { (k : ℕ) → IsTrue (is_between task.now.span.first task.now.span.end k) → IsTrue (is_pending memory.now k) → IsTrue (is_marked list.new k) }
{
    task.problem.known();
    for k in task.span.first..task.span.end {
        let c = ConId(k as u16);
        if memory.is_pending(c) {
            wake_one(task, c, list);
        }
    }
}
