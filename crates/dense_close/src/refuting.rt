//! Whether a box refutes a constraint, where those that were settled needn't be read.
ghost use Rattle.std.specs.Prelude.{◌≡◌, ◌<◌, ◌-◌, false, length, take, drop, slice_get, Some, IsTrue, IsFalse};
ghost use Rattle.std.specs.List.{list_any};
ghost use Rattle.qc_model.specs.Arguments.{variables_of};
ghost use Rattle.qc_model.specs.Content.{Rule};
ghost use Rattle.qc_model.specs.Domains.{has_empty};
ghost use Rattle.qc_model.specs.Refuted.{refuted_by};
ghost use Rattle.qc_model.specs.Verdict.{is_none_of};
ghost use Rattle.model_arguments.specs.Asked.{is_box_of};
ghost use Rattle.dense_close.specs.Memory.{IsMemory, IsAsSeen, is_pending};

use crate::memory::Memory;
use crate::task::Task;
use fd_store::Store;
use qc_model::ConId;
use qc_refuter::refutes;

// So many variables are looked at in the time that it takes to ask one constraint.
const LOOKS: usize = 16;

// Whether c has a variable, and was settled with what was seen.
fn is_settled(task: &Task, memory: &Memory, c: ConId) -> bool
    requires c { c.0 < length task.now.problem.now.constraints }
    requires memory { length memory.now.pending ≡ length task.now.problem.now.constraints }
    ensures settled { IsTrue result → IsFalse (is_pending memory.now c.0) }
    ensures some { IsTrue result → (rule : Rule) → slice_get task.now.problem.now.constraints c.0 ≡ Some rule → IsFalse (is_none_of (variables_of rule.args)) }
{
    if memory.is_pending(c) {
        return false;
    }
    !task.index.own(c).is_empty()
}

// Whether the box refutes c; it needn't be asked where all that is left was seen when it was settled.
fn is_refuted(task: &Task, memory: &Memory, store: &Store, seen: bool, c: ConId) -> bool
    requires c { c.0 < length task.now.problem.now.constraints }
    requires declared { IsTrue (is_box_of task.now.problem.now store.now.box) }
    requires full { IsFalse (has_empty store.now.box) }
    requires memory { length memory.now.pending ≡ length task.now.problem.now.constraints }
    requires seen { IsTrue seen → IsAsSeen (length task.now.problem.now.variables) task.now.taking task.now.problem.now memory.now store.now.box }
    ensures { (rule : Rule) → slice_get task.now.problem.now.constraints c.0 ≡ Some rule → result ≡ refuted_by rule store.now.box }
{
    task.problem.known();
    if seen {
        if is_settled(task, memory, c) {
            return false;
        }
    }
    refutes(task.problem, c, store)
}

// Whether all that is left was seen. Where few constraints are to be asked it isn't looked at.
fn is_all_seen(task: &Task, memory: &Memory, store: &Store) -> bool
    requires declared { IsTrue (is_box_of task.now.problem.now store.now.box) }
    requires full { IsFalse (has_empty store.now.box) }
    requires memory { IsMemory task.now.taking task.now.problem.now memory.now }
    ensures { IsTrue result → IsAsSeen (length task.now.problem.now.variables) task.now.taking task.now.problem.now memory.now store.now.box }
{
    let asked = task.span.end - task.span.first;
    if asked <= task.problem.variables() / LOOKS {
        return false;
    }
    memory.has_seen_all(task, store)
}

/// Whether the box refutes one of the constraints of the span.
pub(crate) fn some_refuted(task: &Task, memory: &Memory, store: &Store) -> bool
    requires declared { IsTrue (is_box_of task.now.problem.now store.now.box) }
    requires full { IsFalse (has_empty store.now.box) }
    requires memory { IsMemory task.now.taking task.now.problem.now memory.now }
    ensures { result ≡ list_any (λ c. refuted_by c store.now.box) (take (task.now.span.end - task.now.span.first) (drop task.now.span.first task.now.problem.now.constraints)) }
{
    task.problem.known();
    let seen = is_all_seen(task, memory, store);
    for k in task.span.first..task.span.end {
        if is_refuted(task, memory, store, seen, ConId(k as u16)) {
            return true;
        }
    }
    false
}
