//! Sums that are to be at most a number: one reading settles them.
//!
//! The room of such a sum takes greatest values of terms that rise with their variable, and least values of those that fall. So the least
//! that the sum can be stays as it was, and the room with it; and of each term that the sum may take what is left is nearer to its least
//! than there is room. Hence the sum refutes nothing more, and needn't be read again for what it took itself: it doesn't wait with the
//! other constraints that have such a variable.
ghost use Rattle.std.specs.Prelude.{◌≡◌, ◌≢◌, ◌<◌, pos, ◌≤ℤ◌, length, slice_get, Some, IsTrue, IsFalse};
ghost use Rattle.qc_model.specs.declared.problem.Arg.TheVariants.{Var};
ghost use Rattle.qc_model.specs.Content.{Rule};
ghost use Rattle.qc_model.specs.Domains.{has_empty, values_left};
ghost use Rattle.qc_model.specs.Refuted.{left_to};
ghost use Rattle.model_arguments.specs.Asked.{is_box_of};
ghost use Rattle.model_levels.specs.Spans.{is_between};
ghost use Rattle.fd_store.specs.Held.{Follows};
ghost use Rattle.dense_quiet.specs.Slack.{IsNear, IsBounded, IsTermOf, IsItemOf, is_taken, SparesTaken};
ghost use Rattle.dense_quiet.specs.Taking.{takes_of};
ghost use Rattle.dense_close.specs.Cutting.{IsCut, HasCut};
ghost use Rattle.dense_close.specs.Narrowing.{IsNarrowed, IsListOf, OthersSettled};

use crate::task::Task;
use crate::waiting::WorkList;
use crate::waking::wake_others;
use check_box::Remains;
use dense_quiet::{is_quiet_term, past_room};
use model_arguments::{arguments, items_at, numbers_at};
use qc_model::{Arg, ConId, Problem, VarId};

// Takes the values of x, which has this factor in the constraint c, an at-most sum with so much room, that are past it. Whether some
// went.
fn cut_far(
    problem: &Problem,
    c: ConId,
    x: VarId,
    factor: i64,
    room: i64,
    remains: &mut Remains,
) -> bool
    requires c { c.0 < length problem.now.constraints }
    requires declared { IsTrue (is_box_of problem.now remains.old.box) }
    requires full { IsFalse (has_empty remains.old.box) }
    requires x { x.0 < length remains.old.box }
    requires bounded { (rule : Rule) → slice_get problem.now.constraints c.0 ≡ Some rule → IsBounded rule room remains.old.box }
    requires place { (rule : Rule) → slice_get problem.now.constraints c.0 ≡ Some rule → IsTermOf rule factor x }
    ensures cut { IsCut problem.now c.0 x.0 remains.old.box remains.new.box }
    ensures past { Follows remains.old remains.new }
    ensures gone { HasCut result remains.old.box remains.new.box }
    ensures full { IsFalse (has_empty remains.new.box) }
    ensures near { IsNear room factor (values_left remains.new.box x.0) }
    ensures bounded { (rule : Rule) → slice_get problem.now.constraints c.0 ≡ Some rule → IsBounded rule room remains.new.box }
{
    problem.known();
    // such a term never moves
    if factor == 0 {
        return false;
    }
    let least = remains.store().min(x);
    let greatest = remains.store().max(x);
    let far = past_room(factor, room, least, greatest);
    let low = far.low;
    let high = far.high;
    if high < low {
        return false;
    }
    remains.cut(x, low, high);
    true
}

// The same, and lets the other constraints that have x wait where some went.
fn bound_variable(
    task: &Task,
    c: ConId,
    x: VarId,
    factor: i64,
    room: i64,
    list: &mut WorkList,
    remains: &mut Remains,
) -> bool
    requires c { c.0 < length task.now.problem.now.constraints }
    requires inside { IsTrue (is_between task.now.span.first task.now.span.end c.0) }
    requires declared { IsTrue (is_box_of task.now.problem.now remains.old.box) }
    requires full { IsFalse (has_empty remains.old.box) }
    requires list { IsListOf task.now.problem.now task.now.span.first task.now.span.end list.old }
    requires others { OthersSettled c.0 task.now.taking task.now.problem.now task.now.span.first task.now.span.end list.old remains.old.box }
    requires taken { (rule : Rule) → slice_get task.now.problem.now.constraints c.0 ≡ Some rule → IsTrue (takes_of task.now.taking task.now.problem.now rule x.0) }
    requires bounded { (rule : Rule) → slice_get task.now.problem.now.constraints c.0 ≡ Some rule → IsBounded rule room remains.old.box }
    requires place { (rule : Rule) → slice_get task.now.problem.now.constraints c.0 ≡ Some rule → IsTermOf rule factor x }
    ensures narrowed { IsNarrowed task.now.taking task.now.problem.now task.now.from task.now.stop remains.old.box remains.new.box }
    ensures past { Follows remains.old remains.new }
    ensures list { IsListOf task.now.problem.now task.now.span.first task.now.span.end list.new }
    ensures others { OthersSettled c.0 task.now.taking task.now.problem.now task.now.span.first task.now.span.end list.new remains.new.box }
    ensures gone { HasCut result remains.old.box remains.new.box }
    ensures listed { IsFalse result → list.new ≡ list.old }
    ensures full { IsFalse (has_empty remains.new.box) }
    ensures near { IsNear room factor (values_left remains.new.box x.0) }
    ensures bounded { (rule : Rule) → slice_get task.now.problem.now.constraints c.0 ≡ Some rule → IsBounded rule room remains.new.box }
{
    task.problem.known();
    let _ = task.problem.constraint(c);
    if cut_far(task.problem, c, x, factor, room, remains) {
        wake_others(task, c, x, list);
        return true;
    }
    false
}

// The same for any item.
fn bound_term(
    task: &Task,
    c: ConId,
    item: Arg,
    factor: i64,
    room: i64,
    list: &mut WorkList,
    remains: &mut Remains,
) -> bool
    requires c { c.0 < length task.now.problem.now.constraints }
    requires inside { IsTrue (is_between task.now.span.first task.now.span.end c.0) }
    requires declared { IsTrue (is_box_of task.now.problem.now remains.old.box) }
    requires full { IsFalse (has_empty remains.old.box) }
    requires list { IsListOf task.now.problem.now task.now.span.first task.now.span.end list.old }
    requires others { OthersSettled c.0 task.now.taking task.now.problem.now task.now.span.first task.now.span.end list.old remains.old.box }
    requires bounded { (rule : Rule) → slice_get task.now.problem.now.constraints c.0 ≡ Some rule → IsBounded rule room remains.old.box }
    requires place { (rule : Rule) → slice_get task.now.problem.now.constraints c.0 ≡ Some rule → IsItemOf rule factor item }
    ensures narrowed { IsNarrowed task.now.taking task.now.problem.now task.now.from task.now.stop remains.old.box remains.new.box }
    ensures past { Follows remains.old remains.new }
    ensures list { IsListOf task.now.problem.now task.now.span.first task.now.span.end list.new }
    ensures others { OthersSettled c.0 task.now.taking task.now.problem.now task.now.span.first task.now.span.end list.new remains.new.box }
    ensures gone { HasCut result remains.old.box remains.new.box }
    ensures listed { IsFalse result → list.new ≡ list.old }
    ensures full { IsFalse (has_empty remains.new.box) }
    ensures near { (rule : Rule) → slice_get task.now.problem.now.constraints c.0 ≡ Some rule → IsTrue (is_taken (takes_of task.now.taking task.now.problem.now rule) item) → IsNear room factor (left_to remains.new.box item) }
    ensures bounded { (rule : Rule) → slice_get task.now.problem.now.constraints c.0 ≡ Some rule → IsBounded rule room remains.new.box }
{
    task.problem.known();
    let rule = task.problem.constraint(c);
    if is_quiet_term(
        task.problem,
        task.taking,
        rule,
        factor,
        item,
        room,
        remains.store(),
    ) {
        return false;
    }
    match item {
        Arg::Num(_) => false,
        Arg::Var(x) => bound_variable(task, c, x, factor, room, list, remains),
    }
}

/// Takes what the constraint c, an at-most sum with so much room, refutes of its variables, and lets the other constraints that have
/// such a variable wait. Whether some went. The sum spares what is left.
pub(crate) fn bound_all(
    task: &Task,
    c: ConId,
    room: i64,
    list: &mut WorkList,
    remains: &mut Remains,
) -> bool
    requires c { c.0 < length task.now.problem.now.constraints }
    requires inside { IsTrue (is_between task.now.span.first task.now.span.end c.0) }
    requires declared { IsTrue (is_box_of task.now.problem.now remains.old.box) }
    requires full { IsFalse (has_empty remains.old.box) }
    requires list { IsListOf task.now.problem.now task.now.span.first task.now.span.end list.old }
    requires others { OthersSettled c.0 task.now.taking task.now.problem.now task.now.span.first task.now.span.end list.old remains.old.box }
    requires bounded { (rule : Rule) → slice_get task.now.problem.now.constraints c.0 ≡ Some rule → IsBounded rule room remains.old.box }
    ensures narrowed { IsNarrowed task.now.taking task.now.problem.now task.now.from task.now.stop remains.old.box remains.new.box }
    ensures past { Follows remains.old remains.new }
    ensures list { IsListOf task.now.problem.now task.now.span.first task.now.span.end list.new }
    ensures others { OthersSettled c.0 task.now.taking task.now.problem.now task.now.span.first task.now.span.end list.new remains.new.box }
    ensures gone { HasCut result remains.old.box remains.new.box }
    ensures listed { IsFalse result → list.new ≡ list.old }
    ensures full { IsFalse (has_empty remains.new.box) }
    ensures spares { (rule : Rule) → slice_get task.now.problem.now.constraints c.0 ≡ Some rule → SparesTaken (takes_of task.now.taking task.now.problem.now) rule remains.new.box }
{
    task.problem.known();
    let args = arguments(task.problem.constraint(c));
    let factors = numbers_at(args, 0);
    let items = items_at(args, 1);
    let mut changed = false;
    for k in 0..factors.len().min(items.len()) {
        changed |= bound_term(task, c, items[k], factors[k], room, list, remains);
    }
    changed
}
