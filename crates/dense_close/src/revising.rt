//! One constraint held against the box.
ghost use Rattle.std.specs.Prelude.{◌≡◌, ◌<◌, ◌∷◌, [], ◌||◌, true, false, length, IsTrue, IsFalse, slice_get, Some};
ghost use Rattle.qc_model.specs.Arguments.{variables_of};
ghost use Rattle.qc_model.specs.Content.{Rule};
ghost use Rattle.qc_model.specs.Domains.{Box, has_empty};
ghost use Rattle.qc_model.specs.Lists.{Among, Distinct};
ghost use Rattle.qc_model.specs.Verdict.{is_none_of};
ghost use Rattle.model_arguments.specs.Asked.{is_box_of};
ghost use Rattle.model_levels.specs.Spans.{is_between};
ghost use Rattle.fd_store.specs.Held.{Follows};
ghost use Rattle.dense_close.specs.Cutting.{IsCut, HasCut, SparesEnd};
ghost use Rattle.dense_quiet.specs.Advice.{AdviceTells};
ghost use Rattle.dense_quiet.specs.Slack.{IsBounded};
ghost use Rattle.dense_quiet.specs.Taking.{takes_of};
ghost use Rattle.dense_close.specs.Waiting.{Waiting};
ghost use Rattle.dense_close.specs.Narrowing.{IsNarrowed, IsListOf, OthersSettled, HasLooked, IsRevised};
ghost use Rattle.dense_close.specs.declared.cutting.End.TheVariants.{Least, Greatest};

use crate::advising::cut_advised;
use crate::bounding::bound_all;
use crate::cutting::{End, cut_end};
use crate::task::Task;
use crate::waiting::WorkList;
use crate::waking::wake;
use check_box::Remains;
use dense_quiet::{Advice, Seen, may_take, see};
use fd_store::Store;
use qc_model::{ConId, Problem, VarId};
use qc_refuter::refutes;

/// What came of a constraint that was held against the box: no box within is closed; or nothing changed; or values went.
#[derive(Clone, Copy)]
pub(crate) enum Revised {
    Lost,
    Stable,
    Changed,
}

/// What was seen of some variables of a constraint: whether values went, and whether one of them was open to it.
#[derive(Clone, Copy)]
pub(crate) struct Look {
    changed: bool,
    seen: bool,
}

// Both together.
fn both(one: Look, other: Look) -> Look
    ensures changed { result.changed ≡ (one.changed || other.changed) }
    ensures seen { result.seen ≡ (one.seen || other.seen) }
{
    Look {
        changed: one.changed || other.changed,
        seen: one.seen || other.seen,
    }
}

// Takes both ends of x as far as the constraint c refutes them. Whether some went.
fn cut_ends(problem: &Problem, c: ConId, x: VarId, remains: &mut Remains) -> bool
    requires c { c.0 < length problem.now.constraints }
    requires declared { IsTrue (is_box_of problem.now remains.old.box) }
    requires x { x.0 < length remains.old.box }
    ensures cut { IsCut problem.now c.0 x.0 remains.old.box remains.new.box }
    ensures past { Follows remains.old remains.new }
    ensures gone { HasCut result remains.old.box remains.new.box }
    ensures least { IsFalse result → IsFalse (has_empty remains.new.box) → SparesEnd Least problem.now c.0 x.0 remains.new.box }
    ensures greatest { IsFalse result → IsFalse (has_empty remains.new.box) → SparesEnd Greatest problem.now c.0 x.0 remains.new.box }
{
    let low = cut_end(problem, c, x, End::Least, remains);
    let high = cut_end(problem, c, x, End::Greatest, remains);
    low || high
}

// Takes both ends of x, which the constraint c may take, as far as it refutes them, and lets the constraints that have x wait where
// some went.
fn revise_at(task: &Task, c: ConId, x: VarId, list: &mut WorkList, remains: &mut Remains) -> Look
    requires c { c.0 < length task.now.problem.now.constraints }
    requires own { (rule : Rule) → slice_get task.now.problem.now.constraints c.0 ≡ Some rule → Among x.0 (variables_of rule.args) }
    requires inside { IsTrue (is_between task.now.span.first task.now.span.end c.0) }
    requires declared { IsTrue (is_box_of task.now.problem.now remains.old.box) }
    requires full { IsFalse (has_empty remains.old.box) }
    requires list { IsListOf task.now.problem.now task.now.span.first task.now.span.end list.old }
    requires others { OthersSettled c.0 task.now.taking task.now.problem.now task.now.span.first task.now.span.end list.old remains.old.box }
    requires taken { (rule : Rule) → slice_get task.now.problem.now.constraints c.0 ≡ Some rule → IsTrue (takes_of task.now.taking task.now.problem.now rule x.0) }
    ensures narrowed { IsNarrowed task.now.taking task.now.problem.now task.now.from task.now.stop remains.old.box remains.new.box }
    ensures past { Follows remains.old remains.new }
    ensures list { IsListOf task.now.problem.now task.now.span.first task.now.span.end list.new }
    ensures others { OthersSettled c.0 task.now.taking task.now.problem.now task.now.span.first task.now.span.end list.new remains.new.box }
    ensures looked { IsFalse (has_empty remains.new.box) → HasLooked result task.now.taking task.now.problem.now c.0 (x.0 ∷ []) list.old list.new remains.old.box remains.new.box }
{
    task.problem.known();
    let _ = task.problem.constraint(c);
    if cut_ends(task.problem, c, x, remains) {
        wake(task, x, list);
        return Look {
            changed: true,
            seen: true,
        };
    }
    Look {
        changed: false,
        seen: true,
    }
}

// The same for any variable of the constraint: nothing is to be done where x has one value, or where the constraint may not take it.
fn look_at(task: &Task, c: ConId, x: VarId, list: &mut WorkList, remains: &mut Remains) -> Look
    requires c { c.0 < length task.now.problem.now.constraints }
    requires own { (rule : Rule) → slice_get task.now.problem.now.constraints c.0 ≡ Some rule → Among x.0 (variables_of rule.args) }
    requires inside { IsTrue (is_between task.now.span.first task.now.span.end c.0) }
    requires declared { IsTrue (is_box_of task.now.problem.now remains.old.box) }
    requires full { IsFalse (has_empty remains.old.box) }
    requires list { IsListOf task.now.problem.now task.now.span.first task.now.span.end list.old }
    requires others { OthersSettled c.0 task.now.taking task.now.problem.now task.now.span.first task.now.span.end list.old remains.old.box }
    ensures narrowed { IsNarrowed task.now.taking task.now.problem.now task.now.from task.now.stop remains.old.box remains.new.box }
    ensures past { Follows remains.old remains.new }
    ensures list { IsListOf task.now.problem.now task.now.span.first task.now.span.end list.new }
    ensures others { OthersSettled c.0 task.now.taking task.now.problem.now task.now.span.first task.now.span.end list.new remains.new.box }
    ensures looked { IsFalse (has_empty remains.new.box) → HasLooked result task.now.taking task.now.problem.now c.0 (x.0 ∷ []) list.old list.new remains.old.box remains.new.box }
{
    task.problem.known();
    let nothing = Look {
        changed: false,
        seen: false,
    };
    let rule = task.problem.constraint(c);
    if remains.store().is_fixed(x) {
        return nothing;
    }
    if !may_take(task.problem, task.taking, rule, x) {
        return nothing;
    }
    revise_at(task, c, x, list, remains)
}

// What came of all its variables.
fn outcome(task: &Task, c: ConId, look: Look, list: &WorkList, store: &Store) -> Revised
    requires c { c.0 < length task.now.problem.now.constraints }
    requires some { (rule : Rule) → slice_get task.now.problem.now.constraints c.0 ≡ Some rule → IsFalse (is_none_of (variables_of rule.args)) }
    requires inside { IsTrue (is_between task.now.span.first task.now.span.end c.0) }
    requires declared { IsTrue (is_box_of task.now.problem.now store.now.box) }
    requires full { IsFalse (has_empty store.now.box) }
    requires others { OthersSettled c.0 task.now.taking task.now.problem.now task.now.span.first task.now.span.end list.now store.now.box }
    ensures { (rule : Rule) (was : Waiting) (box : Box) → slice_get task.now.problem.now.constraints c.0 ≡ Some rule → HasLooked look task.now.taking task.now.problem.now c.0 (variables_of rule.args) was list.now box store.now.box →
        IsRevised result task.now.taking task.now.problem.now task.now.from task.now.stop task.now.span.first task.now.span.end was list.now box store.now.box }
{
    task.problem.known();
    if look.changed {
        return Revised::Changed;
    }
    if look.seen {
        return Revised::Stable;
    }
    if refutes(task.problem, c, store) {
        Revised::Lost
    } else {
        Revised::Stable
    }
}

// Takes the ends of x, which the constraint c may take, as far as was seen of it, and lets the constraints that have x wait where values
// went.
fn trim_at(
    task: &Task,
    c: ConId,
    place: usize,
    x: VarId,
    advice: Advice,
    queue: &mut WorkList,
    remains: &mut Remains,
) -> Look
    requires c { c.0 < length task.now.problem.now.constraints }
    requires own { (rule : Rule) → slice_get task.now.problem.now.constraints c.0 ≡ Some rule → Among x.0 (variables_of rule.args) }
    requires inside { IsTrue (is_between task.now.span.first task.now.span.end c.0) }
    requires declared { IsTrue (is_box_of task.now.problem.now remains.old.box) }
    requires full { IsFalse (has_empty remains.old.box) }
    requires list { IsListOf task.now.problem.now task.now.span.first task.now.span.end queue.old }
    requires others { OthersSettled c.0 task.now.taking task.now.problem.now task.now.span.first task.now.span.end queue.old remains.old.box }
    requires taken { (rule : Rule) → slice_get task.now.problem.now.constraints c.0 ≡ Some rule → IsTrue (takes_of task.now.taking task.now.problem.now rule x.0) }
    requires tells { (rule : Rule) → slice_get task.now.problem.now.constraints c.0 ≡ Some rule → AdviceTells advice rule remains.old.box }
    ensures narrowed { IsNarrowed task.now.taking task.now.problem.now task.now.from task.now.stop remains.old.box remains.new.box }
    ensures past { Follows remains.old remains.new }
    ensures list { IsListOf task.now.problem.now task.now.span.first task.now.span.end queue.new }
    ensures others { OthersSettled c.0 task.now.taking task.now.problem.now task.now.span.first task.now.span.end queue.new remains.new.box }
    ensures looked { HasLooked result task.now.taking task.now.problem.now c.0 [] queue.old queue.new remains.old.box remains.new.box }
{
    task.problem.known();
    let _ = task.problem.constraint(c);
    if cut_advised(task.problem, c, place, x, advice, remains) {
        wake(task, x, queue);
        return Look {
            changed: true,
            seen: false,
        };
    }
    Look {
        changed: false,
        seen: false,
    }
}

// The same for any variable of the constraint, which is the one at this place.
fn trim_own(
    task: &Task,
    c: ConId,
    place: usize,
    x: VarId,
    advice: Advice,
    list: &mut WorkList,
    remains: &mut Remains,
) -> Look
    requires c { c.0 < length task.now.problem.now.constraints }
    requires own { (rule : Rule) → slice_get task.now.problem.now.constraints c.0 ≡ Some rule → Among x.0 (variables_of rule.args) }
    requires inside { IsTrue (is_between task.now.span.first task.now.span.end c.0) }
    requires declared { IsTrue (is_box_of task.now.problem.now remains.old.box) }
    requires full { IsFalse (has_empty remains.old.box) }
    requires list { IsListOf task.now.problem.now task.now.span.first task.now.span.end list.old }
    requires others { OthersSettled c.0 task.now.taking task.now.problem.now task.now.span.first task.now.span.end list.old remains.old.box }
    requires tells { (rule : Rule) → slice_get task.now.problem.now.constraints c.0 ≡ Some rule → AdviceTells advice rule remains.old.box }
    ensures narrowed { IsNarrowed task.now.taking task.now.problem.now task.now.from task.now.stop remains.old.box remains.new.box }
    ensures past { Follows remains.old remains.new }
    ensures list { IsListOf task.now.problem.now task.now.span.first task.now.span.end list.new }
    ensures others { OthersSettled c.0 task.now.taking task.now.problem.now task.now.span.first task.now.span.end list.new remains.new.box }
    ensures looked { HasLooked result task.now.taking task.now.problem.now c.0 [] list.old list.new remains.old.box remains.new.box }
{
    task.problem.known();
    let nothing = Look {
        changed: false,
        seen: false,
    };
    let rule = task.problem.constraint(c);
    if remains.store().is_fixed(x) {
        return nothing;
    }
    if !may_take(task.problem, task.taking, rule, x) {
        return nothing;
    }
    trim_at(task, c, place, x, advice, list, remains)
}

// The same for all variables of the constraint, until one has no value left.
fn trim(task: &Task, c: ConId, advice: Advice, list: &mut WorkList, remains: &mut Remains) -> Look
    requires c { c.0 < length task.now.problem.now.constraints }
    requires inside { IsTrue (is_between task.now.span.first task.now.span.end c.0) }
    requires declared { IsTrue (is_box_of task.now.problem.now remains.old.box) }
    requires full { IsFalse (has_empty remains.old.box) }
    requires list { IsListOf task.now.problem.now task.now.span.first task.now.span.end list.old }
    requires others { OthersSettled c.0 task.now.taking task.now.problem.now task.now.span.first task.now.span.end list.old remains.old.box }
    requires tells { (rule : Rule) → slice_get task.now.problem.now.constraints c.0 ≡ Some rule → AdviceTells advice rule remains.old.box }
    ensures narrowed { IsNarrowed task.now.taking task.now.problem.now task.now.from task.now.stop remains.old.box remains.new.box }
    ensures past { Follows remains.old remains.new }
    ensures list { IsListOf task.now.problem.now task.now.span.first task.now.span.end list.new }
    ensures others { OthersSettled c.0 task.now.taking task.now.problem.now task.now.span.first task.now.span.end list.new remains.new.box }
    ensures looked { HasLooked result task.now.taking task.now.problem.now c.0 [] list.old list.new remains.old.box remains.new.box }
{
    task.problem.known();
    let own = task.index.own(c);
    let mut look = Look {
        changed: false,
        seen: false,
    };
    for place in 0..own.len() {
        look = both(
            look,
            trim_own(task, c, place, own[place], advice, list, remains),
        );
        if remains.is_empty() {
            return look;
        }
    }
    look
}

// Takes the ends that the constraint c refutes and may take, each of its variables once.
fn revise_each(task: &Task, c: ConId, list: &mut WorkList, remains: &mut Remains) -> Revised
    requires c { c.0 < length task.now.problem.now.constraints }
    requires some { (rule : Rule) → slice_get task.now.problem.now.constraints c.0 ≡ Some rule → IsFalse (is_none_of (variables_of rule.args)) }
    requires inside { IsTrue (is_between task.now.span.first task.now.span.end c.0) }
    requires declared { IsTrue (is_box_of task.now.problem.now remains.old.box) }
    requires full { IsFalse (has_empty remains.old.box) }
    requires list { IsListOf task.now.problem.now task.now.span.first task.now.span.end list.old }
    requires others { OthersSettled c.0 task.now.taking task.now.problem.now task.now.span.first task.now.span.end list.old remains.old.box }
    ensures narrowed { IsNarrowed task.now.taking task.now.problem.now task.now.from task.now.stop remains.old.box remains.new.box }
    ensures past { Follows remains.old remains.new }
    ensures list { IsListOf task.now.problem.now task.now.span.first task.now.span.end list.new }
    ensures answer { IsRevised result task.now.taking task.now.problem.now task.now.from task.now.stop task.now.span.first task.now.span.end list.old list.new remains.old.box remains.new.box }
{
    task.problem.known();
    let _ = task.problem.constraint(c);
    let own = task.index.own(c);
    let mut look = Look {
        changed: false,
        seen: false,
    };
    for x in own {
        look = both(look, look_at(task, c, *x, list, remains));
        if remains.is_empty() {
            return Revised::Lost;
        }
    }
    outcome(task, c, look, list, remains.store())
}

// The same by what was seen of the constraint: most goes at once.
fn revise_advised(
    task: &Task,
    c: ConId,
    advice: Advice,
    list: &mut WorkList,
    remains: &mut Remains,
) -> Revised
    requires c { c.0 < length task.now.problem.now.constraints }
    requires some { (rule : Rule) → slice_get task.now.problem.now.constraints c.0 ≡ Some rule → IsFalse (is_none_of (variables_of rule.args)) }
    requires inside { IsTrue (is_between task.now.span.first task.now.span.end c.0) }
    requires declared { IsTrue (is_box_of task.now.problem.now remains.old.box) }
    requires full { IsFalse (has_empty remains.old.box) }
    requires list { IsListOf task.now.problem.now task.now.span.first task.now.span.end list.old }
    requires others { OthersSettled c.0 task.now.taking task.now.problem.now task.now.span.first task.now.span.end list.old remains.old.box }
    requires tells { (rule : Rule) → slice_get task.now.problem.now.constraints c.0 ≡ Some rule → AdviceTells advice rule remains.old.box }
    ensures narrowed { IsNarrowed task.now.taking task.now.problem.now task.now.from task.now.stop remains.old.box remains.new.box }
    ensures past { Follows remains.old remains.new }
    ensures list { IsListOf task.now.problem.now task.now.span.first task.now.span.end list.new }
    ensures answer { IsRevised result task.now.taking task.now.problem.now task.now.from task.now.stop task.now.span.first task.now.span.end list.old list.new remains.old.box remains.new.box }
{
    task.problem.known();
    let _ = task.problem.constraint(c);
    let look = trim(task, c, advice, list, remains);
    if remains.is_empty() {
        return Revised::Lost;
    }
    if look.changed {
        return Revised::Changed;
    }
    revise_each(task, c, list, remains)
}

// The same where it is an at-most sum with so much room. It spares what is left, so it doesn't wait for what it took.
fn revise_bounded(
    task: &Task,
    c: ConId,
    room: i64,
    list: &mut WorkList,
    remains: &mut Remains,
) -> Revised
    requires c { c.0 < length task.now.problem.now.constraints }
    requires inside { IsTrue (is_between task.now.span.first task.now.span.end c.0) }
    requires declared { IsTrue (is_box_of task.now.problem.now remains.old.box) }
    requires full { IsFalse (has_empty remains.old.box) }
    requires list { IsListOf task.now.problem.now task.now.span.first task.now.span.end list.old }
    requires others { OthersSettled c.0 task.now.taking task.now.problem.now task.now.span.first task.now.span.end list.old remains.old.box }
    requires bounded { (rule : Rule) → slice_get task.now.problem.now.constraints c.0 ≡ Some rule → IsBounded rule room remains.old.box }
    ensures narrowed { IsNarrowed task.now.taking task.now.problem.now task.now.from task.now.stop remains.old.box remains.new.box }
    ensures past { Follows remains.old remains.new }
    ensures list { IsListOf task.now.problem.now task.now.span.first task.now.span.end list.new }
    ensures answer { IsRevised result task.now.taking task.now.problem.now task.now.from task.now.stop task.now.span.first task.now.span.end list.old list.new remains.old.box remains.new.box }
{
    task.problem.known();
    let _ = task.problem.constraint(c);
    if bound_all(task, c, room, list, remains) {
        Revised::Changed
    } else {
        Revised::Stable
    }
}

// The same for a constraint in which no variable stands twice.
fn revise_apart(task: &Task, c: ConId, list: &mut WorkList, remains: &mut Remains) -> Revised
    requires c { c.0 < length task.now.problem.now.constraints }
    requires some { (rule : Rule) → slice_get task.now.problem.now.constraints c.0 ≡ Some rule → IsFalse (is_none_of (variables_of rule.args)) }
    requires apart { (rule : Rule) → slice_get task.now.problem.now.constraints c.0 ≡ Some rule → Distinct (variables_of rule.args) }
    requires inside { IsTrue (is_between task.now.span.first task.now.span.end c.0) }
    requires declared { IsTrue (is_box_of task.now.problem.now remains.old.box) }
    requires full { IsFalse (has_empty remains.old.box) }
    requires list { IsListOf task.now.problem.now task.now.span.first task.now.span.end list.old }
    requires others { OthersSettled c.0 task.now.taking task.now.problem.now task.now.span.first task.now.span.end list.old remains.old.box }
    ensures narrowed { IsNarrowed task.now.taking task.now.problem.now task.now.from task.now.stop remains.old.box remains.new.box }
    ensures past { Follows remains.old remains.new }
    ensures list { IsListOf task.now.problem.now task.now.span.first task.now.span.end list.new }
    ensures answer { IsRevised result task.now.taking task.now.problem.now task.now.from task.now.stop task.now.span.first task.now.span.end list.old list.new remains.old.box remains.new.box }
{
    task.problem.known();
    let rule = task.problem.constraint(c);
    match see(task.problem, task.taking, rule, remains.store()) {
        Seen::Quiet => Revised::Stable,
        Seen::Refuted => Revised::Lost,
        Seen::Bounded(room) => revise_bounded(task, c, room, list, remains),
        Seen::Advised(advice) => revise_advised(task, c, advice, list, remains),
        Seen::Nothing => revise_each(task, c, list, remains),
    }
}

/// Takes the ends that the constraint c of the span refutes and may take, each of its variables once. Where values went, all
/// constraints that have the variable wait, c itself among them unless it spares what is left.
pub(crate) fn revise(task: &Task, c: ConId, list: &mut WorkList, remains: &mut Remains) -> Revised
    requires inside { IsTrue (is_between task.now.span.first task.now.span.end c.0) }
    requires declared { IsTrue (is_box_of task.now.problem.now remains.old.box) }
    requires full { IsFalse (has_empty remains.old.box) }
    requires list { IsListOf task.now.problem.now task.now.span.first task.now.span.end list.old }
    requires others { OthersSettled c.0 task.now.taking task.now.problem.now task.now.span.first task.now.span.end list.old remains.old.box }
    ensures narrowed { IsNarrowed task.now.taking task.now.problem.now task.now.from task.now.stop remains.old.box remains.new.box }
    ensures past { Follows remains.old remains.new }
    ensures list { IsListOf task.now.problem.now task.now.span.first task.now.span.end list.new }
    ensures answer { IsRevised result task.now.taking task.now.problem.now task.now.from task.now.stop task.now.span.first task.now.span.end list.old list.new remains.old.box remains.new.box }
{
    task.problem.known();
    let _ = task.problem.constraint(c);
    let own = task.index.own(c);
    if own.is_empty() {
        return Revised::Stable;
    }
    if task.index.is_apart(c) {
        return revise_apart(task, c, list, remains);
    }
    revise_each(task, c, list, remains)
}
