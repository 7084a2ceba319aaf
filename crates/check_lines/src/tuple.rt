//! Whether the tuple of a scope is allowed, and whether the goal holds.
ghost use Rattle.std.specs.Prelude.{◌≡◌, ◌≤◌, ◌-◌, true, false, suc, length, take, drop, List, IsSome};
ghost use Rattle.std.specs.List.{list_all};
ghost use Rattle.qc_model.specs.Domains.{has_empty};
ghost use Rattle.qc_model.specs.Game.{allows};
ghost use Rattle.qc_model.specs.Holds.{holds_on};
ghost use Rattle.qc_model.specs.Valid.{is_number};
ghost use Rattle.model_arguments.specs.Asked.{is_box_of};
ghost use Rattle.check_lines.specs.declared.open.Open.{Open};
ghost use Rattle.check_lines.specs.Known.{HasRead, AreBranchesRead};
ghost use Rattle.check_box.specs.Placed.{IsAt, values_to};
ghost use Rattle.check_lines.specs.Tuples.{tuple_of, is_tuple};

use crate::reads::Reads;
use check_assignment::Assignment;
use check_box::Remains;
use model_arguments::Span;
use model_levels::{Level, Levels};
use qc_model::ScopeId;

/// Whether the constraints of the span all hold on the values. Many scopes have none, so that this is told at once.
#[inline(always)]
fn span_holds(values: &mut Assignment, span: Span) -> bool
    requires { span.end ≤ length values.old.game.constraints }
    ensures holds { result ≡ list_all (λ c. holds_on c values.old.items) (take (span.end - span.first) (drop span.first values.old.game.constraints)) }
    ensures same { values.new ≡ values.old }
{
    if span.end <= span.first {
        return true;
    }
    values.all_hold(span)
}

/// Whether the tuple of the scope is allowed; None where a variable has no value, or one of the scope has several. The
/// values of the variables before the scope stand in the first places; where there is an answer, those of the scope
/// stand after them. Only what isn't known to stand is read.
#[inline(always)]
pub(crate) fn tuple_allowed(
    level: &Level,
    remains: &Remains,
    values: &mut Assignment,
    reads: &mut Reads,
) -> Option<bool>
    requires declared { is_box_of level.now.problem.now remains.now.box ≡ true }
    requires game { values.old.game ≡ level.now.problem.now }
    requires each { length values.old.items ≡ length level.now.problem.now.variables }
    requires numbers { list_all is_number values.old.items ≡ true }
    requires places { length reads.old.marks.items ≡ length level.now.problem.now.variables }
    requires read { HasRead remains.now values.old.items reads.old }
    requires placed { has_empty remains.now.box ≡ false → IsAt level.now.problem.now level.now.number values.old.items remains.now.box }
    ensures tuple { result ≡ tuple_of level.now.problem.now level.now.number remains.now.box }
    ensures kept { values_to level.now.problem.now level.now.number values.new.items ≡ values_to level.now.problem.now level.now.number values.old.items }
    ensures placed { IsSome result → IsAt level.now.problem.now (suc level.now.number) values.new.items remains.now.box }
    ensures read { HasRead remains.now values.new.items reads.new }
    ensures branches { (fs : List Open) → AreBranchesRead remains.now values.old.items reads.old fs → AreBranchesRead remains.now values.new.items reads.new fs }
    ensures places { length reads.new.marks.items ≡ length reads.old.marks.items }
    ensures game { values.new.game ≡ values.old.game }
    ensures each { length values.new.items ≡ length values.old.items }
    ensures numbers { list_all is_number values.new.items ≡ true }
{
    level.problem.known();
    if remains.is_empty() {
        return None;
    }
    if !reads.read_on(remains.store(), level.stop, values) {
        return None;
    }
    Some(span_holds(values, level.constraints))
}

/// Whether the goal holds on the values.
pub(crate) fn goal_is_met(levels: &Levels, values: &mut Assignment) -> bool
    requires game { values.old.game ≡ levels.now.problem.now }
    requires each { length values.old.items ≡ length levels.now.problem.now.variables }
    ensures holds { result ≡ allows levels.now.problem.now (length levels.now.problem.now.scopes) values.old.items }
    ensures same { values.new ≡ values.old }
{
    levels.problem.known();
    let goal = ScopeId(levels.problem.scopes() as u8);
    values.all_hold(levels.constraints_between(goal, goal))
}

/// Whether it is known that the tuple is allowed, or that it isn't.
pub(crate) fn says(found: Option<bool>, allowed: bool) -> bool
    ensures { result ≡ is_tuple allowed found }
{
    match found {
        None => false,
        Some(holds) => { if allowed { holds } else { !holds } }
    }
}
