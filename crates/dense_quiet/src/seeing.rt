//! What one reading of a constraint tells.
ghost use Rattle.qc_model.specs.Arguments.{variables_of};
ghost use Rattle.qc_model.specs.Lists.{Distinct};
ghost use Rattle.model_arguments.specs.Asked.{IsAsked};
ghost use Rattle.dense_closing.specs.Takes.{Takes};
ghost use Rattle.dense_quiet.specs.Advice.{SeenTells};
ghost use Rattle.dense_quiet.specs.Slack.{RoomTells, HasRoom};
ghost use Rattle.dense_quiet.specs.Taking.{takes_of};

use crate::differing::{Sight, look};
use crate::guessing::gives_guess;
use crate::quiet::is_quiet;
use crate::slack::{Room, is_short, slack_of};
use crate::stretch::Stretch;
use crate::taking::Taking;
use fd_store::Store;
use qc_model::{Constraint, Pred, Problem};

/// What was seen of a constraint that isn't quiet, which tells how far its variables can go: the room of a sum that is to be a number;
/// numbers that some items fill where all are to differ; or nothing that a guess by its arguments wouldn't tell.
#[derive(Clone, Copy)]
pub enum Advice {
    Room(Room),
    Filled(Stretch),
    Ends,
}

/// What one reading tells: that the constraint refutes neither the box nor an end of a variable that it may take; or that it refutes the
/// box; or that it is a sum that is to be at most a number, and how far it is from it; or how far its variables can go; or nothing.
#[derive(Clone, Copy)]
pub enum Seen {
    Quiet,
    Refuted,
    Bounded(i64),
    Advised(Advice),
    Nothing,
}

// Of a sum with this room.
fn seen_of_sum(rule: &Constraint, room: Room, store: &Store) -> Seen
    requires tells { RoomTells rule.now room store.now.box }
    requires fits { HasRoom rule.now room.under store.now.box }
    ensures { (takes : Takes) → SeenTells result takes rule.now store.now.box }
{
    if is_short(room) {
        return Seen::Refuted;
    }
    match rule.pred {
        Pred::IntLinLe => Seen::Bounded(room.under),
        _ => Seen::Advised(Advice::Room(room)),
    }
}

// Of a constraint in which no variable stands twice, by the ends of what is left to its arguments.
fn seen_by_ends(problem: &Problem, taking: Taking, rule: &Constraint, store: &Store) -> Seen
    requires asked { IsAsked problem.now rule.now store.now.box }
    requires apart { Distinct (variables_of rule.now.args) }
    ensures { SeenTells result (takes_of taking problem.now) rule.now store.now.box }
{
    if is_quiet(problem, taking, rule, store) {
        return Seen::Quiet;
    }
    if gives_guess(rule) {
        Seen::Advised(Advice::Ends)
    } else {
        Seen::Nothing
    }
}

// The same where that is no sum that a number bounds.
fn seen_of_other(problem: &Problem, taking: Taking, rule: &Constraint, store: &Store) -> Seen
    requires asked { IsAsked problem.now rule.now store.now.box }
    requires apart { Distinct (variables_of rule.now.args) }
    ensures { SeenTells result (takes_of taking problem.now) rule.now store.now.box }
{
    match look(problem, rule, store) {
        Sight::Quiet => Seen::Quiet,
        Sight::Crowded => Seen::Refuted,
        Sight::Filled(s) => Seen::Advised(Advice::Filled(s)),
        Sight::Unknown => seen_by_ends(problem, taking, rule, store),
    }
}

/// What one reading tells of a constraint in which no variable stands twice.
pub fn see(problem: &Problem, taking: Taking, rule: &Constraint, store: &Store) -> Seen
    requires asked { IsAsked problem.now rule.now store.now.box }
    requires apart { Distinct (variables_of rule.now.args) }
    ensures { SeenTells result (takes_of taking problem.now) rule.now store.now.box }
{
    let slack = slack_of(problem, taking, rule, store);
    if slack.roomy {
        return Seen::Quiet;
    }
    if slack.sum {
        return seen_of_sum(rule, slack.room, store);
    }
    seen_of_other(problem, taking, rule, store)
}
