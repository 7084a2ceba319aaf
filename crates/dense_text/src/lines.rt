// Which lines may come where a line begins.
ghost use Rattle.std.specs.Prelude.{◌≡◌};
ghost use Rattle.dense_text.specs.Grammar.{may_give as may_give_there, may_begin as may_begin_there, may_limit as may_limit_there, may_end as may_end_there, may_step as may_step_there, may_give_up as may_give_up_there, may_range as may_range_there, may_skip as may_skip_there};
ghost use Rattle.dense_text.specs.States.{may as may_come};

use crate::parts::{Due, Form};

// Whether the line may come.
pub(crate) fn may(due: Due, form: Form) -> bool
    ensures { result ≡ may_come due form }
{
    match form {
        Form::Optimum | Form::Turns | Form::ValueOf(_) => false,
        Form::GivenLine => may_give(due),
        Form::NameLine | Form::AgainLine => may_begin(due),
        Form::HorizonLine => may_limit(due),
        Form::StuckLine | Form::GoalLine => may_end(due),
        Form::NoPlayLine => may_give_up(due),
        Form::CloseLine | Form::BoundLine | Form::ReplyLine => may_step(due),
        Form::EmptyLine | Form::BarredLine | Form::BestLine => may_step(due),
        Form::NextLine | Form::ChosenLine | Form::BranchLine => may_step(due),
        Form::RangeLine | Form::DotLine => may_range(due),
        Form::SkipLine | Form::OpenLine => may_skip(due),
    }
}

fn may_give(due: Due) -> bool
    ensures { result ≡ may_give_there due }
{
    match due {
        Due::Givens => true,
        Due::Node
        | Due::AfterName
        | Due::AfterHorizon
        | Due::AfterStep
        | Due::Case
        | Due::AfterRange
        | Due::Ended => false,
    }
}

fn may_begin(due: Due) -> bool
    ensures { result ≡ may_begin_there due }
{
    match due {
        Due::Givens | Due::Node => true,
        Due::AfterName
        | Due::AfterHorizon
        | Due::AfterStep
        | Due::Case
        | Due::AfterRange
        | Due::Ended => false,
    }
}

fn may_limit(due: Due) -> bool
    ensures { result ≡ may_limit_there due }
{
    match due {
        Due::Givens | Due::Node | Due::AfterName => true,
        Due::AfterHorizon | Due::AfterStep | Due::Case | Due::AfterRange | Due::Ended => false,
    }
}

fn may_end(due: Due) -> bool
    ensures { result ≡ may_end_there due }
{
    match due {
        Due::Givens | Due::Node | Due::AfterName | Due::AfterHorizon => true,
        Due::AfterStep | Due::Case | Due::AfterRange | Due::Ended => false,
    }
}

fn may_step(due: Due) -> bool
    ensures { result ≡ may_step_there due }
{
    match due {
        Due::Givens
        | Due::Node
        | Due::AfterName
        | Due::AfterHorizon
        | Due::AfterStep
        | Due::Case
        | Due::AfterRange => true,
        Due::Ended => false,
    }
}

fn may_give_up(due: Due) -> bool
    ensures { result ≡ may_give_up_there due }
{
    match due {
        Due::Givens | Due::Node | Due::AfterStep | Due::Case | Due::AfterRange => true,
        Due::AfterName | Due::AfterHorizon | Due::Ended => false,
    }
}

fn may_range(due: Due) -> bool
    ensures { result ≡ may_range_there due }
{
    match due {
        Due::Case => true,
        Due::Givens
        | Due::Node
        | Due::AfterName
        | Due::AfterHorizon
        | Due::AfterStep
        | Due::AfterRange
        | Due::Ended => false,
    }
}

fn may_skip(due: Due) -> bool
    ensures { result ≡ may_skip_there due }
{
    match due {
        Due::Case | Due::AfterRange => true,
        Due::Givens
        | Due::Node
        | Due::AfterName
        | Due::AfterHorizon
        | Due::AfterStep
        | Due::Ended => false,
    }
}
