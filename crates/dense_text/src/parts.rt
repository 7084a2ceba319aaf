// What is read of a piece of a text before all of it is read.
use crate::piece::Tuple;

// The pieces by what they begin with: the lines by their letters, what comes after a word of the head, and values.
#[derive(Clone, Copy)]
pub(crate) enum Form {
    Optimum,
    Turns,
    ValueOf(Tuple),
    GivenLine,
    NameLine,
    HorizonLine,
    StuckLine,
    GoalLine,
    AgainLine,
    NoPlayLine,
    CloseLine,
    BoundLine,
    ReplyLine,
    EmptyLine,
    BarredLine,
    BestLine,
    NextLine,
    ChosenLine,
    BranchLine,
    RangeLine,
    SkipLine,
    OpenLine,
    DotLine,
}

// The words of the first two lines.
#[derive(Clone, Copy)]
pub(crate) enum Word {
    Name,
    True,
    False,
    Open,
}

// Where a line begins, or the text has ended.
#[derive(Clone, Copy)]
pub(crate) enum Due {
    // after the head, or a given tuple: another one, or the root
    Givens,
    // a node
    Node,
    // a node, of which it was said that it has a name
    AfterName,
    // a node, whose horizon was told
    AfterHorizon,
    // a step of a scope's own tree was told: another one, or an end
    AfterStep,
    // a case of the innermost branch, or the end of its cases
    Case,
    // a case, of which it was told how far it goes
    AfterRange,
    // nothing
    Ended,
}
