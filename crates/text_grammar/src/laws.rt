//! The laws of the grammar, each the contract of a function that does nothing.

ghost use Rattle.text_grammar.specs.Laws.{IsOneProblem, ProblemStopsNowhere, OthersStop, StopIsOne};

/// A text can be read in one way at most: lexemes that are those of a problem are those of one list of
/// items alone.
pub fn texts_are_read_in_one_way()
    ensures { IsOneProblem }
{}

/// A text is a problem, or else there is one place where it stops being the beginning of one. A problem
/// has no such place.
pub fn others_stop_at_one_place()
    ensures nowhere { ProblemStopsNowhere }
    ensures somewhere { OthersStop }
    ensures once { StopIsOne }
{}
