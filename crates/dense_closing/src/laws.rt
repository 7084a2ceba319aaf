// The laws, each the contract of a function without parameters.
ghost use Rattle.dense_closing.specs.Laws.{ClosedByAll, GreatestIsOne, EndsKeepClosed, EndsReachGreatest, EndsShowNone, EndsShowHopeless, RefutedEndMayGo, EndsAreLegal, EndsAreUnmarked, ClosingTakesEnds, ClosingFinds, ClosedStaysFair, NoneBlocks, CloseIsPlaced, CloseReads, EmptyStands, HorizonStands, DenseIsTrue};

/// Where constraints may take values of all their variables, a box is closed as it is in `qc_model`.
pub fn closed_by_all_is_closed()
    ensures { ClosedByAll }
{}

/// Within a box there is at most one greatest closed box, whichever values constraints may take.
pub fn greatest_is_one()
    ensures { GreatestIsOne }
{}

/// In a valid game, steps that each take an end, by a constraint that may take it and has a variable, leave every closed box
/// within. So where they come to a closed one, it is the greatest within the first; and where they empty a domain, or leave a
/// box that a constraint refutes which may not take all its variables, there is none. Of legal removals inside a domain none of
/// this is so, nor of those by a constraint without variables that fails: it refutes every box, though it has no end to refute.
pub fn ends_lead_to_it()
    ensures keep { EndsKeepClosed }
    ensures reach { EndsReachGreatest }
    ensures none { EndsShowNone }
    ensures hopeless { EndsShowHopeless }
{}

/// In a valid game, where no domain is empty, an end of its own variable that a constraint refutes may be taken by such a step, if
/// the constraint may take it at all.
pub fn refuted_ends_may_go()
    ensures { RefutedEndMayGo }
{}

/// Steps that take ends are legal, and have no marks.
pub fn closing_is_legal()
    ensures legal { EndsAreLegal }
    ensures unmarked { EndsAreUnmarked }
{}

/// In a valid game the steps that closing stands for take ends, and come to the greatest closed box, or show that there is none.
pub fn closing_leads_to_it()
    ensures ends { ClosingTakesEnds }
    ensures finds { ClosingFinds }
{}

/// In a valid game a fair box stays fair where it becomes the greatest that is closed for the constraints in force, whatever they
/// may take, so no play goes that could matter; and where no box within is closed for the scopes from i to K, no play in the box
/// passes them all.
pub fn closing_tells_of_plays()
    ensures fair { ClosedStaysFair }
    ensures blocks { NoneBlocks }
{}

/// In a valid game, where there is a greatest box that is closed for the constraints in force, a line `c` and the lines after it
/// are in place, and come to the same, as the lines after it in that box. An end `e` is in place at a scope exactly where no box
/// within is closed for the constraints in force. A horizon is in place at a scope exactly where it lies ahead, nearer than the
/// one in force, and no box within is closed for the constraints of the scopes up to it.
pub fn lines_mean_closing()
    ensures close { CloseIsPlaced }
    ensures reads { CloseReads }
    ensures empty { EmptyStands }
    ensures horizon { HorizonStands }
{}

/// What a dense tree that proves its outcome says of a valid game is so: where it states True, the game is won, and the
/// strategy read from the tree that it stands for is optimal; where it states False, the game isn't won, and the
/// counterstrategy read from that tree wins.
pub fn dense_outcomes_are_true()
    ensures { DenseIsTrue }
{}
