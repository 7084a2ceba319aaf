// The laws, each the contract of a function without parameters.
ghost use Rattle.model_table.specs.Laws.{RefutedHasNone, RefutedStays, SingleIsExact, ValidIsOrdered, ProductsLieWithin, ProductsReachEnds, QuotientsLieWithin, QuotientsReachEnds, RemaindersLieWithin, RemaindersReachEnds, AbsolutesLieWithin, AbsolutesReachEnds, CrowdsByEnds, CrowdsRepeat};

/// What a constraint of a valid game refutes: a box with no declared values that satisfy it, and
/// every smaller box without an empty domain; of boxes of single values exactly those on which it
/// doesn't hold.
pub fn refuted()
    ensures has_none { RefutedHasNone }
    ensures stays { RefutedStays }
    ensures single { SingleIsExact }
{}

/// A valid game is in order: each constraint sees only variables of its own scope and earlier ones,
/// each declared domain has a value, and the goal has no variables of its own.
pub fn valid_is_ordered()
    ensures { ValidIsOrdered }
{}

/// The ranges of products, quotients, remainders and absolute values hold each result of members.
/// They are the least ranges that do; that of a remainder is where the dividend may be 0.
pub fn ranges()
    ensures products { ProductsLieWithin }
    ensures product_ends { ProductsReachEnds }
    ensures quotients { QuotientsLieWithin }
    ensures quotient_ends { QuotientsReachEnds }
    ensures remainders { RemaindersLieWithin }
    ensures remainder_ends { RemaindersReachEnds }
    ensures absolutes { AbsolutesLieWithin }
    ensures absolute_ends { AbsolutesReachEnds }
{}

/// Items that are to differ: a crowd between any two numbers is found at the ends of items, and
/// crowded numbers aren't all different.
pub fn crowds()
    ensures by_ends { CrowdsByEnds }
    ensures repeat { CrowdsRepeat }
{}
