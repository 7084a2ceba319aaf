//! The laws, each the contract of a function that does nothing.
//!
//! The player is the one who sets prices or defences, in the existential scopes; the opponent
//! answers in the universal ones. Each law is stated for a position: the scopes that are left, the
//! number of the first of them, and the values chosen so far.

ghost use Rattle.model_laws.specs.WinningLaws.{WonByStrategy, LostByCounter, Decided, OptimalIsStrategy, LostByOneReply, BestExists, BestIsOne, OptimumIsOne, OptimumExists, ComputedAreOptimal};
ghost use Rattle.model_laws.specs.UniversalLaws.{AnyFamily, BestOfBranches, BestOfLeaves, FoldsKeepOrder, FoldBounds, BoundOfLeaves, GreatestBounds, LeastBounds, MovesDiffer, ListsAreVisible, ListsAreOwn, VisibleIsOwn, BottlenecksAreLast};
ghost use Rattle.model_laws.specs.ExistentialLaws.{PlainChoice, OptimisingChoice, OwnValue, BestChoice, HeldByBest, HeldByBound};
ghost use Rattle.model_laws.specs.VerdictLaws.{UniversalMeans, ExistentialMeans, OwnIsFound, ChoicesMean, PlainPartMeans, GoalMeans, StuckPlayer, StuckOpponent};

/// Either there is a plan that wins whatever the opponent does, and then there is a best one, or the
/// opponent has a plan that no choice of yours escapes: never neither, never both. What a plan is
/// worth at best is one number, so an optimum that you are told is the optimum, whoever computed it.
pub fn who_wins()
    ensures won { WonByStrategy }
    ensures keeps_rules { OptimalIsStrategy }
    ensures lost { LostByCounter }
    ensures one_reply { LostByOneReply }
    ensures decided { Decided }
    ensures best { BestExists }
    ensures optimum { OptimumIsOne }
    ensures has_optimum { OptimumExists }
{}

/// The optimal plans of a game are finitely many and can be computed, move by move. So a small game
/// can be settled by listing all of them.
pub fn finitely_many()
    ensures { ComputedAreOptimal }
{}

/// Where the opponent moves, being prepared as well as possible means being so against each of its
/// moves, one by one. What that is worth is the sum, the least or the greatest of what each answer
/// is worth, and there is only one such best. Where several figures are asked for, the sums come
/// first: a sum is as good as can be only where each answer is, so the next figure is taken over
/// answers that are.
pub fn universal_positions()
    ensures any_family { AnyFamily }
    ensures best { BestOfBranches }
    ensures one { BestIsOne }
{}

/// Where none of the branches gets better, the sum, the least or the greatest over them doesn't
/// either. So you lose nothing by answering each move of the opponent as well as you can.
pub fn folds_keep_order()
    ensures { FoldsKeepOrder }
{}

/// What the opponent's moves can be worth at best limits what your choice can be worth. For the
/// greatest loss, or the least gain, knowing some of the moves is enough.
pub fn universal_bounds()
    ensures all_branches { FoldBounds }
    ensures greatest { GreatestBounds }
    ensures least { LeastBounds }
{}

/// The opponent's moves may be looked at in any order: neither the best nor a bound depends on it.
/// In a valid game no move is counted twice.
pub fn branches_in_any_order()
    ensures best { BestOfLeaves }
    ensures bound { BoundOfLeaves }
    ensures differ { MovesDiffer }
{}

/// In a valid game each scope is only asked for what it can tell: the values chosen before it, and
/// at a scope of the opponent the folds over its own branches, of which the least or the greatest of
/// something comes last.
pub fn lists_are_visible()
    ensures lists { ListsAreVisible }
    ensures own { ListsAreOwn }
    ensures visible_is_own { VisibleIsOwn }
    ensures bottlenecks { BottlenecksAreLast }
{}

/// Where you choose, or a follower does, the owner's own wish comes first, and ties are left to those
/// who moved before. So a follower that doesn't care takes what suits the leader, and a leader can
/// rely on a choice once no other one, after the best play that follows it, is better.
pub fn existential_positions()
    ensures plain { PlainChoice }
    ensures optimising { OptimisingChoice }
    ensures own { OwnValue }
    ensures best { BestChoice }
    ensures held_by_best { HeldByBest }
    ensures held_by_bound { HeldByBound }
{}

/// What is concluded from the opponent's moves, looked at in any order, some of them perhaps skipped
/// or known by a bound alone, is true of the game.
pub fn universal_verdicts()
    ensures { UniversalMeans }
{}

/// What is concluded from your choices, looked at in any order, some of them perhaps skipped, known by
/// a bound alone or cut off as no better than a mark, is true of the game. A value that is stated for
/// your condition is what every optimal plan gives you.
pub fn existential_verdicts()
    ensures choices { ChoicesMean }
    ensures position { ExistentialMeans }
    ensures part { PlainPartMeans }
    ensures own { OwnIsFound }
{}

/// At the end of a line of play all is settled: the goal holds or you have lost, and whoever has no
/// allowed move has lost. Against an opponent without a move, the sum is 0, and the least and the
/// greatest are the number written after `else`.
pub fn ends_of_play()
    ensures goal { GoalMeans }
    ensures stuck_player { StuckPlayer }
    ensures stuck_opponent { StuckOpponent }
{}
