// The laws, each the contract of a function without parameters.
ghost use Rattle.dense_meaning.specs.BoxLaws.{Restricting, CitedAnywhere, Splitting, OwnSplitting, Weakening, BestIsBound, LostIsBounded, OwnMovesAnywhere};
ghost use Rattle.dense_meaning.specs.PlayLaws.{JointRemoval, RemovalThrough, OwnRemoval, RefutedIsOnNoPlay, RemovalInForce, ClosingKeepsPlays, LostByPlays, EmptyIsLost, LostByClosing, LostLater, RootHasAll, MoveHasAll, SmallerHasAll};
ghost use Rattle.dense_meaning.specs.ScopeLaws.{Postponing, PostponingLost, EnteringLost, EnteringHeld, FullHasValues, TargetIsLeft, OwnerReaches, ReachesAtLast, AnsweringByLeaves, ChoosingByParts, PartIsMark, GoalLost, GoalWon, PlayerStuck, OpponentStuck};
ghost use Rattle.dense_meaning.specs.PositionLaws.{StrictSays, StrictLies, AllSays, SaysOfAll, LostIsNotWon, LostInDeclared, ExactIsWon};

/// What is so in a box is so in each smaller one. So what was found once, with variables of earlier scopes
/// open, may be cited in each box of declared values in which the variables that kept a value have it.
pub fn boxes_may_shrink()
    ensures smaller { Restricting }
    ensures cited { CitedAnywhere }
{}

/// What is so with either of two lists of values left to a variable of an earlier scope is so with both. At a
/// scope of the player so may the values of its own variables be split, for verdicts against him.
pub fn values_may_be_split()
    ensures earlier { Splitting }
    ensures own { OwnSplitting }
{}

/// A bound may be replaced by one that is no better, a best vector counts as a bound by its first value, and
/// where all is lost any bound holds.
pub fn verdicts_may_weaken()
    ensures bounds { Weakening }
    ensures best { BestIsBound }
    ensures lost { LostIsBounded }
{}

/// A scope of the player may go on with several values left. What is bounded for all of them, in the list that is
/// demanded of the scope, is so for the scope, and a best vector counts as a bound; after a scope with a condition
/// the nodes' own lists begin with that condition, and tell nothing of this. What is lost for all of them is
/// lost, whatever is demanded.
pub fn choices_may_wait()
    ensures same_list { Postponing }
    ensures lost { PostponingLost }
{}

/// A scope of the opponent is lost where, from each position in the box, he has an allowed tuple into a part of
/// the box that is lost, and that is as wide as the box past the scope. He has one into the box itself where his
/// restriction holds of all values in it and some values of the scope lead on in it, as they do in a box of
/// declared values with some for each variable.
pub fn lost_parts_are_entered()
    ensures lost { EnteringLost }
    ensures held { EnteringHeld }
    ensures values { FullHasValues }
{}

/// Values that may go: what speaks against the player in the smaller box does so in the box. Where the opponent
/// is never stuck, those that are on no whole play; where he isn't in the next scopes, as where these are the
/// player's, those of variables up to there that are on no play through these scopes; and at a scope of the
/// opponent, stuck or not, those of its own variables that no allowed tuple has. In a valid game, in a box of
/// declared values, no play through some scopes has values with which one of their constraints refutes the box;
/// so a constraint in force at a scope takes such values, of earlier variables too at a scope of the player, of
/// its own alone at one of the opponent; and each whole play lies in every box that has all closed boxes, closed
/// for the constraints of all scopes from there on and of the goal.
pub fn values_may_go()
    ensures whole { JointRemoval }
    ensures through { RemovalThrough }
    ensures own { OwnRemoval }
    ensures refuted { RefutedIsOnNoPlay }
    ensures in_force { RemovalInForce }
    ensures closed { ClosingKeepsPlays }
{}

/// Where the opponent isn't stuck in some scopes, all is lost where no values in the box go through them, or to
/// the goal: as where a variable of theirs, or of an earlier scope, has no value left, and in a valid game, in a
/// box of declared values, where he is never stuck and no box within is closed for their constraints. What is
/// lost after these scopes is lost before them.
pub fn lost_by_plays()
    ensures none { LostByPlays }
    ensures empty { EmptyIsLost }
    ensures closing { LostByClosing }
    ensures after { LostLater }
{}

/// A scope whose restriction looks at its own variables alone has an allowed tuple at each position where it
/// has one at some.
pub fn moves_may_go_anywhere()
    ensures { OwnMovesAnywhere }
{}

/// Of targets that are variables which a scope sees: of a scope before the next one of the opponent. No strategy
/// in the box gives the first target of a list a value that the box doesn't leave to it. And where the owner of a
/// condition reaches a value at each position in the box, as the last scope does by a tuple with which its
/// restriction and the goal hold there, values of the condition's variable that are worse may go, for a verdict
/// against the player.
pub fn targets_are_bounded()
    ensures left { TargetIsLeft }
    ensures reached { OwnerReaches }
    ensures at_last { ReachesAtLast }
{}

/// What leaves come to. At a scope of the opponent: what the table of verdicts concludes at each position in
/// the box, where each leaf's tuple is allowed at each, its verdict speaks against the player, and the leaves have
/// all allowed tuples, each once, unless one is skipped; a least or a greatest comes last in the list. At a scope
/// of the player, at one position: what the table concludes, where a part of his choices that is bounded counts
/// as a mark and one that is lost as nothing, and each choice is at a leaf unless one is left out.
pub fn leaves_conclude()
    ensures answers { AnsweringByLeaves }
    ensures choices { ChoosingByParts }
    ensures marks { PartIsMark }
{}

/// Where play ends: at the goal, where it holds nowhere in the box, or throughout it with one vector; and where
/// an owner is stuck at each position, the opponent with the same numbers for the list at each, in which a least
/// or a greatest comes last. What a position is worth against an opponent who is stuck may depend on open
/// variables.
pub fn play_ends()
    ensures goal_lost { GoalLost }
    ensures goal_won { GoalWon }
    ensures player { PlayerStuck }
    ensures opponent { OpponentStuck }
{}

/// From boxes to the game and back. What a certificate tree without open variables says of a node holds here
/// too, and where the domains past the block are the declared ones both speak of the same strategies. What is so
/// of all optimal strategies is so of those in a box; where the opponent is never stuck and the box has all plays
/// of the position, what is so in the box is so of all. A position that is lost there, or in the declared
/// domains, isn't won; one that is exact, in whatever box, is.
pub fn verdicts_tell_of_positions()
    ensures strict { StrictSays }
    ensures strict_lies { StrictLies }
    ensures less { AllSays }
    ensures all { SaysOfAll }
    ensures lost { LostIsNotWon }
    ensures declared { LostInDeclared }
    ensures exact { ExactIsWon }
{}

/// Boxes that have all plays of a position are handed on: the declared domains at the root, to each move, and
/// to each box that keeps the plays.
pub fn boxes_keep_all_plays()
    ensures root { RootHasAll }
    ensures move_on { MoveHasAll }
    ensures smaller { SmallerHasAll }
{}
