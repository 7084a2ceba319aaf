//! When something is tried first at a node, and which value of a variable that is.
ghost use Rattle.std.specs.Prelude.{◌≡◌, ◌<◌, [], false, IfSome, IsTrue};
ghost use Rattle.qc_model.specs.Domains.{has_value, values_left};
ghost use Rattle.joins.specs.Joins.{game_of};
ghost use Rattle.joins.specs.Verdicts.{wishes_at};
ghost use Rattle.search_walk.specs.Aims.{IsSpan};
ghost use Rattle.search_walk.specs.Told.{GoesFrom, HasNoRival};

use crate::aim::{Aim, Worse, worse_than_found};
use crate::rival::is_outdone;
use crate::stage::Stage;
use crate::walk::Walk;
use joins::Joins;
use model_levels::Level;
use qc_model::{ScopeId, VarId};
use search_advice::{Advice, Sought};
use search_box::SearchBox;

/// How many turns a tree that ended outdone has to have taken, so that it is worth to try its last tuple alone.
const LONG_TREE: u64 = 3;

/// How many tuples are tried at a node of a scope that another can outdo: a case of each is little beside all cases.
const MOST_TRIES: usize = 3;

/// Whether a tuple is tried first at a node. Without cuts none is.
pub(crate) fn is_advised(stage: &Stage, walk: &Walk) -> bool
    requires joins { game_of walk.now.joins ≡ stage.now.level.now.problem.now }
    ensures { IsTrue result → IsTrue stage.now.cuts }
{
    stage.cuts && !is_free(stage, &walk.joins) && walk.advice.is_asked(stage.level)
}

/// Whether the values of the scope may be gone into in any order: in the first pass, where one leaf settles it, and no rival counts
/// what the others come to.
pub(crate) fn is_free(stage: &Stage, joins: &Joins) -> bool
    requires joins { game_of joins.now ≡ stage.now.level.now.problem.now }
    ensures cuts { IsTrue result → IsTrue stage.now.cuts }
    ensures alone { IsTrue result → HasNoRival stage.now }
    ensures nothing { IsTrue result → wishes_at stage.now.level.now.problem.now stage.now.level.now.number ≡ [] }
{
    stage.cuts && stage.rival.is_none() && joins.wishes(ScopeId(stage.level.number)).is_empty()
}

/// Whether the own tree is gone into: without `tries` always, and with them where a tuple is chosen. Where its values may go in any
/// order it is chosen which go first.
pub(crate) fn is_ready(
    tries: bool,
    is_free: bool,
    level: &Level,
    remains: &SearchBox,
    advice: &mut Advice,
) -> bool
    requires game { remains.now.game ≡ level.now.problem.now }
    ensures tries { result ≡ false → IsTrue tries }
{
    if tries {
        return advice.choose(level, remains);
    }
    if is_free {
        advice.order(level, remains);
    }
    true
}

/// The value of x that is gone into before all others, where that isn't the first one.
pub(crate) fn value_ahead(stage: &Stage, x: VarId, walk: &Walk) -> Option<i64>
    requires var { x.0 < stage.now.level.now.stop }
    requires going { GoesFrom stage.now x.0 walk.now.remains }
    requires joins { game_of walk.now.joins ≡ stage.now.level.now.problem.now }
    ensures cuts { IfSome result (λ v. IsTrue stage.now.cuts) }
    ensures alone { IfSome result (λ v. HasNoRival stage.now) }
    ensures nothing { IfSome result (λ v. wishes_at stage.now.level.now.problem.now stage.now.level.now.number ≡ []) }
    ensures turn { IfSome result (λ v. 0 < walk.now.left) }
    ensures value { IfSome result (λ v. IsTrue (has_value (values_left walk.now.remains.store.box x.0) v)) }
{
    walk.remains.known();
    if walk.left == 0 || !is_free(stage, &walk.joins) {
        return None;
    }
    let value = walk.advice.value_first(stage.level, x, &walk.remains)?;
    if value == walk.remains.first(x) {
        return None;
    }
    Some(value)
}

/// How many tuples are tried at most.
pub(crate) fn most_tries(stage: &Stage) -> usize {
    if stage.rival.is_some() { MOST_TRIES } else { 1 }
}

/// The advised value of x, where it is left and the case may be gone into.
pub(crate) fn value_to_try(stage: &Stage, x: VarId, walk: &Walk) -> Option<i64>
    requires var { x.0 < stage.now.level.now.stop }
    requires going { GoesFrom stage.now x.0 walk.now.remains }
    ensures cuts { IfSome result (λ v. IsTrue stage.now.cuts) }
    ensures turn { IfSome result (λ v. 0 < walk.now.left) }
    ensures value { IfSome result (λ v. IsTrue (has_value (values_left walk.now.remains.store.box x.0) v)) }
{
    walk.remains.known();
    if !stage.cuts {
        return None;
    }
    if walk.left == 0 {
        return None;
    }
    walk.advice.value(stage.level, x, &walk.remains)
}

/// Whether the own tree, which took turns since so many were left, would be shorter where the tuple that ended it is tried
/// alone.
pub(crate) fn is_worth_again(stage: &Stage, had: u64, walk: &Walk) -> bool
    requires { game_of walk.now.joins ≡ stage.now.level.now.problem.now }
    ensures { IsTrue result → IsTrue stage.now.cuts }
{
    let number = ScopeId(stage.level.number);
    stage.cuts
        && had.saturating_sub(walk.left) > LONG_TREE
        && !walk.joins.is_settled(number)
        && is_outdone(stage.rival, &walk.joins, number)
}

/// The values that are worse than one that was found. Without cuts none is looked for.
pub(crate) fn first_worse(stage: &Stage, best: Option<i64>) -> Option<Worse>
    ensures cuts { IfSome result (λ w. IsTrue stage.now.cuts) }
    ensures span { IfSome result (λ w. IsSpan stage.now.level.now.problem.now stage.now.level.now.number w) }
{
    if !stage.cuts {
        return None;
    }
    worse_than_found(stage.aim, best)
}

/// What the own tree seeks, by what it aims at.
pub(crate) fn sought(aim: Option<Aim>) -> Option<Sought> {
    let aim = aim?;
    Some(Sought {
        sense: aim.sense,
        variable: aim.variable,
    })
}
