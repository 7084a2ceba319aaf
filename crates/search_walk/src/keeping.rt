//! Nodes whose lines are kept: those whose position may be met again, and those below tuples that were tried first.
ghost use Rattle.std.specs.Prelude.{◌≡◌, ◌<◌, suc, length, IfOk, IfSome, OnOk, IsTrue};
ghost use Rattle.joins.specs.Joins.{game_of};
ghost use Rattle.search_box.specs.Entered.{IsEntered};
ghost use Rattle.search_walk.specs.Put.{IsBack};
ghost use Rattle.search_walk.specs.Told.{AsideAnswers, AsideStands, BelowFinished, EndsSo, IsBackBelow, IsBelow, KnownAnswers, KnownStands, NodeFinished};

use crate::stage::Stage;
use crate::walk::Walk;
use crate::writing::copied_from;
use joins::Found;
use model_levels::{Level, Levels};
use qc_model::ScopeId;
use search_kept::NodeEnd;
use std::alloc::AllocError;

/// A number of the node's position, in the first pass, where it may be met again. The first scope has one node.
pub(crate) fn position_of(
    levels: &Levels,
    cuts: bool,
    horizon: Option<ScopeId>,
    number: u8,
    walk: &Walk,
) -> Option<u64>
    requires scope { number < length levels.now.problem.now.scopes }
    requires here { IsEntered levels.now.problem.now number walk.now.remains }
{
    if !cuts || number == 0 {
        return None;
    }
    walk.known
        .position(levels.level(ScopeId(number)), horizon, &walk.remains)
}

/// The place of the node that is known for the position, in the first pass.
pub(crate) fn known_at(
    levels: &Levels,
    cuts: bool,
    horizon: Option<ScopeId>,
    number: u8,
    position: Option<u64>,
    walk: &Walk,
) -> Option<usize>
    requires scope { number < length levels.now.problem.now.scopes }
    requires here { IsEntered levels.now.problem.now number walk.now.remains }
    requires joins { game_of walk.now.joins ≡ levels.now.problem.now }
    ensures cuts { IfSome result (λ at. IsTrue cuts) }
    ensures within { IfSome result (λ at. at < length walk.now.known.nodes.items) }
    ensures stands { IfSome result (λ at. KnownStands levels.now.problem.now number horizon walk.now at) }
{
    if !cuts {
        return None;
    }
    let level = levels.level(ScopeId(number));
    walk.known
        .find(level, horizon, position, walk.left, &walk.remains)
}

/// The node of a scope that is known for the position, whose lines are copied.
pub(crate) fn put_known(
    levels: &Levels,
    cuts: bool,
    horizon: Option<ScopeId>,
    number: u8,
    at: usize,
    walk: &mut Walk,
) -> Result<Found, AllocError>
    requires joins { game_of walk.old.joins ≡ levels.now.problem.now }
    requires cuts { IsTrue cuts }
    requires within { at < length walk.old.known.nodes.items }
    requires stands { KnownStands levels.now.problem.now number horizon walk.old at }
    ensures told { IfOk result (λ found. KnownAnswers cuts levels.now.problem.now number horizon found walk.old walk.new) }
    ensures ended { IfOk result (λ found. EndsSo levels.now.problem.now number horizon found walk.old walk.new) }
    ensures back { OnOk result (IsBack levels.now.problem.now number walk.old walk.new) }
{
    let node = walk.known.node(at);
    walk.lines.put_copy(node.lines())?;
    walk.left = walk.left.saturating_sub(node.turns);
    walk.joins.hand_out(node.vector());
    let found = node.found;
    walk.known.tell_met(number);
    Ok(found)
}

/// Keeps the lines of a node from `start` on, in the first pass, where they can be of use again.
pub(crate) fn keep_node(
    levels: &Levels,
    cuts: bool,
    horizon: Option<ScopeId>,
    number: u8,
    position: Option<u64>,
    start: usize,
    end: NodeEnd,
    walk: &mut Walk,
) -> Result<(), AllocError>
    requires scope { number < length levels.now.problem.now.scopes }
    requires here { IsEntered levels.now.problem.now number walk.old.remains }
    requires joins { game_of walk.old.joins ≡ levels.now.problem.now }
    requires finished { IsTrue cuts → NodeFinished levels.now.problem.now number horizon end start walk.old }
    ensures remains { walk.new.remains ≡ walk.old.remains }
    ensures joins { walk.new.joins ≡ walk.old.joins }
    ensures left { walk.new.left ≡ walk.old.left }
    ensures lines { OnOk result (walk.new.lines ≡ walk.old.lines) }
{
    if !cuts || end.had >= 2_147_483_648 || position.is_none() || start > walk.lines.len() {
        return Ok(());
    }
    walk.known.tell_missed(number);
    let level = levels.level(ScopeId(number));
    let len = walk.lines.len() - start;
    if !walk.known.is_wanted(level, &walk.remains, end, len) {
        return Ok(());
    }
    let lines = copied_from(walk.alloc, &walk.lines, start)?;
    walk.known.keep(
        walk.alloc,
        level,
        horizon,
        position,
        &walk.remains,
        end,
        walk.joins.vector(),
        lines,
    )
}

/// The place of the node below the tuple that is complete, where its lines were kept aside when the tuple was tried.
pub(crate) fn aside_at(stage: &Stage, walk: &Walk) -> Option<usize>
    requires here { IsBelow stage.now walk.now.remains }
    requires joins { game_of walk.now.joins ≡ stage.now.level.now.problem.now }
    ensures cuts { IfSome result (λ at. IsTrue stage.now.cuts) }
    ensures within { IfSome result (λ at. at < length walk.now.aside.nodes.items) }
    ensures stands { IfSome result (λ at. AsideStands stage.now walk.now at) }
{
    if !stage.cuts || walk.aside.len() == 0 {
        return None;
    }
    let level = level_below(stage)?;
    walk.aside
        .find(level, stage.horizon, walk.left, &walk.remains)
}

/// The level of the scope after the stage's, where there is one.
fn level_below<'a>(stage: &Stage<'a, '_>) -> Option<&'a Level<'a>>
    ensures number { IfSome result (λ level. level.now.number ≡ suc stage.now.level.now.number) }
    ensures problem { IfSome result (λ level. level.now.problem.now ≡ stage.now.level.now.problem.now) }
{
    stage.level.problem.known();
    let number = stage.level.number + 1;
    if number as usize >= stage.levels.problem.scopes() {
        return None;
    }
    Some(stage.levels.level(ScopeId(number)))
}

/// The node below the tuple that is complete, whose lines were kept aside, and are copied.
pub(crate) fn put_aside(stage: &Stage, at: usize, walk: &mut Walk) -> Result<Found, AllocError>
    requires joins { game_of walk.old.joins ≡ stage.now.level.now.problem.now }
    requires cuts { IsTrue stage.now.cuts }
    requires within { at < length walk.old.aside.nodes.items }
    requires stands { AsideStands stage.now walk.old at }
    ensures told { IfOk result (λ found. AsideAnswers stage.now found walk.old walk.new) }
    ensures ended { IfOk result (λ found. EndsSo stage.now.level.now.problem.now (suc stage.now.level.now.number) stage.now.horizon found walk.old walk.new) }
    ensures back { OnOk result (IsBackBelow stage.now walk.old walk.new) }
{
    let node = walk.aside.node(at);
    walk.lines.put_copy(node.lines())?;
    walk.left = walk.left.saturating_sub(node.turns);
    walk.joins.hand_out(node.vector());
    Ok(node.found)
}

/// Keeps the lines from `start` on aside, those of the node below a tuple that was tried, where that is wanted.
pub(crate) fn keep_aside(
    stage: &Stage,
    is_wanted: bool,
    start: usize,
    end: NodeEnd,
    walk: &mut Walk,
) -> Result<(), AllocError>
    requires here { IsBelow stage.now walk.old.remains }
    requires joins { game_of walk.old.joins ≡ stage.now.level.now.problem.now }
    requires ended { IsTrue stage.now.cuts → BelowFinished stage.now end start walk.old }
    ensures remains { walk.new.remains ≡ walk.old.remains }
    ensures joins { walk.new.joins ≡ walk.old.joins }
    ensures left { walk.new.left ≡ walk.old.left }
    ensures lines { OnOk result (walk.new.lines ≡ walk.old.lines) }
{
    if !is_wanted || !stage.cuts || end.had >= 2_147_483_648 || start > walk.lines.len() {
        return Ok(());
    }
    let Some(level) = level_below(stage) else {
        return Ok(());
    };
    let len = walk.lines.len() - start;
    if !walk.aside.is_wanted(level, &walk.remains, end, len) {
        return Ok(());
    }
    let lines = copied_from(walk.alloc, &walk.lines, start)?;
    walk.aside.keep(
        walk.alloc,
        level,
        stage.horizon,
        &walk.remains,
        end,
        walk.joins.vector(),
        lines,
    )
}
