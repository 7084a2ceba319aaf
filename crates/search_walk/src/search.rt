//! Goes over the values that are left, one variable after the other, and writes a line for each step.
//!
//! The walk's box has the values left on the way down. It is closed where a scope's own tree begins and after each value
//! that is taken, and undone where the part is left, so that after each part it is as before. A case is gone into only
//! where the box is closed, and a node looks ahead for a horizon before its own tree.
//!
//! The walk's joins have what was seen in the node of each scope on the way: a scope's join is cleared where its node
//! begins, told each leaf, and asked at the end what the node comes to.
//!
//! Where a scope of the player optimises a variable first, each value of it that is worse than the incumbent's is given up
//! by a bound where a case is gone into. So what the bounds leave out is beaten by what was found.
//!
//! Where the best value of that variable was looked for before, all values that are worse than the one found are given up first.
//! Nothing has beaten them then, so such a tree stands only where it turns out sure what the node comes to.
//!
//! In the first pass a node's own tree begins with a try of one tuple, which an advice names: where no other counts after it,
//! all other values are skipped; where some do, its lines are taken back, and the values are gone over as ever.
//!
//! Where one leaf settles the scope and nothing else counts, no tuple is tried so: each branch begins with the advised value. Where
//! that settles the scope the others are skipped. Where it doesn't, its lines wait until those of the values before it stand, since
//! a certificate has its cases in order.
//!
//! Where a leaf settles its scope, so that no other leaf changes what the node comes to, the cases after it are left
//! out, and the join isn't told of them. They are left out too where the leaves of a scope of the opponent give a bound that
//! the incumbent of the scope right above beats. Where no turn is left the cases that remain are left open.
ghost use Rattle.std.specs.Prelude.{◌≡◌, ◌≤◌, ◌<◌, [], suc, length, false, IfErr, IfOk, IfSome, OnOk, IsTrue, IsFalse};
ghost use Rattle.qc_model.specs.Domains.{has_value, is_single, values_left};
ghost use Rattle.qc_model.specs.Game.{is_of_scope};
ghost use Rattle.joins.specs.Joins.{game_of};
ghost use Rattle.joins.specs.Verdicts.{wishes_at};
ghost use Rattle.search_box.specs.Entered.{IsEntered};
ghost use Rattle.search_walk.specs.Aims.{IsSpan};
ghost use Rattle.search_walk.specs.Put.{IsBack};
ghost use Rattle.search_walk.specs.Here.{here_of};
ghost use Rattle.search_walk.specs.Later.{LaterAnswers, LaterBack};
ghost use Rattle.search_walk.specs.Stops.{MayStop};
ghost use Rattle.search_walk.specs.Told.{BelowAnswers, BelowEnded, CaseAnswers, CasesAnswer, EndingAnswers, FirstTold, GoalIsClosed, GoesFrom, GoesOnFrom, HasFew, HasNoRival, IsAt, IsBackAt, IsBackBelow, IsBelow, IsSure, NodeAnswers, NodeEnded, NodeWrites, OwnAnswers, PartAnswers, TreeAnswers};

use crate::aim::{Worse, aim_of};
use crate::endings::{at_goal, is_ended, is_here, stuck, verdict};
use crate::keeping::{
    aside_at, keep_aside, keep_node, known_at, position_of, put_aside, put_known,
};
use crate::narrowing::{narrow, narrow_first};
use crate::rival::{is_outdone, rival_of};
use crate::stage::Stage;
use crate::stop::Stop;
use crate::tries::{
    first_worse, is_advised, is_free, is_ready, is_worth_again, most_tries, sought, value_ahead,
    value_to_try,
};
use crate::walk::Walk;
use crate::writing::{
    drop_before, last_to_drop, leave_out, put_horizon, put_needed, put_steps, skip_and_tell,
    skip_between,
};
use joins::Found;
use model_levels::Levels;
use proof_tree::Line;
use prop_engine::Closed;
use qc_model::{ScopeId, VarId};
use search_kept::{NodeEnd, is_decided};
use strategy_arena::Arena;

/// The node of a scope, or of the goal, in the box that the walk holds, below the horizon in force. Where it is exact,
/// its vector is the one that the walk's joins handed out last. The search begins with it, so whether it is known isn't asked.
pub fn node(
    levels: &Levels,
    cuts: bool,
    horizon: Option<ScopeId>,
    number: u8,
    walk: &mut Walk,
) -> Result<Found, Stop>
    requires scope { number ≤ length levels.now.problem.now.scopes }
    requires horizon { IfSome horizon (λ h. h.0 ≤ length levels.now.problem.now.scopes) }
    requires here { IsEntered levels.now.problem.now number walk.old.remains }
    requires closed { GoalIsClosed levels.now.problem.now number walk.old.remains }
    requires joins { game_of walk.old.joins ≡ levels.now.problem.now }
    ensures told { IfOk result (λ found. NodeAnswers cuts levels.now.problem.now number horizon found walk.old walk.new) }
    ensures ended { IfOk result (λ found. NodeEnded cuts levels.now.problem.now number horizon found walk.old walk.new) }
    ensures back { OnOk result (IsBack levels.now.problem.now number walk.old walk.new) }
    ensures stops { IfErr result (MayStop cuts) }
{
    levels.problem.known();
    if number as usize == levels.problem.scopes() {
        return Ok(at_goal(levels, horizon, number, walk)?);
    }
    searched_node(levels, cuts, horizon, number, None, walk)
}

/// The node below a tuple. In the first pass its lines are copied where it is known for its position; then the join of its scope
/// isn't told, so of that nothing is said.
#[cycle(search)]
fn later_node(
    levels: &Levels,
    cuts: bool,
    horizon: Option<ScopeId>,
    number: u8,
    walk: &mut Walk,
) -> Result<Found, Stop>
    requires scope { number ≤ length levels.now.problem.now.scopes }
    requires horizon { IfSome horizon (λ h. h.0 ≤ length levels.now.problem.now.scopes) }
    requires here { IsEntered levels.now.problem.now number walk.old.remains }
    requires closed { GoalIsClosed levels.now.problem.now number walk.old.remains }
    requires joins { game_of walk.old.joins ≡ levels.now.problem.now }
    ensures told { IfOk result (λ found. NodeWrites cuts levels.now.problem.now number horizon found walk.old walk.new) }
    ensures ended { IfOk result (λ found. NodeEnded cuts levels.now.problem.now number horizon found walk.old walk.new) }
    ensures back { OnOk result (IsBack levels.now.problem.now number walk.old walk.new) }
    ensures stops { IfErr result (MayStop cuts) }
{
    levels.problem.known();
    if number as usize == levels.problem.scopes() {
        return Ok(at_goal(levels, horizon, number, walk)?);
    }
    let position = position_of(levels, cuts, horizon, number, walk);
    if let Some(at) = known_at(levels, cuts, horizon, number, position, walk) {
        return Ok(put_known(levels, cuts, horizon, number, at, walk)?);
    }
    searched_node(levels, cuts, horizon, number, position, walk)
}

/// The node of a scope that is searched. In the first pass its lines are kept, where they can be of use again.
#[cycle(search)]
fn searched_node(
    levels: &Levels,
    cuts: bool,
    horizon: Option<ScopeId>,
    number: u8,
    position: Option<u64>,
    walk: &mut Walk,
) -> Result<Found, Stop>
    requires scope { number < length levels.now.problem.now.scopes }
    requires horizon { IfSome horizon (λ h. h.0 ≤ length levels.now.problem.now.scopes) }
    requires here { IsEntered levels.now.problem.now number walk.old.remains }
    requires joins { game_of walk.old.joins ≡ levels.now.problem.now }
    ensures told { IfOk result (λ found. NodeAnswers cuts levels.now.problem.now number horizon found walk.old walk.new) }
    ensures ended { IfOk result (λ found. NodeEnded cuts levels.now.problem.now number horizon found walk.old walk.new) }
    ensures back { OnOk result (IsBack levels.now.problem.now number walk.old walk.new) }
    ensures stops { IfErr result (MayStop cuts) }
{
    levels.problem.known();
    let had = walk.left;
    let start = walk.lines.len();
    let ahead = walk.remains.look_ahead(levels, ScopeId(number), horizon)?;
    let below = put_horizon(&mut walk.lines, horizon, ahead)?;
    let level = levels.level(ScopeId(number));
    if is_here(below, number) {
        return Ok(stuck(level, walk)?);
    }
    let stage = Stage {
        levels,
        level,
        horizon: below,
        cuts,
        position,
        aim: aim_of(levels.problem, &walk.joins, ScopeId(number)),
        rival: rival_of(&walk.joins, ScopeId(number)),
    };
    let found = own_tree(&stage, walk)?;
    let end = NodeEnd {
        found,
        had,
        left: walk.left,
    };
    keep_node(levels, cuts, horizon, number, position, start, end, walk)?;
    Ok(found)
}

/// The own tree of a scope's node.
#[cycle(search)]
fn own_tree(stage: &Stage, walk: &mut Walk) -> Result<Found, Stop>
    requires here { IsAt stage.now walk.old.remains }
    requires joins { game_of walk.old.joins ≡ stage.now.level.now.problem.now }
    ensures told { IfOk result (λ found. TreeAnswers (here_of stage.now walk.old) found walk.old walk.new) }
    ensures back { OnOk result (IsBackAt stage.now walk.old walk.new) }
    ensures stops { IfErr result (MayStop stage.now.cuts) }
{
    let best = walk.advice.enter(
        stage.level,
        sought(stage.aim),
        stage.position,
        walk.remains.all_values(),
        walk.left,
    )?;
    let aside = walk.aside.len();
    let found = advised_tree(stage, best, walk)?;
    walk.aside.cut(aside);
    walk.advice.leave(stage.level, walk.left);
    Ok(found)
}

/// So where a value of the variable that it optimises may have been found. In the first pass all worse values are given up first;
/// where it isn't sure then what the node comes to, the lines of that are taken back.
#[cycle(search)]
fn advised_tree(stage: &Stage, best: Option<i64>, walk: &mut Walk) -> Result<Found, Stop>
    requires here { IsAt stage.now walk.old.remains }
    requires joins { game_of walk.old.joins ≡ stage.now.level.now.problem.now }
    ensures told { IfOk result (λ found. TreeAnswers (here_of stage.now walk.old) found walk.old walk.new) }
    ensures back { OnOk result (IsBackAt stage.now walk.old walk.new) }
    ensures stops { IfErr result (MayStop stage.now.cuts) }
{
    let Some(worse) = first_worse(stage, best) else {
        return whole_tree(stage, walk);
    };
    let begun = walk.lines.len();
    let found = bounded_tree(stage, worse, walk)?;
    let is_sure = is_decided(found);
    walk.advice.tell_bound(is_sure);
    if is_sure {
        return Ok(found);
    }
    walk.lines.cut(begun);
    whole_tree(stage, walk)
}

/// The own tree where these values are given up first. Nothing has beaten them, so it is a tree only where it is sure what the
/// node comes to.
#[cycle(search)]
fn bounded_tree(stage: &Stage, worse: Worse, walk: &mut Walk) -> Result<Found, Stop>
    requires here { IsAt stage.now walk.old.remains }
    requires joins { game_of walk.old.joins ≡ stage.now.level.now.problem.now }
    requires span { IsSpan stage.now.level.now.problem.now stage.now.level.now.number worse }
    ensures told { IfOk result (λ found. IsSure found walk.new → TreeAnswers (here_of stage.now walk.old) found walk.old walk.new) }
    ensures back { OnOk result (IsBackAt stage.now walk.old walk.new) }
    ensures stops { IfErr result (MayStop stage.now.cuts) }
{
    stage.level.problem.known();
    walk.remains.known();
    bounded_part(stage, worse, walk)?;
    Ok(verdict(stage.level, walk))
}

/// Its lines.
#[cycle(search)]
fn bounded_part(stage: &Stage, worse: Worse, walk: &mut Walk) -> Result<(), Stop>
    requires here { IsAt stage.now walk.old.remains }
    requires joins { game_of walk.old.joins ≡ stage.now.level.now.problem.now }
    requires span { IsSpan stage.now.level.now.problem.now stage.now.level.now.number worse }
    ensures told { OnOk result (HasFew walk.old → FirstTold (here_of stage.now walk.old) walk.old walk.new) }
    ensures back { OnOk result (IsBackAt stage.now walk.old walk.new) }
    ensures stops { IfErr result (MayStop stage.now.cuts) }
{
    walk.joins.clear(ScopeId(stage.level.number));
    let mark = walk.remains.mark();
    walk.steps.clear();
    let closed = narrow_first(stage, worse, walk)?;
    part(stage, stage.level.from, closed, false, walk)?;
    walk.remains.undo_to(mark);
    Ok(())
}

/// The own tree where no values are given up first.
#[cycle(search)]
fn whole_tree(stage: &Stage, walk: &mut Walk) -> Result<Found, Stop>
    requires here { IsAt stage.now walk.old.remains }
    requires joins { game_of walk.old.joins ≡ stage.now.level.now.problem.now }
    ensures told { IfOk result (λ found. TreeAnswers (here_of stage.now walk.old) found walk.old walk.new) }
    ensures back { OnOk result (IsBackAt stage.now walk.old walk.new) }
    ensures stops { IfErr result (MayStop stage.now.cuts) }
{
    stage.level.problem.known();
    walk.remains.known();
    own_part(stage, walk)?;
    Ok(verdict(stage.level, walk))
}

/// The lines of a node's own tree. Where advised tuples are tried first and no other counts after one of them, they are those of
/// this tuple alone.
#[cycle(search)]
fn own_part(stage: &Stage, walk: &mut Walk) -> Result<(), Stop>
    requires here { IsAt stage.now walk.old.remains }
    requires joins { game_of walk.old.joins ≡ stage.now.level.now.problem.now }
    ensures told { OnOk result (OwnAnswers (here_of stage.now walk.old) walk.old walk.new) }
    ensures back { OnOk result (IsBackAt stage.now walk.old walk.new) }
    ensures stops { IfErr result (MayStop stage.now.cuts) }
{
    if !is_advised(stage, walk) {
        return shortened_part(stage, walk);
    }
    if advised_part(stage, walk)? {
        return Ok(());
    }
    shortened_part(stage, walk)
}

/// The lines of a node's own tree where one of the advised tuples alone is gone into, and whether no other counts after it.
/// Where some do after each of those that are tried, no line is left of the tries.
#[cycle(search)]
fn advised_part(stage: &Stage, walk: &mut Walk) -> Result<bool, Stop>
    requires here { IsAt stage.now walk.old.remains }
    requires joins { game_of walk.old.joins ≡ stage.now.level.now.problem.now }
    requires cuts { IsTrue stage.now.cuts }
    ensures told { IfOk result (λ whole. IsTrue whole → OwnAnswers (here_of stage.now walk.old) walk.old walk.new) }
    ensures back { OnOk result (IsBackAt stage.now walk.old walk.new) }
    ensures undone { IfOk result (λ whole. IsFalse whole → walk.new.lines ≡ walk.old.lines) }
    ensures stops { IfErr result (MayStop stage.now.cuts) }
{
    let mut tries = most_tries(stage);
    'tries: while tries > 0 && walk.advice.has_more(stage.level) {
        tries -= 1;
        if tried_part(stage, walk)? {
            return Ok(true);
        }
    }
    Ok(false)
}

/// So without a try before. Where the values are gone over and the tree ends outdone by the scope above, the tuple that did it
/// is tried alone, since no value before it counts.
#[cycle(search)]
fn shortened_part(stage: &Stage, walk: &mut Walk) -> Result<(), Stop>
    requires here { IsAt stage.now walk.old.remains }
    requires joins { game_of walk.old.joins ≡ stage.now.level.now.problem.now }
    ensures told { OnOk result (OwnAnswers (here_of stage.now walk.old) walk.old walk.new) }
    ensures back { OnOk result (IsBackAt stage.now walk.old walk.new) }
    ensures stops { IfErr result (MayStop stage.now.cuts) }
{
    let had = walk.left;
    let start = walk.lines.len();
    closed_part(stage, false, walk)?;
    if !is_worth_again(stage, had, walk) {
        return Ok(());
    }
    walk.lines.cut(start);
    walk.advice.begin(stage.level);
    if tried_part(stage, walk)? {
        return Ok(());
    }
    closed_part(stage, false, walk)?;
    Ok(())
}

/// So where the next advised tuple is tried.
#[cycle(search)]
fn tried_part(stage: &Stage, walk: &mut Walk) -> Result<bool, Stop>
    requires here { IsAt stage.now walk.old.remains }
    requires joins { game_of walk.old.joins ≡ stage.now.level.now.problem.now }
    ensures told { IfOk result (λ whole. IsTrue whole → OwnAnswers (here_of stage.now walk.old) walk.old walk.new) }
    ensures back { OnOk result (IsBackAt stage.now walk.old walk.new) }
    ensures undone { IfOk result (λ whole. IsFalse whole → walk.new.lines ≡ walk.old.lines) }
    ensures stops { IfErr result (MayStop stage.now.cuts) }
{
    let from = walk.lines.len();
    let is_whole = closed_part(stage, true, walk)?;
    walk.advice
        .tell(stage.level, is_whole, stage.rival.is_some());
    if is_whole {
        return Ok(true);
    }
    walk.lines.cut(from);
    Ok(false)
}

/// A scope's own tree in the box as it is closed. With `tries` only the values of an advised tuple are gone into, if the box
/// allows one, and whether that is enough is answered.
#[cycle(search)]
fn closed_part(stage: &Stage, tries: bool, walk: &mut Walk) -> Result<bool, Stop>
    requires here { IsAt stage.now walk.old.remains }
    requires joins { game_of walk.old.joins ≡ stage.now.level.now.problem.now }
    ensures told { IfOk result (λ whole. (IsTrue tries → IsTrue whole) → OwnAnswers (here_of stage.now walk.old) walk.old walk.new) }
    ensures back { OnOk result (IsBackAt stage.now walk.old walk.new) }
    ensures stops { IfErr result (MayStop stage.now.cuts) }
{
    let level = stage.level;
    level.problem.known();
    walk.remains.known();
    walk.joins.clear(ScopeId(level.number));
    let mark = walk.remains.mark();
    walk.steps.clear();
    let closed = walk.remains.close(level, &mut walk.steps)?;
    let is_free = is_free(stage, &walk.joins);
    if !is_ready(tries, is_free, level, &walk.remains, &mut walk.advice) {
        walk.remains.undo_to(mark);
        return Ok(false);
    }
    let is_whole = part(stage, level.from, closed, tries, walk)?;
    walk.remains.undo_to(mark);
    Ok(is_whole)
}

/// The steps of the closing that was the last, and what follows them: the box that they leave is closed, where the variables of the scope before x have
/// their values, or a domain is empty. With `tries` only advised values are gone into, and whether that is enough is
/// answered.
#[cycle(search)]
pub fn part(
    stage: &Stage,
    x: usize,
    closed: Closed,
    tries: bool,
    walk: &mut Walk,
) -> Result<bool, Stop>
    requires goes { GoesOnFrom stage.now closed x walk.old.remains }
    requires joins { game_of walk.old.joins ≡ stage.now.level.now.problem.now }
    ensures told { IfOk result (λ whole. (IsTrue tries → IsTrue whole) → PartAnswers (here_of stage.now walk.old) walk.old walk.new) }
    ensures back { OnOk result (IsBackAt stage.now walk.old walk.new) }
    ensures stops { IfErr result (MayStop stage.now.cuts) }
{
    match closed {
        Closed::Empty => {
            put_needed(
                &mut walk.lines,
                &mut walk.needed,
                stage.level.problem,
                walk.steps.items(),
            )?;
            walk.lines.put(Line::Empty)?;
            Ok(true)
        }
        Closed::Open => {
            put_steps(&mut walk.lines, walk.steps.items())?;
            within(stage, x, tries, walk)
        }
    }
}

/// The part of a scope's own tree in the walk's box, which is closed, where the variables of the scope before x have
/// their values.
#[cycle(search)]
fn within(stage: &Stage, x: usize, tries: bool, walk: &mut Walk) -> Result<bool, Stop>
    requires going { GoesFrom stage.now x walk.old.remains }
    requires joins { game_of walk.old.joins ≡ stage.now.level.now.problem.now }
    ensures told { IfOk result (λ whole. (IsTrue tries → IsTrue whole) → EndingAnswers (here_of stage.now walk.old) walk.old walk.new) }
    ensures back { OnOk result (IsBackAt stage.now walk.old walk.new) }
    ensures stops { IfErr result (MayStop stage.now.cuts) }
{
    stage.level.problem.known();
    let next = walk.remains.next_free(stage.level, x);
    if next == stage.level.stop {
        after_tuple(stage, tries, walk)?;
        return Ok(true);
    }
    let x = VarId(next as u16);
    if tries {
        return try_branch(stage, x, walk);
    }
    over_values(stage, x, walk)?;
    Ok(true)
}

/// The end of a scope's own tree, where its tuple is complete. Where it `tries` a tuple after which others count, what stands
/// below is kept aside.
#[cycle(search)]
fn after_tuple(stage: &Stage, tries: bool, walk: &mut Walk) -> Result<(), Stop>
    requires going { GoesFrom stage.now stage.now.level.now.stop walk.old.remains }
    requires joins { game_of walk.old.joins ≡ stage.now.level.now.problem.now }
    ensures told { OnOk result (EndingAnswers (here_of stage.now walk.old) walk.old walk.new) }
    ensures back { OnOk result (IsBackAt stage.now walk.old walk.new) }
    ensures stops { IfErr result (MayStop stage.now.cuts) }
{
    stage.level.problem.known();
    let level = stage.level;
    if !walk.remains.tuple_allowed(level) {
        walk.lines.put(Line::Barred)?;
        walk.joins.add_barred(ScopeId(level.number));
        return Ok(());
    }
    walk.lines.put(Line::Next)?;
    let start = walk.lines.len();
    let had = walk.left;
    let found = below_tuple(stage, walk)?;
    let left = walk.left;
    walk.joins.add_node(ScopeId(level.number), found);
    let is_last = is_ended(stage, &walk.joins);
    walk.advice.note(is_last, level, walk.remains.all_values());
    let end = NodeEnd { found, had, left };
    keep_aside(stage, tries && !is_last, start, end, walk)?;
    Ok(())
}

/// The node below a complete tuple: its lines are copied where they were kept aside, and else it is gone through.
#[cycle(search)]
fn below_tuple(stage: &Stage, walk: &mut Walk) -> Result<Found, Stop>
    requires here { IsBelow stage.now walk.old.remains }
    requires closed { GoalIsClosed stage.now.level.now.problem.now (suc stage.now.level.now.number) walk.old.remains }
    requires joins { game_of walk.old.joins ≡ stage.now.level.now.problem.now }
    ensures told { IfOk result (λ found. BelowAnswers stage.now found walk.old walk.new) }
    ensures ended { IfOk result (λ found. BelowEnded stage.now found walk.old walk.new) }
    ensures back { OnOk result (IsBackBelow stage.now walk.old walk.new) }
    ensures stops { IfErr result (MayStop stage.now.cuts) }
{
    stage.level.problem.known();
    if let Some(at) = aside_at(stage, walk) {
        return Ok(put_aside(stage, at, walk)?);
    }
    later_node(
        stage.levels,
        stage.cuts,
        stage.horizon,
        stage.level.number + 1,
        walk,
    )
}

/// A branch on x, the next variable of the scope that has more values than one.
#[cycle(search)]
fn over_values(stage: &Stage, x: VarId, walk: &mut Walk) -> Result<(), Stop>
    requires var { x.0 < stage.now.level.now.stop }
    requires going { GoesFrom stage.now x.0 walk.old.remains }
    requires own { IsTrue (is_of_scope stage.now.level.now.problem.now stage.now.level.now.number x.0) }
    requires free { is_single (values_left walk.old.remains.store.box x.0) ≡ false }
    requires joins { game_of walk.old.joins ≡ stage.now.level.now.problem.now }
    ensures told { OnOk result (EndingAnswers (here_of stage.now walk.old) walk.old walk.new) }
    ensures back { OnOk result (IsBackAt stage.now walk.old walk.new) }
    ensures stops { IfErr result (MayStop stage.now.cuts) }
{
    stage.level.problem.known();
    walk.lines.put(Line::Branch { x })?;
    cases(stage, x, walk)?;
    walk.lines.put(Line::Dot)?;
    Ok(())
}

/// The cases of a branch on x, over the values left to it: in order, or with one that is advised before all others.
#[cycle(search)]
fn cases(stage: &Stage, x: VarId, walk: &mut Walk) -> Result<(), Stop>
    requires var { x.0 < stage.now.level.now.stop }
    requires going { GoesFrom stage.now x.0 walk.old.remains }
    requires free { is_single (values_left walk.old.remains.store.box x.0) ≡ false }
    requires joins { game_of walk.old.joins ≡ stage.now.level.now.problem.now }
    ensures told { OnOk result (CasesAnswer (here_of stage.now walk.old) x.0 walk.old walk.new) }
    ensures back { OnOk result (IsBackAt stage.now walk.old walk.new) }
    ensures stops { IfErr result (MayStop stage.now.cuts) }
{
    if let Some(ahead) = value_ahead(stage, x, walk) {
        let mut waiting = Arena::new(walk.alloc);
        return cases_ahead(stage, x, ahead, &mut waiting, walk);
    }
    stage.level.problem.known();
    walk.remains.known();
    let start = walk.lines.len();
    let first = walk.remains.first(x);
    later_cases(stage, x, start, first, walk)
}

/// The cases of a branch on x from this value on, where the lines of the branch begin at `start`. Those of a case that settles
/// the scope stand behind one that skips all before it.
#[cycle(search)]
fn later_cases(
    stage: &Stage,
    x: VarId,
    start: usize,
    from: i64,
    walk: &mut Walk,
) -> Result<(), Stop>
    requires var { x.0 < stage.now.level.now.stop }
    requires going { GoesFrom stage.now x.0 walk.old.remains }
    requires free { is_single (values_left walk.old.remains.store.box x.0) ≡ false }
    requires value { IsTrue (has_value (values_left walk.old.remains.store.box x.0) from) }
    requires joins { game_of walk.old.joins ≡ stage.now.level.now.problem.now }
    requires start { start ≤ length walk.old.lines }
    ensures told { OnOk result (LaterAnswers (here_of stage.now walk.old) x.0 start from walk.old walk.new) }
    ensures back { OnOk result (LaterBack stage.now start walk.old walk.new) }
    ensures stops { IfErr result (MayStop stage.now.cuts) }
{
    stage.level.problem.known();
    walk.remains.known();
    let number = ScopeId(stage.level.number);
    let first = walk.remains.first(x);
    let last = walk.remains.last(x);
    let mut before = walk.remains.previous(x, from);
    let mut value = from;
    'values: loop {
        if walk.joins.is_settled(number) {
            leave_out(&mut walk.lines, value, last, Line::Skip)?;
            return Ok(());
        }
        if is_outdone(stage.rival, &walk.joins, number) {
            walk.joins.add_skipped(number);
            leave_out(&mut walk.lines, value, last, Line::Skip)?;
            return Ok(());
        }
        if walk.left == 0 {
            walk.joins.add_skipped(number);
            leave_out(&mut walk.lines, value, last, Line::Open)?;
            return Ok(());
        }
        let at = walk.lines.len();
        walk.left -= 1;
        with_value(stage, x, value, false, walk)?;
        let dropped = last_to_drop(stage.cuts, walk.joins.is_settled(number), before);
        drop_before(&mut walk.lines, start, at, first, dropped)?;
        let Some(next) = walk.remains.next(x, value) else {
            return Ok(());
        };
        before = Some(value);
        value = next;
    }
}

/// The cases of a branch on x where this value is gone into before all others. Where it settles the scope they are skipped; else
/// its lines wait until those of the values before it stand, and then come into their place.
#[cycle(search)]
fn cases_ahead(
    stage: &Stage,
    x: VarId,
    ahead: i64,
    waiting: &mut Arena,
    walk: &mut Walk,
) -> Result<(), Stop>
    requires var { x.0 < stage.now.level.now.stop }
    requires going { GoesFrom stage.now x.0 walk.old.remains }
    requires free { is_single (values_left walk.old.remains.store.box x.0) ≡ false }
    requires value { IsTrue (has_value (values_left walk.old.remains.store.box x.0) ahead) }
    requires cuts { IsTrue stage.now.cuts }
    requires turn { 0 < walk.old.left }
    requires alone { HasNoRival stage.now }
    requires nothing { wishes_at stage.now.level.now.problem.now stage.now.level.now.number ≡ [] }
    requires none_waits { waiting.old ≡ [] }
    requires joins { game_of walk.old.joins ≡ stage.now.level.now.problem.now }
    ensures told { OnOk result (CasesAnswer (here_of stage.now walk.old) x.0 walk.old walk.new) }
    ensures back { OnOk result (IsBackAt stage.now walk.old walk.new) }
    ensures stops { IfErr result (MayStop stage.now.cuts) }
{
    stage.level.problem.known();
    walk.remains.known();
    let number = ScopeId(stage.level.number);
    let start = walk.lines.len();
    let first = walk.remains.first(x);
    let last = walk.remains.last(x);
    let before = walk.remains.previous(x, ahead);
    let next = walk.remains.next(x, ahead);
    skip_between(&mut walk.lines, Some(first), before)?;
    let at = walk.lines.len();
    walk.left -= 1;
    with_value(stage, x, ahead, false, walk)?;
    if walk.joins.is_settled(number) {
        walk.advice.tell_first(stage.level);
        skip_between(&mut walk.lines, next, Some(last))?;
        return Ok(());
    }
    walk.lines.put_by(at, waiting)?;
    walk.lines.cut(start);
    let mut passed = None;
    let mut value = first;
    'earlier: while value != ahead {
        if walk.left == 0 {
            return Err(Stop::Turns);
        }
        let at = walk.lines.len();
        walk.left -= 1;
        with_value(stage, x, value, false, walk)?;
        if walk.joins.is_settled(number) {
            walk.advice.tell_others(stage.level, true);
            drop_before(&mut walk.lines, start, at, first, passed)?;
            let rest = walk.remains.next(x, value);
            skip_between(&mut walk.lines, rest, Some(last))?;
            return Ok(());
        }
        let Some(later) = walk.remains.next(x, value) else {
            unreachable!()
        };
        passed = Some(value);
        value = later;
    }
    if walk.left == 0 {
        return Err(Stop::Turns);
    }
    walk.lines.bring_back(0, waiting)?;
    match next {
        None => {
            walk.advice.tell_others(stage.level, false);
            Ok(())
        }
        Some(next) => {
            later_cases(stage, x, start, next, walk)?;
            walk.advice
                .tell_others(stage.level, walk.joins.is_settled(number));
            Ok(())
        }
    }
}

/// The part of a scope's own tree where x, its next variable with more values than one, has this one.
/// With `tries` only advised values of later variables are gone into, and whether that is enough is answered.
#[cycle(search)]
fn with_value(
    stage: &Stage,
    x: VarId,
    value: i64,
    tries: bool,
    walk: &mut Walk,
) -> Result<bool, Stop>
    requires var { x.0 < stage.now.level.now.stop }
    requires going { GoesFrom stage.now x.0 walk.old.remains }
    requires value { IsTrue (has_value (values_left walk.old.remains.store.box x.0) value) }
    requires joins { game_of walk.old.joins ≡ stage.now.level.now.problem.now }
    ensures told { IfOk result (λ whole. (IsTrue tries → IsTrue whole) → CaseAnswers (here_of stage.now walk.old) x.0 value walk.old walk.new) }
    ensures back { OnOk result (IsBackAt stage.now walk.old walk.new) }
    ensures stops { IfErr result (MayStop stage.now.cuts) }
{
    let mark = walk.remains.mark();
    walk.steps.clear();
    let closed = narrow(stage, x, value, walk)?;
    let is_whole = part(stage, x.0 as usize + 1, closed, tries, walk)?;
    walk.remains.undo_to(mark);
    Ok(is_whole)
}

/// A branch on x where the advised value alone is gone into, and whether no other counts after it: then the lines are those of
/// the branch.
#[cycle(search)]
fn try_branch(stage: &Stage, x: VarId, walk: &mut Walk) -> Result<bool, Stop>
    requires var { x.0 < stage.now.level.now.stop }
    requires going { GoesFrom stage.now x.0 walk.old.remains }
    requires own { IsTrue (is_of_scope stage.now.level.now.problem.now stage.now.level.now.number x.0) }
    requires free { is_single (values_left walk.old.remains.store.box x.0) ≡ false }
    requires joins { game_of walk.old.joins ≡ stage.now.level.now.problem.now }
    ensures told { IfOk result (λ whole. IsTrue whole → EndingAnswers (here_of stage.now walk.old) walk.old walk.new) }
    ensures back { OnOk result (IsBackAt stage.now walk.old walk.new) }
    ensures stops { IfErr result (MayStop stage.now.cuts) }
{
    stage.level.problem.known();
    let Some(value) = value_to_try(stage, x, walk) else {
        return Ok(false);
    };
    walk.lines.put(Line::Branch { x })?;
    if !try_case(stage, x, value, walk)? {
        return Ok(false);
    }
    walk.lines.put(Line::Dot)?;
    Ok(true)
}

/// The cases of a branch on x where this value is gone into before all others, and whether no other counts after it: then the
/// lines are those of the cases, of which the others are skipped. In a scope without a rival it has to settle the scope.
#[cycle(search)]
fn try_case(stage: &Stage, x: VarId, value: i64, walk: &mut Walk) -> Result<bool, Stop>
    requires var { x.0 < stage.now.level.now.stop }
    requires going { GoesFrom stage.now x.0 walk.old.remains }
    requires free { is_single (values_left walk.old.remains.store.box x.0) ≡ false }
    requires value { IsTrue (has_value (values_left walk.old.remains.store.box x.0) value) }
    requires cuts { IsTrue stage.now.cuts }
    requires turn { 0 < walk.old.left }
    requires joins { game_of walk.old.joins ≡ stage.now.level.now.problem.now }
    ensures told { IfOk result (λ whole. IsTrue whole → CasesAnswer (here_of stage.now walk.old) x.0 walk.old walk.new) }
    ensures back { OnOk result (IsBackAt stage.now walk.old walk.new) }
    ensures stops { IfErr result (MayStop stage.now.cuts) }
{
    if stage.rival.is_some() {
        return try_against_rival(stage, x, value, walk);
    }
    stage.level.problem.known();
    walk.remains.known();
    let first = walk.remains.first(x);
    let last = walk.remains.last(x);
    let before = walk.remains.previous(x, value);
    let next = walk.remains.next(x, value);
    skip_between(&mut walk.lines, Some(first), before)?;
    walk.left -= 1;
    if !with_value(stage, x, value, true, walk)? {
        return Ok(false);
    }
    if !walk.joins.is_settled(ScopeId(stage.level.number)) {
        return Ok(false);
    }
    skip_between(&mut walk.lines, next, Some(last))?;
    Ok(true)
}

/// So in a scope that has a rival: the join is told of what is skipped, so that what it stands for is what the lines say. The
/// value settles the scope, or gives a bound that the rival beats.
#[cycle(search)]
fn try_against_rival(stage: &Stage, x: VarId, value: i64, walk: &mut Walk) -> Result<bool, Stop>
    requires var { x.0 < stage.now.level.now.stop }
    requires going { GoesFrom stage.now x.0 walk.old.remains }
    requires free { is_single (values_left walk.old.remains.store.box x.0) ≡ false }
    requires value { IsTrue (has_value (values_left walk.old.remains.store.box x.0) value) }
    requires cuts { IsTrue stage.now.cuts }
    requires turn { 0 < walk.old.left }
    requires joins { game_of walk.old.joins ≡ stage.now.level.now.problem.now }
    ensures told { IfOk result (λ whole. IsTrue whole → CasesAnswer (here_of stage.now walk.old) x.0 walk.old walk.new) }
    ensures back { OnOk result (IsBackAt stage.now walk.old walk.new) }
    ensures stops { IfErr result (MayStop stage.now.cuts) }
{
    stage.level.problem.known();
    walk.remains.known();
    let number = ScopeId(stage.level.number);
    let first = walk.remains.first(x);
    let last = walk.remains.last(x);
    let before = walk.remains.previous(x, value);
    let next = walk.remains.next(x, value);
    skip_and_tell(
        &mut walk.lines,
        &mut walk.joins,
        number,
        Some(first),
        before,
    )?;
    walk.left -= 1;
    if !with_value(stage, x, value, true, walk)? {
        return Ok(false);
    }
    if !is_ended(stage, &walk.joins) {
        return Ok(false);
    }
    skip_and_tell(&mut walk.lines, &mut walk.joins, number, next, Some(last))?;
    Ok(true)
}
