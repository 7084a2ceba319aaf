//! The root of a piece, beside a value that was reached elsewhere.
//!
//! The first scope's join is told of the value before the root's own tree begins, as of a leaf that stands before all others. So
//! what is no better is given up from the start, and what the scope comes to is what all leaves come to, this one among them. The
//! lines have only those of the piece.
ghost use Rattle.std.specs.Prelude.{◌≡◌, ◌∷◌, [], IfErr, IfOk, IfSome, OnOk, Some};
ghost use Rattle.joins.specs.Joins.{game_of, StandsAt};
ghost use Rattle.search_box.specs.Entered.{IsEntered};
ghost use Rattle.game_search.specs.Beside.{BesideAnswers, RootAnswers};
ghost use Rattle.search_walk.specs.Here.{here_of};
ghost use Rattle.game_search.specs.Pieces.{IsReached, leaf_at};
ghost use Rattle.search_walk.specs.Stops.{MayStop};
ghost use Rattle.search_walk.specs.Told.{IsAt, IsBackAt};

use joins::{Found, Joins};
use model_levels::Levels;
use proof_tree::Line;
use qc_model::ScopeId;
use search_walk::{
    Stage, Stop, Walk, aim_of, is_here, narrow_beside, node, part, put_horizon, verdict,
};

/// The root, in the box that the walk holds, where this value of the first scope was reached elsewhere, or none.
pub(crate) fn root(
    levels: &Levels,
    cuts: bool,
    reached: Option<i64>,
    walk: &mut Walk,
) -> Result<Found, Stop>
    requires here { IsEntered levels.now.problem.now 0 walk.old.remains }
    requires joins { game_of walk.old.joins ≡ levels.now.problem.now }
    requires reached { IfSome reached (λ r. IsReached levels.now.problem.now r) }
    ensures told { IfOk result (λ found. RootAnswers cuts levels.now.problem.now reached found walk.old walk.new) }
    ensures joins { OnOk result (game_of walk.new.joins ≡ levels.now.problem.now) }
    ensures stops { IfErr result (MayStop cuts) }
{
    match reached {
        None => node(levels, cuts, None, 0, walk),
        Some(value) => root_beside(levels, cuts, value, walk),
    }
}

/// The root where this value was reached. Where it is exact, the first scope's join tells the best value, which may be this one.
fn root_beside(levels: &Levels, cuts: bool, value: i64, walk: &mut Walk) -> Result<Found, Stop>
    requires here { IsEntered levels.now.problem.now 0 walk.old.remains }
    requires joins { game_of walk.old.joins ≡ levels.now.problem.now }
    requires reached { IsReached levels.now.problem.now value }
    ensures told { IfOk result (λ found. RootAnswers cuts levels.now.problem.now (Some value) found walk.old walk.new) }
    ensures joins { OnOk result (game_of walk.new.joins ≡ levels.now.problem.now) }
    ensures stops { IfErr result (MayStop cuts) }
{
    levels.problem.known();
    let ahead = walk.remains.look_ahead(levels, ScopeId(0), None)?;
    let below = put_horizon(&mut walk.lines, None, ahead)?;
    let level = levels.level(ScopeId(0));
    reach(&mut walk.joins, value);
    if is_here(below, 0) {
        walk.lines.put(Line::Stuck)?;
        return Ok(verdict(level, walk));
    }
    let stage = Stage {
        levels,
        level,
        horizon: below,
        cuts,
        position: None,
        aim: aim_of(levels.problem, &walk.joins, ScopeId(0)),
        rival: None,
    };
    part_beside(&stage, walk)?;
    Ok(verdict(level, walk))
}

/// The first scope's join is told of the value, and of nothing else.
fn reach(joins: &mut Joins, value: i64)
    requires { IsReached (game_of joins.old) value }
    ensures stands { StandsAt joins.new 0 (leaf_at value ∷ []) }
    ensures same { game_of joins.new ≡ game_of joins.old }
{
    joins.clear(ScopeId(0));
    joins.hand_out([value].as_slice());
    joins.add_node(ScopeId(0), Found::Exact);
}

/// The lines of the root's own tree.
fn part_beside(stage: &Stage, walk: &mut Walk) -> Result<(), Stop>
    requires here { IsAt stage.now walk.old.remains }
    requires joins { game_of walk.old.joins ≡ stage.now.level.now.problem.now }
    ensures told { OnOk result (BesideAnswers (here_of stage.now walk.old) walk.old walk.new) }
    ensures back { OnOk result (IsBackAt stage.now walk.old walk.new) }
    ensures stops { IfErr result (MayStop stage.now.cuts) }
{
    // no better value is looked for: one is there to begin with
    walk.advice.enter(
        stage.level,
        None,
        stage.position,
        walk.remains.all_values(),
        walk.left,
    )?;
    let aside = walk.aside.len();
    let mark = walk.remains.mark();
    walk.steps.clear();
    let closed = narrow_beside(stage, walk)?;
    part(stage, stage.level.from, closed, false, walk)?;
    walk.remains.undo_to(mark);
    walk.aside.cut(aside);
    walk.advice.leave(stage.level, walk.left);
    Ok(())
}
