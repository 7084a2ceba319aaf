//! A case that is taken: its variable takes the value, what the incumbent rules out is given up, and the box is closed. So where
//! a scope's own tree begins with a bound.
ghost use Rattle.std.specs.Prelude.{◌≡◌, ◌<◌, ◌+◌, ◌∷◌, [], IfOk, OnOk, IsTrue, IsFalse};
ghost use Rattle.qc_model.specs.Domains.{has_empty, has_value, values_left};
ghost use Rattle.proof_tree.specs.Cover.{box_to};
ghost use Rattle.joins.specs.Joins.{game_of, KeepsOthers};
ghost use Rattle.search_box.specs.Boxed.{LeadsOn};
ghost use Rattle.search_walk.specs.Aims.{IsSpan};
ghost use Rattle.search_walk.specs.Narrowed.{IsGivenUp, FirstAnswers, NarrowAnswers};
ghost use Rattle.search_walk.specs.Told.{GoesFrom, GoesOnFrom, IsAt};

use crate::aim::{Worse, between, worse_values};
use crate::stage::Stage;
use crate::walk::Walk;
use prop_engine::Closed;
use qc_model::{ScopeId, VarId};
use std::alloc::AllocError;

/// Which values were given up.
#[derive(Clone, Copy)]
pub(crate) enum GivenUp {
    Nothing,
    /// Some of this variable's values.
    Values(VarId),
    /// All values that a variable had left.
    All,
}

/// Gives up the values that the incumbent of the scope's own tree rules out, where there are such: a bound, of whose mark the
/// scope's join is told.
fn give_up(stage: &Stage, walk: &mut Walk) -> Result<GivenUp, AllocError>
    requires here { IsAt stage.now walk.old.remains }
    requires joins { game_of walk.old.joins ≡ stage.now.level.now.problem.now }
    requires none { walk.old.steps ≡ [] }
    ensures lost { IfOk result (λ given. IsGivenUp given walk.old.remains.store.box walk.new.remains.store.box) }
    ensures told { OnOk result (NarrowAnswers stage.now walk.old.remains.store.box walk.old walk.new) }
    ensures on { LeadsOn walk.old.remains walk.new.remains }
    ensures game { game_of walk.new.joins ≡ game_of walk.old.joins }
    ensures others { KeepsOthers stage.now.level.now.number walk.old.joins walk.new.joins }
    ensures lines { walk.new.lines ≡ walk.old.lines }
    ensures left { walk.new.left ≡ walk.old.left }
{
    stage.level.problem.known();
    walk.remains.known();
    let number = ScopeId(stage.level.number);
    let Some(worse) = worse_values(stage.aim, &walk.joins, number) else {
        return Ok(GivenUp::Nothing);
    };
    let x = worse.variable;
    let worse = between(worse, walk.remains.first(x), walk.remains.last(x));
    let bound = walk.remains.bound(
        worse.sense,
        worse.variable,
        worse.lo,
        worse.hi,
        &mut walk.steps,
    )?;
    let Some(bound) = bound else {
        return Ok(GivenUp::Nothing);
    };
    walk.joins.add_bound(number, bound.best);
    if bound.is_empty {
        return Ok(GivenUp::All);
    }
    Ok(GivenUp::Values(worse.variable))
}

/// The next variable x takes the value, what is worse than the incumbent's is given up, and the box is closed.
pub(crate) fn narrow(
    stage: &Stage,
    x: VarId,
    value: i64,
    walk: &mut Walk,
) -> Result<Closed, AllocError>
    requires var { x.0 < stage.now.level.now.stop }
    requires going { GoesFrom stage.now x.0 walk.old.remains }
    requires value { IsTrue (has_value (values_left walk.old.remains.store.box x.0) value) }
    requires joins { game_of walk.old.joins ≡ stage.now.level.now.problem.now }
    requires none { walk.old.steps ≡ [] }
    ensures goes { IfOk result (λ closed. GoesOnFrom stage.now closed (x.0 + 1) walk.new.remains) }
    ensures told { OnOk result (NarrowAnswers stage.now (box_to walk.old.remains.store.box x.0 (value ∷ [])) walk.old walk.new) }
    ensures on { LeadsOn walk.old.remains walk.new.remains }
    ensures game { game_of walk.new.joins ≡ game_of walk.old.joins }
    ensures others { KeepsOthers stage.now.level.now.number walk.old.joins walk.new.joins }
    ensures lines { walk.new.lines ≡ walk.old.lines }
    ensures left { walk.new.left ≡ walk.old.left }
{
    stage.level.problem.known();
    walk.remains.known();
    walk.remains.take(x, value)?;
    match give_up(stage, walk)? {
        GivenUp::All => Ok(Closed::Empty),
        GivenUp::Nothing => walk.remains.close_after(stage.level, &[x], &mut walk.steps),
        GivenUp::Values(y) => walk
            .remains
            .close_after(stage.level, &[y, x], &mut walk.steps),
    }
}

/// Gives up values of the variable that the scope's own tree optimises, where that tree begins: a bound, of whose mark the
/// join is told. Says whether each variable has a value left.
fn bound_first(stage: &Stage, worse: Worse, walk: &mut Walk) -> Result<bool, AllocError>
    requires here { IsAt stage.now walk.old.remains }
    requires joins { game_of walk.old.joins ≡ stage.now.level.now.problem.now }
    requires span { IsSpan stage.now.level.now.problem.now stage.now.level.now.number worse }
    requires none { walk.old.steps ≡ [] }
    ensures entered { IfOk result (λ some. IsTrue some → IsAt stage.now walk.new.remains) }
    ensures emptied { IfOk result (λ some. IsFalse some → IsTrue (has_empty walk.new.remains.store.box)) }
    ensures told { OnOk result (FirstAnswers stage.now walk.old walk.new) }
    ensures on { LeadsOn walk.old.remains walk.new.remains }
    ensures game { game_of walk.new.joins ≡ game_of walk.old.joins }
    ensures others { KeepsOthers stage.now.level.now.number walk.old.joins walk.new.joins }
    ensures lines { walk.new.lines ≡ walk.old.lines }
    ensures left { walk.new.left ≡ walk.old.left }
{
    stage.level.problem.known();
    walk.remains.known();
    let x = worse.variable;
    let worse = between(worse, walk.remains.first(x), walk.remains.last(x));
    let bound = walk.remains.bound(
        worse.sense,
        worse.variable,
        worse.lo,
        worse.hi,
        &mut walk.steps,
    )?;
    let Some(bound) = bound else {
        return Ok(true);
    };
    walk.joins
        .add_bound(ScopeId(stage.level.number), bound.best);
    Ok(!bound.is_empty)
}

/// A scope's own tree begins with a bound, and the box is closed.
pub(crate) fn narrow_first(
    stage: &Stage,
    worse: Worse,
    walk: &mut Walk,
) -> Result<Closed, AllocError>
    requires here { IsAt stage.now walk.old.remains }
    requires joins { game_of walk.old.joins ≡ stage.now.level.now.problem.now }
    requires span { IsSpan stage.now.level.now.problem.now stage.now.level.now.number worse }
    requires none { walk.old.steps ≡ [] }
    ensures goes { IfOk result (λ closed. GoesOnFrom stage.now closed stage.now.level.now.from walk.new.remains) }
    ensures told { OnOk result (FirstAnswers stage.now walk.old walk.new) }
    ensures on { LeadsOn walk.old.remains walk.new.remains }
    ensures game { game_of walk.new.joins ≡ game_of walk.old.joins }
    ensures others { KeepsOthers stage.now.level.now.number walk.old.joins walk.new.joins }
    ensures lines { walk.new.lines ≡ walk.old.lines }
    ensures left { walk.new.left ≡ walk.old.left }
{
    if !bound_first(stage, worse, walk)? {
        return Ok(Closed::Empty);
    }
    walk.remains.close(stage.level, &mut walk.steps)
}

/// A scope's own tree begins, where its join was told of a value that was reached elsewhere: what is no better is given up, and the
/// box is closed.
pub fn narrow_beside(stage: &Stage, walk: &mut Walk) -> Result<Closed, AllocError>
    requires here { IsAt stage.now walk.old.remains }
    requires joins { game_of walk.old.joins ≡ stage.now.level.now.problem.now }
    requires none { walk.old.steps ≡ [] }
    ensures goes { IfOk result (λ closed. GoesOnFrom stage.now closed stage.now.level.now.from walk.new.remains) }
    ensures told { OnOk result (NarrowAnswers stage.now walk.old.remains.store.box walk.old walk.new) }
    ensures on { LeadsOn walk.old.remains walk.new.remains }
    ensures game { game_of walk.new.joins ≡ game_of walk.old.joins }
    ensures others { KeepsOthers stage.now.level.now.number walk.old.joins walk.new.joins }
    ensures lines { walk.new.lines ≡ walk.old.lines }
    ensures left { walk.new.left ≡ walk.old.left }
{
    match give_up(stage, walk)? {
        GivenUp::All => Ok(Closed::Empty),
        GivenUp::Nothing => walk.remains.close(stage.level, &mut walk.steps),
        GivenUp::Values(_) => walk.remains.close(stage.level, &mut walk.steps),
    }
}
