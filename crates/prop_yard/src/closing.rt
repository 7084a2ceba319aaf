//! Closing the constraints of a problem, once or again and again.
ghost use Rattle.std.specs.Prelude.{◌≡◌, ◌<◌, length, IfOk, IfSome, OnOk};
ghost use Rattle.fd_store.specs.Held.{Follows};
ghost use Rattle.prop_engine.specs.Closing.{EachRule};
ghost use Rattle.prop_engine.specs.Watching.{IsReady};
ghost use Rattle.prop_yard.specs.Closing.{IsChangedAt, IsClosedBox, is_any};

use crate::cutting::take;
use fd_store::{Removed, Store};
use model_arguments::Span;
use model_table::valid_is_ordered;
use proof_tree::StepList;
use prop_engine::{Closed, Engine, Filter};
use qc_model::{Problem, VarId};
use std::alloc::{AllocError, Global};

// All constraints.
fn all(problem: &Problem) -> Span
    ensures first { result.first ≡ 0 }
    ensures end { result.end ≡ length problem.now.constraints }
{
    Span {
        first: 0,
        end: problem.constraints(),
    }
}

/// Closes all constraints on the declared domains. None says that a domain is emptied.
pub(crate) fn close<F: Filter>(
    filter: &F,
    alloc: Global,
    problem: &Problem,
    engine: &mut Engine,
) -> Result<Option<Store>, AllocError>
    requires ready { IsReady problem.now engine.old }
    requires known { EachRule (is_any problem.now) problem.now F.knows }
    ensures ready { IsReady problem.now engine.new }
    ensures closed { IfOk result (λ left. IfSome left (λ s. IsClosedBox problem.now s.box)) }
{
    problem.known();
    valid_is_ordered();
    let mut store = Store::new(alloc, problem)?;
    let mut steps = StepList::new(alloc);
    match engine.close_span(filter, alloc, problem, all(problem), &mut store, &mut steps)? {
        Closed::Open => Ok(Some(store)),
        Closed::Empty => Ok(None),
    }
}

// Closes again after x has changed.
fn close_again<F: Filter>(
    filter: &F,
    alloc: Global,
    problem: &Problem,
    engine: &mut Engine,
    x: VarId,
    store: &mut Store,
) -> Result<(), AllocError>
    requires ready { IsReady problem.now engine.old }
    requires known { EachRule (is_any problem.now) problem.now F.knows }
    requires changed { IsChangedAt problem.now x store.old.box }
    ensures ready { IsReady problem.now engine.new }
    ensures past { Follows store.old store.new }
{
    let mut steps = StepList::new(alloc);
    engine.close_changed(
        filter,
        alloc,
        problem,
        all(problem),
        &[x],
        store,
        &mut steps,
    )?;
    Ok(())
}

// Takes the least value of x away, and closes again where others are left.
fn lose_least<F: Filter>(
    filter: &F,
    alloc: Global,
    problem: &Problem,
    engine: &mut Engine,
    x: VarId,
    store: &mut Store,
) -> Result<(), AllocError>
    requires ready { IsReady problem.now engine.old }
    requires known { EachRule (is_any problem.now) problem.now F.knows }
    requires closed { IsClosedBox problem.now store.old.box }
    requires x { x.0 < length store.old.box }
    ensures ready { IsReady problem.now engine.new }
    ensures past { Follows store.old store.new }
{
    let low = store.min(x);
    match take(x, low, store)? {
        Removed::Some => close_again(filter, alloc, problem, engine, x, store),
        Removed::Nothing => Ok(()),
        Removed::Emptied => Ok(()),
    }
}

// The same, and undoes it.
fn lose_and_undo<F: Filter>(
    filter: &F,
    alloc: Global,
    problem: &Problem,
    engine: &mut Engine,
    x: VarId,
    store: &mut Store,
) -> Result<(), AllocError>
    requires ready { IsReady problem.now engine.old }
    requires known { EachRule (is_any problem.now) problem.now F.knows }
    requires closed { IsClosedBox problem.now store.old.box }
    requires x { x.0 < length store.old.box }
    ensures ready { IsReady problem.now engine.new }
    ensures content { OnOk result (store.new.box ≡ store.old.box) }
{
    let mark = store.mark();
    lose_least(filter, alloc, problem, engine, x, store)?;
    store.undo_to(mark);
    Ok(())
}

/// So many times takes a variable's least value away, one variable after the other, closes again, and undoes that.
pub(crate) fn close_repeatedly<F: Filter>(
    filter: &F,
    alloc: Global,
    problem: &Problem,
    engine: &mut Engine,
    rounds: u32,
    store: &mut Store,
) -> Result<(), AllocError>
    requires ready { IsReady problem.now engine.old }
    requires known { EachRule (is_any problem.now) problem.now F.knows }
    requires closed { IsClosedBox problem.now store.old.box }
    ensures ready { IsReady problem.now engine.new }
    ensures content { OnOk result (store.new.box ≡ store.old.box) }
{
    problem.known();
    let count = problem.variables();
    if count == 0 {
        return Ok(());
    }
    for k in 0..rounds {
        let x = VarId((k as usize % count) as u16);
        lose_and_undo(filter, alloc, problem, engine, x, store)?;
    }
    Ok(())
}
