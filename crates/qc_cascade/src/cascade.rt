//! Joint stores, closed one after another.
ghost use Rattle.std.specs.Prelude.{◌≤◌, suc, length, IsTrue, IsFalse, IfOk};
ghost use Rattle.qc_model.specs.Closed.{keeps_ends};
ghost use Rattle.qc_model.specs.Domains.{has_empty};
ghost use Rattle.model_arguments.specs.Asked.{is_box_of};
ghost use Rattle.fd_store.specs.Held.{Follows};
ghost use Rattle.model_levels.specs.Spans.{IsSpanOf, is_number_within};
ghost use Rattle.prop_base.specs.Pruning.{IsPruning};
ghost use Rattle.prop_engine.specs.Closing.{EachRule, IsClosing};
ghost use Rattle.prop_engine.specs.Watching.{IsReady};
ghost use Rattle.qc_cascade.specs.Ahead.{EachKnown, IsEntered};

use crate::adding::close_added;
use crate::entered::Entered;
use fd_store::Store;
use model_arguments::Span;
use model_levels::Levels;
use proof_tree::StepList;
use prop_engine::{Closed, Engine, Filter};
use qc_model::ScopeId;
use std::alloc::{AllocError, Global};

// The numbers of the constraints of the scopes from i to the one before k.
#[tactic(auto, using(crate::proofs::Joint::none_yet))]
fn span_before(levels: &Levels, i: ScopeId, k: ScopeId) -> Span
    requires ahead { i.0 ≤ k.0 }
    requires to { k.0 ≤ length levels.now.problem.now.scopes }
    ensures { IsSpanOf levels.now.problem.now i.0 k.0 result.first result.end }
{
    if i.0 == k.0 {
        return Span { first: 0, end: 0 };
    }
    levels.constraints_between(i, ScopeId(k.0 - 1))
}

// Closes the joint store of scopes i to k in what that of the scopes before k has left.
fn close_joint<F: Filter>(
    filter: &F,
    alloc: Global,
    levels: &Levels,
    engine: &mut Engine,
    i: ScopeId,
    k: ScopeId,
    store: &mut Store,
    steps: &mut StepList,
) -> Result<Closed, AllocError>
    requires ready { IsReady levels.now.problem.now engine.old }
    requires known { EachKnown levels.now.problem.now F.knows }
    requires ahead { i.0 ≤ k.0 }
    requires to { k.0 ≤ length levels.now.problem.now.scopes }
    requires declared { IsTrue (is_box_of levels.now.problem.now store.old.box) }
    requires full { IsFalse (has_empty store.old.box) }
    requires kept { EachRule (is_number_within levels.now.problem.now i.0 k.0) levels.now.problem.now (keeps_ends store.old.box) }
    ensures ready { IsReady levels.now.problem.now engine.new }
    ensures pruning { IsPruning (is_number_within levels.now.problem.now i.0 (suc k.0)) levels.now.problem.now store.old store.new steps.old steps.new }
    ensures answer { IfOk result (λ a. IsClosing a (is_number_within levels.now.problem.now i.0 (suc k.0)) levels.now.problem.now store.new.box) }
{
    let closed = span_before(levels, i, k);
    let fresh = levels.constraints_between(k, k);
    close_added(
        filter,
        alloc,
        levels.problem,
        engine,
        closed,
        fresh,
        store,
        steps,
    )
}

/// Closes the joint stores of scopes i to k for k from i to the number before `stop` in turn, each in what the one before
/// left, until one is empty. The store goes from box to box, and isn't undone.
#[tactic(auto, using(crate::proofs::Joint::none_kept))]
pub(crate) fn first_empty<F: Filter>(
    filter: &F,
    alloc: Global,
    levels: &Levels,
    engine: &mut Engine,
    i: ScopeId,
    stop: usize,
    store: &mut Store,
) -> Result<Entered, AllocError>
    requires ready { IsReady levels.now.problem.now engine.old }
    requires known { EachKnown levels.now.problem.now F.knows }
    requires stop { stop ≤ suc (length levels.now.problem.now.scopes) }
    requires declared { IsTrue (is_box_of levels.now.problem.now store.old.box) }
    requires full { IsFalse (has_empty store.old.box) }
    ensures ready { IsReady levels.now.problem.now engine.new }
    ensures follows { Follows store.old store.new }
    ensures answer { IfOk result (λ e. IsEntered levels.now.problem.now i.0 stop store.old.box e.horizon e.steps) }
{
    levels.problem.known();
    let mut steps = StepList::new(alloc);
    for k in i.0 as usize..stop {
        let k = ScopeId(k as u8);
        match close_joint(filter, alloc, levels, engine, i, k, store, &mut steps)? {
            Closed::Open => {}
            Closed::Empty => {
                return Ok(Entered {
                    horizon: Some(k),
                    steps,
                });
            }
        }
    }
    Ok(Entered {
        horizon: None,
        steps: StepList::new(alloc),
    })
}
