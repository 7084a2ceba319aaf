//! Whether a box of the node is closed for all scopes ahead.
ghost use Rattle.std.specs.Prelude.{◌≡◌, ◌<◌, ◌≤◌, suc, true, length, IfOk, IsTrue, IsFalse};
ghost use Rattle.qc_model.specs.Content.{Rule};
ghost use Rattle.qc_model.specs.Domains.{has_empty};
ghost use Rattle.model_arguments.specs.Asked.{is_box_of};
ghost use Rattle.model_levels.specs.Spans.{is_number_within};
ghost use Rattle.search_joint.specs.Inside.{IsClosedInside};
ghost use Rattle.search_joint.specs.Stacked.{IsAtRest};

use crate::entry::Entry;
use crate::inside::close_inside;
use crate::stack::{last_of, pop_from};
use fd_store::Store;
use model_levels::Levels;
use proof_tree::StepList;
use prop_engine::{Engine, Filter};
use qc_model::{ScopeId, VarId};
use std::alloc::{AllocError, Global};

// Whether the entry's constraints are those of the scopes from i to the one before `stop`, and maybe more.
fn covers(entry: &Entry, i: ScopeId, stop: usize) -> bool
    ensures { IsTrue result → (entry.now.from.0 ≤ i.0) × (stop ≤ entry.now.stop) }
{
    entry.from.0 <= i.0 && stop <= entry.stop
}

/// Whether a box within this one is found that is closed for the constraints of the scopes from i to the one before `stop`. It
/// begins with the box of the last entry before scope i, and makes an entry of what it finds.
pub(crate) fn see_within<F: Filter>(
    filter: &F,
    alloc: Global,
    levels: &Levels,
    i: ScopeId,
    stop: usize,
    within: &Store,
    changed: &mut Vec<VarId>,
    entries: &mut Vec<Entry>,
    engine: &mut Engine,
    store: &mut Store,
    steps: &mut StepList,
) -> Result<bool, AllocError>
    requires rest { IsAtRest levels.now.problem.now engine.old store.old entries.old.items }
    requires known { (c : Rule) → F.knows c ≡ true }
    requires ahead { i.0 < stop }
    requires stop { stop ≤ suc (length levels.now.problem.now.scopes) }
    requires declared_there { IsTrue (is_box_of levels.now.problem.now within.now.box) }
    requires full_there { IsFalse (has_empty within.now.box) }
    ensures rest { IsAtRest levels.now.problem.now engine.new store.new entries.new.items }
    ensures answer { IfOk result (λ ok. IsTrue ok → IsClosedInside (is_number_within levels.now.problem.now i.0 stop) levels.now.problem.now store.new.box within.now.box) }
{
    levels.problem.known();
    let span = levels.constraints_between(i, ScopeId((stop - 1) as u8));
    pop_from(entries, i);
    let last = last_of(entries);
    store.undo_to(last.mark);
    let was_kept = covers(&last, i, stop);
    if !close_inside(
        filter,
        alloc,
        levels.problem,
        span,
        was_kept,
        within,
        changed,
        engine,
        store,
        steps,
    )? {
        return Ok(false);
    }
    entries.push(Entry {
        mark: store.mark(),
        from: i,
        stop,
    })?;
    Ok(true)
}
