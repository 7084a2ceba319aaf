//! One removal.
ghost use Rattle.std.specs.Prelude.{◌≡◌, ◌+◌, length, IsFalse, OnOk, IfOk};
ghost use Rattle.qc_model.specs.Domains.{box_without, has_empty};
ghost use Rattle.prop_base.specs.Closed.{IsCut};
ghost use Rattle.prop_base.specs.Filtering.{Prunes};

use crate::asked::Asked;
use crate::cuts::Cut;
use crate::nearing::near_cut;
use fd_store::Store;
use proof_tree::{Step, StepList};
use std::alloc::AllocError;

// Takes the values of a cut out of the store, and appends the step that names it.
fn prune_named(
    asked: Asked,
    cut: Cut,
    store: &mut Store,
    steps: &mut StepList,
) -> Result<bool, AllocError>
    requires full { IsFalse (has_empty store.old.box) }
    requires cut { IsCut asked.rule.now store.old.box cut }
    ensures pruning { Prunes asked.entry store.old store.new steps.old steps.new }
    ensures content { OnOk result (store.new.box ≡ box_without store.old.box cut.x.0 cut.lo cut.hi) }
    ensures emptied { IfOk result (λ b. b ≡ has_empty store.new.box) }
    ensures grown { OnOk result (length steps.new ≡ length steps.old + 1) }
{
    let need = store.trail_need(cut.x, cut.lo, cut.hi);
    store.reserve_trail(need)?;
    steps.push(Step::Prune {
        x: cut.x,
        lo: cut.lo,
        hi: cut.hi,
        c: asked.c,
    })?;
    let _ = store.remove(cut.x, cut.lo, cut.hi);
    Ok(store.size(cut.x) == 0)
}

/// Takes the values of a cut out of the store, and appends a step, which names no more than the range in which the variable
/// has values. It answers whether none is left. After a refusal nothing was removed and no step appended.
pub fn prune(
    asked: Asked,
    cut: Cut,
    store: &mut Store,
    steps: &mut StepList,
) -> Result<bool, AllocError>
    requires full { IsFalse (has_empty store.old.box) }
    requires cut { IsCut asked.rule.now store.old.box cut }
    ensures pruning { Prunes asked.entry store.old store.new steps.old steps.new }
    ensures content { OnOk result (store.new.box ≡ box_without store.old.box cut.x.0 cut.lo cut.hi) }
    ensures emptied { IfOk result (λ b. b ≡ has_empty store.new.box) }
    ensures grown { OnOk result (length steps.new ≡ length steps.old + 1) }
{
    prune_named(asked, near_cut(asked.rule, cut, store), store, steps)
}
