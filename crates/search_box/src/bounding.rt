//! Giving up values of a variable that is optimised.
ghost use Rattle.std.specs.Prelude.{◌≡◌, ◌<◌, ◌≤◌, true, false, not, length, IfOk, OnOk, OnErr};
ghost use Rattle.qc_model.specs.Domains.{box_without, has_empty, is_none_left, values_left, values_within};
ghost use Rattle.qc_model.specs.Valid.{is_number};
ghost use Rattle.fd_store.specs.Held.{Follows};
ghost use Rattle.proof_tree.specs.Steps.{best_value};
ghost use Rattle.search_box.specs.Bounds.{BoundAnswers};

use fd_store::Store;
use proof_tree::{Step, StepList};
use qc_model::{Sense, VarId};
use std::alloc::AllocError;

/// The best value that was given up, and whether the variable has none left.
#[derive(Clone, Copy, PartialEq, Eq)]
pub struct Bounded {
    pub best: i64,
    pub is_empty: bool,
}

// Whether x has a value from lo to hi.
fn has_within(store: &Store, x: VarId, lo: i64, hi: i64) -> bool
    requires { x.0 < length store.now.box }
    ensures { result ≡ not (is_none_left (values_within lo hi (values_left store.now.box x.0))) }
{
    store.known(x);
    match store.next(x, lo) {
        None => false,
        Some(v) => v <= hi,
    }
}

// The best of the values of x from lo to hi.
fn best_within(store: &Store, sense: Sense, x: VarId, lo: i64, hi: i64) -> i64
    requires var { x.0 < length store.now.box }
    requires left { is_none_left (values_within lo hi (values_left store.now.box x.0)) ≡ false }
    ensures { result ≡ best_value sense (values_within lo hi (values_left store.now.box x.0)) }
{
    match sense {
        Sense::Min => store.min_in(x, lo, hi),
        Sense::Max => store.max_in(x, lo, hi),
    }
}

/// Takes the values from lo to hi out of x, and appends the bound. None comes where x has no such value. After a refusal
/// nothing was taken and no step appended.
pub(crate) fn give_up(
    sense: Sense,
    x: VarId,
    lo: i64,
    hi: i64,
    store: &mut Store,
    steps: &mut StepList,
) -> Result<Option<Bounded>, AllocError>
    requires var { x.0 < length store.old.box }
    requires few { length store.old.box ≤ 500 }
    requires lo { is_number lo ≡ true }
    requires hi { is_number hi ≡ true }
    requires full { has_empty store.old.box ≡ false }
    ensures answer { IfOk result (λ b. BoundAnswers sense x lo hi store.old.box store.new.box steps.old steps.new b) }
    ensures content { OnOk result (store.new.box ≡ box_without store.old.box x.0 lo hi) }
    ensures same { OnErr result ((store.new.box ≡ store.old.box) × (steps.new ≡ steps.old)) }
    ensures past { Follows store.old store.new }
{
    if !has_within(store, x, lo, hi) {
        return Ok(None);
    }
    let best = best_within(store, sense, x, lo, hi);
    let need = store.trail_need(x, lo, hi);
    store.reserve_trail(need)?;
    steps.push(Step::Bound { x, lo, hi })?;
    let _ = store.remove(x, lo, hi);
    Ok(Some(Bounded {
        best,
        is_empty: store.size(x) == 0,
    }))
}
