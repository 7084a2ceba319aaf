//! Cuts on a store, and marks to come back to.
ghost use Rattle.std.specs.Prelude.{◌≡◌, ◌<◌, ◌≤◌, ◌⊎◌, ◌++◌, ◌∷◌, [], length, slice_get, Some, IsFalse};
ghost use Rattle.qc_model.specs.Domains.{has_empty, values_left};
ghost use Rattle.fd_store.specs.Held.{removal_need};
ghost use Rattle.lemma_ground.specs.Steady.{GoesOn};

use crate::boxes::Cut;
use fd_store::{Mark, Store};
use qc_model::VarId;
use std::alloc::AllocError;

// Takes the values from lo to hi out of x, and says how many are left.
fn remove_counted(store: &mut Store, x: VarId, lo: i64, hi: i64) -> u32
    requires var { x.0 < length store.old.box }
    requires room { removal_need (values_left store.old.box x.0) lo hi ≤ store.old.spare }
    ensures goes { GoesOn store.old store.new }
    ensures full { 0 < result → IsFalse (has_empty store.old.box) → IsFalse (has_empty store.new.box) }
{
    let _ = store.remove(x, lo, hi);
    store.size(x)
}

// The same, unless none would be left.
#[tactic(auto, using(crate::proofs::Going::goes_back))]
fn cut_reserved(store: &mut Store, x: VarId, lo: i64, hi: i64) -> Cut
    requires var { x.0 < length store.old.box }
    requires room { removal_need (values_left store.old.box x.0) lo hi ≤ store.old.spare }
    ensures goes { GoesOn store.old store.new }
    ensures full { IsFalse (has_empty store.old.box) → IsFalse (has_empty store.new.box) }
{
    let before = store.size(x);
    let mark = store.mark();
    let left = remove_counted(store, x, lo, hi);
    if left == 0 {
        store.undo_to(mark);
        return Cut::Emptied;
    }
    if left < before {
        Cut::Some
    } else {
        Cut::Nothing
    }
}

/// Takes the values from lo to hi out of x, unless none would stay.
pub(crate) fn cut_from(store: &mut Store, x: VarId, lo: i64, hi: i64) -> Result<Cut, AllocError>
    requires { x.0 < length store.old.box }
    ensures goes { GoesOn store.old store.new }
    ensures full { IsFalse (has_empty store.old.box) → IsFalse (has_empty store.new.box) }
{
    let need = store.trail_need(x, lo, hi);
    store.reserve_trail(need)?;
    Ok(cut_reserved(store, x, lo, hi))
}

/// The mark with this number, which is there.
pub(crate) fn mark_at(marks: &Vec<Mark>, level: usize) -> Mark
    requires { level < length marks.now.items }
    ensures { slice_get marks.now.items level ≡ Some result }
{
    marks[level]
}

/// Puts a mark at the end. Where memory is refused, the marks stay as they were.
pub(crate) fn push_mark(marks: &mut Vec<Mark>, mark: Mark) -> Result<(), AllocError>
    ensures { (marks.new.items ≡ marks.old.items) ⊎ (marks.new.items ≡ marks.old.items ++ mark ∷ []) }
{
    marks.push(mark)?;
    Ok(())
}
