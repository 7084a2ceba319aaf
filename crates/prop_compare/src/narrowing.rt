//! What removals of an argument's values do.
ghost use Rattle.std.specs.Prelude.{◌≡◌, ◌+◌, ◌<◌, IsTrue, IsFalse, OnOk, IfOk, length, true, false, not, pos, negsuc, ◌+ℤ◌, ◌-ℤ◌, ◌≤ℤ◌};
ghost use Rattle.qc_model.specs.Closed.{keeps_ends};
ghost use Rattle.qc_model.specs.Domains.{has_empty, is_none_left, values_left, values_within, values_outside};
ghost use Rattle.qc_model.specs.Refuted.{left_to, refuted_by};
ghost use Rattle.qc_model.specs.Valid.{is_number};
ghost use Rattle.qc_refuter.specs.Met.{is_open};
ghost use Rattle.prop_base.specs.Filtering.{Fits, Prunes};
ghost use Rattle.prop_compare.specs.Compared.{IsNarrowing, IsPair, box_kept, box_with};
ghost use Rattle.prop_compare.specs.Keeping.{IsReducing};
ghost use Rattle.qc_model.specs.declared.problem.Arg.TheVariants.{Var};

use crate::keeping::{Ends, Keeping};
use crate::reading::{greatest, least};
use fd_store::Store;
use proof_tree::StepList;
use prop_base::{Asked, Cut, prune};
use qc_model::{Arg, VarId};
use std::alloc::AllocError;

// Whether x has a value from lo to hi.
fn has_some(x: VarId, lo: i64, hi: i64, store: &Store) -> bool
    requires { x.0 < length store.now.box }
    ensures { result ≡ not (is_none_left (values_within lo hi (values_left store.now.box x.0))) }
{
    match store.next(x, lo) {
        Some(v) => v <= hi,
        None => false,
    }
}

/// Takes the values from lo to hi out of an argument, with a step where it has some. It answers whether it had.
pub(crate) fn take_out(
    asked: Asked,
    a: Arg,
    lo: i64,
    hi: i64,
    store: &mut Store,
    steps: &mut StepList,
) -> Result<bool, AllocError>
    requires fits { Fits asked store.old }
    requires open { IsTrue (is_open store.old.box a) }
    requires low { negsuc 999999999 ≤ℤ lo }
    requires high { hi ≤ℤ pos 1000000000 }
    requires refuted { (x : VarId) → a ≡ Var x → IsFalse (is_none_left (values_within lo hi (left_to store.old.box a))) → IsTrue (refuted_by asked.rule.now (box_with store.old.box a (values_within lo hi (left_to store.old.box a)))) }
    ensures pruning { Prunes asked.entry store.old store.new steps.old steps.new }
    ensures content { OnOk result (store.new.box ≡ box_with store.old.box a (values_outside lo hi (left_to store.old.box a))) }
    ensures grown { IfOk result (λ b. (b ≡ true → length steps.new ≡ length steps.old + 1) × (b ≡ false → steps.new ≡ steps.old)) }
{
    asked.problem.known();
    match a {
        Arg::Num(_) => Ok(false),
        Arg::Var(x) => {
            if !has_some(x, lo, hi, store) {
                return Ok(false);
            }
            let cut = Cut { x, lo, hi };
            prune(asked, cut, store, steps)?;
            Ok(true)
        }
    }
}

// The number before, and the number after.
fn before(v: i64) -> i64
    requires { IsTrue (is_number v) }
    ensures { result ≡ v -ℤ pos 1 }
{
    v - 1
}

fn after(v: i64) -> i64
    requires { IsTrue (is_number v) }
    ensures { result ≡ v +ℤ pos 1 }
{
    v + 1
}

/// Takes out the values that don't lie within the ends. It answers whether there were some.
pub(crate) fn narrow(
    asked: Asked,
    a: Arg,
    keep: Ends,
    store: &mut Store,
    steps: &mut StepList,
) -> Result<bool, AllocError>
    requires fits { Fits asked store.old }
    requires open { IsTrue (is_open store.old.box a) }
    requires narrowing { IsNarrowing asked.rule.now store.old.box a keep.lo keep.hi }
    ensures pruning { Prunes asked.entry store.old store.new steps.old steps.new }
    ensures content { OnOk result (store.new.box ≡ box_kept store.old.box a keep.lo keep.hi) }
    ensures grown { IfOk result (λ b. (b ≡ true → length steps.old < length steps.new) × (b ≡ false → steps.new ≡ steps.old)) }
{
    let low = least(a, store);
    let high = greatest(a, store);
    let under = before(keep.lo);
    let over = after(keep.hi);
    let some_under = take_out(asked, a, low, under, store, steps)?;
    let some_over = take_out(asked, a, over, high, store, steps)?;
    Ok(some_under || some_over)
}

/// Takes out of both what is not to be kept. It answers whether there was something.
pub(crate) fn narrow_both(
    asked: Asked,
    a: Arg,
    b: Arg,
    keep: Keeping,
    store: &mut Store,
    steps: &mut StepList,
) -> Result<bool, AllocError>
    requires fits { Fits asked store.old }
    requires pair { IsPair asked.problem.now asked.rule.now store.old.box a b }
    requires reducing { IsReducing asked.rule.now store.old.box a b keep }
    ensures pruning { Prunes asked.entry store.old store.new steps.old steps.new }
    ensures full { OnOk result (IsFalse (has_empty store.new.box)) }
    ensures keeps { OnOk result (IsTrue (keeps_ends store.new.box asked.entry.rule.now)) }
    ensures grown { IfOk result (λ b. (b ≡ true → length steps.old < length steps.new) × (b ≡ false → steps.new ≡ steps.old)) }
{
    let first = narrow(asked, a, keep.first, store, steps)?;
    let second = narrow(asked, b, keep.second, store, steps)?;
    Ok(first || second)
}
