//! A constraint whose last argument tells whether something holds, while it can tell both.
ghost use Rattle.std.specs.Prelude.{◌≡◌, ◌+◌, [], ◌∷◌, length, false, pos, IsTrue, IsFalse, IfOk, OnOk, Some};
ghost use Rattle.qc_model.specs.declared.problem.Arg.TheVariants.{Var};
ghost use Rattle.qc_model.specs.Arguments.{last_of};
ghost use Rattle.qc_model.specs.Closed.{keeps_ends};
ghost use Rattle.qc_model.specs.Domains.{box_at, has_empty, is_single, values_left};
ghost use Rattle.qc_model.specs.Refuted.{left_to, refuted_by};
ghost use Rattle.qc_model.specs.Signature.{arg_kinds_of};
ghost use Rattle.qc_model.specs.declared.signature.ArgKind.TheVariants.{Boolean};
ghost use Rattle.model_arguments.specs.Asked.{IsAsked};
ghost use Rattle.model_arguments.specs.Written.{last_arg};
ghost use Rattle.prop_base.specs.Filtering.{Fits, Prunes};
ghost use Rattle.prop_compare.specs.Telling.{truth_of};
ghost use Rattle.prop_compare.specs.Untold.{RefutesNone, IsGrown, after};

use crate::table::Table;
use crate::truths::{loose, truth_cut};
use fd_store::Store;
use model_arguments::{arguments, last_one};
use proof_tree::StepList;
use prop_base::{Asked, Filtered, Refuter, prune};
use qc_model::{Constraint, Problem, VarId};
use std::alloc::AllocError;

/// What to answer after a filter, where something was removed before it or not.
pub fn joined(changed: bool, later: Filtered) -> Filtered
    ensures { result ≡ after changed later }
{
    match later {
        Filtered::Stable if changed => Filtered::Changed,
        _ => later,
    }
}

// Whether the constraint refutes what x would tell.
fn can_not_tell(problem: &Problem, rule: &Constraint, x: VarId, told: bool, store: &Store) -> bool
    requires asked { IsAsked problem.now rule.now store.now.box }
    requires both { values_left store.now.box x.0 ≡ pos 0 ∷ pos 1 ∷ [] }
    ensures { result ≡ refuted_by rule.now (box_at store.now.box x.0 (truth_of told)) }
{
    let cut = truth_cut(x, told);
    let table = Table {};
    table.refutes_in(problem, rule, store, cut.x, cut.lo, cut.hi)
}

/// Takes a truth value from x, to which both are left, where the constraint refutes that value: x tells the other from
/// now on.
pub fn tell_other(
    asked: Asked,
    x: VarId,
    told: bool,
    store: &mut Store,
    steps: &mut StepList,
) -> Result<(), AllocError>
    requires fits { Fits asked store.old }
    requires both { values_left store.old.box x.0 ≡ pos 0 ∷ pos 1 ∷ [] }
    requires refuted { IsTrue (refuted_by asked.rule.now (box_at store.old.box x.0 (truth_of told))) }
    ensures pruning { Prunes asked.entry store.old store.new steps.old steps.new }
    ensures full { OnOk result (IsFalse (has_empty store.new.box)) }
    ensures grown { OnOk result (length steps.new ≡ length steps.old + 1) }
    ensures single { OnOk result (IsTrue (is_single (values_left store.new.box x.0))) }
{
    let cut = truth_cut(x, told);
    prune(asked, cut, store, steps)?;
    Ok(())
}

// x can tell both, so far.
fn tell_untold(
    asked: Asked,
    x: VarId,
    store: &mut Store,
    steps: &mut StepList,
) -> Result<bool, AllocError>
    requires fits { Fits asked store.old }
    requires both { values_left store.old.box x.0 ≡ pos 0 ∷ pos 1 ∷ [] }
    requires none { RefutesNone asked.rule.now store.old.box (Var x) }
    ensures pruning { Prunes asked.entry store.old store.new steps.old steps.new }
    ensures full { OnOk result (IsFalse (has_empty store.new.box)) }
    ensures grown { IfOk result (λ b. IsGrown b steps.old steps.new) }
    ensures open { IfOk result (λ b. IsFalse (is_single (values_left store.new.box x.0)) → (b ≡ false) × IsTrue (keeps_ends store.new.box asked.entry.rule.now)) }
{
    if can_not_tell(asked.problem, asked.rule, x, true, store) {
        tell_other(asked, x, true, store, steps)?;
        return Ok(true);
    }
    if can_not_tell(asked.problem, asked.rule, x, false, store) {
        tell_other(asked, x, false, store, steps)?;
        return Ok(true);
    }
    Ok(false)
}

/// Of a constraint whose last argument is a truth value, and which refutes nothing while that can be both: where it can be
/// both, one is taken from it if the constraint refutes that, by two questions. It answers whether one was taken. Where the
/// argument can still be both after it, the constraint refutes no end of its own variables.
pub fn tell(asked: Asked, store: &mut Store, steps: &mut StepList) -> Result<bool, AllocError>
    requires fits { Fits asked store.old }
    requires truth { last_of (arg_kinds_of asked.rule.now.pred) ≡ Some Boolean }
    requires none { RefutesNone asked.rule.now store.old.box (last_arg asked.rule.now.args) }
    ensures pruning { Prunes asked.entry store.old store.new steps.old steps.new }
    ensures full { OnOk result (IsFalse (has_empty store.new.box)) }
    ensures grown { IfOk result (λ b. IsGrown b steps.old steps.new) }
    ensures open { IfOk result (λ b. IsFalse (is_single (left_to store.new.box (last_arg asked.entry.rule.now.args))) → (b ≡ false) × IsTrue (keeps_ends store.new.box asked.entry.rule.now)) }
{
    asked.problem.known();
    let r = last_one(arguments(asked.rule));
    match loose(r, store) {
        Some(x) => tell_untold(asked, x, store, steps),
        None => Ok(false),
    }
}
