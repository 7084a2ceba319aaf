//! Doing what was found.
ghost use Rattle.std.specs.Prelude.{◌≡◌, ◌+◌, length, not, IsTrue, OnOk};
ghost use Rattle.qc_model.specs.Domains.{values_left};
ghost use Rattle.qc_model.specs.Refuted.{refuted_by};
ghost use Rattle.prop_base.specs.Filtering.{Answers, Fits, Prunes};
ghost use Rattle.prop_bool.specs.Findings.{IsFinding, given};
ghost use Rattle.prop_bool.specs.Literals.{both_truths, truth_number};

use crate::findings::Finding;
use fd_store::Store;
use proof_tree::StepList;
use prop_base::{Asked, Cut, Filtered, empty_last, filter_by_ends, prune};
use prop_compare::Table;
use qc_model::VarId;
use std::alloc::AllocError;

fn value_cut(x: VarId, value: bool) -> Cut
    ensures x { result.x ≡ x }
    ensures lo { result.lo ≡ truth_number value }
    ensures hi { result.hi ≡ truth_number value }
{
    if value {
        Cut { x, lo: 1, hi: 1 }
    } else {
        Cut { x, lo: 0, hi: 0 }
    }
}

/// Takes one of both values.
pub(crate) fn lose(
    asked: Asked,
    x: VarId,
    value: bool,
    store: &mut Store,
    steps: &mut StepList,
) -> Result<(), AllocError>
    requires fits { Fits asked store.old }
    requires both { values_left store.old.box x.0 ≡ both_truths }
    requires refuted { IsTrue (refuted_by asked.rule.now (given store.old.box x value)) }
    ensures pruning { Prunes asked.entry store.old store.new steps.old steps.new }
    ensures content { OnOk result (store.new.box ≡ given store.old.box x (not value)) }
    ensures grown { OnOk result (length steps.new ≡ length steps.old + 1) }
{
    let cut = value_cut(x, value);
    prune(asked, cut, store, steps)?;
    Ok(())
}

/// What was found is done.
pub(crate) fn act(
    asked: Asked,
    finding: Finding,
    store: &mut Store,
    steps: &mut StepList,
) -> Result<Filtered, AllocError>
    requires fits { Fits asked store.old }
    requires found { IsFinding finding asked.rule.now store.old.box }
    ensures pruning { Prunes asked.entry store.old store.new steps.old steps.new }
    ensures answer { Answers asked.entry store.new steps.old steps.new result }
{
    match finding {
        Finding::Nothing => Ok(Filtered::Stable),
        Finding::Refuted => empty_last(asked, store, steps),
        Finding::Loses(x, value) => {
            lose(asked, x, value, store, steps)?;
            Ok(Filtered::Changed)
        }
        Finding::Unknown => filter_by_ends(&Table {}, asked, store, steps),
    }
}
