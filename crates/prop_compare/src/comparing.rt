//! A comparison that is to hold, and one that is to fail.
ghost use Rattle.prop_base.specs.Filtering.{Answers, Fits, Prunes};
ghost use Rattle.prop_compare.specs.Compared.{IsPair, IsTested};
ghost use Rattle.prop_compare.specs.Telling.{entailing, refuting};

use crate::engines::{different, equal, ordered};
use fd_store::Store;
use proof_tree::StepList;
use prop_base::{Asked, Filtered};
use qc_model::Arg;
use std::alloc::AllocError;

/// The comparisons of two arguments.
#[derive(Clone, Copy, PartialEq, Eq)]
pub enum Comparison {
    Equal,
    Different,
    AtMost,
    Below,
}

/// The comparison is to hold.
pub(crate) fn compare(
    asked: Asked,
    comparison: Comparison,
    a: Arg,
    b: Arg,
    store: &mut Store,
    steps: &mut StepList,
) -> Result<Filtered, AllocError>
    requires fits { Fits asked store.old }
    requires pair { IsPair asked.problem.now asked.rule.now store.old.box a b }
    requires tested { IsTested asked.rule.now store.old.box a b (refuting comparison) }
    ensures pruning { Prunes asked.entry store.old store.new steps.old steps.new }
    ensures answer { Answers asked.entry store.new steps.old steps.new result }
{
    match comparison {
        Comparison::Equal => equal(asked, a, b, store, steps),
        Comparison::Different => different(asked, a, b, store, steps),
        Comparison::AtMost => ordered(asked, a, b, 0, store, steps),
        Comparison::Below => ordered(asked, a, b, 1, store, steps),
    }
}

/// The comparison is to fail: its contrary is to hold.
pub(crate) fn contrast(
    asked: Asked,
    comparison: Comparison,
    a: Arg,
    b: Arg,
    store: &mut Store,
    steps: &mut StepList,
) -> Result<Filtered, AllocError>
    requires fits { Fits asked store.old }
    requires pair { IsPair asked.problem.now asked.rule.now store.old.box a b }
    requires tested { IsTested asked.rule.now store.old.box a b (entailing comparison) }
    ensures pruning { Prunes asked.entry store.old store.new steps.old steps.new }
    ensures answer { Answers asked.entry store.new steps.old steps.new result }
{
    match comparison {
        Comparison::Equal => different(asked, a, b, store, steps),
        Comparison::Different => equal(asked, a, b, store, steps),
        Comparison::AtMost => ordered(asked, b, a, 1, store, steps),
        Comparison::Below => ordered(asked, b, a, 0, store, steps),
    }
}
