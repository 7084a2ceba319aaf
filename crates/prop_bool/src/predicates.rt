//! The filters of truth values, one for each meaning.
ghost use Rattle.std.specs.Prelude.{◌≡◌};
ghost use Rattle.qc_model.specs.Meaning.{all_items, both, clause, either, exactly_one, meaning_of, odd_items, reified, some_item};
ghost use Rattle.prop_base.specs.Filtering.{Answers, Fits, Prunes};

use crate::disjunctions::filter_disjunction;
use crate::literals::Literal;
use crate::parities::filter_parity;
use fd_store::Store;
use model_arguments::{arguments, items_at, last_one, one_at};
use proof_tree::StepList;
use prop_base::{Asked, Filtered};
use qc_model::Arg;
use std::alloc::AllocError;

/// Some item of the first array is 1, or some item of the second 0.
pub(crate) fn filter_clause(
    asked: Asked,
    store: &mut Store,
    steps: &mut StepList,
) -> Result<Filtered, AllocError>
    requires meaning { meaning_of asked.rule.now.pred ≡ clause }
    requires fits { Fits asked store.old }
    ensures pruning { Prunes asked.entry store.old store.new steps.old steps.new }
    ensures answer { Answers asked.entry store.new steps.old steps.new result }
{
    let args = arguments(asked.rule);
    let plain = items_at(args, 0);
    let negated = items_at(args, 1);
    let head = Literal {
        arg: Arg::Num(1),
        positive: true,
    };
    filter_disjunction(asked, plain, negated, head, store, steps)
}

/// The last argument says whether the clause of the two arrays holds.
pub(crate) fn filter_told_clause(
    asked: Asked,
    store: &mut Store,
    steps: &mut StepList,
) -> Result<Filtered, AllocError>
    requires meaning { meaning_of asked.rule.now.pred ≡ reified clause }
    requires fits { Fits asked store.old }
    ensures pruning { Prunes asked.entry store.old store.new steps.old steps.new }
    ensures answer { Answers asked.entry store.new steps.old steps.new result }
{
    let args = arguments(asked.rule);
    let plain = items_at(args, 0);
    let negated = items_at(args, 1);
    let head = Literal {
        arg: last_one(args),
        positive: true,
    };
    filter_disjunction(asked, plain, negated, head, store, steps)
}

/// The result is 0 where some item is.
pub(crate) fn filter_all_items(
    asked: Asked,
    store: &mut Store,
    steps: &mut StepList,
) -> Result<Filtered, AllocError>
    requires meaning { meaning_of asked.rule.now.pred ≡ all_items }
    requires fits { Fits asked store.old }
    ensures pruning { Prunes asked.entry store.old store.new steps.old steps.new }
    ensures answer { Answers asked.entry store.new steps.old steps.new result }
{
    let args = arguments(asked.rule);
    let items = items_at(args, 0);
    let head = Literal {
        arg: one_at(args, 1),
        positive: false,
    };
    filter_disjunction(asked, &[], items, head, store, steps)
}

/// The result is 1 where some item is.
pub(crate) fn filter_some_item(
    asked: Asked,
    store: &mut Store,
    steps: &mut StepList,
) -> Result<Filtered, AllocError>
    requires meaning { meaning_of asked.rule.now.pred ≡ some_item }
    requires fits { Fits asked store.old }
    ensures pruning { Prunes asked.entry store.old store.new steps.old steps.new }
    ensures answer { Answers asked.entry store.new steps.old steps.new result }
{
    let args = arguments(asked.rule);
    let items = items_at(args, 0);
    let head = Literal {
        arg: one_at(args, 1),
        positive: true,
    };
    filter_disjunction(asked, items, &[], head, store, steps)
}

/// The result is 0 where one of both is.
pub(crate) fn filter_both(
    asked: Asked,
    store: &mut Store,
    steps: &mut StepList,
) -> Result<Filtered, AllocError>
    requires meaning { meaning_of asked.rule.now.pred ≡ both }
    requires fits { Fits asked store.old }
    ensures pruning { Prunes asked.entry store.old store.new steps.old steps.new }
    ensures answer { Answers asked.entry store.new steps.old steps.new result }
{
    let args = arguments(asked.rule);
    let items = [one_at(args, 0), one_at(args, 1)];
    let head = Literal {
        arg: one_at(args, 2),
        positive: false,
    };
    filter_disjunction(asked, &[], &items, head, store, steps)
}

/// The result is 1 where one of both is.
pub(crate) fn filter_either(
    asked: Asked,
    store: &mut Store,
    steps: &mut StepList,
) -> Result<Filtered, AllocError>
    requires meaning { meaning_of asked.rule.now.pred ≡ either }
    requires fits { Fits asked store.old }
    ensures pruning { Prunes asked.entry store.old store.new steps.old steps.new }
    ensures answer { Answers asked.entry store.new steps.old steps.new result }
{
    let args = arguments(asked.rule);
    let items = [one_at(args, 0), one_at(args, 1)];
    let head = Literal {
        arg: one_at(args, 2),
        positive: true,
    };
    filter_disjunction(asked, &items, &[], head, store, steps)
}

/// An odd number of items are 1.
pub(crate) fn filter_odd_items(
    asked: Asked,
    store: &mut Store,
    steps: &mut StepList,
) -> Result<Filtered, AllocError>
    requires meaning { meaning_of asked.rule.now.pred ≡ odd_items }
    requires fits { Fits asked store.old }
    ensures pruning { Prunes asked.entry store.old store.new steps.old steps.new }
    ensures answer { Answers asked.entry store.new steps.old steps.new result }
{
    let items = items_at(arguments(asked.rule), 0);
    filter_parity(asked, items, true, store, steps)
}

/// The third says whether the first two differ: an even number of the three are 1.
pub(crate) fn filter_exactly_one(
    asked: Asked,
    store: &mut Store,
    steps: &mut StepList,
) -> Result<Filtered, AllocError>
    requires meaning { meaning_of asked.rule.now.pred ≡ exactly_one }
    requires fits { Fits asked store.old }
    ensures pruning { Prunes asked.entry store.old store.new steps.old steps.new }
    ensures answer { Answers asked.entry store.new steps.old steps.new result }
{
    let args = arguments(asked.rule);
    let items = [one_at(args, 0), one_at(args, 1), one_at(args, 2)];
    filter_parity(asked, &items, false, store, steps)
}
