//! The sum of two integers.
ghost use Rattle.std.specs.Prelude.{◌≡◌};
ghost use Rattle.qc_model.specs.declared.problem.Pred.TheVariants.{IntPlus};
ghost use Rattle.prop_base.specs.Filtering.{Answers, Fits, Prunes};

use fd_store::Store;
use model_arguments::{arguments, one_at};
use proof_tree::StepList;
use prop_base::{Asked, Filtered};
use prop_linear::filter_sum_equal;
use std::alloc::AllocError;

/// The first two integers are together the third: their sum, without the third, is 0.
pub(crate) fn filter_plus(
    asked: Asked,
    store: &mut Store,
    steps: &mut StepList,
) -> Result<Filtered, AllocError>
    requires pred { asked.rule.now.pred ≡ IntPlus }
    requires fits { Fits asked store.old }
    ensures pruning { Prunes asked.entry store.old store.new steps.old steps.new }
    ensures answer { Answers asked.entry store.new steps.old steps.new result }
{
    asked.problem.known();
    let args = arguments(asked.rule);
    let items = [one_at(args, 0), one_at(args, 1), one_at(args, 2)];
    filter_sum_equal(asked, &[1, 1, -1], &items, 0, store, steps)
}
