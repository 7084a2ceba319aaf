//! How a constraint is tested.
ghost use Rattle.std.specs.Prelude.{◌≡◌, ℤ};
ghost use Rattle.qc_model.specs.RowMeaning.{plain_meaning};
ghost use Rattle.qc_model.specs.declared.problem.Arg.TheVariants.{Num as Literal};
ghost use Rattle.check_assignment.specs.Balance.{tested, test_of as test_in_spec};

use model_arguments::{arguments, one_at};
use qc_model::{Arg, Constraint, Meaning, meaning_of};

/// A sum that is compared with a number: by whether its balance, which is the sum less the number, is 0, isn't, or isn't
/// above. Any other constraint: by its values.
#[derive(Clone, Copy, PartialEq, Eq)]
pub(crate) enum Test {
    Equal,
    Different,
    AtMost,
    Other,
}

/// How a sum of this meaning is tested against a number.
fn sum_test(meaning: Meaning) -> Test
    ensures { (n : ℤ) → result ≡ tested (plain_meaning meaning) (Literal n) }
{
    match meaning {
        Meaning::SumEqual => Test::Equal,
        Meaning::SumDifferent => Test::Different,
        Meaning::SumAtMost => Test::AtMost,
        _ => Test::Other,
    }
}

/// How this constraint is tested.
pub(crate) fn test_of(rule: &Constraint) -> Test
    ensures { result ≡ test_in_spec rule.now }
{
    let row = meaning_of(rule.pred);
    if row.reified {
        return Test::Other;
    }
    match one_at(arguments(rule), 2) {
        Arg::Var(_) => Test::Other,
        Arg::Num(_) => sum_test(row.meaning),
    }
}
