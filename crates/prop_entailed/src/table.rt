//! The table.
ghost use Rattle.std.specs.Prelude.{◌≡◌, IsTrue};
ghost use Rattle.qc_model.specs.Entailed.{entailed_as};
ghost use Rattle.qc_model.specs.Meaning.{meaning_of as meaning_in};
ghost use Rattle.qc_model.specs.RowMeaning.{plain_meaning};
ghost use Rattle.model_arguments.specs.Asked.{IsAsked};
ghost use Rattle.qc_refuter.specs.Met.{lefts, are_met};

use crate::{comparisons, members, sums, truths};
use fd_store::Store;
use model_arguments::arguments;
use qc_model::{Constraint, Meaning, Problem, meaning_of};

fn entailed_plainly(problem: &Problem, rule: &Constraint, meaning: Meaning, store: &Store) -> bool
    requires asked { IsAsked problem.now rule.now store.now.box }
    requires met { IsTrue (are_met store.now.box rule.now.args) }
    ensures { result ≡ entailed_as (plain_meaning meaning) (lefts store.now.box rule.now.args) }
{
    let args = arguments(rule);
    match meaning {
        Meaning::Equal => comparisons::equal_entailed(args, store),
        Meaning::Different => comparisons::different_entailed(args, store),
        Meaning::AtMost => comparisons::at_most_entailed(args, store),
        Meaning::Below => comparisons::below_entailed(args, store),
        Meaning::SumEqual => sums::sum_equal_entailed(problem, rule, store),
        Meaning::SumDifferent => sums::sum_different_entailed(problem, rule, store),
        Meaning::SumAtMost => sums::sum_at_most_entailed(problem, rule, store),
        Meaning::Member => members::member_entailed(args, store),
        Meaning::Clause => truths::clause_entailed(args, store),
        // The others have no reified form.
        _ => false,
    }
}

/// Whether the box of a store entails a constraint of the problem by the table. It takes no memory, and time in the order
/// of the constraint's size; for `int_ne` and `set_in` it takes time in the order of the values left, up to the first that
/// tells.
pub fn entails(problem: &Problem, rule: &Constraint, store: &Store) -> bool
    requires { IsAsked problem.now rule.now store.now.box }
    ensures { result ≡ entailed_as (meaning_in rule.now.pred) (lefts store.now.box rule.now.args) }
{
    problem.known();
    let row = meaning_of(rule.pred);
    if row.reified {
        return false;
    }
    entailed_plainly(problem, rule, row.meaning, store)
}
