//! Constraints that refute nothing that they may take, told by one reading.
ghost use Rattle.std.specs.Prelude.{◌≡◌, IsTrue};
ghost use Rattle.qc_model.specs.Arguments.{variables_of};
ghost use Rattle.qc_model.specs.Lists.{Distinct};
ghost use Rattle.qc_model.specs.Meaning.{meaning_of as meaning_in_spec};
ghost use Rattle.qc_model.specs.RowMeaning.{plain_meaning};
ghost use Rattle.model_arguments.specs.Asked.{IsAsked};
ghost use Rattle.dense_quiet.specs.Slack.{SparesTaken};
ghost use Rattle.dense_quiet.specs.Taking.{takes_of};

use crate::clauses::is_quiet_clause;
use crate::elements::is_quiet_element;
use crate::equality::is_quiet_equality;
use crate::items::is_quiet_variable_element;
use crate::relating::{Relation, is_quiet_by_ends};
use crate::taking::Taking;
use crate::told::is_quiet_truth;
use fd_store::Store;
use model_arguments::arguments;
use qc_model::{Constraint, Meaning, Problem, meaning_of};

// The same of one with this meaning.
fn is_quiet_as(
    meaning: Meaning,
    problem: &Problem,
    taking: Taking,
    rule: &Constraint,
    store: &Store,
) -> bool
    requires asked { IsAsked problem.now rule.now store.now.box }
    requires apart { Distinct (variables_of rule.now.args) }
    requires meaning { meaning_in_spec rule.now.pred ≡ plain_meaning meaning }
    ensures { IsTrue result → SparesTaken (takes_of taking problem.now) rule.now store.now.box }
{
    problem.known();
    let args = arguments(rule);
    match meaning {
        Meaning::Equal => is_quiet_equality(args, store),
        Meaning::AtMost => is_quiet_by_ends(Relation::AtMost, problem, taking, rule, args, store),
        Meaning::Below => is_quiet_by_ends(Relation::Below, problem, taking, rule, args, store),
        Meaning::Plus => is_quiet_by_ends(Relation::Sum, problem, taking, rule, args, store),
        Meaning::Times => is_quiet_by_ends(Relation::Product, problem, taking, rule, args, store),
        Meaning::Smaller => is_quiet_by_ends(Relation::Lesser, problem, taking, rule, args, store),
        Meaning::Greater => is_quiet_by_ends(Relation::Greater, problem, taking, rule, args, store),
        Meaning::Element => is_quiet_element(args, store),
        Meaning::VariableElement => is_quiet_variable_element(problem, rule, store),
        Meaning::Clause => is_quiet_clause(problem, rule, store),
        _ => false,
    }
}

/// Whether the constraint, in which no variable stands twice, refutes neither the box nor an end of a variable that it may take.
/// `false` tells nothing.
pub(crate) fn is_quiet(problem: &Problem, taking: Taking, rule: &Constraint, store: &Store) -> bool
    requires asked { IsAsked problem.now rule.now store.now.box }
    requires apart { Distinct (variables_of rule.now.args) }
    ensures { IsTrue result → SparesTaken (takes_of taking problem.now) rule.now store.now.box }
{
    let row = meaning_of(rule.pred);
    if row.reified {
        return is_quiet_truth(row.meaning, problem, taking, rule, store);
    }
    is_quiet_as(row.meaning, problem, taking, rule, store)
}
