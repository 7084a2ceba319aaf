//! Comparisons of two numbers whose truth is a variable.
ghost use Rattle.std.specs.Prelude.{◌≡◌, IsTrue};
ghost use Rattle.qc_model.specs.Arguments.{variables_of};
ghost use Rattle.qc_model.specs.Lists.{Distinct};
ghost use Rattle.qc_model.specs.Meaning.{meaning_of, reified, equal, at_most, below};
ghost use Rattle.qc_model.specs.RowMeaning.{plain_meaning};
ghost use Rattle.qc_model.specs.Refuted.{left_to};
ghost use Rattle.model_arguments.specs.Asked.{IsAsked};
ghost use Rattle.model_arguments.specs.Written.{arg_at};
ghost use Rattle.qc_refuter.specs.Met.{is_open, are_met};
ghost use Rattle.dense_quiet.specs.Slack.{SparesTaken};
ghost use Rattle.dense_quiet.specs.Taking.{takes_of};
ghost use Rattle.dense_quiet.specs.Told.{IsUndecided, SparesHeld};

use crate::equality::is_quiet_equality;
use crate::items::have_common;
use crate::reading::{arg_met, ends_of};
use crate::relating::{Relation, is_quiet_by_ends};
use crate::taking::Taking;
use fd_store::Store;
use model_arguments::arguments;
use qc_model::{Arg, Argument, Constraint, Meaning, Problem};

// Whether both may be equal, and may differ, where their ends tell.
fn is_equality_open(x: Arg, y: Arg, store: &Store) -> bool
    requires one { IsTrue (is_open store.now.box x) }
    requires other { IsTrue (is_open store.now.box y) }
    ensures { IsTrue result → IsUndecided equal (left_to store.now.box x) (left_to store.now.box y) }
{
    if !have_common(x, y, store) {
        return false;
    }
    let a = ends_of(x, store);
    if a.least != a.greatest {
        return true;
    }
    let b = ends_of(y, store);
    b.least != b.greatest
}

// Whether the first may be at most the second, and may be past it.
fn is_order_open(x: Arg, y: Arg, store: &Store) -> bool
    requires one { IsTrue (is_open store.now.box x) }
    requires other { IsTrue (is_open store.now.box y) }
    ensures { IsTrue result → IsUndecided at_most (left_to store.now.box x) (left_to store.now.box y) }
{
    let a = ends_of(x, store);
    let b = ends_of(y, store);
    if b.greatest < a.least {
        return false;
    }
    b.least < a.greatest
}

// The same of the first below the second.
fn is_strict_order_open(x: Arg, y: Arg, store: &Store) -> bool
    requires one { IsTrue (is_open store.now.box x) }
    requires other { IsTrue (is_open store.now.box y) }
    ensures { IsTrue result → IsUndecided below (left_to store.now.box x) (left_to store.now.box y) }
{
    let a = ends_of(x, store);
    let b = ends_of(y, store);
    if b.greatest <= a.least {
        return false;
    }
    b.least <= a.greatest
}

// Whether what is left to both leaves the comparison open.
fn is_undecided(meaning: Meaning, x: Arg, y: Arg, store: &Store) -> bool
    requires one { IsTrue (is_open store.now.box x) }
    requires other { IsTrue (is_open store.now.box y) }
    ensures { IsTrue result → IsUndecided (plain_meaning meaning) (left_to store.now.box x) (left_to store.now.box y) }
{
    match meaning {
        Meaning::Equal => is_equality_open(x, y, store),
        Meaning::AtMost => is_order_open(x, y, store),
        Meaning::Below => is_strict_order_open(x, y, store),
        _ => false,
    }
}

// Whether the comparison is quiet where it is to hold.
fn is_quiet_held(
    meaning: Meaning,
    problem: &Problem,
    taking: Taking,
    rule: &Constraint,
    args: &[Argument],
    store: &Store,
) -> bool
    requires { IsTrue (are_met store.now.box args.now) }
    ensures { IsTrue result → SparesHeld (plain_meaning meaning) (takes_of taking problem.now rule.now) (arg_at args.now 0) (arg_at args.now 1) (arg_at args.now 2) store.now.box }
{
    match meaning {
        Meaning::Equal => is_quiet_equality(args, store),
        Meaning::AtMost => is_quiet_by_ends(Relation::AtMost, problem, taking, rule, args, store),
        Meaning::Below => is_quiet_by_ends(Relation::Below, problem, taking, rule, args, store),
        _ => false,
    }
}

/// Whether a comparison with its truth refutes neither what is left to its numbers and to the truth nor an end of any: either
/// both the truth and the comparison are open, or it is to hold and refutes no end by itself.
pub(crate) fn is_quiet_truth(
    meaning: Meaning,
    problem: &Problem,
    taking: Taking,
    rule: &Constraint,
    store: &Store,
) -> bool
    requires asked { IsAsked problem.now rule.now store.now.box }
    requires apart { Distinct (variables_of rule.now.args) }
    requires meaning { meaning_of rule.now.pred ≡ reified (plain_meaning meaning) }
    ensures { IsTrue result → SparesTaken (takes_of taking problem.now) rule.now store.now.box }
{
    problem.known();
    let args = arguments(rule);
    if args.len() != 3 {
        return false;
    }
    let truth = arg_met(args, 2, store);
    let left = ends_of(truth, store);
    if left.greatest != 1 {
        return false;
    }
    if left.least == 1 {
        return is_quiet_held(meaning, problem, taking, rule, args, store);
    }
    if left.least != 0 {
        return false;
    }
    is_undecided(
        meaning,
        arg_met(args, 0, store),
        arg_met(args, 1, store),
        store,
    )
}
