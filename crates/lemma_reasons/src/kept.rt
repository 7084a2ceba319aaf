//! Whether a box and the sums of a lemma refute a constraint, or keep it.
ghost use Rattle.std.specs.Prelude.{◌≡◌, ◌<◌, Some, None, IsTrue, length, map, slice_get};
ghost use Rattle.std.specs.List.{list_all};
ghost use Rattle.qc_model.specs.Content.{Rule};
ghost use Rattle.qc_model.specs.Arguments.{fill};
ghost use Rattle.qc_model.specs.Domains.{is_single};
ghost use Rattle.qc_model.specs.Ranges.{range_of, is_point as is_point_in};
ghost use Rattle.qc_model.specs.Refuted.{left_to};
ghost use Rattle.model_arguments.specs.Asked.{IsAsked};
ghost use Rattle.qc_refuter.specs.Met.{is_open, is_met, are_met, lefts};
ghost use Rattle.lemma_list.specs.Entailment.{is_settled as is_settled_in, entailed_by};
ghost use Rattle.lemma_list.specs.Sums.{linear_of, last_scope, linear_refuted, linear_entailed, refuted_by_sums as refuted_by_sums_in, entailed_by_sums as entailed_by_sums_in, is_refuted as is_refuted_in, is_kept as is_kept_in};
ghost use Rattle.lemma_reasons.specs.Asked.{IsFullBox};
ghost use Rattle.lemma_reasons.specs.Known.{compared};

use crate::aim::Aim;
use crate::forms::linear_sum;
use crate::picked::entailed_by_index;
use crate::sums::{Given, Sum};
use fd_store::Store;
use model_arguments::arguments;
use prop_entailed::{entails, greatest, is_fixed, least};
use qc_model::{Arg, Argument, ConId, Constraint, Problem};
use qc_refuter::refutes;

// The sums of the lemma, asked for a constraint.
pub(crate) fn given_for<'a>(aim: &Aim<'a>, c: ConId) -> Given<'a>
    ensures sums { result.sums.now ≡ aim.now.lemma.now.sums }
    ensures scope { result.scope ≡ last_scope aim.now.problem.now aim.now.lemma.now }
    ensures c { result.c ≡ c }
{
    Given {
        sums: aim.lemma.sums(),
        scope: aim.last_scope(),
        c,
    }
}

// The sum can't be what it is compared with.
fn sum_refuted(sum: Sum, store: &Store) -> bool
    requires { IsTrue (is_open store.now.box sum.bound) }
    ensures { result ≡ linear_refuted (compared sum) (range_of sum.from sum.to) store.now.box }
{
    let low = least(sum.bound, store) as i128;
    let high = greatest(sum.bound, store) as i128;
    if !sum.is_equal {
        return high < sum.from;
    }
    sum.to < low || high < sum.from
}

// The sum is the one number that it is to be.
fn is_point(sum: Sum, number: i128) -> bool
    ensures { result ≡ is_point_in number (range_of sum.from sum.to) }
{
    sum.from == number && sum.to == number
}

// The sum can only be what it is compared with.
fn sum_entailed(sum: Sum, store: &Store) -> bool
    requires { IsTrue (is_open store.now.box sum.bound) }
    ensures { result ≡ linear_entailed (compared sum) (range_of sum.from sum.to) store.now.box }
{
    let low = least(sum.bound, store) as i128;
    if !sum.is_equal {
        return sum.to <= low;
    }
    is_fixed(sum.bound, store) && is_point(sum, low)
}

fn refuted_by_sums(aim: &Aim, c: ConId, rule: &Constraint, store: &Store) -> bool
    requires { IsAsked aim.now.problem.now rule.now store.now.box }
    ensures { result ≡ refuted_by_sums_in aim.now.problem.now aim.now.lemma.now c.0 (linear_of rule.now) store.now.box }
{
    match linear_sum(aim.problem, rule, given_for(aim, c), None, store) {
        None => false,
        Some(sum) => sum_refuted(sum, store),
    }
}

fn entailed_by_sums(aim: &Aim, c: ConId, rule: &Constraint, store: &Store) -> bool
    requires { IsAsked aim.now.problem.now rule.now store.now.box }
    ensures { result ≡ entailed_by_sums_in aim.now.problem.now aim.now.lemma.now c.0 (linear_of rule.now) store.now.box }
{
    match linear_sum(aim.problem, rule, given_for(aim, c), None, store) {
        None => false,
        Some(sum) => sum_entailed(sum, store),
    }
}

fn all_fixed(items: &[Arg], store: &Store) -> bool
    requires { IsTrue (list_all (is_open store.now.box) items.now) }
    ensures { result ≡ list_all is_single (map (left_to store.now.box) items.now) }
{
    for item in items {
        if !is_fixed(*item, store) {
            return false;
        }
    }
    true
}

// One value is left to the argument, or to each item of it.
fn is_settled(argument: &Argument, store: &Store) -> bool
    requires { IsTrue (is_met store.now.box argument.now) }
    ensures { result ≡ is_settled_in (fill (left_to store.now.box) argument.now) }
{
    match argument {
        Argument::One(arg) => is_fixed(*arg, store),
        Argument::Many(items) => all_fixed(items.items(), store),
        Argument::Numbers(_) => true,
        Argument::Members(_) => true,
    }
}

fn are_settled(args: &[Argument], store: &Store) -> bool
    requires { IsTrue (are_met store.now.box args.now) }
    ensures { result ≡ list_all is_settled_in (lefts store.now.box args.now) }
{
    for argument in args {
        if !is_settled(argument, store) {
            return false;
        }
    }
    true
}

// Whether the box alone entails a constraint: by the table, an element by its index, or since it has one value for each argument
// and doesn't refute the constraint.
fn is_rule_entailed(problem: &Problem, c: ConId, rule: &Constraint, store: &Store) -> bool
    requires rule { slice_get problem.now.constraints c.0 ≡ Some rule.now }
    requires asked { IsAsked problem.now rule.now store.now.box }
    ensures { result ≡ entailed_by rule.now store.now.box }
{
    problem.known();
    if entails(problem, rule, store) || entailed_by_index(problem, rule, store) {
        return true;
    }
    are_settled(arguments(rule), store) && !refutes(problem, c, store)
}

/// Whether the box alone entails the constraint c: each of the values satisfies it, as far as the table tells, by the item that
/// the index of an element picks, or since each argument has one value. It takes no memory.
pub fn is_entailed(problem: &Problem, c: ConId, store: &Store) -> bool
    requires c { c.0 < length problem.now.constraints }
    requires left { IsFullBox problem.now store.now.box }
    ensures { (rule : Rule) → slice_get problem.now.constraints c.0 ≡ Some rule → result ≡ entailed_by rule store.now.box }
{
    problem.known();
    is_rule_entailed(problem, c, problem.constraint(c), store)
}

/// Whether the box and the lemma's sums refute the constraint c.
pub fn is_refuted(aim: &Aim, c: ConId, store: &Store) -> bool
    requires c { c.0 < length aim.now.problem.now.constraints }
    requires left { IsFullBox aim.now.problem.now store.now.box }
    ensures { (rule : Rule) → slice_get aim.now.problem.now.constraints c.0 ≡ Some rule → result ≡ is_refuted_in aim.now.problem.now aim.now.lemma.now c.0 rule store.now.box }
{
    aim.problem.known();
    let rule = aim.problem.constraint(c);
    refutes(aim.problem, c, store) || refuted_by_sums(aim, c, rule, store)
}

/// Whether the box and the lemma's sums keep the constraint c: each of the values satisfies it.
pub fn is_kept(aim: &Aim, c: ConId, store: &Store) -> bool
    requires c { c.0 < length aim.now.problem.now.constraints }
    requires left { IsFullBox aim.now.problem.now store.now.box }
    ensures { (rule : Rule) → slice_get aim.now.problem.now.constraints c.0 ≡ Some rule → result ≡ is_kept_in aim.now.problem.now aim.now.lemma.now c.0 rule store.now.box }
{
    aim.problem.known();
    let rule = aim.problem.constraint(c);
    is_rule_entailed(aim.problem, c, rule, store) || entailed_by_sums(aim, c, rule, store)
}
