//! What clauses see.
ghost use Rattle.std.specs.Prelude.{◌≡◌, ℕ, Bool, true, not, map, slice_get, IsTrue};
ghost use Rattle.std.specs.List.{list_any};
ghost use Rattle.qc_model.specs.Lists.{same_values};
ghost use Rattle.proof_alike.specs.Alike.{is_looked_at};
ghost use Rattle.proof_alike.specs.Reading.{is_known_as, known_value, as_clause, seen_as, is_satisfied as is_satisfied_by};
ghost use Rattle.qc_model.specs.Verdict.{is_none_of};

use crate::reads::Reads;
use crate::values::{are_values_same, have_no_variables};
use model_arguments::{arguments, items_at};
use qc_model::{Arg, Constraint, ScopeId, VarId};

fn has_value(values: &[i64], x: VarId, wanted: i64) -> bool
    ensures { result ≡ is_known_as wanted (slice_get values.now x.0) }
{
    match values.get(x.0 as usize) {
        Some(value) => *value == wanted,
        None => false,
    }
}

/// Whether the argument is this value, by a number or by a variable that isn't looked at from scope i on.
fn is_known(reads: &Reads, i: ScopeId, arg: Arg, values: &[i64], wanted: i64) -> bool
    ensures { result ≡ is_known_as wanted (known_value (λ x. not (is_looked_at reads.now i.0 x)) values.now arg) }
{
    match arg {
        Arg::Var(x) => !reads.looks_at(i, x) && has_value(values, x, wanted),
        Arg::Num(n) => n == wanted,
    }
}

fn is_some_known(reads: &Reads, i: ScopeId, items: &[Arg], values: &[i64], wanted: i64) -> bool
    ensures { result ≡ list_any (is_known_as wanted) (map (known_value (λ x. not (is_looked_at reads.now i.0 x)) values.now) items.now) }
{
    for item in items {
        if is_known(reads, i, *item, values, wanted) {
            return true;
        }
    }
    false
}

/// Whether a literal is true that isn't looked at.
fn is_satisfied(reads: &Reads, i: ScopeId, rule: &Constraint, values: &[i64]) -> bool
    ensures { result ≡ is_satisfied_by (λ x. not (is_looked_at reads.now i.0 x)) values.now rule.now }
{
    let args = arguments(rule);
    is_some_known(reads, i, items_at(args, 0), values, 1)
        || is_some_known(reads, i, items_at(args, 1), values, 0)
}

/// Whether the clause sees nothing of the values: it is satisfied, or has no variable.
pub(crate) fn clause_sees_nothing(
    reads: &Reads,
    i: ScopeId,
    rule: &Constraint,
    values: &[i64],
) -> bool
    ensures { result ≡ is_none_of (seen_as as_clause (λ x. not (is_looked_at reads.now i.0 x)) values.now rule.now) }
{
    is_satisfied(reads, i, rule, values) || have_no_variables(arguments(rule))
}

/// Whether each of the clause's own variables has the same value in both, or none in both, so that the clause sees the same.
fn has_same_values(rule: &Constraint, here: &[i64], there: &[i64]) -> bool
    ensures { IsTrue result → (known : ℕ → Bool) → same_values (seen_as as_clause known here.now rule.now) (seen_as as_clause known there.now rule.now) ≡ true }
{
    if here.len() != there.len() {
        return false;
    }
    are_values_same(arguments(rule), here, there)
}

/// Whether the clause sees the same of both values: it is satisfied by both, or by neither and each of its own variables
/// has the same value.
pub(crate) fn are_clauses_same(
    reads: &Reads,
    i: ScopeId,
    rule: &Constraint,
    here: &[i64],
    there: &[i64],
) -> bool
    ensures { result ≡ same_values (seen_as as_clause (λ x. not (is_looked_at reads.now i.0 x)) here.now rule.now) (seen_as as_clause (λ x. not (is_looked_at reads.now i.0 x)) there.now rule.now) }
{
    // the commonest case, and the cheapest to find
    if has_same_values(rule, here, there) {
        return true;
    }
    if is_satisfied(reads, i, rule, here) {
        return clause_sees_nothing(reads, i, rule, there);
    }
    if is_satisfied(reads, i, rule, there) {
        return have_no_variables(arguments(rule));
    }
    are_values_same(arguments(rule), here, there)
}
