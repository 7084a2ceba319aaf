//! Whether clauses are satisfied by variables that aren't looked at.
ghost use Rattle.std.specs.Prelude.{◌≡◌, not, map, slice_get, IsTrue};
ghost use Rattle.std.specs.List.{list_any};
ghost use Rattle.proof_alike.specs.Alike.{is_looked_at};
ghost use Rattle.proof_alike.specs.Reading.{is_known_as, known_value, as_clause, seen_as, is_satisfied as is_satisfied_by};

use crate::sight::Sight;
use crate::values::are_values_alike;
use model_arguments::{arguments, items_at};
use qc_model::{Arg, Argument, Constraint, ScopeId, VarId};

fn has_value(values: &[i64], x: VarId, wanted: i64) -> bool
    ensures { result ≡ is_known_as wanted (slice_get values.now x.0) }
{
    match values.get(x.0 as usize) {
        Some(value) => *value == wanted,
        None => false,
    }
}

/// Whether the argument is this value, by a number or by a variable that isn't looked at from scope i on.
fn is_known(sight: &Sight, i: ScopeId, arg: Arg, values: &[i64], wanted: i64) -> bool
    ensures { result ≡ is_known_as wanted (known_value (λ x. not (is_looked_at sight.now i.0 x)) values.now arg) }
{
    match arg {
        Arg::Var(x) => !sight.looks_at(i, x) && has_value(values, x, wanted),
        Arg::Num(n) => n == wanted,
    }
}

fn is_some_known(sight: &Sight, i: ScopeId, items: &[Arg], values: &[i64], wanted: i64) -> bool
    ensures { result ≡ list_any (is_known_as wanted) (map (known_value (λ x. not (is_looked_at sight.now i.0 x)) values.now) items.now) }
{
    for item in items {
        if is_known(sight, i, *item, values, wanted) {
            return true;
        }
    }
    false
}

/// Whether a literal is true that isn't looked at.
#[inline(always)]
fn is_satisfied(sight: &Sight, i: ScopeId, rule: &Constraint, values: &[i64]) -> bool
    ensures { result ≡ is_satisfied_by (λ x. not (is_looked_at sight.now i.0 x)) values.now rule.now }
{
    let args = arguments(rule);
    is_some_known(sight, i, items_at(args, 0), values, 1)
        || is_some_known(sight, i, items_at(args, 1), values, 0)
}

/// Whether the clause sees the same of both values: it is satisfied by both, or by neither and each of its own variables
/// has the same value.
pub(crate) fn are_clauses_alike(
    sight: &Sight,
    i: ScopeId,
    rule: &Constraint,
    kept: &[i64],
    here: &[i64],
) -> bool
    ensures { IsTrue result → seen_as as_clause (λ x. not (is_looked_at sight.now i.0 x)) kept.now rule.now ≡ seen_as as_clause (λ x. not (is_looked_at sight.now i.0 x)) here.now rule.now }
{
    if is_satisfied(sight, i, rule, kept) {
        return is_satisfied(sight, i, rule, here);
    }
    !is_satisfied(sight, i, rule, here) && are_values_alike(arguments(rule), kept, here)
}
