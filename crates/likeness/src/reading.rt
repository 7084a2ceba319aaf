//! How a constraint reads the variables before a scope, and which of them it reads one by one.
ghost use Rattle.std.specs.Prelude.{◌≡◌, IfOk};
ghost use Rattle.proof_alike.specs.Reading.{as_sum, reading, variables_by_value as by_value_of};
ghost use Rattle.model_arguments.specs.Written.{variable_numbers};
ghost use Rattle.likeness.specs.Seeing.{is_telling as is_telling_by, read_as};

use model_arguments::own_variables;
use qc_model::{Argument, Constraint, Meaning, VarId, meaning_of};
use std::alloc::{AllocError, Global};

/// What a constraint sees of the variables before a scope.
#[derive(Clone, Copy)]
pub(crate) enum Reading {
    /// What the known terms of a sum come to.
    Sum,
    /// What the known ones of a, b and c of a + b = c come to.
    Plus,
    /// Whether a known literal is true.
    Clause,
    /// Each value by itself.
    Value,
}

/// How the constraint reads. One that is reified reads by value.
pub(crate) fn reading_of(rule: &Constraint) -> Reading
    ensures { read_as result ≡ reading rule.now }
{
    let row = meaning_of(rule.pred);
    if row.reified {
        return Reading::Value;
    }
    match row.meaning {
        Meaning::SumEqual | Meaning::SumDifferent | Meaning::SumAtMost => Reading::Sum,
        Meaning::Plus => Reading::Plus,
        Meaning::Clause => Reading::Clause,
        _ => Reading::Value,
    }
}

/// The variables that are read by value, in the order in which they stand.
pub(crate) fn variables_by_value(
    alloc: Global,
    reading: Reading,
    args: &[Argument],
) -> Result<Vec<VarId>, AllocError>
    ensures { IfOk result (λ found. variable_numbers found.items ≡ by_value_of (read_as reading) args.now) }
{
    match reading {
        Reading::Sum => after_terms(alloc, args),
        Reading::Plus | Reading::Clause => Ok(Vec::new(alloc)),
        Reading::Value => own_variables(alloc, args),
    }
}

/// The variables of what a sum is compared with.
fn after_terms(alloc: Global, args: &[Argument]) -> Result<Vec<VarId>, AllocError>
    ensures { IfOk result (λ found. variable_numbers found.items ≡ by_value_of as_sum args.now) }
{
    match args {
        [_, _, compared @ ..] => own_variables(alloc, compared),
        _ => Ok(Vec::new(alloc)),
    }
}

/// Whether it sees values other than by themselves.
pub(crate) fn is_telling(reading: Reading) -> bool
    ensures { result ≡ is_telling_by (read_as reading) }
{
    match reading {
        Reading::Sum | Reading::Plus | Reading::Clause => true,
        Reading::Value => false,
    }
}
