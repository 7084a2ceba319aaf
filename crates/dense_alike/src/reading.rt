//! What a constraint sees of the values of the first variables.
ghost use Rattle.std.specs.Prelude.{◌≡◌};
ghost use Rattle.proof_alike.specs.Reading.{reading};
ghost use Rattle.likeness.specs.Seeing.{tells};
ghost use Rattle.dense_alike.specs.Seeing.{read_as};

use qc_model::{Constraint, Meaning, meaning_of};

/// How a constraint sees the values of the first variables.
#[derive(Clone, Copy)]
pub(crate) enum Reading {
    /// What the known terms of a sum come to.
    Sum,
    /// What the known ones of a, b and c of a + b = c come to.
    Plus,
    /// Whether a known literal is true.
    Clause,
    /// Each value by itself.
    Value,
}

/// How the constraint reads. One that is reified reads by value.
pub(crate) fn reading_of(rule: &Constraint) -> Reading
    ensures { read_as result ≡ reading rule.now }
{
    let row = meaning_of(rule.pred);
    if row.reified {
        return Reading::Value;
    }
    match row.meaning {
        Meaning::SumEqual | Meaning::SumDifferent | Meaning::SumAtMost => Reading::Sum,
        Meaning::Plus => Reading::Plus,
        Meaning::Clause => Reading::Clause,
        _ => Reading::Value,
    }
}

/// Whether the constraint sees values other than by themselves.
pub(crate) fn is_telling(rule: &Constraint) -> bool
    ensures { result ≡ tells rule.now }
{
    match reading_of(rule) {
        Reading::Sum => true,
        Reading::Plus => true,
        Reading::Clause => true,
        Reading::Value => false,
    }
}
