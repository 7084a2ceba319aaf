// Which number of which piece is read, and what was read of the piece before it.
ghost use Rattle.std.specs.Prelude.{◌≡◌, true};
ghost use Rattle.lemma_text.specs.Numerals.{value_fits};
ghost use Rattle.lemma_text.specs.Asked.{asks, reason_field, reason_of, counted, first_state, number_of};
ghost use Rattle.lemma_text.specs.declared.parts.Field.TheVariants.{Variable, Constraint as ConstraintField, Named};
ghost use Rattle.lemma_text.specs.declared.parts.Numeral.TheVariants.{Start};

use crate::parts::{Field, Form};
use lemma_list::{LemmaId, Reason};
use qc_model::{ConId, VarId};

// What a reason names.
#[derive(Clone, Copy)]
pub(crate) enum By {
    Constraint,
    Lemma,
}

// A number that is read, with the numbers before it.
#[derive(Clone, Copy)]
pub(crate) enum Slot {
    LiteralVariable,
    LiteralLow { x: VarId },
    LiteralHigh { x: VarId, lo: i64 },
    SumConstraint,
    SumLow { c: ConId },
    SumHigh { c: ConId, lo: i64 },
    CutVariable { by: By },
    CutLow { by: By, x: VarId },
    CutHigh { by: By, x: VarId, lo: i64 },
    CutReason { by: By, x: VarId, lo: i64, hi: i64 },
    ChoiceVariable,
    ChoiceValue { x: VarId },
    LostTo { by: By },
    Forgotten,
}

// The first number of a piece.
pub(crate) fn first_slot(form: Form) -> Slot
    ensures { number_of result Start ≡ first_state form }
{
    match form {
        Form::Literal => Slot::LiteralVariable,
        Form::Sum => Slot::SumConstraint,
        Form::CutByConstraint => Slot::CutVariable { by: By::Constraint },
        Form::CutByLemma => Slot::CutVariable { by: By::Lemma },
        Form::Choice => Slot::ChoiceVariable,
        Form::LostToConstraint => Slot::LostTo { by: By::Constraint },
        Form::LostToLemma => Slot::LostTo { by: By::Lemma },
        Form::Forgotten => Slot::Forgotten,
    }
}

pub(crate) fn field_of(slot: Slot) -> Field
    ensures { result ≡ (asks slot).field }
{
    match slot {
        Slot::LiteralVariable => Field::Variable,
        Slot::LiteralLow { x: _ } => Field::Value,
        Slot::LiteralHigh { x: _, lo: _ } => Field::Value,
        Slot::SumConstraint => Field::Constraint,
        Slot::SumLow { c: _ } => Field::Total,
        Slot::SumHigh { c: _, lo: _ } => Field::Total,
        Slot::CutVariable { by: _ } => Field::Variable,
        Slot::CutLow { by: _, x: _ } => Field::Value,
        Slot::CutHigh { by: _, x: _, lo: _ } => Field::Value,
        Slot::CutReason {
            by,
            x: _,
            lo: _,
            hi: _,
        } => named_by(by),
        Slot::ChoiceVariable => Field::Variable,
        Slot::ChoiceValue { x: _ } => Field::Value,
        Slot::LostTo { by } => named_by(by),
        Slot::Forgotten => Field::Named,
    }
}

fn named_by(by: By) -> Field
    ensures { result ≡ reason_field by }
{
    match by {
        By::Constraint => Field::Constraint,
        By::Lemma => Field::Named,
    }
}

pub(crate) fn variable(number: i64) -> VarId
    requires { value_fits Variable number ≡ true }
    ensures { counted result.0 ≡ number }
{
    VarId((number.unsigned_abs() - 1) as u16)
}

pub(crate) fn constraint(number: i64) -> ConId
    requires { value_fits ConstraintField number ≡ true }
    ensures { counted result.0 ≡ number }
{
    ConId((number.unsigned_abs() - 1) as u16)
}

pub(crate) fn lemma(number: i64) -> LemmaId
    requires { value_fits Named number ≡ true }
    ensures { counted result.0 ≡ number }
{
    LemmaId((number.unsigned_abs() - 1) as u32)
}

pub(crate) fn reason(by: By, number: i64) -> Reason
    requires { value_fits (reason_field by) number ≡ true }
    ensures { result ≡ reason_of by number }
{
    match by {
        By::Constraint => Reason::Constraint(constraint(number)),
        By::Lemma => Reason::Lemma(lemma(number)),
    }
}
