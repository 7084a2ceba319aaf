// Which number of which piece is read, and what was read of the piece before it.
ghost use Rattle.std.specs.Prelude.{◌≡◌, true};
ghost use Rattle.std.specs.Prelude.{unsigned_abs};
ghost use Rattle.lemma_text.specs.Numerals.{value_fits};
ghost use Rattle.lemma_text.specs.Pieces.{index};
ghost use Rattle.lemma_text.specs.Asked.{counted};
ghost use Rattle.lemma_text.specs.declared.parts.Field.TheVariants.{Variable, Scope, Node, Turns as TurnsField};
ghost use Rattle.dense_text.specs.Asked.{asks};

use crate::piece::Tuple;
use lemma_text::Field;
use qc_model::{ScopeId, VarId};

// A number that is read, with the numbers before it.
#[derive(Clone, Copy)]
pub(crate) enum Slot {
    Optimum,
    Turns,
    TupleValue(Tuple),
    GivenScope,
    HorizonScope,
    AgainNode,
    NoPlayScope,
    BoundVariable,
    BoundLow { x: VarId },
    BoundHigh { x: VarId, lo: i64 },
    BranchVariable,
    RangeHigh,
}

pub(crate) fn field_of(slot: Slot) -> Field
    ensures { result ≡ (asks slot).field }
{
    match slot {
        Slot::Optimum => Field::Total,
        Slot::Turns => Field::Turns,
        Slot::TupleValue(_) => Field::Value,
        Slot::GivenScope => Field::Scope,
        Slot::HorizonScope => Field::Scope,
        Slot::AgainNode => Field::Node,
        Slot::NoPlayScope => Field::Scope,
        Slot::BoundVariable => Field::Variable,
        Slot::BoundLow { x: _ } => Field::Value,
        Slot::BoundHigh { x: _, lo: _ } => Field::Value,
        Slot::BranchVariable => Field::Variable,
        Slot::RangeHigh => Field::Value,
    }
}

pub(crate) fn variable(number: i64) -> VarId
    requires { value_fits Variable number ≡ true }
    ensures { counted result.0 ≡ number }
{
    VarId((number.unsigned_abs() - 1) as u16)
}

pub(crate) fn scope(number: i64) -> ScopeId
    requires { value_fits Scope number ≡ true }
    ensures { counted result.0 ≡ number }
{
    ScopeId((number.unsigned_abs() - 1) as u8)
}

pub(crate) fn node(number: i64) -> u32
    requires { value_fits Node number ≡ true }
    ensures { counted result ≡ number }
{
    (number.unsigned_abs() - 1) as u32
}

pub(crate) fn turns(number: i64) -> u64
    requires { value_fits TurnsField number ≡ true }
    ensures { result ≡ unsigned_abs number }
{
    number.unsigned_abs()
}
