//! What a look at a constraint finds.
use qc_model::VarId;

/// No value goes; the constraint refutes the box; the variable, of which both values are left, loses this one, and then
/// no value goes; or it takes another look, value by value.
#[derive(Clone, Copy)]
pub enum Finding {
    Nothing,
    Refuted,
    Loses(VarId, bool),
    Unknown,
}
