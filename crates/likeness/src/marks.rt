//! Raises of the last scope from which on a variable is looked at.
ghost use Rattle.std.specs.Prelude.{◌==◌, ◌&&◌, nat_le};
ghost use Rattle.model_arguments.specs.Written.{variable_numbers};
ghost use Rattle.proof_alike.specs.Alike.{is_among};
ghost use Rattle.likeness.specs.Marks.{AddsMarks};

use qc_model::VarId;

/// A number that no scope exceeds.
pub(crate) const EVERY_SCOPE: u8 = u8::MAX;

/// Has x looked at from this scope on, and from each earlier one. A variable without a place has none to raise.
pub(crate) fn raise(upto: &mut [u8], x: VarId, scope: u8)
    ensures { AddsMarks (λ i y. nat_le i scope && (x.0 == y)) upto.old upto.new }
{
    let at = x.0 as usize;
    if at < upto.len() && upto[at] < scope {
        upto[at] = scope;
    }
}

/// The same of each of these variables.
pub(crate) fn raise_all(upto: &mut [u8], xs: &[VarId], scope: u8)
    ensures { AddsMarks (λ i y. nat_le i scope && is_among (variable_numbers xs.now) y) upto.old upto.new }
{
    for x in xs {
        raise(upto, *x, scope);
    }
}
