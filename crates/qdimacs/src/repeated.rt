//! Variables that stand in sets twice.
ghost use Rattle.std.specs.Prelude.{◌≡◌, IfOk, OnOk, IfSome, None, Some};
ghost use Rattle.qdimacs.specs.Refusals.{is_known, known_after, first_repeated, known_after_sets, repeated_in_sets};

use crate::seen::Seen;
use crate::tree::{NumberText, SetText};
use std::alloc::{AllocError, Global};

/// Adds the variables up to the first that is known already, and answers that one's place.
fn add_variables(seen: &mut Seen, variables: &[NumberText]) -> Result<Option<u32>, AllocError>
    ensures place { IfOk result (λ at. at ≡ first_repeated (is_known seen.old) variables.now) }
    ensures seen { IfOk result (λ at. at ≡ None → is_known seen.new ≡ known_after (is_known seen.old) variables.now) }
{
    for variable in variables {
        if !seen.insert(variable.value)? {
            return Ok(Some(variable.at));
        }
    }
    Ok(None)
}

/// Adds the variables of the sets up to the first that stands there twice, and answers that one's place.
pub(crate) fn add_sets(seen: &mut Seen, sets: &[SetText]) -> Result<Option<u32>, AllocError>
    ensures place { IfOk result (λ at. at ≡ repeated_in_sets (is_known seen.old) sets.now) }
    ensures seen { IfOk result (λ at. at ≡ None → is_known seen.new ≡ known_after_sets (is_known seen.old) sets.now) }
{
    for set in sets {
        if let Some(at) = add_variables(seen, set.variables.items())? {
            return Ok(Some(at));
        }
    }
    Ok(None)
}
