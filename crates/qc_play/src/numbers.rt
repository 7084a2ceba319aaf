//! Numbers in a row, copied.
ghost use Rattle.std.specs.Prelude.{◌≡◌, [], drop, IfOk};

use qc_model::Numbers;
use std::alloc::{AllocError, Global};

pub(crate) fn numbers_of(alloc: Global, values: &[i64]) -> Result<Numbers, AllocError>
    ensures { IfOk result (λ numbers. numbers ≡ values.now) }
{
    let mut numbers = Numbers::new(alloc);
    for value in values {
        numbers.push(*value)?;
    }
    Ok(numbers)
}

/// The values from this number on.
fn values_from(values: &[i64], before: usize) -> &[i64]
    ensures { result.now ≡ drop before values.now }
{
    if before <= values.len() {
        &values[before..]
    } else {
        &[]
    }
}

/// The tuple of a scope before which so many values stand.
pub(crate) fn tuple_of(alloc: Global, values: &[i64], before: usize) -> Result<Numbers, AllocError>
    ensures { IfOk result (λ tuple. tuple ≡ drop before values.now) }
{
    numbers_of(alloc, values_from(values, before))
}
