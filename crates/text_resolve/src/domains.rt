//! Domains and sets, each in its one form.
ghost use Rattle.std.specs.Prelude.{◌≡◌, Some, None, cond, IfOk, IsTrue};
ghost use Rattle.qc_model.specs.Domains.{is_ascending, least_value, greatest_value};
ghost use Rattle.qc_model.specs.Valid.{has_gap};
ghost use Rattle.text_resolve.specs.Numbers.{number_values};
ghost use Rattle.text_resolve.specs.Draft.{ascending as ascending_of, listed_domain as listed_domain_of, domain_of as domain_of_text, listed_set as listed_set_of, set_of as set_of_members};

use qc_model::{Domain, Numbers, Set};
use std::alloc::{AllocError, Global};
use text_grammar::{DomainText, Members, Number};

/// The values of the numbers, in their order.
fn values_of(alloc: Global, numbers: &[Number]) -> Result<Vec<i64>, AllocError>
    ensures { IfOk result (λ values. values.items ≡ number_values numbers.now) }
{
    numbers.iter().map(|number| number.value).collect(alloc)
}

/// The values of the numbers, ascending and without repeats.
fn ascending(alloc: Global, numbers: &[Number]) -> Result<Vec<i64>, AllocError>
    ensures { IfOk result (λ values. values.items ≡ ascending_of (number_values numbers.now)) }
{
    let mut values = values_of(alloc, numbers)?;
    values.sort_unstable();
    values.dedup();
    Ok(values)
}

/// The ends of the values, where none between them is missing.
fn range_of(values: &[i64]) -> Option<(i64, i64)>
    requires { IsTrue (is_ascending values.now) }
    ensures { result ≡ cond (has_gap values.now) None (Some (least_value values.now, greatest_value values.now)) }
{
    let (Some(low), Some(high)) = (values.first(), values.last()) else {
        return None;
    };
    if high.abs_diff(*low) < values.len() as u64 {
        Some((*low, *high))
    } else {
        None
    }
}

/// A list of these numbers.
fn listed(alloc: Global, values: &[i64]) -> Result<Numbers, AllocError>
    ensures { IfOk result (λ numbers. numbers ≡ values.now) }
{
    let mut numbers = Numbers::new(alloc);
    for value in values {
        numbers.push(*value)?;
    }
    Ok(numbers)
}

fn listed_domain(alloc: Global, values: &[i64]) -> Result<Domain, AllocError>
    requires { IsTrue (is_ascending values.now) }
    ensures { IfOk result (λ domain. domain ≡ listed_domain_of values.now) }
{
    match range_of(values) {
        Some((low, high)) => Ok(Domain::Range(low, high)),
        None => Ok(Domain::Listed(listed(alloc, values)?)),
    }
}

fn listed_set(alloc: Global, values: &[i64]) -> Result<Set, AllocError>
    requires { IsTrue (is_ascending values.now) }
    ensures { IfOk result (λ set. set ≡ listed_set_of values.now) }
{
    match range_of(values) {
        Some((low, high)) => Ok(Set::Range(low, high)),
        None => Ok(Set::Listed(listed(alloc, values)?)),
    }
}

/// The domain that the text names: a list without gaps is a range.
#[tactic(auto, using(crate::proofs::Ascending::ascending_rises))]
pub(crate) fn domain_of(alloc: Global, domain: &DomainText) -> Result<Domain, AllocError>
    ensures { IfOk result (λ made. made ≡ domain_of_text domain.now) }
{
    match domain {
        DomainText::Bits { .. } => Ok(Domain::Bits),
        DomainText::Members(Members::Range(low, high)) => Ok(Domain::Range(low.value, high.value)),
        DomainText::Members(Members::Braces { items, .. }) => {
            let values = ascending(alloc, items.items())?;
            listed_domain(alloc, values.as_slice())
        }
    }
}

/// The set that the text names: one without gaps that isn't empty is a range, and a range whose low
/// end is above its high end is the empty set.
#[tactic(auto, using(crate::proofs::Ascending::ascending_rises))]
pub(crate) fn set_of(alloc: Global, members: &Members) -> Result<Set, AllocError>
    ensures { IfOk result (λ set. set ≡ set_of_members members.now) }
{
    match members {
        Members::Range(low, high) => {
            if low.value <= high.value {
                Ok(Set::Range(low.value, high.value))
            } else {
                Ok(Set::Listed(Numbers::new(alloc)))
            }
        }
        Members::Braces { items, .. } => {
            let values = ascending(alloc, items.items())?;
            listed_set(alloc, values.as_slice())
        }
    }
}
