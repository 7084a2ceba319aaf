//! Domains that are too wide, alone or together.
//!
//! Widths are compared without an addition that could overflow, so the numbers may be any.
ghost use Rattle.std.specs.Prelude.{◌≡◌, ◌≤◌, ◌+◌, Some, None, cond, nat_le, ◌&&◌};
ghost use Rattle.qc_model.specs.Domains.{least_from, greatest_from};
ghost use Rattle.qc_model.specs.Valid.{width_of};
ghost use Rattle.text_resolve.specs.Numbers.{number_values, members_width, width_text, first_wide as first_wide_of};

use crate::empty::domain_at;
use qc_model::limits;
use text_grammar::{DomainText, Item, Members, Number};

fn least_from(first: i64, numbers: &[Number]) -> i64
    ensures { result ≡ least_from first (number_values numbers.now) }
{
    let mut least = first;
    for number in numbers {
        if number.value < least {
            least = number.value;
        }
    }
    least
}

fn greatest_from(first: i64, numbers: &[Number]) -> i64
    ensures { result ≡ greatest_from first (number_values numbers.now) }
{
    let mut greatest = first;
    for number in numbers {
        if greatest < number.value {
            greatest = number.value;
        }
    }
    greatest
}

/// How far the greatest number is above the least.
fn spread(numbers: &[Number]) -> u64
    ensures { result + 1 ≡ width_of (number_values numbers.now) }
{
    match numbers.split_first() {
        Some((first, rest)) => {
            let greatest = greatest_from(first.value, rest);
            let least = least_from(first.value, rest);
            greatest.abs_diff(least)
        }
        None => 0,
    }
}

/// How far the greatest value is above the least.
fn members_spread(members: &Members) -> u64
    ensures { result + 1 ≡ members_width members.now }
{
    match members {
        Members::Range(low, high) => high.value.abs_diff(low.value),
        Members::Braces { items, .. } => spread(items.items()),
    }
}

fn domain_spread(domain: &DomainText) -> u64
    ensures { result + 1 ≡ width_text domain.now }
{
    match domain {
        DomainText::Bits { .. } => 1,
        DomainText::Members(members) => members_spread(members),
    }
}

/// The sum of the widths with this domain's, where neither is too great.
fn total_with(total: u64, domain: &DomainText) -> Option<u64>
    requires { total ≤ 4194304 }
    ensures { result ≡ cond (nat_le (width_text domain.now) 1048576 && nat_le (total + width_text domain.now) 4194304) (Some (total + width_text domain.now)) None }
{
    let spread = domain_spread(domain);
    if spread < limits::WIDTH && total + spread < limits::TOTAL_WIDTH {
        Some(total + spread + 1)
    } else {
        None
    }
}

/// The place of the first domain that is wider than 1,048,576, or with which all domains so far are
/// wider than 4,194,304 together.
pub(crate) fn first_wide(items: &[Item]) -> Option<u32>
    ensures { result ≡ first_wide_of 0 items.now }
{
    let mut total = 0;
    for item in items {
        if let Item::Variable { domain, .. } = item {
            match total_with(total, domain) {
                Some(with) => total = with,
                None => return Some(domain_at(domain)),
            }
        }
    }
    None
}
