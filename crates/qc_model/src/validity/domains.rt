//! Numbers, domains and sets that are within the limits and have their one form.
ghost use Rattle.std.specs.Prelude.{◌≡◌, ◌≤◌, IsTrue, length, sum_by};
ghost use Rattle.std.specs.List.{list_all};
ghost use Rattle.qc_model.specs.Domains.{is_ascending as is_ascending_list};
ghost use Rattle.qc_model.specs.Valid.{domain_width as width_of_domain, has_gap as list_has_gap, is_domain as is_domain_of, is_listed as is_listed_list, is_number as is_number_of, is_range as is_range_of, is_set as is_set_of, is_truth as is_truth_of, width_of as width_of_list};

use crate::limits;
use crate::problem::{Domain, Set, Variable};

pub(crate) fn is_number(n: i64) -> bool
    ensures { result ≡ is_number_of n }
{
    n.unsigned_abs() <= limits::NUMBER
}

pub(crate) fn is_truth(n: i64) -> bool
    ensures { result ≡ is_truth_of n }
{
    n == 0 || n == 1
}

fn is_range(low: i64, high: i64) -> bool
    ensures { result ≡ is_range_of low high }
{
    is_number(low) && is_number(high) && low <= high
}

fn is_ascending(numbers: &[i64]) -> bool
    ensures { result ≡ is_ascending_list numbers.now }
{
    numbers.is_sorted_by(|a, b| *a < *b)
}

pub(crate) fn are_numbers(numbers: &[i64]) -> bool
    ensures { result ≡ list_all is_number_of numbers.now }
{
    numbers.iter().all(|n| is_number(*n))
}

pub(crate) fn are_truths(numbers: &[i64]) -> bool
    ensures { result ≡ list_all is_truth_of numbers.now }
{
    numbers.iter().all(|n| is_truth(*n))
}

fn is_listed(numbers: &[i64]) -> bool
    ensures { result ≡ is_listed_list numbers.now }
{
    numbers.len() <= limits::NUMBERS && are_numbers(numbers) && is_ascending(numbers)
}

/// The greatest minus the least, plus one; the ends of the list, since it is ascending.
fn width_of(numbers: &[i64]) -> u64
    requires { IsTrue (is_listed_list numbers.now) }
    ensures { result ≡ width_of_list numbers.now }
{
    match (numbers.first(), numbers.last()) {
        (Some(least), Some(greatest)) => greatest.abs_diff(*least) + 1,
        _ => 1,
    }
}

fn has_gap(numbers: &[i64]) -> bool
    requires { IsTrue (is_listed_list numbers.now) }
    ensures { result ≡ list_has_gap numbers.now }
{
    (numbers.len() as u64) < width_of(numbers)
}

fn is_domain(domain: &Domain) -> bool
    ensures { result ≡ is_domain_of domain.now }
{
    match domain {
        Domain::Bits => true,
        Domain::Range(low, high) => is_range(*low, *high) && high.abs_diff(*low) < limits::WIDTH,
        Domain::Listed(numbers) => {
            let numbers = numbers.items();
            !numbers.is_empty()
                && is_listed(numbers)
                && has_gap(numbers)
                && width_of(numbers) <= limits::WIDTH
        }
    }
}

pub(crate) fn is_set(set: &Set) -> bool
    ensures { result ≡ is_set_of set.now }
{
    match set {
        Set::Range(low, high) => is_range(*low, *high),
        Set::Listed(numbers) => {
            let numbers = numbers.items();
            is_listed(numbers) && (numbers.is_empty() || has_gap(numbers))
        }
    }
}

pub(crate) fn are_domains(variables: &[Variable]) -> bool
    ensures { result ≡ list_all (λ x. is_domain_of x.domain) variables.now }
{
    variables.iter().all(|x| is_domain(&x.domain))
}

fn domain_width(domain: &Domain) -> u64
    requires { IsTrue (is_domain_of domain.now) }
    ensures exact { result ≡ width_of_domain domain.now }
    ensures bound { result ≤ 1048576 }
{
    match domain {
        Domain::Bits => 2,
        Domain::Range(low, high) => high.abs_diff(*low) + 1,
        Domain::Listed(numbers) => width_of(numbers.items()),
    }
}

/// The sum of the widths of all domains.
pub(crate) fn total_width(variables: &[Variable]) -> u64
    requires few { length variables.now ≤ 500 }
    requires valid { IsTrue (list_all (λ x. is_domain_of x.domain) variables.now) }
    ensures { result ≡ sum_by (λ x. width_of_domain x.domain) variables.now }
{
    let mut total = 0;
    for x in variables {
        total += domain_width(&x.domain);
    }
    total
}
