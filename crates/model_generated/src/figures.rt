//! The numbers that a problem is made of.
ghost use Rattle.std.specs.Prelude.{◌≡◌, ◌≤◌, ◌++◌, pos, IfOk, OnOk};
ghost use Rattle.model_generated.specs.Links.{gap as gap_in_spec, demand as demand_in_spec, link_of as link_of_spec, base as base_in_spec, bases_of, bases as all_bases, demands as all_demands};

use qc_model::Numbers;
use std::alloc::{AllocError, Global};

// The customers are the numbers from 1 to 12; this is one past the last.
const CUSTOMERS_END: u32 = 13;

fn gap(n: u32, link: u32) -> u32
    requires n { n ≤ 1000000 }
    requires link { link ≤ 3 }
    ensures value { result ≡ gap_in_spec n link }
    ensures bound { result ≤ 10 }
{
    1 + (n + 1) * (2 * link + 1) % 10
}

fn demand(n: u32, customer: u32) -> u32
    requires n { n ≤ 1000000 }
    requires customer { customer ≤ 12 }
    ensures { result ≡ demand_in_spec n customer }
{
    1 + (n + customer * customer) % 3
}

fn link_of(customer: u32) -> u32
    requires { 1 ≤ customer }
    ensures { result ≡ link_of_spec customer }
{
    1 + (customer - 1) % 3
}

fn base(n: u32, customer: u32, link: u32) -> u32
    requires n { n ≤ 1000000 }
    requires customer { 1 ≤ customer }
    requires link { link ≤ 3 }
    ensures { result ≡ base_in_spec n customer link }
{
    if link == link_of(customer) {
        10 - gap(n, link)
    } else {
        20
    }
}

fn push_bases(numbers: &mut Numbers, n: u32, customer: u32) -> Result<(), AllocError>
    requires n { n ≤ 1000000 }
    requires customer { 1 ≤ customer }
    ensures { OnOk result (numbers.new ≡ numbers.old ++ bases_of n customer) }
{
    numbers.push(i64::from(base(n, customer, 1)))?;
    numbers.push(i64::from(base(n, customer, 2)))?;
    numbers.push(i64::from(base(n, customer, 3)))?;
    numbers.push(10)?;
    Ok(())
}

/// What each customer pays for each link and for staying away, besides the toll.
pub(crate) fn bases(alloc: Global, n: u32) -> Result<Numbers, AllocError>
    requires { n ≤ 1000000 }
    ensures { IfOk result (λ numbers. numbers ≡ all_bases n) }
{
    let mut numbers = Numbers::new(alloc);
    for customer in 1..CUSTOMERS_END {
        push_bases(&mut numbers, n, customer)?;
    }
    Ok(numbers)
}

/// For how many passages each customer pays.
pub(crate) fn demands(alloc: Global, n: u32) -> Result<Numbers, AllocError>
    requires { n ≤ 1000000 }
    ensures { IfOk result (λ numbers. numbers ≡ all_demands n) }
{
    let mut numbers = Numbers::new(alloc);
    for customer in 1..CUSTOMERS_END {
        numbers.push(i64::from(demand(n, customer)))?;
    }
    Ok(numbers)
}
