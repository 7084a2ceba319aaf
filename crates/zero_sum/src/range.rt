//! Where the values of what is at stake lie.
ghost use Rattle.std.specs.Prelude.{◌≡◌, IsTrue};
ghost use Rattle.qc_model.specs.Domains.{declared_box, domain_values, greatest_value, least_value, values_left};
ghost use Rattle.qc_model.specs.Valid.{is_domain};
ghost use Rattle.zero_sum.specs.Stake.{stake_of};

use crate::stake::Stake;
use qc_model::{Domain, Problem};

fn least(domain: &Domain) -> i64
    requires { IsTrue (is_domain domain.now) }
    ensures { result ≡ least_value (domain_values domain.now) }
{
    domain.value_at(0)
}

fn greatest(domain: &Domain) -> i64
    requires { IsTrue (is_domain domain.now) }
    ensures { result ≡ greatest_value (domain_values domain.now) }
{
    domain.value_at(domain.size() - 1)
}

/// The least declared value of the variable at stake. The stake is that of the problem.
pub fn least_declared(problem: &Problem, stake: Stake) -> i64
    requires { stake_of problem.now ≡ Some stake }
    ensures { result ≡ least_value (values_left (declared_box problem.now) stake.variable.0) }
{
    problem.known();
    least(&problem.variable(stake.variable).domain)
}

/// The greatest declared value of the variable at stake. The stake is that of the problem.
pub fn greatest_declared(problem: &Problem, stake: Stake) -> i64
    requires { stake_of problem.now ≡ Some stake }
    ensures { result ≡ greatest_value (values_left (declared_box problem.now) stake.variable.0) }
{
    problem.known();
    greatest(&problem.variable(stake.variable).domain)
}
