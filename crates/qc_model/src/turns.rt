//! How many turns a game can take at most.
ghost use Rattle.std.specs.Prelude.{◌≡◌, ◌≤◌, ◌^◌, ◌*◌, min, length, IsTrue};
ghost use Rattle.std.specs.List.{list_all};
ghost use Rattle.qc_model.specs.Turns.{value_product, full_turns_of};
ghost use Rattle.qc_model.specs.Valid.{is_domain};

use crate::problem::Variable;
use crate::valid_problem::Problem;

/// More turns are not told apart.
const MOST_TURNS: u128 = 1 << 63;

fn times_size(turns: u64, size: u32) -> u64
    ensures { result ≡ min (turns * size) (2 ^ 63) }
{
    (turns as u128 * size as u128).min(MOST_TURNS) as u64
}

fn count_turns(variables: &[Variable]) -> u64
    requires domains { IsTrue (list_all (λ x. is_domain x.domain) variables.now) }
    requires few { length variables.now ≤ 500 }
    ensures { result ≡ min (length variables.now * value_product variables.now) (2 ^ 63) }
{
    let mut turns = variables.len() as u64;
    for x in variables {
        turns = times_size(turns, x.domain.size());
    }
    turns
}

/// As many turns as variables times the product of the sizes of their domains, or 2 ^ 63 where that
/// is smaller.
pub fn full_turns(problem: &Problem) -> u64
    ensures { result ≡ full_turns_of problem.now }
{
    problem.known();
    count_turns(problem.all_variables())
}
