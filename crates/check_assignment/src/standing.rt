//! What is known of a constraint on the values, and what a change makes of it.
ghost use Rattle.std.specs.Prelude.{◌≡◌, ◌≤◌, ◌^◌, ◌+ℤ◌, ◌*ℤ◌, ℕ, true, length, slice_get, Some, unsigned_abs};
ghost use Rattle.std.specs.List.{list_all};
ghost use Rattle.check_assignment.specs.Terms.{is_term, moved};
ghost use Rattle.check_assignment.specs.Keeping.{AreSmall};
ghost use Rattle.check_assignment.specs.declared.standing.Standing.{Standing as Known};

use crate::term::Term;
use crate::test::Test;

/// The balance of a constraint that is tested by it, else 0; and whether the constraint is known to hold.
#[derive(Clone, Copy)]
pub(crate) struct Standing {
    pub(crate) total: i128,
    pub(crate) test: Test,
    pub(crate) holds: bool,
}

/// In 128 bits, which neither the product nor the sum leaves.
#[inline(always)]
pub(crate) fn grown(total: i128, factor: i64, step: i64) -> i128
    requires total { unsigned_abs total ≤ 10 ^ 38 }
    requires factor { unsigned_abs factor ≤ 1000000000 }
    requires step { unsigned_abs step ≤ 2000000000 }
    ensures { result ≡ (total +ℤ (factor *ℤ step)) }
{
    total + factor as i128 * step as i128
}

/// The variable of these terms grew by so much: moves the balances that it stands in, and forgets that these constraints
/// hold.
#[inline(never)]
pub(crate) fn move_terms(terms: &[Term], step: i64, standings: &mut [Standing])
    requires terms { list_all (is_term (length standings.old)) terms.now ≡ true }
    requires step { unsigned_abs step ≤ 2000000000 }
    requires small { AreSmall standings.old }
    ensures length { length standings.new ≡ length standings.old }
    ensures moved { (k : ℕ) (s : Known) → slice_get standings.old k ≡ Some s → slice_get standings.new k ≡ Some (moved terms.now k step s) }
{
    for term in terms {
        let standing = &mut standings[term.rule as usize];
        standing.total = grown(standing.total, term.factor, step);
        standing.holds = false;
    }
}
