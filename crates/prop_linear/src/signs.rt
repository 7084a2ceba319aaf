//! A sum, and its negative.
ghost use Rattle.std.specs.Prelude.{◌≡◌, ◌<◌, IsTrue, length, get_or, pos, ◌-ℤ◌};
ghost use Rattle.std.specs.List.{list_all};
ghost use Rattle.qc_model.specs.Valid.{is_number};
ghost use Rattle.prop_linear.specs.Sides.{opposite, signed};

fn negated(factor: i64) -> i64
    requires { IsTrue (is_number factor) }
    ensures { result ≡ opposite factor }
{
    -factor
}

/// The greatest number below the opposite of another: a sum is more than a number where its negative is at most this.
pub(crate) fn under_opposite(bound: i64) -> i64
    requires { IsTrue (is_number bound) }
    ensures { result ≡ opposite bound -ℤ pos 1 }
{
    -bound - 1
}

/// The factor at a place of the sum, or of its negative.
pub(crate) fn factor_at(factors: &[i64], k: usize, negative: bool) -> i64
    requires factors { IsTrue (list_all is_number factors.now) }
    requires place { k < length factors.now }
    ensures { result ≡ get_or (signed negative factors.now) k (pos 0) }
{
    if negative {
        negated(factors[k])
    } else {
        factors[k]
    }
}
