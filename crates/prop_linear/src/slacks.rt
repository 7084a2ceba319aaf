//! How far the ends of a sum are from a number.
ghost use Rattle.std.specs.Prelude.{◌≡◌, ◌≤◌, ◌^◌, pos, ◌+ℤ◌, ◌≤ℤ◌, unsigned_abs};

/// How far the number is above the least of the sum.
pub(crate) fn slack(bound: i64, least: i128) -> u128
    requires least { unsigned_abs least ≤ 10 ^ 21 }
    requires order { least ≤ℤ bound }
    ensures { bound ≡ least +ℤ pos result }
{
    (bound as i128 - least) as u128
}

/// How far the greatest of the sum is above the number.
pub(crate) fn excess(greatest: i128, bound: i64) -> u128
    requires greatest { unsigned_abs greatest ≤ 10 ^ 21 }
    requires order { bound ≤ℤ greatest }
    ensures { greatest ≡ bound +ℤ pos result }
{
    (greatest - bound as i128) as u128
}
