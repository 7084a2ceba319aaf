//! Numbers in a row, and how far two numbers are apart.
ghost use Rattle.std.specs.Prelude.{◌≡◌, ◌≤◌, IsTrue, pos, ◌+ℤ◌, ◌≤ℤ◌};
ghost use Rattle.qc_model.specs.Valid.{is_number};

/// The numbers from `first` to the one before `end`; none where the two are equal.
#[derive(Clone, Copy, PartialEq, Eq)]
pub struct Span {
    pub first: usize,
    pub end: usize,
}

/// How far the second number is above the first.
pub fn width(low: i64, high: i64) -> u32
    requires low { IsTrue (is_number low) }
    requires high { IsTrue (is_number high) }
    requires order { low ≤ℤ high }
    ensures value { low +ℤ pos result ≡ high }
    ensures small { result ≤ 2000000000 }
{
    (high - low) as u32
}
