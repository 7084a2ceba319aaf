//! The type of a span and its invariant.
ghost use Rattle.std.specs.Prelude.{◌≤ℤ◌};
ghost use Rattle.fd_interval.specs.Limit.{IsWithinLimit};

/// The numbers from `lo` to `hi`, both among them. It holds at least one number, and its ends lie
/// from -10^24 to 10^24.
#[derive(Clone, Copy, PartialEq, Eq, Debug)]
pub struct Span {
    pub lo: i128,
    pub hi: i128,
    pub ghost ordered: { lo ≤ℤ hi },
    pub ghost lo_within: { IsWithinLimit lo },
    pub ghost hi_within: { IsWithinLimit hi },
}
