//! Numbers of vectors.
ghost use Rattle.std.specs.Prelude.{◌≡◌};
ghost use Rattle.qc_model.specs.Verdict.{first_value as first_value_of};

/// The first value, or 0 where there is none.
pub(crate) fn first_value(items: &[i64]) -> i64
    ensures { result ≡ first_value_of items.now }
{
    match items.first() {
        Some(first) => *first,
        None => 0,
    }
}
