//! A range of values.
ghost use Rattle.std.specs.Prelude.{◌≡◌, IsTrue};
ghost use Rattle.std.specs.Ordering.{int_eq};
ghost use Rattle.qc_model.specs.Valid.{is_range};

/// The values from `first` to `last`.
#[derive(Clone, Copy)]
pub(crate) struct Range {
    pub(crate) first: i64,
    pub(crate) last: i64,
    pub(crate) ghost ordered: { IsTrue (is_range first last) },
}

impl Range {
    /// Whether the range begins with this value.
    pub(crate) fn begins_with(self, value: i64) -> bool
        ensures { result ≡ int_eq value self.first }
    {
        value == self.first
    }

    /// Whether the range has one value.
    pub(crate) fn is_one(self) -> bool
        ensures { result ≡ int_eq self.first self.last }
    {
        self.first == self.last
    }
}
