//! The ends of what is left to an argument.
ghost use Rattle.std.specs.Prelude.{IsTrue, ◌≤ℤ◌};
ghost use Rattle.qc_model.specs.Valid.{is_number};

/// The least and the greatest value left to an argument.
#[derive(Clone, Copy)]
pub(crate) struct Ends {
    pub(crate) least: i64,
    pub(crate) greatest: i64,
    pub(crate) ghost order: { least ≤ℤ greatest },
    pub(crate) ghost least_small: { IsTrue (is_number least) },
    pub(crate) ghost greatest_small: { IsTrue (is_number greatest) },
}
