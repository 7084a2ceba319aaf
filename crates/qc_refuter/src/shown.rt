//! A box in which one variable keeps only some of its values.
ghost use Rattle.qc_model.specs.Domains.{values_left, values_within};
ghost use Rattle.qc_refuter.specs.Shown.{HasEnds};

use fd_store::Store;
use qc_model::VarId;

/// The least and the greatest of some values. Where there are none, any two numbers.
#[derive(Clone, Copy)]
pub(crate) struct Ends {
    pub(crate) least: i64,
    pub(crate) greatest: i64,
}

/// A store in which x keeps only its values from lo to hi, and the ends of these, which are looked up once.
#[derive(Clone, Copy)]
pub(crate) struct View<'a> {
    pub(crate) store: &'a Store,
    pub(crate) x: VarId,
    pub(crate) lo: i64,
    pub(crate) hi: i64,
    pub(crate) ends: Ends,
    ghost shown: { HasEnds ends (values_within lo hi (values_left store.now.box x.0)) },
}
