//! The predicate of a name.
ghost use Rattle.std.specs.Prelude.{◌≡◌};
ghost use Rattle.text_resolve.specs.Fits.{predicate_of as predicate_of_name};

use qc_model::{Pred, all_predicates, pred_name};

/// The predicate that has this name.
#[tactic(auto, unfolding(crate::specs::Fits::predicate_of))]
pub(crate) fn predicate_of(name: &[u8]) -> Option<Pred>
    ensures { result ≡ predicate_of_name name.now }
{
    all_predicates()
        .iter()
        .copied()
        .find(|pred| pred_name(*pred).as_bytes() == name)
}
