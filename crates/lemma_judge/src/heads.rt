//! What the first two lines of a list state.
ghost use Rattle.std.specs.Prelude.{◌≡◌};
ghost use Rattle.lemma_judge.specs.Stated.{first_head};

use lemma_text::Item;
use qc_model::Kind;

/// The side that loses by the head, where none came before.
pub(crate) fn head_after(loser: Option<Kind>, item: Item) -> Option<Kind>
    ensures { result ≡ first_head loser item }
{
    match loser {
        Some(loser) => Some(loser),
        None => match item {
            Item::Head { loser } => Some(loser),
            Item::Lemma { loser: _, bare: _ } => None,
            Item::Literal {
                literal: _,
                last: _,
            } => None,
            Item::Sum(_) => None,
            Item::Step(_) => None,
            Item::Lost(_) => None,
            Item::Goal => None,
            Item::Forget(_) => None,
        },
    }
}
