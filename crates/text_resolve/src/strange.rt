//! Constraints of a name that is no predicate's.
ghost use Rattle.std.specs.Prelude.{◌≡◌};
ghost use Rattle.text_resolve.specs.Fits.{first_strange as first_strange_in, strange_predicate as strange_predicate_in};

use crate::bytes::bytes_of;
use crate::predicates::predicate_of;
use text_grammar::Item;

fn strange_predicate(text: &[u8], item: &Item) -> Option<u32>
    ensures { result ≡ strange_predicate_in text.now item.now }
{
    match item {
        Item::Constraint { name, .. } => match predicate_of(bytes_of(text, *name)) {
            Some(_) => None,
            None => Some(name.start),
        },
        Item::Exists { .. } => None,
        Item::Forall { .. } => None,
        Item::Goal => None,
        Item::Variable { .. } => None,
        Item::Aggregate { .. } => None,
    }
}

/// The place of the first constraint's name that is no predicate's.
pub(crate) fn first_strange(text: &[u8], items: &[Item]) -> Option<u32>
    ensures { result ≡ first_strange_in text.now items.now }
{
    for item in items {
        if let Some(at) = strange_predicate(text, item) {
            return Some(at);
        }
    }
    None
}
