//! Names that are declared nowhere.
ghost use Rattle.std.specs.Prelude.{◌≡◌};
ghost use Rattle.text_resolve.specs.Names.{condition_uses, declared, first_unknown as first_unknown_in, first_word, is_unknown as is_unknown_in, item_uses};

use crate::names::Names;
use crate::walk::{Rule, broken_in_arguments, unknown_word};
use text_grammar::{ConditionText, Item};

fn unknown_in_condition(names: &Names, condition: &Option<ConditionText>) -> Option<u32>
    ensures { result ≡ first_word (is_unknown_in names.now.text.now (declared names.now.text.now names.now.items.now)) (condition_uses condition.now) }
{
    match condition {
        Some(condition) => unknown_word(names, condition.target),
        None => None,
    }
}

fn unknown_in_item(names: &Names, item: &Item) -> Option<u32>
    ensures { result ≡ first_word (is_unknown_in names.now.text.now (declared names.now.text.now names.now.items.now)) (item_uses item.now) }
{
    match item {
        Item::Exists { condition, .. } => unknown_in_condition(names, condition),
        Item::Aggregate { target, .. } => unknown_word(names, *target),
        Item::Constraint { args, .. } => broken_in_arguments(names, Rule::Known, args.items()),
        Item::Forall { .. } => None,
        Item::Goal => None,
        Item::Variable { .. } => None,
    }
}

/// The place of the first name used that is declared nowhere.
pub(crate) fn first_unknown(names: &Names) -> Option<u32>
    ensures { result ≡ first_unknown_in names.now.text.now (declared names.now.text.now names.now.items.now) names.now.items.now }
{
    for item in names.items {
        if let Some(at) = unknown_in_item(names, item) {
            return Some(at);
        }
    }
    None
}
