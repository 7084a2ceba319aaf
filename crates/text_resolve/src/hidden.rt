//! Names that a condition, a fold or a constraint doesn't see from where it stands.
ghost use Rattle.std.specs.Prelude.{◌≡◌, ◌+◌, ◌<◌, ◌^◌, IfOk};
ghost use Rattle.text_resolve.specs.Owned.{owned, kind_of as kind_of_item, kinds_of as kinds_of_items};
ghost use Rattle.text_resolve.specs.Names.{declared};
ghost use Rattle.text_resolve.specs.Hidden.{next_universal as next_universal_of, is_seen as is_seen_of, hidden_target as hidden_target_of, hidden_condition as hidden_condition_of, hidden_in as hidden_in_item, first_hidden as first_hidden_of};

use crate::counts::Counts;
use crate::names::{Meant, Named, Names};
use crate::walk::{Rule, broken_in_arguments};
use qc_model::Kind;
use std::alloc::{AllocError, Global};
use text_grammar::{ConditionText, Item, Word};

fn kind_of(item: &Item) -> Option<Kind>
    ensures { result ≡ kind_of_item item.now }
{
    match item {
        Item::Exists { .. } => Some(Kind::Exists),
        Item::Forall { .. } => Some(Kind::Forall),
        Item::Goal | Item::Variable { .. } | Item::Aggregate { .. } | Item::Constraint { .. } => {
            None
        }
    }
}

/// The kinds of the scopes, in order.
fn kinds_of(alloc: Global, items: &[Item]) -> Result<Vec<Kind>, AllocError>
    ensures { IfOk result (λ kinds. kinds.items ≡ kinds_of_items items.now) }
{
    items.iter().filter_map(|item| kind_of(item)).collect(alloc)
}

/// The next universal scope after scope i.
fn next_universal(kinds: &[Kind], i: usize) -> Option<usize>
    requires { i + 1 < 2 ^ 64 }
    ensures { result ≡ next_universal_of kinds.now i }
{
    for n in i + 1..kinds.len() {
        if kinds[n] == Kind::Forall {
            return Some(n);
        }
    }
    None
}

/// Whether a condition or a fold sees this: with a universal scope to come, the variables of scopes
/// before it and its own aggregate; without one, all variables.
fn is_seen(universal: Option<usize>, meant: Meant) -> bool
    ensures { result ≡ is_seen_of universal meant }
{
    match universal {
        Some(u) => match meant.named {
            Named::Integer(_) | Named::Boolean(_) => meant.scope < u,
            Named::Aggregate(_) => meant.scope == u,
        },
        None => match meant.named {
            Named::Integer(_) | Named::Boolean(_) => true,
            Named::Aggregate(_) => false,
        },
    }
}

/// The place of a target that a condition or a fold of this scope doesn't see.
fn hidden_target(names: &Names, kinds: &[Kind], scope: usize, target: Word) -> Option<u32>
    requires { scope + 1 < 2 ^ 64 }
    ensures { result ≡ hidden_target_of names.now.text.now (declared names.now.text.now names.now.items.now) kinds.now scope target }
{
    match names.look_up(target) {
        Some(meant) => {
            if is_seen(next_universal(kinds, scope), meant) {
                None
            } else {
                Some(target.start)
            }
        }
        None => None,
    }
}

fn hidden_condition(
    names: &Names,
    kinds: &[Kind],
    scope: usize,
    condition: &Option<ConditionText>,
) -> Option<u32>
    requires { scope + 1 < 2 ^ 64 }
    ensures { result ≡ hidden_condition_of names.now.text.now (declared names.now.text.now names.now.items.now) kinds.now scope condition.now }
{
    match condition {
        Some(condition) => hidden_target(names, kinds, scope, condition.target),
        None => None,
    }
}

/// The place of the first name of an item that it doesn't see.
fn hidden_in(names: &Names, kinds: &[Kind], scope: usize, item: &Item) -> Option<u32>
    requires { scope + 1 < 2 ^ 64 }
    ensures { result ≡ hidden_in_item names.now.text.now (declared names.now.text.now names.now.items.now) kinds.now (record { owner = scope; item = item.now }) }
{
    match item {
        Item::Exists { condition, .. } => hidden_condition(names, kinds, scope, condition),
        Item::Aggregate { target, .. } => hidden_target(names, kinds, scope, *target),
        Item::Constraint { args, .. } => broken_in_arguments(
            names,
            Rule::Visible { scope },
            args.items(),
        ),
        Item::Forall { .. } => None,
        Item::Goal => None,
        Item::Variable { .. } => None,
    }
}

fn first_hidden_among(names: &Names, kinds: &[Kind]) -> Option<u32>
    ensures { result ≡ first_hidden_of names.now.text.now (declared names.now.text.now names.now.items.now) kinds.now (owned names.now.items.now) }
{
    let mut counts = Counts::START;
    for item in names.items {
        counts = counts.after(item);
        if let Some(at) = hidden_in(names, kinds, counts.owner, item) {
            return Some(at);
        }
    }
    None
}

/// The place of the first name that isn't seen where it is used. It takes memory for the kinds of the
/// scopes.
pub(crate) fn first_hidden(alloc: Global, names: &Names) -> Result<Option<u32>, AllocError>
    ensures { IfOk result (λ at. at ≡ first_hidden_of names.now.text.now (declared names.now.text.now names.now.items.now) (kinds_of_items names.now.items.now) (owned names.now.items.now)) }
{
    let kinds = kinds_of(alloc, names.items)?;
    Ok(first_hidden_among(names, kinds.as_slice()))
}
