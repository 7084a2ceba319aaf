//! Domains without a value.
ghost use Rattle.std.specs.Prelude.{◌≡◌};
ghost use Rattle.text_resolve.specs.Numbers.{has_members as has_members_of, members_at as members_at_of, domain_at as domain_at_of, has_domain_values as has_domain_values_of, empty_domain as empty_domain_of, first_empty as first_empty_of};

use text_grammar::{DomainText, Item, Members};

fn has_members(members: &Members) -> bool
    ensures { result ≡ has_members_of members.now }
{
    match members {
        Members::Range(low, high) => low.value <= high.value,
        Members::Braces { items, .. } => !items.items().is_empty(),
    }
}

fn members_at(members: &Members) -> u32
    ensures { result ≡ members_at_of members.now }
{
    match members {
        Members::Range(low, _) => low.at,
        Members::Braces { at, .. } => *at,
    }
}

/// The place of a domain's first token.
pub(crate) fn domain_at(domain: &DomainText) -> u32
    ensures { result ≡ domain_at_of domain.now }
{
    match domain {
        DomainText::Bits { at } => *at,
        DomainText::Members(members) => members_at(members),
    }
}

fn has_domain_values(domain: &DomainText) -> bool
    ensures { result ≡ has_domain_values_of domain.now }
{
    match domain {
        DomainText::Bits { .. } => true,
        DomainText::Members(members) => has_members(members),
    }
}

fn empty_domain(item: &Item) -> Option<u32>
    ensures { result ≡ empty_domain_of item.now }
{
    match item {
        Item::Variable { domain, .. } => {
            if has_domain_values(domain) {
                None
            } else {
                Some(domain_at(domain))
            }
        }
        _ => None,
    }
}

/// The place of the first domain without a value.
pub(crate) fn first_empty(items: &[Item]) -> Option<u32>
    ensures { result ≡ first_empty_of items.now }
{
    for item in items {
        if let Some(at) = empty_domain(item) {
            return Some(at);
        }
    }
    None
}
