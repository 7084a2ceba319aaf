//! Where a text has more of something than a problem may have.
ghost use Rattle.std.specs.Prelude.{◌≡◌};
ghost use Rattle.text_resolve.specs.Excess.{long_braces as long_braces_of, long_domain as long_domain_of, long_argument as long_argument_of, first_long as first_long_of, long_call as long_call_of, first_excess as first_excess_of};

use crate::bytes::bytes_of;
use crate::predicates::predicate_of;
use qc_model::{ArgKind, Pred, arg_kinds_of, limits, most_items};
use text_grammar::{ArgumentText, DomainText, Item, Members};

/// The place of braces with more than 100,000 items, as they are written.
fn long_braces(members: &Members) -> Option<u32>
    ensures { result ≡ long_braces_of members.now }
{
    match members {
        Members::Range(_, _) => None,
        Members::Braces { at, items } => {
            if items.items().len() <= limits::NUMBERS {
                None
            } else {
                Some(*at)
            }
        }
    }
}

fn long_domain(domain: &DomainText) -> Option<u32>
    ensures { result ≡ long_domain_of domain.now }
{
    match domain {
        DomainText::Bits { .. } => None,
        DomainText::Members(members) => long_braces(members),
    }
}

fn long_argument(sort: ArgKind, argument: &ArgumentText) -> Option<u32>
    ensures { result ≡ long_argument_of sort argument.now }
{
    match argument {
        ArgumentText::One(_) => None,
        ArgumentText::Members(members) => long_braces(members),
        ArgumentText::Array { at, items } => {
            if items.items().len() <= most_items(sort) {
                None
            } else {
                Some(*at)
            }
        }
    }
}

fn first_long(sorts: &[ArgKind], args: &[ArgumentText]) -> Option<u32>
    ensures { result ≡ first_long_of sorts.now args.now }
{
    let (Some((sort, sorts)), Some((argument, args))) = (sorts.split_first(), args.split_first())
    else {
        return None;
    };
    match long_argument(*sort, argument) {
        Some(at) => Some(at),
        None => first_long(sorts, args),
    }
}

/// The place of the first array or braces of a constraint with too many items.
fn long_call(pred: Option<Pred>, args: &[ArgumentText]) -> Option<u32>
    ensures { result ≡ long_call_of pred args.now }
{
    match pred {
        Some(pred) => first_long(arg_kinds_of(pred), args),
        None => None,
    }
}

/// The place of the first scope, variable, aggregate or constraint after as many as there may be, or of the first
/// array or braces with too many items, whichever comes first.
pub(crate) fn first_excess(text: &[u8], items: &[Item]) -> Option<u32>
    ensures { result ≡ first_excess_of text.now 0 0 0 0 items.now }
{
    let mut scopes = 0;
    let mut variables = 0;
    let mut aggregates = 0;
    let mut constraints = 0;
    for item in items {
        match item {
            Item::Exists { at, .. } | Item::Forall { at } => {
                if scopes >= limits::SCOPES {
                    return Some(*at);
                }
                scopes += 1;
            }
            Item::Variable { at, domain, .. } => {
                if variables >= limits::VARIABLES {
                    return Some(*at);
                }
                if let Some(at) = long_domain(domain) {
                    return Some(at);
                }
                variables += 1;
            }
            Item::Constraint { at, name, args } => {
                if constraints >= limits::CONSTRAINTS {
                    return Some(*at);
                }
                if let Some(at) = long_call(predicate_of(bytes_of(text, *name)), args.items()) {
                    return Some(at);
                }
                constraints += 1;
            }
            Item::Aggregate { at, .. } => {
                if aggregates >= limits::AGGREGATES {
                    return Some(*at);
                }
                aggregates += 1;
            }
            Item::Goal => {}
        }
    }
    None
}
