//! Items to a problem, or to the first of ten faults.
ghost use Rattle.std.specs.Prelude.{◌≡◌, [], None, IfOk, IfErr, OnOk, IsTrue};
ghost use Rattle.std.specs.List.{list_all};
ghost use Rattle.qc_model.specs.Names.{is_word};
ghost use Rattle.text_resolve.specs.Names.{declared, first_repeated};
ghost use Rattle.text_resolve.specs.Draft.{game_of};
ghost use Rattle.text_resolve.specs.Excess.{first_excess as first_excess_of};
ghost use Rattle.text_resolve.specs.Makeable.{IsMakeable};
ghost use Rattle.text_resolve.specs.TextRefusals.{first_refusal, last_refusal};
ghost use Rattle.text_resolve.specs.Refusals.{IsItemFault, IsRefusedFor};

use crate::bottlenecks::bottleneck_at;
use crate::draft::make_draft;
use crate::empty::first_empty;
use crate::excess::first_excess;
use crate::far::first_far;
use crate::fault::NamesFault;
use crate::hidden::first_hidden;
use crate::misfit::first_misfit;
use crate::names::Names;
use crate::refusal::{ItemFault, RefusalKind};
use crate::strange::first_strange;
use crate::unknown::first_unknown;
use crate::wide::first_wide;
use qc_model::Draft;
use qc_tokens::Token;
use std::alloc::Global;
use text_grammar::Item;

/// Refuses the text for this fault, where it has a place.
fn refuse(kind: RefusalKind, place: Option<u32>) -> Result<(), ItemFault>
    ensures none { OnOk result (place ≡ None) }
    ensures refused { IfErr result (IsRefusedFor kind place) }
{
    match place {
        Some(at) => Err(ItemFault::Refused { kind, at }),
        None => Ok(()),
    }
}

/// Refuses a text whose names differ for the first of the next eight faults.
fn check(alloc: Global, names: &Names, tokens: &[Token]) -> Result<(), ItemFault>
    requires { first_repeated [] (declared names.now.text.now names.now.items.now) ≡ None }
    ensures last { OnOk result (first_refusal names.now.text.now tokens.now names.now.items.now ≡ last_refusal names.now.text.now names.now.items.now) }
    ensures limits { OnOk result (first_excess_of names.now.text.now 0 0 0 0 names.now.items.now ≡ None) }
    ensures refused { IfErr result (IsItemFault (first_refusal names.now.text.now tokens.now names.now.items.now)) }
{
    refuse(RefusalKind::UnknownName, first_unknown(names))?;
    refuse(
        RefusalKind::UnknownPredicate,
        first_strange(names.text, names.items),
    )?;
    refuse(RefusalKind::WrongArguments, first_misfit(names))?;
    refuse(RefusalKind::OutOfRange, first_far(tokens))?;
    refuse(RefusalKind::EmptyDomain, first_empty(names.items))?;
    refuse(RefusalKind::TooWide, first_wide(names.items))?;
    refuse(RefusalKind::TooMany, first_excess(names.text, names.items))?;
    refuse(RefusalKind::NotVisible, first_hidden(alloc, names)?)
}

/// The draft that the items make, or the last of the faults, where there is no other.
fn make(alloc: Global, names: &Names) -> Result<Draft, ItemFault>
    requires { IsMakeable names.now.text.now names.now.items.now }
    ensures made { IfOk result (λ draft. draft ≡ game_of names.now.text.now names.now.items.now) }
    ensures none { OnOk result (last_refusal names.now.text.now names.now.items.now ≡ None) }
    ensures refused { IfErr result (IsItemFault (last_refusal names.now.text.now names.now.items.now)) }
{
    let draft = make_draft(alloc, names)?;
    refuse(
        RefusalKind::BottleneckFirst,
        bottleneck_at(&draft, names.items),
    )?;
    Ok(draft)
}

/// The problem that the items of a text make, or the first fault of the text, in the order of
/// `RefusalKind`.
pub fn resolve(
    alloc: Global,
    text: &[u8],
    tokens: &[Token],
    items: &[Item],
) -> Result<Draft, ItemFault>
    requires words { IsTrue (list_all (λ d. is_word d.name) (declared text.now items.now)) }
    ensures made { IfOk result (λ draft. draft ≡ game_of text.now items.now) }
    ensures none { OnOk result (first_refusal text.now tokens.now items.now ≡ None) }
    ensures refused { IfErr result (IsItemFault (first_refusal text.now tokens.now items.now)) }
{
    let names = match Names::new(alloc, text, items) {
        Ok(names) => names,
        Err(NamesFault::Repeated { at }) => {
            return Err(ItemFault::Refused {
                kind: RefusalKind::DuplicateName,
                at,
            });
        }
        Err(NamesFault::Memory(error)) => return Err(ItemFault::Memory(error)),
    };
    check(alloc, &names, tokens)?;
    make(alloc, &names)
}
