//! Arrays of the lengths that a predicate asks for.
ghost use Rattle.std.specs.Prelude.{◌≡◌, slice_get};
ghost use Rattle.qc_model.specs.Meaning.{meaning_of as meaning_in_spec};
ghost use Rattle.qc_model.specs.RowMeaning.{plain_meaning};
ghost use Rattle.text_resolve.specs.Fits.{is_number_argument, is_sum_text as is_sum_text_of, items_of, lengths_fit as lengths_fit_of};

use qc_model::{Meaning, Pred, meaning_of};
use text_grammar::{ArgumentText, One};

fn item_count(args: &[ArgumentText], place: usize) -> usize
    ensures { result ≡ items_of (slice_get args.now place) }
{
    match args.get(place) {
        Some(ArgumentText::One(_)) => 1,
        Some(ArgumentText::Array { items, .. }) => items.items().len(),
        Some(ArgumentText::Members(_)) => 0,
        None => 0,
    }
}

fn is_number(args: &[ArgumentText], place: usize) -> bool
    ensures { result ≡ is_number_argument (slice_get args.now place) }
{
    match args.get(place) {
        Some(ArgumentText::One(One::Number(_))) => true,
        _ => false,
    }
}

/// Whether there are as many factors as items, and the sum is compared with a number.
fn is_sum_text(args: &[ArgumentText]) -> bool
    ensures { result ≡ is_sum_text_of args.now }
{
    item_count(args, 0) == item_count(args, 1) && is_number(args, 2)
}

/// Whether the arrays have the lengths that the meaning asks for.
fn suit_meaning(meaning: Meaning, args: &[ArgumentText]) -> bool
    ensures { result ≡ lengths_fit_of (plain_meaning meaning) args.now }
{
    match meaning {
        Meaning::SumEqual | Meaning::SumDifferent | Meaning::SumAtMost => is_sum_text(args),
        Meaning::Minimum | Meaning::Maximum => 0 < item_count(args, 1),
        Meaning::Table => {
            let width = item_count(args, 0);
            0 < width && item_count(args, 1) % width == 0
        }
        _ => true,
    }
}

/// Whether the arrays have the lengths that the predicate asks for.
#[tactic(auto, using(crate::proofs::SaidLengths::lengths_said))]
pub(crate) fn lengths_fit(pred: Pred, args: &[ArgumentText]) -> bool
    ensures { result ≡ lengths_fit_of (meaning_in_spec pred) args.now }
{
    suit_meaning(meaning_of(pred).meaning, args)
}
