//! Arguments that don't fit their predicate, and Boolean variables where a number is meant.
ghost use Rattle.std.specs.Prelude.{◌≡◌};
ghost use Rattle.std.specs.List.{list_all};
ghost use Rattle.text_resolve.specs.Names.{declared};
ghost use Rattle.text_resolve.specs.Fits.{argument_fits as argument_fits_in, arguments_fit as arguments_fit_in, call_fits as call_fits_in, first_misfit as first_misfit_in, is_boolean_meant, is_boolean_one as is_boolean_in, is_integer_meant, is_integer_one as is_integer_in, is_number_one, is_truth_one, misfit as misfit_in, wrong_condition as wrong_condition_in, wrong_target as wrong_target_in};

use crate::bytes::bytes_of;
use crate::lengths::lengths_fit;
use crate::names::{Meant, Named, Names};
use crate::predicates::predicate_of;
use qc_model::{ArgKind, Pred, arg_kinds_of};
use text_grammar::{ArgumentText, ConditionText, Item, One, Word};

fn is_integer_variable(meant: Option<Meant>) -> bool
    ensures { result ≡ is_integer_meant meant }
{
    match meant {
        Some(meant) => match meant.named {
            Named::Integer(_) => true,
            Named::Boolean(_) => false,
            Named::Aggregate(_) => false,
        },
        None => false,
    }
}

fn is_boolean_variable(meant: Option<Meant>) -> bool
    ensures { result ≡ is_boolean_meant meant }
{
    match meant {
        Some(meant) => match meant.named {
            Named::Integer(_) => false,
            Named::Boolean(_) => true,
            Named::Aggregate(_) => false,
        },
        None => false,
    }
}

/// An integer variable or a number.
fn is_integer(names: &Names, one: &One) -> bool
    ensures { result ≡ is_integer_in names.now.text.now (declared names.now.text.now names.now.items.now) one.now }
{
    match one {
        One::Name(word) => is_integer_variable(names.look_up(*word)),
        One::Number(_) => true,
        One::Truth(_) => false,
    }
}

/// A Boolean variable or a truth value.
fn is_boolean(names: &Names, one: &One) -> bool
    ensures { result ≡ is_boolean_in names.now.text.now (declared names.now.text.now names.now.items.now) one.now }
{
    match one {
        One::Name(word) => is_boolean_variable(names.look_up(*word)),
        One::Number(_) => false,
        One::Truth(_) => true,
    }
}

fn is_number(one: &One) -> bool
    ensures { result ≡ is_number_one one.now }
{
    match one {
        One::Name(_) => false,
        One::Number(_) => true,
        One::Truth(_) => false,
    }
}

fn is_truth(one: &One) -> bool
    ensures { result ≡ is_truth_one one.now }
{
    match one {
        One::Name(_) => false,
        One::Number(_) => false,
        One::Truth(_) => true,
    }
}

fn are_integers(names: &Names, items: &[One]) -> bool
    ensures { result ≡ list_all (is_integer_in names.now.text.now (declared names.now.text.now names.now.items.now)) items.now }
{
    items.iter().all(|one| is_integer(names, one))
}

fn are_booleans(names: &Names, items: &[One]) -> bool
    ensures { result ≡ list_all (is_boolean_in names.now.text.now (declared names.now.text.now names.now.items.now)) items.now }
{
    items.iter().all(|one| is_boolean(names, one))
}

fn are_numbers(items: &[One]) -> bool
    ensures { result ≡ list_all is_number_one items.now }
{
    items.iter().all(|one| is_number(one))
}

fn are_truths(items: &[One]) -> bool
    ensures { result ≡ list_all is_truth_one items.now }
{
    items.iter().all(|one| is_truth(one))
}

/// An argument of this sort.
fn argument_fits(names: &Names, sort: ArgKind, argument: &ArgumentText) -> bool
    ensures { result ≡ argument_fits_in names.now.text.now (declared names.now.text.now names.now.items.now) sort argument.now }
{
    match (sort, argument) {
        (ArgKind::Integer, ArgumentText::One(one)) => is_integer(names, one),
        (ArgKind::Boolean, ArgumentText::One(one)) => is_boolean(names, one),
        (ArgKind::Integers, ArgumentText::Array { items, .. }) => are_integers(
            names,
            items.items(),
        ),
        (ArgKind::Booleans, ArgumentText::Array { items, .. }) => are_booleans(
            names,
            items.items(),
        ),
        (ArgKind::Numbers, ArgumentText::Array { items, .. }) => are_numbers(items.items()),
        (ArgKind::Truths, ArgumentText::Array { items, .. }) => are_truths(items.items()),
        (ArgKind::Members, ArgumentText::Members(_)) => true,
        _ => false,
    }
}

/// As many arguments as sorts, each of its own.
fn arguments_fit(names: &Names, sorts: &[ArgKind], args: &[ArgumentText]) -> bool
    ensures { result ≡ arguments_fit_in names.now.text.now (declared names.now.text.now names.now.items.now) sorts.now args.now }
{
    match (sorts.split_first(), args.split_first()) {
        (Some((sort, sorts)), Some((arg, args))) => {
            argument_fits(names, *sort, arg) && arguments_fit(names, sorts, args)
        }
        (None, None) => true,
        _ => false,
    }
}

/// Arguments of the sorts and the lengths that the predicate asks for.
fn call_fits(names: &Names, pred: Option<Pred>, args: &[ArgumentText]) -> bool
    ensures { result ≡ call_fits_in names.now.text.now (declared names.now.text.now names.now.items.now) pred args.now }
{
    match pred {
        Some(pred) => arguments_fit(names, arg_kinds_of(pred), args) && lengths_fit(pred, args),
        None => false,
    }
}

fn wrong_target(names: &Names, word: Word) -> Option<u32>
    ensures { result ≡ wrong_target_in names.now.text.now (declared names.now.text.now names.now.items.now) word }
{
    if is_boolean_variable(names.look_up(word)) {
        Some(word.start)
    } else {
        None
    }
}

fn wrong_condition(names: &Names, condition: &Option<ConditionText>) -> Option<u32>
    ensures { result ≡ wrong_condition_in names.now.text.now (declared names.now.text.now names.now.items.now) condition.now }
{
    match condition {
        Some(condition) => wrong_target(names, condition.target),
        None => None,
    }
}

fn misfit(names: &Names, item: &Item) -> Option<u32>
    ensures { result ≡ misfit_in names.now.text.now (declared names.now.text.now names.now.items.now) item.now }
{
    match item {
        Item::Exists { condition, .. } => wrong_condition(names, condition),
        Item::Aggregate { target, .. } => wrong_target(names, *target),
        Item::Constraint { name, args, .. } => {
            let pred = predicate_of(bytes_of(names.text, *name));
            if call_fits(names, pred, args.items()) {
                None
            } else {
                Some(name.start)
            }
        }
        Item::Forall { .. } => None,
        Item::Goal => None,
        Item::Variable { .. } => None,
    }
}

/// The place of the first constraint's name whose arguments don't fit, or of the first Boolean variable
/// that a condition or a fold names, whichever comes first.
pub(crate) fn first_misfit(names: &Names) -> Option<u32>
    ensures { result ≡ first_misfit_in names.now.text.now (declared names.now.text.now names.now.items.now) names.now.items.now }
{
    for item in names.items {
        if let Some(at) = misfit(names, item) {
            return Some(at);
        }
    }
    None
}
