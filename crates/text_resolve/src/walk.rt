//! The uses of names in a constraint, in order, and the first that breaks a rule.
ghost use Rattle.std.specs.Prelude.{◌≡◌, [], ◌∷◌, flat_map};
ghost use Rattle.text_resolve.specs.Names.{argument_uses, declared, first_word, is_unknown, one_uses};
ghost use Rattle.text_resolve.specs.Hidden.{is_later_word};
ghost use Rattle.text_resolve.specs.Rules.{breaks};

use crate::names::Names;
use text_grammar::{ArgumentText, One, Word};

/// What is asked of a name that is used.
#[derive(Clone, Copy)]
pub(crate) enum Rule {
    /// It is declared somewhere.
    Known,
    /// No scope after this one declares it.
    Visible { scope: usize },
}

/// The place of a name that is declared nowhere.
pub(crate) fn unknown_word(names: &Names, word: Word) -> Option<u32>
    ensures { result ≡ first_word (is_unknown names.now.text.now (declared names.now.text.now names.now.items.now)) (word ∷ []) }
{
    match names.look_up(word) {
        Some(_) => None,
        None => Some(word.start),
    }
}

/// The place of a name that a later scope declares.
fn later_word(names: &Names, scope: usize, word: Word) -> Option<u32>
    ensures { result ≡ first_word (is_later_word names.now.text.now (declared names.now.text.now names.now.items.now) scope) (word ∷ []) }
{
    match names.look_up(word) {
        Some(meant) => {
            if scope < meant.scope {
                Some(word.start)
            } else {
                None
            }
        }
        None => None,
    }
}

/// The place of a name that breaks the rule.
fn broken_word(names: &Names, rule: Rule, word: Word) -> Option<u32>
    ensures { result ≡ first_word (breaks names.now.text.now (declared names.now.text.now names.now.items.now) rule) (word ∷ []) }
{
    match rule {
        Rule::Known => unknown_word(names, word),
        Rule::Visible { scope } => later_word(names, scope, word),
    }
}

fn broken_in_one(names: &Names, rule: Rule, one: &One) -> Option<u32>
    ensures { result ≡ first_word (breaks names.now.text.now (declared names.now.text.now names.now.items.now) rule) (one_uses one.now) }
{
    match one {
        One::Name(word) => broken_word(names, rule, *word),
        One::Number(_) => None,
        One::Truth(_) => None,
    }
}

fn broken_in_ones(names: &Names, rule: Rule, ones: &[One]) -> Option<u32>
    ensures { result ≡ first_word (breaks names.now.text.now (declared names.now.text.now names.now.items.now) rule) (flat_map one_uses ones.now) }
{
    for one in ones {
        if let Some(at) = broken_in_one(names, rule, one) {
            return Some(at);
        }
    }
    None
}

fn broken_in_argument(names: &Names, rule: Rule, argument: &ArgumentText) -> Option<u32>
    ensures { result ≡ first_word (breaks names.now.text.now (declared names.now.text.now names.now.items.now) rule) (argument_uses argument.now) }
{
    match argument {
        ArgumentText::One(one) => broken_in_one(names, rule, one),
        ArgumentText::Members(_) => None,
        ArgumentText::Array { items, .. } => broken_in_ones(names, rule, items.items()),
    }
}

/// The place of the first name in the arguments that breaks the rule.
pub(crate) fn broken_in_arguments(
    names: &Names,
    rule: Rule,
    arguments: &[ArgumentText],
) -> Option<u32>
    ensures { result ≡ first_word (breaks names.now.text.now (declared names.now.text.now names.now.items.now) rule) (flat_map argument_uses arguments.now) }
{
    for argument in arguments {
        if let Some(at) = broken_in_argument(names, rule, argument) {
            return Some(at);
        }
    }
    None
}
