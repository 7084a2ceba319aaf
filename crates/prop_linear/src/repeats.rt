//! Whether a variable stands twice in a sum.
//!
//! Mostly the items stand in the order of their variables, and one look at each tells that none does.
ghost use Rattle.std.specs.Prelude.{◌≡◌, IfNone, IfSome, List, ◌∷◌, false};
ghost use Rattle.qc_model.specs.declared.problem.Arg.{Arg as Item};
ghost use Rattle.model_arguments.specs.Repeats.{has_repeat};
ghost use Rattle.prop_linear.specs.Rising.{rise_from};

use model_arguments::{is_repeated, is_same};
use qc_model::Arg;

// The least number that a later variable may have, where this item's may be no less than one. None comes where it is less.
fn next_least(item: Arg, least: u32) -> Option<u32>
    ensures none { IfNone result ((xs : List Item) → rise_from least (item ∷ xs) ≡ false) }
    ensures some { IfSome result (λ n. (xs : List Item) → rise_from least (item ∷ xs) ≡ rise_from n xs) }
{
    match item {
        Arg::Num(_) => Some(least),
        Arg::Var(x) => {
            let number = x.0 as u32;
            if number < least {
                return None;
            }
            Some(number + 1)
        }
    }
}

// Whether each variable's number is greater than that of the variable before it.
fn rise(items: &[Arg]) -> bool
    ensures { result ≡ rise_from 0 items.now }
{
    let mut least = 0;
    for item in items {
        let Some(next) = next_least(*item, least) else {
            return false;
        };
        least = next;
    }
    true
}

// Whether a variable stands twice among many items.
#[inline(never)]
fn is_any_twice(items: &[Arg]) -> bool
    ensures { result ≡ has_repeat items.now }
{
    if rise(items) {
        return false;
    }
    is_repeated(items)
}

/// Whether a variable stands twice. Three items, as a sum of two numbers has them, are asked one by one.
#[inline(always)]
pub(crate) fn stands_twice(items: &[Arg]) -> bool
    ensures { result ≡ has_repeat items.now }
{
    if let [a, b, c] = items {
        return is_same(*a, *b) || (is_same(*a, *c) || is_same(*b, *c));
    }
    is_any_twice(items)
}
