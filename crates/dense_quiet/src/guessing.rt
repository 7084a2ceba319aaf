//! Which values a constraint leaves a variable, by a guess: mostly from the ends of what is left to its arguments.
//!
//! Mostly nothing is promised of a guess: what lies outside it goes only where the constraint refutes it. Two guesses are sure. Of an
//! array of numbers all places that are left with their numbers have been seen. And past the ends of a sum's guess the ends of what is
//! left to the two others don't meet what is left.
ghost use Rattle.std.specs.Prelude.{◌≡◌, ◌≤◌, ◌<◌, ◌+◌, ◌≤ℤ◌, ◌-ℤ◌, ℕ, pos, cond, length, IsTrue, IsFalse};
ghost use Rattle.std.specs.List.{list_all};
ghost use Rattle.qc_model.specs.Arguments.{variables_of};
ghost use Rattle.qc_model.specs.Domains.{has_value, is_within as is_in};
ghost use Rattle.qc_model.specs.Lists.{Distinct};
ghost use Rattle.qc_model.specs.Meaning.{meaning_of as meaning_by, element};
ghost use Rattle.qc_model.specs.Ranges.{range_sum};
ghost use Rattle.qc_model.specs.Refuted.{left_to};
ghost use Rattle.qc_model.specs.Valid.{is_number};
ghost use Rattle.model_arguments.specs.Asked.{IsAsked};
ghost use Rattle.model_arguments.specs.Repeats.{is_variable as is_the_variable};
ghost use Rattle.model_arguments.specs.Written.{arg_at};
ghost use Rattle.qc_refuter.specs.Met.{are_met, is_open};
ghost use Rattle.dense_quiet.specs.declared.relating.Relation.TheVariants.{Sum};
ghost use Rattle.dense_quiet.specs.Guessing.{IsKept, IsSpared, KeepsOneOf, IsSpread, IsSpreadOf, range_kept, range_less};
ghost use Rattle.dense_quiet.specs.Quiet.{by_spans, range_in, refuted_in};

use crate::ends::Ends;
use crate::reading::{arg_met, ends_of, has, items_met};
use crate::relating::sum;
use crate::stretch::{Kept, Stretch};
use fd_store::Store;
use model_arguments::{Span, arguments, items_at, numbers_at};
use qc_model::{Arg, Argument, Constraint, Meaning, Problem, VarId, meaning_of};

// All numbers that a variable can have.
fn all_numbers() -> Stretch {
    Stretch {
        low: -1_000_000_000,
        high: 1_000_000_000,
    }
}

// No number.
fn no_number() -> Stretch {
    Stretch {
        low: 1_000_000_000,
        high: -1_000_000_000,
    }
}

// The numbers of the stretch, and this one.
#[inline(always)]
fn joined(s: Stretch, n: i64) -> Stretch
    ensures low { result.low ≤ℤ s.low }
    ensures high { s.high ≤ℤ result.high }
    ensures has { IsTrue (is_in result.low result.high n) }
{
    Stretch {
        low: s.low.min(n),
        high: s.high.max(n),
    }
}

// A guess of which nothing is promised.
#[inline(always)]
pub(crate) fn guessed(stretch: Stretch) -> Kept
    ensures { IsFalse result.sure }
{
    Kept {
        stretch,
        sure: false,
    }
}

/// Whether the argument is the variable.
#[inline(always)]
pub(crate) fn is_variable(arg: Arg, x: VarId) -> bool
    ensures { result ≡ is_the_variable arg x.0 }
{
    match arg {
        Arg::Num(_) => false,
        Arg::Var(y) => y.0 == x.0,
    }
}

// Of a to be at most b, or below it where the gap is 1.
fn of_order(a: Arg, b: Arg, gap: i64, x: VarId, store: &Store) -> Stretch
    requires a { IsTrue (is_open store.now.box a) }
    requires b { IsTrue (is_open store.now.box b) }
{
    let mut s = all_numbers();
    if is_variable(a, x) {
        s.high = ends_of(b, store).greatest.saturating_sub(gap);
    } else {
        s.low = ends_of(a, store).least.saturating_add(gap);
    }
    s
}

// The difference of two numbers within the limit.
#[inline(always)]
fn less(a: i64, b: i64) -> i64
    requires a { IsTrue (is_number a) }
    requires b { IsTrue (is_number b) }
    ensures { result ≡ (a -ℤ b) }
{
    a - b
}

// The numbers of c without those of a.
#[inline(always)]
fn difference(c: Ends, a: Ends) -> Stretch
    ensures { range_kept result ≡ range_less (range_in c) (range_in a) }
{
    Stretch {
        low: less(c.least, a.greatest),
        high: less(c.greatest, a.least),
    }
}

// The numbers of a with those of b.
#[inline(always)]
fn total(a: Ends, b: Ends) -> Stretch
    ensures { range_kept result ≡ range_sum (range_in a) (range_in b) }
{
    Stretch {
        low: sum(a.least, b.least),
        high: sum(a.greatest, b.greatest),
    }
}

// Of a sum of a and b to be c.
fn of_sum(a: Arg, b: Arg, c: Arg, x: VarId, store: &Store) -> Kept
    requires a { IsTrue (is_open store.now.box a) }
    requires b { IsTrue (is_open store.now.box b) }
    requires c { IsTrue (is_open store.now.box c) }
    ensures { IsTrue result.sure → KeepsOneOf (by_spans (refuted_in Sum)) x.0 a b c store.now.box result.stretch.low result.stretch.high }
{
    let one = ends_of(a, store);
    let other = ends_of(b, store);
    let both = ends_of(c, store);
    if is_variable(a, x) {
        return Kept {
            stretch: difference(both, other),
            sure: true,
        };
    }
    if is_variable(b, x) {
        return Kept {
            stretch: difference(both, one),
            sure: true,
        };
    }
    let is_sum = is_variable(c, x);
    Kept {
        stretch: total(one, other),
        sure: is_sum,
    }
}

// The same of a constraint with these arguments.
fn kept_in_sum(args: &[Argument], x: VarId, store: &Store) -> Kept
    requires { IsTrue (are_met store.now.box args.now) }
    ensures { IsTrue result.sure → KeepsOneOf (by_spans (refuted_in Sum)) x.0 (arg_at args.now 0) (arg_at args.now 1) (arg_at args.now 2) store.now.box result.stretch.low result.stretch.high }
{
    let a = arg_met(args, 0, store);
    let b = arg_met(args, 1, store);
    let c = arg_met(args, 2, store);
    of_sum(a, b, c, x, store)
}

// A factor of products from low to high, where the other factor is a number above 0.
fn factor_of(other: Ends, product: Ends) -> Stretch {
    let n = other.least;
    if n <= 0 || other.greatest != n || product.least < 0 {
        return all_numbers();
    }
    let below = product.least / n;
    let is_whole = product.least % n == 0;
    Stretch {
        low: if is_whole {
            below
        } else {
            below.saturating_add(1)
        },
        high: product.greatest / n,
    }
}

// Of a product of a and b to be c.
fn of_product(a: Arg, b: Arg, c: Arg, x: VarId, store: &Store) -> Stretch
    requires a { IsTrue (is_open store.now.box a) }
    requires b { IsTrue (is_open store.now.box b) }
    requires c { IsTrue (is_open store.now.box c) }
{
    let one = ends_of(a, store);
    let other = ends_of(b, store);
    let product = ends_of(c, store);
    if is_variable(a, x) {
        return factor_of(other, product);
    }
    if is_variable(b, x) {
        return factor_of(one, product);
    }
    let least = joined(no_number(), one.least.saturating_mul(other.least));
    let more = joined(least, one.least.saturating_mul(other.greatest));
    let most = joined(more, one.greatest.saturating_mul(other.least));
    joined(most, one.greatest.saturating_mul(other.greatest))
}

// One of two numbers the lesser of which is within the ends: none is below it, and this one isn't above it where the other can't be it.
fn beside_lesser(other: Ends, lesser: Ends) -> Stretch {
    let mut s = all_numbers();
    s.low = lesser.least;
    if lesser.greatest < other.least {
        s.high = lesser.greatest;
    }
    s
}

// The same of the greater.
fn beside_greater(other: Ends, greater: Ends) -> Stretch {
    let mut s = all_numbers();
    s.high = greater.greatest;
    if other.greatest < greater.least {
        s.low = greater.least;
    }
    s
}

// Of the lesser of a and b to be c.
fn of_lesser(a: Arg, b: Arg, c: Arg, x: VarId, store: &Store) -> Stretch
    requires a { IsTrue (is_open store.now.box a) }
    requires b { IsTrue (is_open store.now.box b) }
    requires c { IsTrue (is_open store.now.box c) }
{
    let one = ends_of(a, store);
    let other = ends_of(b, store);
    if is_variable(a, x) {
        return beside_lesser(other, ends_of(c, store));
    }
    if is_variable(b, x) {
        return beside_lesser(one, ends_of(c, store));
    }
    Stretch {
        low: one.least.min(other.least),
        high: one.greatest.min(other.greatest),
    }
}

// Of the greater of a and b to be c.
fn of_greater(a: Arg, b: Arg, c: Arg, x: VarId, store: &Store) -> Stretch
    requires a { IsTrue (is_open store.now.box a) }
    requires b { IsTrue (is_open store.now.box b) }
    requires c { IsTrue (is_open store.now.box c) }
{
    let one = ends_of(a, store);
    let other = ends_of(b, store);
    if is_variable(a, x) {
        return beside_greater(other, ends_of(c, store));
    }
    if is_variable(b, x) {
        return beside_greater(one, ends_of(c, store));
    }
    Stretch {
        low: one.least.max(other.least),
        high: one.greatest.max(other.greatest),
    }
}

// Where places between these ends stand in an array of so many items, counted from 0.
#[inline(always)]
fn places_between(places: Ends, count: usize) -> Span
    ensures end { result.end ≤ count }
    ensures all { (k : ℕ) → k < count → places.least ≤ℤ pos (k + 1) → pos (k + 1) ≤ℤ places.greatest → (result.first ≤ k) × (k < result.end) }
{
    if places.greatest < 1 {
        return Span { first: 0, end: 0 };
    }
    let end = count.min(places.greatest as usize);
    if places.least < 1 {
        return Span { first: 0, end };
    }
    Span {
        first: places.least as usize - 1,
        end,
    }
}

// The stretch, and place k, counted from 0, where it is left to b and its number to c; or, if not for places, that number.
#[inline(always)]
fn with_place(
    found: Stretch,
    is_place: bool,
    b: Arg,
    k: usize,
    number: i64,
    c: Arg,
    store: &Store,
) -> Stretch
    requires k { k < 4611686018427387904 }
    requires b { IsTrue (is_open store.now.box b) }
    requires c { IsTrue (is_open store.now.box c) }
    ensures low { result.low ≤ℤ found.low }
    ensures high { found.high ≤ℤ result.high }
    ensures has { IsTrue (has_value (left_to store.now.box b) (pos (k + 1))) → IsTrue (has_value (left_to store.now.box c) number) → IsTrue (is_in result.low result.high (cond is_place (pos (k + 1)) number)) }
{
    let place = k as i64 + 1;
    if !has(b, place, store) {
        return found;
    }
    if !has(c, number, store) {
        return found;
    }
    if is_place {
        return joined(found, place);
    }
    joined(found, number)
}

// Of the number at place b to be c: the places, or the numbers, that are left together.
fn of_element(b: Arg, numbers: &[i64], c: Arg, is_place: bool, store: &Store) -> Stretch
    requires b { IsTrue (is_open store.now.box b) }
    requires c { IsTrue (is_open store.now.box c) }
    ensures { IsSpread is_place (left_to store.now.box b) numbers.now (left_to store.now.box c) result.low result.high }
{
    let span = places_between(ends_of(b, store), numbers.len());
    let mut found = no_number();
    for k in span.first..span.end {
        found = with_place(found, is_place, b, k, numbers[k], c, store);
    }
    found
}

// The same of a constraint with these arguments, for its variable x.
fn kept_in_array(args: &[Argument], x: VarId, store: &Store) -> Kept
    requires { IsTrue (are_met store.now.box args.now) }
    ensures { IsTrue result.sure → IsSpreadOf args.now x.0 store.now.box result.stretch.low result.stretch.high }
{
    let b = arg_met(args, 0, store);
    let c = arg_met(args, 2, store);
    let is_place = is_variable(b, x);
    let stretch = of_element(b, numbers_at(args, 1), c, is_place, store);
    if is_place {
        return Kept {
            stretch,
            sure: true,
        };
    }
    Kept {
        stretch,
        sure: is_variable(c, x),
    }
}

// The numbers that both may have, by their ends.
fn shared(one: Ends, other: Ends) -> Stretch {
    Stretch {
        low: if one.least < other.least {
            other.least
        } else {
            one.least
        },
        high: if one.greatest < other.greatest {
            one.greatest
        } else {
            other.greatest
        },
    }
}

// The same of an item at place b.
fn of_item(b: Arg, items: &[Arg], c: Arg, x: VarId, store: &Store) -> Stretch
    requires b { IsTrue (is_open store.now.box b) }
    requires c { IsTrue (is_open store.now.box c) }
    requires items { IsTrue (list_all (is_open store.now.box) items.now) }
{
    let is_place = is_variable(b, x);
    let left = ends_of(c, store);
    let places = ends_of(b, store);
    if !is_place && !is_variable(c, x) {
        // an item: it is c only where no other may be
        if places.least != places.greatest {
            return all_numbers();
        }
        return Stretch {
            low: left.least,
            high: left.greatest,
        };
    }
    let span = places_between(places, items.len());
    let mut found = no_number();
    for k in span.first..span.end {
        let place = k as i64 + 1;
        if has(b, place, store) {
            let both = shared(ends_of(items[k], store), left);
            if both.low <= both.high {
                found = if is_place {
                    joined(found, place)
                } else {
                    joined(joined(found, both.low), both.high)
                };
            }
        }
    }
    found
}

// Of a clause whose other literals fail: 1 to an item of the first array, and 0 to one of the second. The ends aren't looked at, since
// a clause is held against its variables only where at most one of its literals may hold (`clauses`).
fn of_clause(args: &[Argument], x: VarId) -> Stretch {
    let mut s = all_numbers();
    for item in items_at(args, 0) {
        if is_variable(*item, x) {
            s.low = 1;
            return s;
        }
    }
    s.high = 0;
    s
}

// The same of a constraint with this meaning, of no array of numbers, and these arguments.
fn guess_as(meaning: Meaning, args: &[Argument], x: VarId, store: &Store) -> Stretch
    requires { IsTrue (are_met store.now.box args.now) }
{
    let a = arg_met(args, 0, store);
    let b = arg_met(args, 1, store);
    let c = arg_met(args, 2, store);
    match meaning {
        Meaning::AtMost => of_order(a, b, 0, x, store),
        Meaning::Below => of_order(a, b, 1, x, store),
        Meaning::Equal => shared(ends_of(a, store), ends_of(b, store)),
        Meaning::Times => of_product(a, b, c, x, store),
        Meaning::Smaller => of_lesser(a, b, c, x, store),
        Meaning::Greater => of_greater(a, b, c, x, store),
        Meaning::VariableElement => of_item(a, items_met(args, 1, store), c, x, store),
        Meaning::Clause => of_clause(args, x),
        _ => all_numbers(),
    }
}

/// Whether a guess tells anything of the constraint's variables: else it is all numbers.
pub(crate) fn gives_guess(rule: &Constraint) -> bool {
    let row = meaning_of(rule.pred);
    if row.reified {
        return false;
    }
    match row.meaning {
        Meaning::AtMost | Meaning::Below | Meaning::Equal | Meaning::Plus | Meaning::Times => true,
        Meaning::Smaller | Meaning::Greater => true,
        Meaning::Element | Meaning::VariableElement | Meaning::Clause => true,
        _ => false,
    }
}

/// Which values the constraint leaves x, by the ends of what is left to its arguments. Where that is sure, and no variable stands twice,
/// it refutes those below them together, and those above them; of an array of numbers all others together.
pub fn kept_by_ends(problem: &Problem, rule: &Constraint, x: VarId, store: &Store) -> Kept
    requires { IsAsked problem.now rule.now store.now.box }
    ensures kept { IsTrue result.sure → Distinct (variables_of rule.now.args) → IsKept rule.now x.0 store.now.box result.stretch.low result.stretch.high }
    ensures array { meaning_by rule.now.pred ≡ element → IsTrue result.sure → Distinct (variables_of rule.now.args) → IsSpared rule.now x.0 store.now.box result.stretch.low result.stretch.high }
{
    problem.known();
    let row = meaning_of(rule.pred);
    if row.reified {
        return guessed(all_numbers());
    }
    match row.meaning {
        Meaning::Element => kept_in_array(arguments(rule), x, store),
        Meaning::Plus => kept_in_sum(arguments(rule), x, store),
        _ => guessed(guess_as(row.meaning, arguments(rule), x, store)),
    }
}
