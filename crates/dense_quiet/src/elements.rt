//! Items of arrays by their places.
ghost use Rattle.std.specs.Prelude.{◌≡◌, ◌<◌, ◌+◌, ◌&&◌, ℕ, Bool, IsTrue, [], ◌∷◌, pos};
ghost use Rattle.std.specs.Ordering.{int_eq};
ghost use Rattle.qc_model.specs.Domains.{has_value};
ghost use Rattle.qc_model.specs.Left.{span, some_item_in};
ghost use Rattle.qc_model.specs.Refuted.{left_to};
ghost use Rattle.qc_model.specs.Valid.{is_number};
ghost use Rattle.model_arguments.specs.Written.{arg_at, ints_at};
ghost use Rattle.qc_refuter.specs.Met.{is_open, are_met};
ghost use Rattle.dense_quiet.specs.Quiet.{range_in, SparesTwo, misses_number};

use crate::ends::Ends;
use crate::reading::{arg_met, ends_of, has};
use fd_store::Store;
use model_arguments::numbers_at;
use qc_model::{Arg, Argument};

// Whether the number at this place, counted from 1, is left to c.
fn end_names(place: i64, numbers: &[i64], c: Arg, store: &Store) -> bool
    requires place { IsTrue (is_number place) }
    requires c { IsTrue (is_open store.now.box c) }
    ensures { IsTrue result → IsTrue (some_item_in (pos 1) (place ∷ []) numbers.now (left_to store.now.box c)) }
{
    if place < 1 {
        return false;
    }
    let k = place as usize - 1;
    if k >= numbers.len() {
        return false;
    }
    has(c, numbers[k], store)
}

// Whether place k, counted from 0, is left to b, and has the number.
fn place_names(b: Arg, k: usize, number: i64, value: i64, store: &Store) -> bool
    requires k { k < 4611686018427387904 }
    requires b { IsTrue (is_open store.now.box b) }
    ensures { result ≡ (int_eq number value && has_value (left_to store.now.box b) (pos (k + 1))) }
{
    if number != value {
        return false;
    }
    has(b, k as i64 + 1, store)
}

// Whether some place that is left to b has the number.
fn some_place_names(b: Arg, places: Ends, numbers: &[i64], value: i64, store: &Store) -> bool
    requires b { IsTrue (is_open store.now.box b) }
    ensures { IsTrue result → IsTrue (some_item_in (pos 1) (left_to store.now.box b) numbers.now (value ∷ [])) }
{
    if places.least < 1 {
        return false;
    }
    let first = places.least as usize - 1;
    let end = numbers.len().min(places.greatest as usize);
    for k in first..end {
        if place_names(b, k, numbers[k], value, store) {
            return true;
        }
    }
    false
}

// The same, which mostly an end tells.
fn is_named(b: Arg, places: Ends, numbers: &[i64], value: i64, store: &Store) -> bool
    requires b { IsTrue (is_open store.now.box b) }
    requires places { range_in places ≡ span (left_to store.now.box b) }
    requires value { IsTrue (is_number value) }
    ensures { IsTrue result → IsTrue (some_item_in (pos 1) (left_to store.now.box b) numbers.now (value ∷ [])) }
{
    if end_names(places.least, numbers, Arg::Num(value), store) {
        return true;
    }
    if end_names(places.greatest, numbers, Arg::Num(value), store) {
        return true;
    }
    some_place_names(b, places, numbers, value, store)
}

/// Whether an array of numbers refutes neither what is left to a place and the number there nor an end of both: each end of the place
/// has a number that is left, and each end of the number stands at a place that is left.
pub(crate) fn is_quiet_element(args: &[Argument], store: &Store) -> bool
    requires { IsTrue (are_met store.now.box args.now) }
    ensures { IsTrue result → (ok : ℕ → Bool) → SparesTwo (misses_number (ints_at args.now 1)) ok (arg_at args.now 0) (arg_at args.now 2) store.now.box }
{
    let b = arg_met(args, 0, store);
    let c = arg_met(args, 2, store);
    let numbers = numbers_at(args, 1);
    let places = ends_of(b, store);
    let left = ends_of(c, store);
    if !end_names(places.least, numbers, c, store) {
        return false;
    }
    if !end_names(places.greatest, numbers, c, store) {
        return false;
    }
    if !is_named(b, places, numbers, left.least, store) {
        return false;
    }
    is_named(b, places, numbers, left.greatest, store)
}
