//! The least that a sum, or its negative, can be.
//!
//! It takes one end of each item, which the sign of the factor tells.
ghost use Rattle.std.specs.Prelude.{◌≡◌, ◌≤◌, ◌*◌, ◌^◌, ℕ, IsTrue, length, take, ◌*ℤ◌, unsigned_abs};
ghost use Rattle.std.specs.List.{list_all};
ghost use Rattle.qc_model.specs.Refuted.{left_to};
ghost use Rattle.qc_model.specs.Valid.{is_number};
ghost use Rattle.qc_refuter.specs.Met.{is_open};
ghost use Rattle.prop_linear.specs.Sides.{signed};
ghost use Rattle.prop_linear.specs.Tightening.{AllNear, IsNear, least_sum, term_of};

use crate::signs::factor_at;
use fd_store::Store;
use model_arguments::width;
use qc_model::Arg;

/// The product of two numbers within the limit.
pub(crate) fn product(a: i64, b: i64) -> i64
    requires a { IsTrue (is_number a) }
    requires b { IsTrue (is_number b) }
    ensures value { result ≡ (a *ℤ b) }
    ensures small { unsigned_abs result ≤ 10 ^ 18 }
{
    a * b
}

// The greater of two numbers.
fn wider(a: u64, b: u64) -> u64
    ensures first { a ≤ result }
    ensures second { b ≤ result }
{
    if a < b { b } else { a }
}

// How far a term of a factor within the limit moves over so many values. It is within 64 bits.
fn short_moves(factor: i64, width: u32) -> u64
    requires factor { IsTrue (is_number factor) }
    requires width { width ≤ 2000000000 }
    ensures { result ≡ unsigned_abs factor * width }
{
    factor.unsigned_abs() * width as u64
}

// The least that a factor times an item can be.
fn least_term(factor: i64, item: Arg, store: &Store) -> i64
    requires factor { IsTrue (is_number factor) }
    requires open { IsTrue (is_open store.now.box item) }
    ensures value { result ≡ (term_of factor (left_to store.now.box item)).from }
    ensures small { unsigned_abs result ≤ 10 ^ 18 }
{
    match item {
        Arg::Num(n) => product(factor, n),
        Arg::Var(x) => {
            if factor < 0 {
                return product(factor, store.max(x));
            }
            product(factor, store.min(x))
        }
    }
}

// How far a factor times an item moves.
fn term_moves(factor: i64, item: Arg, store: &Store) -> u64
    requires factor { IsTrue (is_number factor) }
    requires open { IsTrue (is_open store.now.box item) }
    ensures { (s : ℕ) → result ≤ s → IsNear factor s (left_to store.now.box item) }
{
    match item {
        Arg::Num(_) => 0,
        Arg::Var(x) => short_moves(factor, width(store.min(x), store.max(x))),
    }
}

/// The least that a sum can be, and how far its widest term moves at most.
#[derive(Clone, Copy)]
pub(crate) struct Least {
    pub(crate) sum: i128,
    pub(crate) widest: u64,
}

/// The least that the sum, or its negative, can be, and how far its widest term moves. It takes no memory.
pub(crate) fn least_of(factors: &[i64], items: &[Arg], negative: bool, store: &Store) -> Least
    requires equal { length factors.now ≡ length items.now }
    requires factors { IsTrue (list_all is_number factors.now) }
    requires open { IsTrue (list_all (is_open store.now.box) items.now) }
    requires few { length items.now ≤ 1000 }
    ensures value { result.sum ≡ least_sum (signed negative factors.now) items.now store.now.box }
    ensures near { (s : ℕ) → result.widest ≤ s → AllNear s (take (length items.now) (signed negative factors.now)) (take (length items.now) items.now) store.now.box }
    ensures small { unsigned_abs result.sum ≤ 10 ^ 21 }
{
    let mut least: i128 = 0;
    let mut widest: u64 = 0;
    for k in 0..items.len() {
        let factor = factor_at(factors, k, negative);
        least += least_term(factor, items[k], store) as i128;
        widest = wider(widest, term_moves(factor, items[k], store));
    }
    Least { sum: least, widest }
}
