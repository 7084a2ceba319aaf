//! One reading of a sum: what it can be, and how far its terms can move.
ghost use Rattle.std.specs.Prelude.{◌≡◌, ◌≤◌, ◌^◌, IsTrue, length, map, ◌*ℤ◌, ◌-ℤ◌, ◌≤ℤ◌, unsigned_abs};
ghost use Rattle.std.specs.Int.{int_min, int_max};
ghost use Rattle.std.specs.List.{list_all};
ghost use Rattle.qc_model.specs.Left.{span, sum_range};
ghost use Rattle.qc_model.specs.Ranges.{range_of, point, product as product_of};
ghost use Rattle.qc_model.specs.Refuted.{left_to};
ghost use Rattle.qc_model.specs.Valid.{is_number};
ghost use Rattle.qc_refuter.specs.Met.{is_open};
ghost use Rattle.dense_quiet.specs.Slack.{AllNear};

use fd_store::Store;
use qc_model::Arg;
use qc_refuter::Extent;

/// What a sum can be, and how far apart the ends of its widest term are.
#[derive(Clone, Copy)]
pub(crate) struct Reading {
    pub(crate) extent: Extent,
    pub(crate) widest: i64,
}

// What one of its terms can be.
#[derive(Clone, Copy)]
struct Term {
    from: i64,
    to: i64,
}

/// The product of two numbers within the limit.
pub(crate) fn product(a: i64, b: i64) -> i64
    requires a { IsTrue (is_number a) }
    requires b { IsTrue (is_number b) }
    ensures value { result ≡ (a *ℤ b) }
    ensures small { unsigned_abs result ≤ 10 ^ 18 }
{
    a * b
}

// The two numbers in their order.
fn ordered(p: i64, q: i64) -> Term
    requires p { unsigned_abs p ≤ 10 ^ 18 }
    requires q { unsigned_abs q ≤ 10 ^ 18 }
    ensures value { range_of result.from result.to ≡ range_of (int_min p q) (int_max p q) }
    ensures small_from { unsigned_abs result.from ≤ 10 ^ 18 }
    ensures small_to { unsigned_abs result.to ≤ 10 ^ 18 }
{
    if q < p {
        Term { from: q, to: p }
    } else {
        Term { from: p, to: q }
    }
}

// What a factor times an item can be.
fn term_left(factor: i64, item: Arg, store: &Store) -> Term
    requires factor { IsTrue (is_number factor) }
    requires open { IsTrue (is_open store.now.box item) }
    ensures value { range_of result.from result.to ≡ product_of (point factor) (span (left_to store.now.box item)) }
    ensures small_from { unsigned_abs result.from ≤ 10 ^ 18 }
    ensures small_to { unsigned_abs result.to ≤ 10 ^ 18 }
{
    match item {
        Arg::Num(n) => {
            let only = product(factor, n);
            Term {
                from: only,
                to: only,
            }
        }
        Arg::Var(x) => ordered(product(factor, store.min(x)), product(factor, store.max(x))),
    }
}

// How far apart the ends of the widest term are, with one more.
fn wider(widest: i64, one: Term) -> i64
    requires from { unsigned_abs one.from ≤ 10 ^ 18 }
    requires to { unsigned_abs one.to ≤ 10 ^ 18 }
    ensures more { widest ≤ℤ result }
    ensures one { (one.to -ℤ one.from) ≤ℤ result }
{
    let width = one.to - one.from;
    if widest < width { width } else { widest }
}

/// What a sum of products can be on the box of a store, and how far apart the ends of its terms are at most.
pub(crate) fn read_sum(factors: &[i64], items: &[Arg], store: &Store) -> Reading
    requires factors { IsTrue (list_all is_number factors.now) }
    requires items { IsTrue (list_all (is_open store.now.box) items.now) }
    requires few { length items.now ≤ 1000 }
    ensures value { range_of result.extent.from result.extent.to ≡ sum_range factors.now (map (left_to store.now.box) items.now) }
    ensures small_from { unsigned_abs result.extent.from ≤ 10 ^ 21 }
    ensures small_to { unsigned_abs result.extent.to ≤ 10 ^ 21 }
    ensures near { AllNear result.widest factors.now items.now store.now.box }
{
    let count = factors.len().min(items.len());
    let mut from: i128 = 0;
    let mut to: i128 = 0;
    let mut widest: i64 = 0;
    for k in 0..count {
        let one = term_left(factors[k], items[k], store);
        from += one.from as i128;
        to += one.to as i128;
        widest = wider(widest, one);
    }
    let extent = Extent { from, to };
    Reading { extent, widest }
}
