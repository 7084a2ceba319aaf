//! What a sum can be, and how far its widest term moves.
//!
//! Where no term moves further than the sum may, all its places are near: one look at each place's two ends tells both.
ghost use Rattle.std.specs.Prelude.{◌≡◌, ◌≤◌, ◌*◌, ◌^◌, IsTrue, length, map, unsigned_abs, ◌*ℤ◌, pos, ◌+ℤ◌, ◌≤ℤ◌};
ghost use Rattle.std.specs.Int.{int_min, int_max};
ghost use Rattle.std.specs.List.{list_all};
ghost use Rattle.qc_model.specs.Left.{span, sum_range};
ghost use Rattle.qc_model.specs.Ranges.{range_of, point, product as product_of};
ghost use Rattle.qc_model.specs.Refuted.{left_to};
ghost use Rattle.qc_model.specs.Valid.{is_number};
ghost use Rattle.qc_refuter.specs.Met.{is_open};
ghost use Rattle.prop_linear.specs.Sides.{IsWidest};

use crate::least::product;
use fd_store::Store;
use qc_model::Arg;

/// How far the term that moves furthest does, its place, and how far the others do at most.
#[derive(Clone, Copy)]
pub(crate) struct Widest {
    pub(crate) moves: u64,
    pub(crate) place: usize,
    pub(crate) others: u64,
}

/// The least and the greatest that a sum can be, and its widest term.
#[derive(Clone, Copy)]
pub(crate) struct Spread {
    pub(crate) from: i128,
    pub(crate) to: i128,
    pub(crate) widest: Widest,
}

// The least and the greatest that a term can be.
#[derive(Clone, Copy)]
pub(crate) struct Reach {
    pub(crate) from: i64,
    pub(crate) to: i64,
}

// The two numbers in their order.
fn ordered(p: i64, q: i64) -> Reach
    requires p { unsigned_abs p ≤ 10 ^ 18 }
    requires q { unsigned_abs q ≤ 10 ^ 18 }
    ensures value { range_of result.from result.to ≡ range_of (int_min p q) (int_max p q) }
    ensures order { result.from ≤ℤ result.to }
    ensures small_from { unsigned_abs result.from ≤ 10 ^ 18 }
    ensures small_to { unsigned_abs result.to ≤ 10 ^ 18 }
{
    if q < p {
        Reach { from: q, to: p }
    } else {
        Reach { from: p, to: q }
    }
}

// What a factor times an item can be.
fn term_left(factor: i64, item: Arg, store: &Store) -> Reach
    requires factor { IsTrue (is_number factor) }
    requires open { IsTrue (is_open store.now.box item) }
    ensures value { range_of result.from result.to ≡ product_of (point factor) (span (left_to store.now.box item)) }
    ensures order { result.from ≤ℤ result.to }
    ensures small_from { unsigned_abs result.from ≤ 10 ^ 18 }
    ensures small_to { unsigned_abs result.to ≤ 10 ^ 18 }
{
    match item {
        Arg::Num(n) => {
            let only = product(factor, n);
            Reach {
                from: only,
                to: only,
            }
        }
        Arg::Var(x) => ordered(product(factor, store.min(x)), product(factor, store.max(x))),
    }
}

// How far a term moves.
fn room(reach: Reach) -> u64
    requires order { reach.from ≤ℤ reach.to }
    requires small_from { unsigned_abs reach.from ≤ 10 ^ 18 }
    requires small_to { unsigned_abs reach.to ≤ 10 ^ 18 }
    ensures { reach.to ≡ reach.from +ℤ pos result }
{
    (reach.to - reach.from) as u64
}

// With one more place, whose term moves so far.
fn with_place(widest: Widest, place: usize, moves: u64) -> Widest
    ensures before { widest.moves ≤ result.moves }
    ensures here { moves ≤ result.moves }
{
    if widest.moves < moves {
        return Widest {
            moves,
            place,
            others: widest.moves,
        };
    }
    Widest {
        moves: widest.moves,
        place: widest.place,
        others: if widest.others < moves {
            moves
        } else {
            widest.others
        },
    }
}

// What a sum of few items can be. It is within 64 bits.
#[inline(always)]
fn spread_of_few(factors: &[i64], items: &[Arg], store: &Store) -> Spread
    requires equal { length factors.now ≡ length items.now }
    requires factors { IsTrue (list_all is_number factors.now) }
    requires open { IsTrue (list_all (is_open store.now.box) items.now) }
    requires few { length items.now ≤ 9 }
    ensures value { range_of result.from result.to ≡ sum_range factors.now (map (left_to store.now.box) items.now) }
    ensures widest { IsWidest result.widest.moves (length items.now) factors.now items.now store.now.box }
    ensures small_from { unsigned_abs result.from ≤ 10 ^ 21 }
    ensures small_to { unsigned_abs result.to ≤ 10 ^ 21 }
{
    let mut from: i64 = 0;
    let mut to: i64 = 0;
    let mut widest = Widest {
        moves: 0,
        place: 0,
        others: 0,
    };
    for k in 0..items.len() {
        let one = term_left(factors[k], items[k], store);
        from += one.from;
        to += one.to;
        widest = with_place(widest, k, room(one));
    }
    Spread {
        from: from as i128,
        to: to as i128,
        widest,
    }
}

// What a sum of more items can be.
#[inline(never)]
fn spread_of_many(factors: &[i64], items: &[Arg], store: &Store) -> Spread
    requires equal { length factors.now ≡ length items.now }
    requires factors { IsTrue (list_all is_number factors.now) }
    requires open { IsTrue (list_all (is_open store.now.box) items.now) }
    requires few { length items.now ≤ 1000 }
    ensures value { range_of result.from result.to ≡ sum_range factors.now (map (left_to store.now.box) items.now) }
    ensures widest { IsWidest result.widest.moves (length items.now) factors.now items.now store.now.box }
    ensures small_from { unsigned_abs result.from ≤ 10 ^ 21 }
    ensures small_to { unsigned_abs result.to ≤ 10 ^ 21 }
{
    let mut from: i128 = 0;
    let mut to: i128 = 0;
    let mut widest = Widest {
        moves: 0,
        place: 0,
        others: 0,
    };
    for k in 0..items.len() {
        let one = term_left(factors[k], items[k], store);
        from += one.from as i128;
        to += one.to as i128;
        widest = with_place(widest, k, room(one));
    }
    Spread { from, to, widest }
}

// Sums of so many terms are within 64 bits, as each term is at most 10^18 in size.
const FEW: usize = 9;

/// What a sum can be on the box of a store. It takes no memory.
#[inline(always)]
pub(crate) fn spread_of(factors: &[i64], items: &[Arg], store: &Store) -> Spread
    requires equal { length factors.now ≡ length items.now }
    requires factors { IsTrue (list_all is_number factors.now) }
    requires open { IsTrue (list_all (is_open store.now.box) items.now) }
    requires few { length items.now ≤ 1000 }
    ensures value { range_of result.from result.to ≡ sum_range factors.now (map (left_to store.now.box) items.now) }
    ensures widest { IsWidest result.widest.moves (length items.now) factors.now items.now store.now.box }
    ensures small_from { unsigned_abs result.from ≤ 10 ^ 21 }
    ensures small_to { unsigned_abs result.to ≤ 10 ^ 21 }
{
    if items.len() <= FEW {
        spread_of_few(factors, items, store)
    } else {
        spread_of_many(factors, items, store)
    }
}
