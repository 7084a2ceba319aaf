//! The first values that full ranges from one number on take from an item.
ghost use Rattle.std.specs.Prelude.{◌≡◌, ◌<◌, ◌≤◌, ℕ, [], IsTrue, IfNone, IfSome, length, map, get_or};
ghost use Rattle.qc_model.specs.declared.problem.Arg.TheVariants.{Var};
ghost use Rattle.qc_model.specs.Domains.{least_value};
ghost use Rattle.qc_model.specs.Refuted.{left_to};
ghost use Rattle.qc_model.specs.Valid.{is_number, arg_sees};
ghost use Rattle.model_arguments.specs.Asked.{IsAsked};
ghost use Rattle.prop_base.specs.Closed.{IsCut};
ghost use Rattle.prop_different.specs.Different.{IsDifferent, IsLeftAlone, AreRooms};
ghost use Rattle.prop_different.specs.Quiet.{IsQuiet};

use crate::ranges::range_cut;
use fd_store::Store;
use prop_base::Cut;
use prop_compare::least;
use qc_model::{Arg, Constraint, Problem, VarId};
use qc_refuter::widest_full;

fn item_cut(
    problem: &Problem,
    rule: &Constraint,
    items: &[Arg],
    k: usize,
    low: i64,
    rooms: &[u16],
    last: usize,
    store: &Store,
) -> Option<Cut>
    requires asked { IsAsked problem.now rule.now store.now.box }
    requires different { IsDifferent problem.now rule.now items.now }
    requires place { k < length items.now }
    requires low { IsTrue (is_number low) }
    requires last { last ≤ 1000 }
    requires rooms { AreRooms (map (left_to store.now.box) items.now) low rooms.now last }
    ensures none { IfNone result (IsLeftAlone (map (left_to store.now.box) items.now) low (get_or (map (left_to store.now.box) items.now) k [])) }
    ensures some { IfSome result (λ cut. IsCut rule.now store.now.box cut) }
{
    problem.known();
    let _ = rule.pred;
    match items[k] {
        Arg::Num(_) => None,
        Arg::Var(x) => range_cut(x, low, rooms, last, store),
    }
}

fn items_cut(
    problem: &Problem,
    rule: &Constraint,
    items: &[Arg],
    low: i64,
    rooms: &[u16],
    last: usize,
    store: &Store,
) -> Option<Cut>
    requires asked { IsAsked problem.now rule.now store.now.box }
    requires different { IsDifferent problem.now rule.now items.now }
    requires low { IsTrue (is_number low) }
    requires last { last ≤ 1000 }
    requires rooms { AreRooms (map (left_to store.now.box) items.now) low rooms.now last }
    ensures none { IfNone result ((k : ℕ) → k < length items.now → IsLeftAlone (map (left_to store.now.box) items.now) low (get_or (map (left_to store.now.box) items.now) k [])) }
    ensures some { IfSome result (λ cut. IsCut rule.now store.now.box cut) }
{
    for k in 0..items.len() {
        if let Some(cut) = item_cut(problem, rule, items, k, low, rooms, last, store) {
            return Some(cut);
        }
    }
    None
}

/// What a full range that begins at the least value of the item at a place takes from an item that doesn't lie in it.
/// Where a range that begins there holds too many items, all values of the spare variable.
pub(crate) fn first_cut(
    problem: &Problem,
    rule: &Constraint,
    items: &[Arg],
    place: usize,
    spare: VarId,
    store: &Store,
    rooms: &mut [u16],
) -> Option<Cut>
    requires asked { IsAsked problem.now rule.now store.now.box }
    requires different { IsDifferent problem.now rule.now items.now }
    requires place { place < length items.now }
    requires spare { IsTrue (arg_sees problem.now.variables rule.now.owner.0 (Var spare)) }
    requires rooms { length rooms.old ≡ length items.now }
    ensures length { length rooms.new ≡ length items.now }
    ensures none { IfNone result (IsQuiet (map (left_to store.now.box) items.now) (least_value (get_or (map (left_to store.now.box) items.now) place []))) }
    ensures some { IfSome result (λ cut. IsCut rule.now store.now.box cut) }
{
    problem.known();
    let first = items[place];
    match widest_full(problem, rule, items, first, store, rooms) {
        None => Some(Cut {
            x: spare,
            lo: -1_000_000_000,
            hi: 1_000_000_000,
        }),
        Some(last) => {
            // No range is full.
            if last == 0 {
                return None;
            }
            let low = least(first, store);
            items_cut(problem, rule, items, low, rooms, last, store)
        }
    }
}
