//! What full ranges from one number on take from one variable.
ghost use Rattle.std.specs.Prelude.{◌≡◌, ◌≤◌, ◌<◌, ◌^◌, ℕ, List, IsTrue, IfNone, IfSome, length, pos, ◌+ℤ◌, ◌≤ℤ◌, ◌<ℤ◌};
ghost use Rattle.qc_model.specs.Domains.{Values, values_left};
ghost use Rattle.qc_model.specs.Valid.{is_number};
ghost use Rattle.qc_refuter.specs.Full.{AreWidest};
ghost use Rattle.qc_refuter.specs.Met.{is_domain_left};
ghost use Rattle.prop_different.specs.Different.{IsLeftAlone, IsFullCut, IsRoom, AreRooms};

use fd_store::Store;
use model_arguments::width;
use prop_base::Cut;
use qc_model::VarId;

// How many numbers the widest full range has that ends before the number so far past its first.
fn room_before(past: usize, rooms: &[u16], last: usize) -> usize
    requires small { last ≤ 1000 }
    ensures small { result < 2 ^ 16 }
    ensures room { (f : ℕ → ℕ) → AreWidest f rooms.now last → IsRoom f (length rooms.now) past result }
{
    if past < rooms.len() {
        rooms[past] as usize
    } else {
        last
    }
}

// The values from low to the end, where that is within so many numbers.
fn cut_before(x: VarId, low: i64, end: i64, last: usize) -> Option<Cut>
    requires low { IsTrue (is_number low) }
    requires end { IsTrue (is_number end) }
    requires order { low ≤ℤ end }
    ensures none { IfNone result ((low +ℤ pos last) ≤ℤ end) }
    ensures some { IfSome result (λ k. (k.x ≡ x) × (k.lo ≡ low) × (k.hi ≡ end) × (end <ℤ (low +ℤ pos last))) }
{
    if (width(low, end) as usize) < last {
        Some(Cut {
            x,
            lo: low,
            hi: end,
        })
    } else {
        None
    }
}

// The values from the start to the last of so many numbers, where the start is within them.
fn cut_after(x: VarId, low: i64, start: i64, room: usize) -> Option<Cut>
    requires low { IsTrue (is_number low) }
    requires start { IsTrue (is_number start) }
    requires order { low ≤ℤ start }
    requires room { room < 2 ^ 16 }
    ensures none { IfNone result ((low +ℤ pos room) ≤ℤ start) }
    ensures some { IfSome result (λ k. (k.x ≡ x) × (k.lo ≡ start) × ((k.hi +ℤ pos 1) ≡ low +ℤ pos room) × (start ≤ℤ k.hi)) }
{
    if (width(low, start) as usize) < room {
        let hi = low + room as i64 - 1;
        Some(Cut { x, lo: start, hi })
    } else {
        None
    }
}

/// The values that a full range takes from a variable that doesn't lie in it, of the ranges that begin at a number.
pub(crate) fn range_cut(
    x: VarId,
    low: i64,
    rooms: &[u16],
    last: usize,
    store: &Store,
) -> Option<Cut>
    requires x { x.0 < length store.now.box }
    requires open { IsTrue (is_domain_left (values_left store.now.box x.0)) }
    requires low { IsTrue (is_number low) }
    requires last { last ≤ 1000 }
    ensures none { IfNone result ((ds : List Values) → AreRooms ds low rooms.now last → IsLeftAlone ds low (values_left store.now.box x.0)) }
    ensures some { IfSome result (λ k. (k.x ≡ x) × ((ds : List Values) → AreRooms ds low rooms.now last → IsFullCut ds low (values_left store.now.box x.0) k.lo k.hi)) }
{
    let start = store.min(x);
    let end = store.max(x);
    if end < low {
        return None;
    }
    if start < low {
        return cut_before(x, low, end, last);
    }
    let room = room_before(width(low, end) as usize, rooms, last);
    cut_after(x, low, start, room)
}
