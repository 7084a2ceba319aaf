//! The stack: the pages that hold its items, and those that are spare.
use crate::pages::Pages;
use std::alloc::Global;
use std::marker::Model;

mod falls;
mod grows;
mod reads;
pub(crate) mod walk;

/// A stack whose items never move in memory.
///
/// A clause sees the list of its items, and `spare`: how many more it takes with no new memory.
pub struct PagedStack<T: Copy> {
    used: Pages<T>,
    spare: Pages<T>,
    len: usize,
    alloc: Global,
}

impl<T: Copy> Model for PagedStack<T> {
    ghost use Rattle.std.specs.Prelude.{◌≡◌, ◌+◌, ◌-◌, ◌*◌, ◌^◌, ◌≤◌, length};
    ghost use Rattle.paged_stack.specs.Held.{Held, held_code};
    ghost use Rattle.paged_stack.specs.Packed.{joined, IsPacked};

    ghost Value = { Held T };

    ghost coded = { held_code T.code };

    ghost view = { λ s. record { items = joined s.used; spare = 1024 * (length s.used + length s.spare) - s.len } };

    ghost invariant = { λ s. IsPacked s.used × (s.len ≡ length (joined s.used)) × (length s.used + length s.spare ≤ 2 ^ 50) };
}

impl<T: Copy> Drop for PagedStack<T> {
    fn drop(self) {
        let PagedStack {
            used,
            spare,
            len: _,
            alloc,
        } = self;
        used.free(&alloc);
        spare.free(&alloc);
    }
}
