//! A page: its row, how many items it holds, and the deed of its block. A page that is in no chain has its room beside it.
ghost use Rattle.std.specs.Prelude.{◌≡◌, ◌≤◌, length};

use crate::block::Deed;
use crate::nodes::{Node, Room};
use crate::row::Row;
use std::alloc::Global;

mod items;
mod making;

pub(crate) struct Page<T> {
    row: Row<T>,
    pub(crate) count: usize,
    deed: Deed<T, Global>,
    ghost counted: { count ≤ length row.items },
    ghost placed: { deed.row ≡ row.ptr },
}

// A page that is in no chain.
pub(crate) struct Loose<T> {
    pub(crate) page: Page<T>,
    pub(crate) room: Room<Node<Page<T>>>,
    ghost home: { page.deed.node ≡ room.ptr },
}
