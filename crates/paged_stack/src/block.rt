//! The block of a page as the allocator sees it, and its two parts: room for the items, and room for a node after them.
ghost use Rattle.std.specs.Prelude.{◌≡◌, [], IfSome};
ghost use Rattle.std.specs.Mem.{type_size};
ghost use Rattle.std.specs.Align.{type_align};
ghost use prog.Memory.{capped};
ghost use denote.RawPtr.{Ptr};
ghost use Rattle.paged_stack.specs.Rows.{row_bytes};
ghost use Rattle.paged_stack.specs.Blocks.{IsCapacity, block_owns, deed_owns};

use crate::nodes::Room;
use crate::row::Row;
use std::alloc::Allocator;
use std::marker::{Model, PhantomData};
use std::mem::size_of;

// How many items a page has room for.
pub(crate) const PAGE_ITEMS: usize = 1024;

// What an allocation starts at a multiple of. No type is aligned to more.
const ALIGN: usize = 16;

// The bytes after the items, in which the node lies.
const NODE_BYTES: usize = 32;

// An item of more bytes makes a page that no block can hold.
const MOST_ITEM_BYTES: usize = (isize::MAX as usize - NODE_BYTES) / PAGE_ITEMS;

// A block in which nothing lies, with `capacity` bytes for items.
pub(crate) struct Block<A: Allocator> {
    start: *mut u8,
    capacity: usize,
    marker: PhantomData<A>,
    pub(crate) ghost alloc: { A },
    ghost fits: { IsCapacity capacity },
}

impl<A: Allocator> Model for Block<A> {
    ghost also_owns = { λ b. block_owns (A.dealloc_token b.alloc) b.start b.capacity };
}

// What makes the two parts of a block whole again, and the right to free it. It takes no memory.
pub(crate) struct Deed<T, A: Allocator> {
    marker: PhantomData<(T, A)>,
    pub(crate) ghost row: { Ptr },
    pub(crate) ghost node: { Ptr },
    pub(crate) ghost alloc: { A },
}

impl<T, A: Allocator> Model for Deed<T, A> {
    ghost also_owns = { λ d. deed_owns (A.dealloc_token d.alloc) T.row d.row d.node };
}

impl<A: Allocator> Block<A> {
    pub(crate) fn new(alloc: &A, capacity: usize) -> Option<Block<A>>
        requires { IsCapacity capacity }
        ensures { IfSome result (λ b. (b.alloc ≡ alloc.now) × (b.capacity ≡ capacity)) }
    {
        match alloc.allocate(capacity + NODE_BYTES, ALIGN) {
            Ok(start) => Some(Block {
                start,
                capacity,
                marker: PhantomData,
            }),
            Err(_) => None,
        }
    }

    pub(crate) fn free(self, alloc: &A)
        requires { self.alloc ≡ alloc.now }
    {
        let Block {
            start,
            capacity,
            marker: _,
        } = self;
        unsafe { alloc.deallocate(start, capacity + NODE_BYTES, ALIGN) }
    }
}

// An empty row, and room for the node, which has 32 bytes.
pub(crate) fn split<T, N, A: Allocator>(block: Block<A>) -> (Row<T>, Room<N>, Deed<T, A>)
    requires { (block.capacity ≡ row_bytes T.row) × (type_size N.row ≡ 32) × (type_align N.row ≡ 8) }
    ensures { (result.0.items ≡ []) × (result.2.row ≡ result.0.ptr) × (result.2.node ≡ result.1.ptr) × (result.2.alloc ≡ block.alloc) }
{
    let Block {
        start,
        capacity,
        marker: _,
    } = block;
    let row = Row {
        ptr: start as *mut T,
    };
    let room = Room {
        ptr: unsafe { start.add(capacity) } as *mut N,
    };
    let marker = PhantomData;
    (row, room, Deed { marker })
}

// What lies in the row is forgotten.
pub(crate) fn join<T, N, A: Allocator>(
    row: Row<T>,
    room: Room<N>,
    deed: Deed<T, A>,
    capacity: usize,
) -> Block<A>
    requires parts { (deed.row ≡ row.ptr) × (deed.node ≡ room.ptr) }
    requires sizes { (capacity ≡ row_bytes T.row) × (type_size N.row ≡ 32) × (type_align N.row ≡ 8) }
    ensures { result.alloc ≡ deed.alloc }
{
    let Row { ptr } = row;
    let Room { ptr: _ } = room;
    let Deed { marker: _ } = deed;
    Block {
        start: ptr as *mut u8,
        capacity,
        marker: PhantomData,
    }
}

// The size of `T` as a plain number, which code may use in a comparison.
fn size_of_item<T>() -> usize
    ensures { result ≡ capped (type_size T.row) }
{
    size_of::<T>()
}

// The bytes that a page of items takes, if one block can hold them and a node.
pub(crate) fn row_size<T>() -> Option<usize>
    ensures { IfSome result (λ n. IsCapacity n × (n ≡ row_bytes T.row)) }
{
    let size = size_of_item::<T>();
    if size > MOST_ITEM_BYTES {
        return None;
    }
    Some(size * PAGE_ITEMS)
}
