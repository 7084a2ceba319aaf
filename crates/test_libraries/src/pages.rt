//! A stack on pages: a long run over several pages, compared with numbers computed apart, and pages that cannot be had.
use paged_stack::PagedStack;
use std::alloc::{AllocError, Global};
use std::test::Fail;

// The numbers from 0 on, over three pages.
fn filled(alloc: Global) -> Result<PagedStack<u32>, AllocError> {
    let mut stack = PagedStack::new(alloc);
    for k in 0..3000u32 {
        stack.push(k)?;
    }
    Ok(stack)
}

// Five thousand more from 1024 on, whose room was taken before.
fn refill(stack: &mut PagedStack<u32>) -> Result<(), AllocError> {
    stack.reserve(5000)?;
    for k in 0..5000u32 {
        if stack.spare() > 0 {
            stack.push_spare(1024 + k);
        }
    }
    Ok(())
}

// How many items there are, where each is its own place.
fn counted(stack: &PagedStack<u32>) -> Option<u32> {
    let mut next = 0u32;
    for item in stack.cursor() {
        if item != next {
            return None;
        }
        next = next.saturating_add(1);
    }
    Some(next)
}

#[test]
fn items_keep_their_order_over_pages(rt: HostRuntime) -> Result<(), Fail> {
    let mut stack = filled(rt.alloc())?;
    assert_eq!(rt; stack.len(), 3000);
    stack.cut(1025);
    assert_eq!(rt; stack.pop(), Some(1024));
    refill(&mut stack)?;
    assert_eq!(rt; counted(&stack), Some(6024));
    assert_eq!(rt; (stack.get(6023), stack.get(6024)), (Some(6023), None));
    Ok(())
}

// A page of these items has more bytes than a block may have.
#[test]
fn a_page_past_the_largest_block_is_refused(rt: HostRuntime) -> Result<(), Fail> {
    let mut stack: PagedStack<[u64; 1 << 50]> = PagedStack::new(rt.alloc());
    assert_eq!(rt; stack.reserve(1), Err(AllocError));
    assert_eq!(rt; stack.reserve(0), Ok(()));
    assert_eq!(rt; (stack.len(), stack.spare()), (0, 0));
    Ok(())
}

// A page of these items may be asked for, and no machine has it.
#[test]
fn a_page_that_the_allocator_refuses(rt: HostRuntime) -> Result<(), Fail> {
    let mut stack: PagedStack<[u64; 1 << 46]> = PagedStack::new(rt.alloc());
    assert_eq!(rt; stack.reserve(1), Err(AllocError));
    assert_eq!(rt; (stack.len(), stack.spare()), (0, 0));
    Ok(())
}
