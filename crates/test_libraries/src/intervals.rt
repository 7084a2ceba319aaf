//! The calls on ranges of numbers that no other crate makes. The others are made by the refuter.
use fd_interval::{greatest, least, meets, span_of};

#[test]
fn ranges_are_compared(rt: HostRuntime) {
    let wide = span_of(1, 5);
    let narrow = span_of(3, 4);
    assert_eq!(rt;
        (least(wide, narrow), greatest(wide, narrow)),
        (span_of(1, 4), span_of(3, 5))
    );
    assert!(rt; meets(wide, narrow));
}
