//! A text written from lines, whole and with a write that fails in its midst.
ghost use Rattle.std.specs.Prelude.{IfOk, IsTrue};
ghost use Rattle.std.specs.List.{list_all};
ghost use Rattle.strategy_arena.specs.Certificate.{line_fits};

use proof_tree::{Line, Outcome};
use qc_io::MemorySink;
use qc_model::{ConId, VarId};
use std::alloc::{AllocError, Global};
use std::test::Fail;
use strategy_arena::Arena;

const TEXT: &[u8] =
    b"qcert 2\ntrue -3\nh 1\np 2 -5 7 4\n.\nb 1 0 3\nv 1\nr 2\ns\no\nn\ng\nx\ne\n.\n";

// Each kind of line once, whether or not a tree has them in this order.
fn lines(alloc: Global) -> Result<Arena, AllocError>
    ensures { IfOk result (λ arena. IsTrue (list_all line_fits arena)) }
{
    let mut arena = Arena::new(alloc);
    arena.put_all(&[
        Line::Horizon { k: 1 },
        Line::Prune {
            x: VarId(1),
            lo: -5,
            hi: 7,
            c: ConId(3),
        },
        Line::Dot,
        Line::Bound {
            x: VarId(0),
            lo: 0,
            hi: 3,
        },
        Line::Branch { x: VarId(0) },
        Line::Range { hi: 2 },
        Line::Skip,
        Line::Open,
        Line::Next,
        Line::Goal,
        Line::Barred,
        Line::Empty,
        Line::Dot,
    ])?;
    Ok(arena)
}

// What is written where there is room for so many bytes, and whether that is all.
fn written(alloc: Global, room: usize) -> Result<(MemorySink, bool), AllocError> {
    let arena = lines(alloc)?;
    let mut sink = MemorySink::new(alloc, 7, room)?;
    let whole = arena.write_from(Outcome::True, Some(-3), &mut sink).is_ok();
    Ok((sink, whole))
}

#[test]
fn a_text_is_written_from_lines(rt: HostRuntime) -> Result<(), Fail> {
    let (sink, whole) = written(rt.alloc(), 100)?;
    assert!(rt; whole && sink.bytes() == TEXT);
    Ok(())
}

#[test]
fn a_write_fails_in_mid_stream(rt: HostRuntime) -> Result<(), Fail> {
    let (sink, whole) = written(rt.alloc(), 30)?;
    assert!(rt; !whole && sink.bytes() == &TEXT[..30]);
    Ok(())
}
