//! The text of a piece.
ghost use Rattle.std.specs.Prelude.{◌≡◌, ◌++◌, flat_map, codes, IsTrue, IfOk, OnOk, OnErr};
ghost use Rattle.std.specs.List.{list_all};
ghost use Rattle.std.specs.Io.KnownBytes.{Appends};
ghost use Rattle.qc_io.specs.Counts.{HasCause};
ghost use Rattle.qc_io.specs.Sink.{AppendsPrefix};
ghost use Rattle.proof_tree.specs.Text.{outcome_fits};
ghost use Rattle.strategy_arena.specs.Certificate.{line_fits, text_of_lines};
ghost use Rattle.part_commands.specs.Pieces.{end_text, keep_line, reached_line, piece_head};
ghost use Rattle.part_commands.specs.View.{kept_seen, keeps_seen};

use crate::words::Kept;
use game_search::Flat;
use itoa::Buffer;
use qc_io::{Pieces, Sink, WriteFault};
use std::alloc::{AllocError, Global};

/// Writes a piece: what it is a piece of, and its lines. It takes no memory.
pub(crate) fn write_piece<K: Sink>(head: &[u8], flat: &Flat, out: &mut K) -> Result<(), WriteFault>
    requires head { IsTrue (outcome_fits flat.now.outcome flat.now.optimum) }
    requires lines { IsTrue (list_all line_fits flat.now.arena) }
    ensures ok { OnOk result (Appends (K.written out.old) (K.written out.new) (head.now ++ text_of_lines flat.now.outcome flat.now.optimum flat.now.arena)) }
    ensures err { OnErr result (AppendsPrefix (K.written out.old) (K.written out.new) (head.now ++ text_of_lines flat.now.outcome flat.now.optimum flat.now.arena)) }
    ensures cause { HasCause (K.faults out.old) (K.faults out.new) result }
{
    let mut pieces = Pieces::new();
    pieces.put_all(out, head)?;
    flat.arena
        .put_text(flat.outcome, flat.optimum, &mut pieces, out)?;
    pieces.finish(out)
}

/// The lines that say what it is a piece of.
pub(crate) fn head_of(
    alloc: Global,
    keeps: &[Kept<'_>],
    reached: Option<i64>,
) -> Result<Vec<u8>, AllocError>
    ensures { IfOk result (λ head. head.items ≡ piece_head (keeps_seen keeps.now) reached) }
{
    let mut head = Vec::new(alloc);
    head.extend_from_slice(b"qpiece 1\n")?;
    put_keeps(&mut head, keeps)?;
    put_reached(&mut head, reached)?;
    Ok(head)
}

fn put_keeps(head: &mut Vec<u8>, keeps: &[Kept<'_>]) -> Result<(), AllocError>
    ensures { OnOk result (head.new.items ≡ head.old.items ++ flat_map keep_line (keeps_seen keeps.now)) }
{
    for kept in keeps {
        put_kept(head, kept)?;
    }
    Ok(())
}

fn put_kept(head: &mut Vec<u8>, kept: &Kept<'_>) -> Result<(), AllocError>
    ensures { OnOk result (head.new.items ≡ head.old.items ++ keep_line (kept_seen kept.now)) }
{
    head.extend_from_slice(b"keep ")?;
    head.extend_from_slice(kept.name.as_bytes())?;
    put_end(head, kept.lo)?;
    put_end(head, kept.hi)?;
    head.extend_from_slice(b"\n")?;
    Ok(())
}

fn put_end(head: &mut Vec<u8>, number: i64) -> Result<(), AllocError>
    ensures { OnOk result (head.new.items ≡ head.old.items ++ end_text number) }
{
    let mut buffer = Buffer::new();
    head.extend_from_slice(b" ")?;
    head.extend_from_slice(buffer.format(number).as_bytes())
}

fn put_reached(head: &mut Vec<u8>, reached: Option<i64>) -> Result<(), AllocError>
    ensures { OnOk result (head.new.items ≡ head.old.items ++ reached_line reached) }
{
    match reached {
        Some(value) => {
            let mut buffer = Buffer::new();
            head.extend_from_slice(b"reached ")?;
            head.extend_from_slice(buffer.format(value).as_bytes())?;
            head.extend_from_slice(b"\n")
        }
        None => Ok(()),
    }
}
