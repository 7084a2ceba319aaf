//! The text of a list that was learnt. Nothing is promised of its bytes: whoever wants to rely on them has them judged.
ghost use Rattle.std.specs.Prelude.{◌≤◌, length, IfOk, IfSome};

use crate::growing::GrowingSink;
use lemma_search::{List, Shown};
use lemma_writer::{put_forgotten, put_head, put_lemma};
use qc_io::{Pieces, WriteFault};
use std::alloc::{AllocError, Global};

/// The text of a list. None where it is longer than a list's text may be. The list is let go.
pub(crate) fn text_of(alloc: Global, list: List) -> Result<Option<Vec<u8>>, AllocError>
    ensures { IfOk result (λ text. IfSome text (λ bytes. length bytes.items ≤ 1073741824)) }
{
    let mut sink = GrowingSink::new(alloc);
    match put_list(&mut sink, &list) {
        Ok(()) => Ok(Some(sink.into_bytes())),
        Err(WriteFault) => no_text(&sink),
    }
}

// Why there is no text.
fn no_text(sink: &GrowingSink) -> Result<Option<Vec<u8>>, AllocError>
    ensures { IfOk result (λ text. IfSome text (λ bytes. length bytes.items ≤ 1073741824)) }
{
    if sink.is_refused() {
        return Err(AllocError);
    }
    Ok(None)
}

fn put_list(sink: &mut GrowingSink, list: &List) -> Result<(), WriteFault> {
    let mut pieces = Pieces::new();
    put_head(&mut pieces, sink, list.loser)?;
    for shown in list.shown.as_slice() {
        put_shown(&mut pieces, sink, shown)?;
    }
    pieces.finish(sink)
}

// A lemma, and which lemmas aren't named any more after it.
fn put_shown(pieces: &mut Pieces, sink: &mut GrowingSink, shown: &Shown) -> Result<(), WriteFault> {
    put_lemma(
        pieces,
        sink,
        &shown.lemma,
        shown.steps.as_slice(),
        shown.ending,
    )?;
    for lemma in shown.forgotten.as_slice() {
        put_forgotten(pieces, sink, *lemma)?;
    }
    Ok(())
}
