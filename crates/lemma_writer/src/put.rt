//! The parts of a list, put behind the bytes that are held.
ghost use Rattle.std.specs.Prelude.{◌≡◌, ◌++◌, OnOk, OnErr, flat_map, map};
ghost use Rattle.qc_io.specs.Counts.{HasCause};
ghost use Rattle.qc_io.specs.Sink.{AppendsPrefix, Moves};
ghost use Rattle.lemma_list.specs.Lemmas.{forget};
ghost use Rattle.lemma_text.specs.declared.item.Item.TheVariants.{Sum as SumItem, Step as StepItem};
ghost use Rattle.lemma_text.specs.Text.{head_text, entry_text};
ghost use Rattle.lemma_text.specs.Items.{item_text, is_none, literal_items, ending_items};
ghost use Rattle.lemma_writer.specs.Entries.{shown_of, steps_items, sums_items, body_items};

use arrayvec::ArrayString;
use lemma_list::{Ending, Lemma, LemmaId, Literal, Step, SumLiteral};
use lemma_text::{Item, ROOM, spell_item};
use qc_io::{Pieces, Sink, WriteFault};
use qc_model::Kind;

/// Puts the first two lines of a list by which the side of this kind loses the game.
pub fn put_head<K: Sink>(pieces: &mut Pieces, sink: &mut K, loser: Kind) -> Result<(), WriteFault>
    ensures ok { OnOk result (Moves (K.written sink.old) (K.written sink.new) pieces.new (pieces.old ++ head_text loser)) }
    ensures err { OnErr result (AppendsPrefix (K.written sink.old) (K.written sink.new) (pieces.old ++ head_text loser)) }
    ensures cause { HasCause (K.faults sink.old) (K.faults sink.new) result }
{
    put_item(pieces, sink, Item::Head { loser })
}

/// Puts the line by which a lemma isn't named any more.
pub fn put_forgotten<K: Sink>(
    pieces: &mut Pieces,
    sink: &mut K,
    lemma: LemmaId,
) -> Result<(), WriteFault>
    ensures ok { OnOk result (Moves (K.written sink.old) (K.written sink.new) pieces.new (pieces.old ++ entry_text (forget lemma))) }
    ensures err { OnErr result (AppendsPrefix (K.written sink.old) (K.written sink.new) (pieces.old ++ entry_text (forget lemma))) }
    ensures cause { HasCause (K.faults sink.old) (K.faults sink.new) result }
{
    put_item(pieces, sink, Item::Forget(lemma))
}

/// Puts a lemma with its steps and its end.
pub fn put_lemma<K: Sink>(
    pieces: &mut Pieces,
    sink: &mut K,
    lemma: &Lemma,
    steps: &[Step],
    ending: Ending,
) -> Result<(), WriteFault>
    ensures ok { OnOk result (Moves (K.written sink.old) (K.written sink.new) pieces.new (pieces.old ++ entry_text (shown_of lemma.now steps.now ending))) }
    ensures err { OnErr result (AppendsPrefix (K.written sink.old) (K.written sink.new) (pieces.old ++ entry_text (shown_of lemma.now steps.now ending))) }
    ensures cause { HasCause (K.faults sink.old) (K.faults sink.new) result }
{
    let first = Item::Lemma {
        loser: lemma.loser(),
        bare: none_left(lemma.literals()),
    };
    put_item(pieces, sink, first)?;
    put_literals_on(pieces, sink, lemma, steps, ending)
}

// The literals of a lemma, and what comes after them.
fn put_literals_on<K: Sink>(
    pieces: &mut Pieces,
    sink: &mut K,
    lemma: &Lemma,
    steps: &[Step],
    ending: Ending,
) -> Result<(), WriteFault>
    ensures ok { OnOk result (Moves (K.written sink.old) (K.written sink.new) pieces.new (pieces.old ++ flat_map item_text (body_items lemma.now steps.now ending))) }
    ensures err { OnErr result (AppendsPrefix (K.written sink.old) (K.written sink.new) (pieces.old ++ flat_map item_text (body_items lemma.now steps.now ending))) }
    ensures cause { HasCause (K.faults sink.old) (K.faults sink.new) result }
{
    put_literals(pieces, sink, lemma.literals())?;
    put_sums_on(pieces, sink, lemma.sums(), steps, ending)
}

fn put_sums_on<K: Sink>(
    pieces: &mut Pieces,
    sink: &mut K,
    sums: &[SumLiteral],
    steps: &[Step],
    ending: Ending,
) -> Result<(), WriteFault>
    ensures ok { OnOk result (Moves (K.written sink.old) (K.written sink.new) pieces.new (pieces.old ++ flat_map item_text (sums_items sums.now steps.now ending))) }
    ensures err { OnErr result (AppendsPrefix (K.written sink.old) (K.written sink.new) (pieces.old ++ flat_map item_text (sums_items sums.now steps.now ending))) }
    ensures cause { HasCause (K.faults sink.old) (K.faults sink.new) result }
{
    put_sums(pieces, sink, sums)?;
    put_steps_on(pieces, sink, steps, ending)
}

fn put_steps_on<K: Sink>(
    pieces: &mut Pieces,
    sink: &mut K,
    steps: &[Step],
    ending: Ending,
) -> Result<(), WriteFault>
    ensures ok { OnOk result (Moves (K.written sink.old) (K.written sink.new) pieces.new (pieces.old ++ flat_map item_text (steps_items steps.now ending))) }
    ensures err { OnErr result (AppendsPrefix (K.written sink.old) (K.written sink.new) (pieces.old ++ flat_map item_text (steps_items steps.now ending))) }
    ensures cause { HasCause (K.faults sink.old) (K.faults sink.new) result }
{
    put_steps(pieces, sink, steps)?;
    put_ending(pieces, sink, ending)
}

fn put_literals<K: Sink>(
    pieces: &mut Pieces,
    sink: &mut K,
    literals: &[Literal],
) -> Result<(), WriteFault>
    ensures ok { OnOk result (Moves (K.written sink.old) (K.written sink.new) pieces.new (pieces.old ++ flat_map item_text (literal_items literals.now))) }
    ensures err { OnErr result (AppendsPrefix (K.written sink.old) (K.written sink.new) (pieces.old ++ flat_map item_text (literal_items literals.now))) }
    ensures cause { HasCause (K.faults sink.old) (K.faults sink.new) result }
{
    let mut rest = literals;
    while let Some((literal, after)) = rest.split_first() {
        let item = Item::Literal {
            literal: *literal,
            last: none_left(after),
        };
        put_item(pieces, sink, item)?;
        rest = after;
    }
    Ok(())
}

// Whether no literal comes.
fn none_left(literals: &[Literal]) -> bool
    ensures { result ≡ is_none literals.now }
{
    match literals.split_first() {
        Some((_, _)) => false,
        None => true,
    }
}

fn put_sums<K: Sink>(
    pieces: &mut Pieces,
    sink: &mut K,
    sums: &[SumLiteral],
) -> Result<(), WriteFault>
    ensures ok { OnOk result (Moves (K.written sink.old) (K.written sink.new) pieces.new (pieces.old ++ flat_map item_text (map SumItem sums.now))) }
    ensures err { OnErr result (AppendsPrefix (K.written sink.old) (K.written sink.new) (pieces.old ++ flat_map item_text (map SumItem sums.now))) }
    ensures cause { HasCause (K.faults sink.old) (K.faults sink.new) result }
{
    let mut rest = sums;
    while let Some((sum, after)) = rest.split_first() {
        put_item(pieces, sink, Item::Sum(*sum))?;
        rest = after;
    }
    Ok(())
}

fn put_steps<K: Sink>(pieces: &mut Pieces, sink: &mut K, steps: &[Step]) -> Result<(), WriteFault>
    ensures ok { OnOk result (Moves (K.written sink.old) (K.written sink.new) pieces.new (pieces.old ++ flat_map item_text (map StepItem steps.now))) }
    ensures err { OnErr result (AppendsPrefix (K.written sink.old) (K.written sink.new) (pieces.old ++ flat_map item_text (map StepItem steps.now))) }
    ensures cause { HasCause (K.faults sink.old) (K.faults sink.new) result }
{
    let mut rest = steps;
    while let Some((step, after)) = rest.split_first() {
        put_item(pieces, sink, Item::Step(*step))?;
        rest = after;
    }
    Ok(())
}

fn put_ending<K: Sink>(pieces: &mut Pieces, sink: &mut K, ending: Ending) -> Result<(), WriteFault>
    ensures ok { OnOk result (Moves (K.written sink.old) (K.written sink.new) pieces.new (pieces.old ++ flat_map item_text (ending_items ending))) }
    ensures err { OnErr result (AppendsPrefix (K.written sink.old) (K.written sink.new) (pieces.old ++ flat_map item_text (ending_items ending))) }
    ensures cause { HasCause (K.faults sink.old) (K.faults sink.new) result }
{
    match ending {
        Ending::Emptied => Ok(()),
        Ending::Lost(by) => put_item(pieces, sink, Item::Lost(by)),
        Ending::Goal => put_item(pieces, sink, Item::Goal),
    }
}

/// Puts the text of a piece.
pub fn put_item<K: Sink>(pieces: &mut Pieces, sink: &mut K, item: Item) -> Result<(), WriteFault>
    ensures ok { OnOk result (Moves (K.written sink.old) (K.written sink.new) pieces.new (pieces.old ++ item_text item)) }
    ensures err { OnErr result (AppendsPrefix (K.written sink.old) (K.written sink.new) (pieces.old ++ item_text item)) }
    ensures cause { HasCause (K.faults sink.old) (K.faults sink.new) result }
{
    let mut text: ArrayString<ROOM> = ArrayString::new();
    spell_item(&mut text, item);
    pieces.put_all(sink, text.as_str().as_bytes())
}
