//! Writing a certificate from its lines.
ghost use Rattle.std.specs.Prelude.{◌≡◌, ◌++◌, [], IsTrue, OnOk, OnErr, flat_map};
ghost use Rattle.std.specs.List.{list_all};
ghost use Rattle.std.specs.Io.KnownBytes.{Appends};
ghost use Rattle.qc_io.specs.Counts.{HasCause};
ghost use Rattle.qc_io.specs.Sink.{AppendsPrefix, Moves};
ghost use Rattle.proof_tree.specs.Text.{line_text, outcome_text, version_text, outcome_fits};
ghost use Rattle.proof_tree.specs.declared.tree.Version.TheVariants.{Two};
ghost use Rattle.proof_text.specs.LineRanges.{line_fits};
ghost use Rattle.strategy_arena.specs.Certificate.{text_of_lines};
ghost use Rattle.strategy_arena.specs.Short.{short_text};

use crate::Arena;
use crate::short::{Short, lengthen};
use crate::spell::{Text, spell_line, spell_outcome};
use proof_tree::{Line, Outcome};
use qc_io::{Pieces, Sink, WriteFault};

impl Arena {
    /// Writes the text of the certificate that has this head and these lines, in the second version. It takes no
    /// memory, and gathers 65,536 bytes before it hands them on. It asks that the optimum stands beside True alone, and
    /// that all numbers lie in the ranges that a text can have. A fault comes only where the sink's count of faults
    /// rose, and where it rose no other answer comes; then a prefix of the text was written.
    pub fn write_from<K: Sink>(
        &self,
        outcome: Outcome,
        optimum: Option<i64>,
        sink: &mut K,
    ) -> Result<(), WriteFault>
        requires head { IsTrue (outcome_fits outcome optimum) }
        requires lines { IsTrue (list_all line_fits self.now) }
        ensures ok { OnOk result (Appends (K.written sink.old) (K.written sink.new) (text_of_lines outcome optimum self.now)) }
        ensures err { OnErr result (AppendsPrefix (K.written sink.old) (K.written sink.new) (text_of_lines outcome optimum self.now)) }
        ensures cause { HasCause (K.faults sink.old) (K.faults sink.new) result }
    {
        let mut pieces = Pieces::new();
        self.put_text(outcome, optimum, &mut pieces, sink)?;
        pieces.finish(sink)
    }

    /// Puts that text behind the bytes that are held, for a text of which it is a part.
    pub fn put_text<K: Sink>(
        &self,
        outcome: Outcome,
        optimum: Option<i64>,
        pieces: &mut Pieces,
        sink: &mut K,
    ) -> Result<(), WriteFault>
        requires head { IsTrue (outcome_fits outcome optimum) }
        requires lines { IsTrue (list_all line_fits self.now) }
        ensures ok { OnOk result (Moves (K.written sink.old) (K.written sink.new) pieces.new (pieces.old ++ text_of_lines outcome optimum self.now)) }
        ensures err { OnErr result (AppendsPrefix (K.written sink.old) (K.written sink.new) (pieces.old ++ text_of_lines outcome optimum self.now)) }
        ensures cause { HasCause (K.faults sink.old) (K.faults sink.new) result }
    {
        put_head(pieces, sink, outcome, optimum)?;
        self.put_lines(pieces, sink)
    }

    // Puts the lines behind the bytes that are held.
    fn put_lines<K: Sink>(&self, pieces: &mut Pieces, sink: &mut K) -> Result<(), WriteFault>
        ensures ok { OnOk result (Moves (K.written sink.old) (K.written sink.new) pieces.new (pieces.old ++ flat_map line_text self.now)) }
        ensures err { OnErr result (AppendsPrefix (K.written sink.old) (K.written sink.new) (pieces.old ++ flat_map line_text self.now)) }
        ensures cause { HasCause (K.faults sink.old) (K.faults sink.new) result }
    {
        put_shorts(self.lines.as_slice(), self.wide.as_slice(), pieces, sink)
    }
}

// Puts the lines that these stand for behind the bytes that are held.
fn put_shorts<K: Sink>(
    shorts: &[Short],
    wide: &[Line],
    pieces: &mut Pieces,
    sink: &mut K,
) -> Result<(), WriteFault>
    ensures ok { OnOk result (Moves (K.written sink.old) (K.written sink.new) pieces.new (pieces.old ++ flat_map (short_text wide.now) shorts.now)) }
    ensures err { OnErr result (AppendsPrefix (K.written sink.old) (K.written sink.new) (pieces.old ++ flat_map (short_text wide.now) shorts.now)) }
    ensures cause { HasCause (K.faults sink.old) (K.faults sink.new) result }
{
    for short in shorts {
        put_line(pieces, sink, lengthen(*short, wide))?;
    }
    Ok(())
}

fn put_head<K: Sink>(
    pieces: &mut Pieces,
    sink: &mut K,
    outcome: Outcome,
    optimum: Option<i64>,
) -> Result<(), WriteFault>
    ensures ok { OnOk result (Moves (K.written sink.old) (K.written sink.new) pieces.new (pieces.old ++ (version_text Two ++ outcome_text outcome optimum))) }
    ensures err { OnErr result (AppendsPrefix (K.written sink.old) (K.written sink.new) (pieces.old ++ (version_text Two ++ outcome_text outcome optimum))) }
    ensures cause { HasCause (K.faults sink.old) (K.faults sink.new) result }
{
    let mut text = Text::new();
    spell_outcome(&mut text, outcome, optimum);
    pieces.put_all(sink, b"qcert 2\n")?;
    pieces.put_all(sink, text.as_str().as_bytes())
}

fn put_line<K: Sink>(pieces: &mut Pieces, sink: &mut K, line: Line) -> Result<(), WriteFault>
    ensures ok { OnOk result (Moves (K.written sink.old) (K.written sink.new) pieces.new (pieces.old ++ line_text line)) }
    ensures err { OnErr result (AppendsPrefix (K.written sink.old) (K.written sink.new) (pieces.old ++ line_text line)) }
    ensures cause { HasCause (K.faults sink.old) (K.faults sink.new) result }
{
    let mut text = Text::new();
    spell_line(&mut text, line);
    pieces.put_all(sink, text.as_str().as_bytes())
}
