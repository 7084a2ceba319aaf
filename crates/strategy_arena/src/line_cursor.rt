//! The lines that short ones stand for, one after another.
ghost use Rattle.std.specs.Prelude.{◌≡◌, ◌∷◌, [], MatchOption};
ghost use Rattle.strategy_arena.specs.Short.{lines_of};

use crate::short::{Short, lengthen};
use proof_tree::Line;
use std::marker::Model;

/// Goes over lines in order up to the last. A clause sees the list of those that are left.
#[derive(Drop)]
pub struct LineCursor<'a> {
    shorts: &'a [Short],
    wide: &'a [Line],
}

impl<'a> Model for LineCursor<'a> {
    ghost use Rattle.std.specs.Prelude.{List};
    ghost use Rattle.proof_tree.specs.declared.line.Line.{Line};
    ghost use Rattle.strategy_arena.specs.Short.{lines_of};

    ghost Value = { List Line };

    ghost view = { λ c. lines_of c.wide.now c.shorts.now };
}

impl<'a> LineCursor<'a> {
    /// The lines that these stand for.
    pub(crate) fn new(shorts: &'a [Short], wide: &'a [Line]) -> LineCursor<'a>
        ensures { result ≡ lines_of wide.now shorts.now }
    {
        LineCursor { shorts, wide }
    }

    /// The next line. None comes exactly where none is left.
    pub fn next(&mut self) -> Option<Line>
        ensures { MatchOption result ((self.old ≡ []) × (self.new ≡ [])) (λ line. self.old ≡ line ∷ self.new) }
    {
        let (short, rest) = self.shorts.split_first()?;
        self.shorts = rest;
        Some(lengthen(*short, self.wide))
    }
}
