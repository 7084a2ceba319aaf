//! The lines of a certificate's tree, one after another.
ghost use Rattle.std.specs.Prelude.{◌≡◌, ◌∷◌, [], MatchOption};

use proof_tree::Line;
use std::marker::Model;

/// Goes over lines in order up to the last. A clause sees the list of those that are left.
#[derive(Drop)]
pub(crate) struct LineCursor<'a> {
    left: &'a [Line],
}

impl<'a> Model for LineCursor<'a> {
    ghost use Rattle.std.specs.Prelude.{List};
    ghost use Rattle.proof_tree.specs.declared.line.Line.{Line};

    ghost Value = { List Line };

    ghost view = { λ c. c.left.now };
}

impl<'a> LineCursor<'a> {
    /// Before the first of these lines.
    pub(crate) fn new(lines: &'a [Line]) -> LineCursor<'a>
        ensures { result ≡ lines.now }
    {
        LineCursor { left: lines }
    }

    /// The next line. None comes exactly where none is left.
    fn next(&mut self) -> Option<Line>
        ensures { MatchOption result ((self.old ≡ []) × (self.new ≡ [])) (λ line. self.old ≡ line ∷ self.new) }
    {
        let (line, left) = self.left.split_first()?;
        self.left = left;
        Some(*line)
    }

    /// The next line, where one is left.
    pub(crate) fn take(&mut self) -> Line
        requires { self.old ≡ [] → ⊥ }
        ensures { self.old ≡ result ∷ self.new }
    {
        match self.next() {
            Some(line) => line,
            None => unreachable!(),
        }
    }
}
