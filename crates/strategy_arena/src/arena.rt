//! A list of lines that grows at its end, and falls back to an earlier length.
ghost use Rattle.std.specs.Prelude.{◌≡◌, ◌≤◌, [], ◌∷◌, ◌++◌, length, take, drop, IfOk, OnOk, OnErr, MatchOption};
ghost use Rattle.proof_tree.specs.Lines.{tree_lines};
ghost use Rattle.proof_tree.specs.Shape.{tree_of};
ghost use Rattle.proof_tree.specs.Tree.{Tree};
ghost use Rattle.strategy_arena.specs.Certificate.{IsOneTree};

use crate::line_cursor::LineCursor;
use crate::moving::{carry_each, keep_all, put_each, shift};
use crate::read::node;
use crate::short::{Short, keep, lengthen};
use proof_tree::{Line, Node};
use std::alloc::{AllocError, Global};
use std::marker::Model;

/// Lines of a certificate's tree, from the first to the last. A clause sees the list of them.
#[derive(Drop)]
pub struct Arena {
    pub(crate) lines: Vec<Short>,
    // The lines that do not fit a short one. It grows only, so that older places mean the same, until no line is left.
    pub(crate) wide: Vec<Line>,
    // Room for the lines that a `replace` puts.
    room: Vec<Short>,
}

impl Model for Arena {
    ghost use Rattle.std.specs.Prelude.{List, length};
    ghost use Rattle.proof_tree.specs.declared.line.Line.{Line};
    ghost use Rattle.strategy_arena.specs.Short.{AllStand, lines_of};

    ghost Value = { List Line };

    ghost view = { λ a. lines_of a.wide.items a.lines.items };

    ghost invariant = { λ a. AllStand (length a.wide.items) a.lines.items };
}

impl Arena {
    /// No lines. It takes no memory; that of the lines will come from `alloc`.
    pub fn new(alloc: Global) -> Arena
        ensures { result ≡ [] }
    {
        Arena {
            lines: Vec::new(alloc),
            wide: Vec::new(alloc),
            room: Vec::new(alloc),
        }
    }

    /// Appends a line. Where there is no room, it asks for twice as much as there was. After a refusal nothing has changed.
    pub fn put(&mut self, line: Line) -> Result<(), AllocError>
        ensures put { OnOk result (self.new ≡ self.old ++ line ∷ []) }
        ensures refused { OnErr result (self.new ≡ self.old) }
    {
        let short = keep(&mut self.wide, &line)?;
        self.lines.push(short)?;
        Ok(())
    }

    /// Appends these lines, in order. After a refusal nothing has changed.
    pub fn put_all(&mut self, lines: &[Line]) -> Result<(), AllocError>
        ensures put { OnOk result (self.new ≡ self.old ++ lines.now) }
        ensures refused { OnErr result (self.new ≡ self.old) }
    {
        self.lines.reserve(lines.len())?;
        let before = self.lines.len();
        match put_each(&mut self.lines, &mut self.wide, lines) {
            Ok(()) => Ok(()),
            Err(refused) => {
                self.lines.truncate(before);
                Err(refused)
            }
        }
    }

    /// Puts these lines in place of those from `start` to `at`, and moves those that come after. After a refusal nothing has
    /// changed.
    pub fn replace(&mut self, start: usize, at: usize, with: &[Line]) -> Result<(), AllocError>
        requires start { start ≤ at }
        requires place { at ≤ length self.old }
        ensures put { OnOk result (self.new ≡ take start self.old ++ (with.now ++ drop at self.old)) }
        ensures refused { OnErr result (self.new ≡ self.old) }
    {
        self.room.clear();
        keep_all(&mut self.wide, with, &mut self.room)?;
        shift(&mut self.lines, start, at, self.room.as_slice())?;
        Ok(())
    }

    /// Takes the lines from place `start` on off, and puts them behind those of another arena, in order. It goes over those lines
    /// alone. It asks for memory where the other arena has no room for them, at once for all, and for each whose numbers do not
    /// fit 32 bits; the room that they had is kept. After a refusal neither arena has changed.
    pub fn put_by(&mut self, start: usize, aside: &mut Arena) -> Result<(), AllocError>
        requires { start ≤ length self.old }
        ensures left { OnOk result (self.new ≡ take start self.old) }
        ensures aside { OnOk result (aside.new ≡ aside.old ++ drop start self.old) }
        ensures refused { OnErr result ((self.new ≡ self.old) × (aside.new ≡ aside.old)) }
    {
        aside.lines.reserve(self.lines.len() - start)?;
        let before = aside.lines.len();
        match carry_each(
            &self.lines.as_slice()[start..],
            self.wide.as_slice(),
            &mut aside.lines,
            &mut aside.wide,
        ) {
            Ok(()) => {
                self.cut(start);
                Ok(())
            }
            Err(refused) => {
                aside.lines.truncate(before);
                Err(refused)
            }
        }
    }

    /// Puts the lines that another arena has from place `start` on behind those here, in order, and takes them off there: those that
    /// were put by while it had `start` lines come back. Of memory and refusals the same holds as of `put_by`.
    pub fn bring_back(&mut self, start: usize, aside: &mut Arena) -> Result<(), AllocError>
        requires { start ≤ length aside.old }
        ensures back { OnOk result (self.new ≡ self.old ++ drop start aside.old) }
        ensures left { OnOk result (aside.new ≡ take start aside.old) }
        ensures refused { OnErr result ((self.new ≡ self.old) × (aside.new ≡ aside.old)) }
    {
        aside.put_by(start, self)
    }

    /// Takes the last line off. It takes no memory, and keeps the room for later ones. `None` comes exactly where there
    /// is no line.
    pub fn pop(&mut self) -> Option<Line>
        ensures { MatchOption result ((self.old ≡ []) × (self.new ≡ [])) (λ line. self.old ≡ self.new ++ line ∷ []) }
    {
        let short = self.lines.pop()?;
        Some(lengthen(short, self.wide.as_slice()))
    }

    /// The number of lines.
    pub fn len(&self) -> usize
        ensures { result ≡ length self.now }
    {
        self.lines.len()
    }

    /// Keeps the first `len` lines. It takes no memory, and keeps the room of those that go for later ones.
    pub fn cut(&mut self, len: usize)
        requires { len ≤ length self.old }
        ensures { self.new ≡ take len self.old }
    {
        self.lines.truncate(len);
        if len == 0 {
            self.wide.clear();
        }
    }

    /// Its lines, to be gone over from the first to the last.
    pub fn cursor(&self) -> LineCursor<'_>
        ensures { result ≡ self.now }
    {
        LineCursor::new(self.lines.as_slice(), self.wide.as_slice())
    }

    /// A copy of the lines from place `start` on. It goes over those alone, and asks for memory for all of them at once, and for each
    /// whose numbers do not fit 32 bits.
    pub fn copied(&self, alloc: Global, start: usize) -> Result<Arena, AllocError>
        requires { start ≤ length self.now }
        ensures { IfOk result (λ copy. copy ≡ drop start self.now) }
    {
        let mut lines = Vec::with_capacity(alloc, self.lines.len() - start)?;
        let mut wide = Vec::new(alloc);
        carry_each(
            &self.lines.as_slice()[start..],
            self.wide.as_slice(),
            &mut lines,
            &mut wide,
        )?;
        let room = Vec::new(alloc);
        Ok(Arena { lines, wide, room })
    }

    /// Appends the lines of another arena, in order. After a refusal nothing has changed.
    pub fn put_copy(&mut self, other: &Arena) -> Result<(), AllocError>
        ensures put { OnOk result (self.new ≡ self.old ++ other.now) }
        ensures refused { OnErr result (self.new ≡ self.old) }
    {
        self.lines.reserve(other.lines.len())?;
        let before = self.lines.len();
        match carry_each(
            other.lines.as_slice(),
            other.wide.as_slice(),
            &mut self.lines,
            &mut self.wide,
        ) {
            Ok(()) => Ok(()),
            Err(refused) => {
                self.lines.truncate(before);
                Err(refused)
            }
        }
    }

    /// The node whose lines these are. It asks that they are the lines of one tree, nested at most 1,000 deep, and fails
    /// only where memory runs out.
    pub fn to_tree(&self, alloc: Global) -> Result<Node, AllocError>
        requires tree { IsOneTree self.now }
        ensures { IfOk result (λ n. (t : Tree) → self.now ≡ tree_lines t → tree_of n ≡ t) }
    {
        node(alloc, &mut self.cursor())
    }
}
