//! Pieces gathered to lines.
ghost use Rattle.std.specs.Prelude.{◌≡◌, None, Option as Maybe, IfOk};
ghost use Rattle.dense_check.specs.Telling.{IsGathered};
ghost use Rattle.dense_judge.specs.Gathered.{LineSoFar, turn, turned, bare_line, longer};
ghost use Rattle.dense_judge.specs.Gathering.{Keeps, Hands};

use crate::values::Values;
use dense_check::Line;
use dense_text::Piece;
use std::alloc::{AllocError, Global};

/// What is kept between two pieces: the line that has begun, where its tuple isn't whole, and the values of the tuple so far.
#[derive(Drop)]
pub(crate) struct Gather {
    pub(crate) begun: Option<Line>,
    pub(crate) values: Values,
}

impl Gather {
    /// No line has begun. It takes the memory of all values that are kept, and fails only where that runs out.
    pub(crate) fn new(alloc: Global) -> Result<Gather, AllocError>
        ensures { IfOk result (λ g. Keeps g None) }
    {
        let values = Values::new(alloc)?;
        Ok(Gather {
            begun: None,
            values,
        })
    }

    // Hands a line on where it is whole, and else keeps that it has begun.
    #[inline(always)]
    fn hand_on(&mut self, line: Line, last: bool) -> Option<Line>
        ensures begun { (p : LineSoFar) → line ≡ p.line → IsGathered self.old.values p.tuple → Keeps self.new (turned (Some p) last).begun }
        ensures hands { (p : LineSoFar) → line ≡ p.line → IsGathered self.old.values p.tuple → Hands result self.new.values (turned (Some p) last).whole }
    {
        if last {
            self.begun = None;
            Some(line)
        } else {
            self.begun = Some(line);
            None
        }
    }

    // A line begins. One without a tuple, or whose tuple has no value, is whole.
    #[inline(always)]
    fn begin(&mut self, line: Line, last: bool) -> Option<Line>
        ensures begun { Keeps self.new (turned (Some (bare_line line)) last).begun }
        ensures hands { Hands result self.new.values (turned (Some (bare_line line)) last).whole }
    {
        self.values.clear();
        self.hand_on(line, last)
    }

    // The next value of the tuple of the line that has begun.
    fn add(&mut self, value: i64, last: bool) -> Option<Line>
        ensures begun { (p : Maybe LineSoFar) → Keeps self.old p → Keeps self.new (turned (longer value p) last).begun }
        ensures hands { (p : Maybe LineSoFar) → Keeps self.old p → Hands result self.new.values (turned (longer value p) last).whole }
    {
        let Some(line) = self.begun else {
            return None;
        };
        self.values.add(value);
        self.hand_on(line, last)
    }

    // No line.
    fn pass(&mut self) -> Option<Line>
        ensures begun { Keeps self.new None }
        ensures hands { result ≡ None }
    {
        self.begun = None;
        None
    }

    /// Takes the next piece, and hands a line on where it is whole with it; its values are those that are kept.
    #[inline(always)]
    pub(crate) fn take(&mut self, piece: Piece) -> Option<Line>
        ensures begun { (p : Maybe LineSoFar) → Keeps self.old p → Keeps self.new (turn p piece).begun }
        ensures hands { (p : Maybe LineSoFar) → Keeps self.old p → Hands result self.new.values (turn p piece).whole }
    {
        match piece {
            Piece::Head { .. } => self.pass(),
            Piece::Given { scope, bare } => self.begin(Line::Given { scope }, bare),
            Piece::Reply { bare } => self.begin(Line::Reply, bare),
            Piece::Chosen { bare } => self.begin(Line::Chosen, bare),
            Piece::Value { of: _, value, last } => self.add(value, last),
            Piece::Named => self.begin(Line::Named, true),
            Piece::Horizon(scope) => self.begin(Line::Horizon { scope }, true),
            Piece::Stuck => self.begin(Line::Stuck, true),
            Piece::Goal => self.begin(Line::Goal, true),
            Piece::Again(node) => self.begin(Line::Again { node }, true),
            Piece::NoPlay(scope) => self.begin(Line::NoPlay { scope }, true),
            Piece::Close => self.begin(Line::Close, true),
            Piece::Bound { x, lo, hi } => self.begin(Line::Bound { x, lo, hi }, true),
            Piece::Empty => self.begin(Line::Empty, true),
            Piece::Barred => self.begin(Line::Barred, true),
            Piece::BestLeft => self.begin(Line::Best, true),
            Piece::Next => self.begin(Line::Next, true),
            Piece::Branch(x) => self.begin(Line::Branch { x }, true),
            Piece::Range(high) => self.begin(Line::Range { high }, true),
            Piece::Skip => self.begin(Line::Skip, true),
            Piece::LeftOpen => self.begin(Line::Open, true),
            Piece::Dot => self.begin(Line::Dot, true),
        }
    }
}
