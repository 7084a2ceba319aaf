//! What was read so far, one lexeme after the other.
ghost use Rattle.std.specs.Prelude.{◌≡◌, ◌↔◌, IsTrue, IfOk};
ghost use Rattle.text_grammar.specs.Grammar.{phase_after as phase_after_of};
ghost use Rattle.text_grammar.specs.Moves.{part_move as part_move_of};
ghost use Rattle.text_grammar.specs.Outcomes.{Takes};
ghost use Rattle.text_grammar.specs.Read.{start};

use crate::aggregate::aggregate_move;
use crate::constraint::constraint_move;
use crate::head::{head_move, ready_move};
use crate::lexeme::Lexeme;
use crate::part::{Move, Part, Phase};
use crate::tree::Item;
use crate::variable::variable_move;
use std::alloc::{AllocError, Global};
use std::marker::Model;
use std::mem;

/// What became of a lexeme.
#[derive(Clone, Copy, PartialEq, Eq)]
pub(crate) enum Reception {
    Taken,
    /// It can't stand there.
    Refused,
}

fn phase_after(phase: Phase, item: &Item) -> Phase
    ensures { result ≡ phase_after_of phase item.now }
{
    match item {
        Item::Exists { .. } => Phase::Exists,
        Item::Forall { .. } => Phase::Forall,
        Item::Goal => Phase::Goal,
        Item::Variable { .. } | Item::Aggregate { .. } | Item::Constraint { .. } => phase,
    }
}

fn part_move(alloc: Global, phase: Phase, part: Part, lexeme: Lexeme) -> Result<Move, AllocError>
    ensures { IfOk result (λ m. m ≡ part_move_of phase part lexeme) }
{
    match part {
        Part::Ready => Ok(ready_move(phase, lexeme)),
        Part::Head(part) => Ok(head_move(part, lexeme)),
        Part::Variable(part) => variable_move(alloc, part, lexeme),
        Part::Aggregate(part) => Ok(aggregate_move(part, lexeme)),
        Part::Constraint(part) => constraint_move(alloc, part, lexeme),
        Part::Solve => match lexeme {
            Lexeme::Semicolon => Ok(Move::Goes(Part::Ended)),
            _ => Ok(Move::Stuck),
        },
        Part::Ended => Ok(Move::Stuck),
    }
}

/// The items that were read, where the next one stands, and how much of it was read.
#[derive(Drop)]
pub(crate) struct Reader {
    items: Vec<Item>,
    phase: Phase,
    part: Part,
}

impl Model for Reader {
    ghost use Rattle.text_grammar.specs.Moves.{Reading};

    ghost Value = { Reading };

    ghost view = { λ a. record { items = a.items.items; phase = a.phase; part = a.part } };
}

impl Reader {
    /// Nothing was read. It takes no memory.
    pub(crate) fn new(alloc: Global) -> Reader
        ensures { result ≡ start }
    {
        Reader {
            items: Vec::new(alloc),
            phase: Phase::Outside,
            part: Part::Ready,
        }
    }

    /// Takes the next lexeme, if it can stand there. A reader that has refused one, or that had no
    /// memory for one, has lost the part that it was reading.
    #[tactic(auto, unfolding(crate::specs::Moves::after_lexeme))]
    pub(crate) fn take(&mut self, alloc: Global, lexeme: Lexeme) -> Result<Reception, AllocError>
        ensures { Takes self.old lexeme result self.new }
    {
        let part = mem::replace(&mut self.part, Part::Ready);
        match part_move(alloc, self.phase, part, lexeme)? {
            Move::Goes(part) => {
                self.part = part;
                Ok(Reception::Taken)
            }
            Move::Makes(item) => {
                self.phase = phase_after(self.phase, &item);
                self.items.push(item)?;
                Ok(Reception::Taken)
            }
            Move::Stuck => Ok(Reception::Refused),
        }
    }

    /// Whether the whole text was read.
    pub(crate) fn has_ended(&self) -> bool
        ensures { IsTrue result ↔ (self.now.part ≡ Part.Ended) }
    {
        matches!(self.part, Part::Ended)
    }

    /// The items that were read.
    pub(crate) fn into_items(self) -> Vec<Item>
        ensures { result.items ≡ self.items }
    {
        let Reader {
            items,
            phase: _,
            part: _,
        } = self;
        items
    }
}
