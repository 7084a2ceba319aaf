//! The pieces of a list's text.
use lemma_list::{LemmaId, Literal, Reason, Step, SumLiteral};
use qc_model::Kind;

/// A piece of a list's text. The pieces of a list, one after the other, are its text.
#[derive(Clone, Copy, PartialEq, Eq)]
pub enum Item {
    /// The first two lines: the side that loses the game.
    Head { loser: Kind },
    /// A lemma begins, by the side that loses. It has no literal, or one comes next.
    Lemma { loser: Kind, bare: bool },
    /// A literal, which is the lemma's last, or another comes next.
    Literal { literal: Literal, last: bool },
    Sum(SumLiteral),
    Step(Step),
    /// The loser loses in what is left.
    Lost(Reason),
    /// The goal holds in what is left.
    Goal,
    /// The lemma isn't named any more.
    Forget(LemmaId),
}
