//! What the first two lines of a certificate state.
ghost use Rattle.std.specs.Prelude.{◌≡◌};
ghost use Rattle.dense_judge.specs.Stated.{first_head};

use dense_text::Piece;
use proof_tree::Outcome;

/// An outcome, and an optimum where one is stated.
#[derive(Clone, Copy)]
pub(crate) struct Head {
    pub(crate) outcome: Outcome,
    pub(crate) optimum: Option<i64>,
}

fn head_of(piece: Piece) -> Option<Head>
    ensures { result ≡ first_head None piece }
{
    match piece {
        Piece::Head { outcome, optimum } => Some(Head { outcome, optimum }),
        Piece::Given { .. }
        | Piece::Reply { .. }
        | Piece::Chosen { .. }
        | Piece::Value { .. }
        | Piece::Named
        | Piece::Horizon(_)
        | Piece::Stuck
        | Piece::Goal
        | Piece::Again(_)
        | Piece::NoPlay(_)
        | Piece::Close
        | Piece::Bound { .. }
        | Piece::Empty
        | Piece::Barred
        | Piece::BestLeft
        | Piece::Next
        | Piece::Branch(_)
        | Piece::Range(_)
        | Piece::Skip
        | Piece::LeftOpen
        | Piece::Dot => None,
    }
}

/// What the head states, where none came before.
pub(crate) fn head_after(head: Option<Head>, piece: Piece) -> Option<Head>
    ensures { result ≡ first_head head piece }
{
    match head {
        Some(head) => Some(head),
        None => head_of(piece),
    }
}
