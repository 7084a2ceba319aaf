//! The pieces of a dense certificate's text.
use proof_tree::Outcome;
use qc_model::{ScopeId, VarId};

/// The tuples that a text has, by the line in which they stand.
#[derive(Clone, Copy, PartialEq, Eq)]
pub enum Tuple {
    /// That a scope's owner can always take.
    Given,
    /// That the owner of the last scope can count on.
    Reply,
    /// That is taken, the others of its scope being skipped.
    Chosen,
}

/// A piece of a certificate's text. The pieces of a certificate, one after the other, are its text.
///
/// A tuple may be of any length, so its line is read in pieces: the line's beginning, and each value by itself. All other lines
/// are one piece each.
#[derive(Clone, Copy, PartialEq, Eq)]
pub enum Piece {
    /// The first two lines. An optimum stands beside `Outcome::True` alone.
    Head {
        outcome: Outcome,
        optimum: Option<i64>,
    },
    /// A tuple of this scope follows. It has no value, or one comes next.
    Given {
        scope: ScopeId,
        bare: bool,
    },
    /// A reply follows. It has no value, or one comes next.
    Reply {
        bare: bool,
    },
    /// A chosen tuple follows. It has no value, or one comes next.
    Chosen {
        bare: bool,
    },
    /// A value of a tuple, which is the tuple's last, or another comes next.
    Value {
        of: Tuple,
        value: i64,
        last: bool,
    },
    /// The node that begins here has a name.
    Named,
    /// The horizon of the node that begins here.
    Horizon(ScopeId),
    /// The owner of the scope is stuck.
    Stuck,
    /// The goal.
    Goal,
    /// The node comes to what this named node came to. Named nodes count from 0 here.
    Again(u32),
    /// No play from here passes all scopes up to this one.
    NoPlay(ScopeId),
    /// The box is closed.
    Close,
    /// The variable gives up the values from `lo` to `hi`.
    Bound {
        x: VarId,
        lo: i64,
        hi: i64,
    },
    /// No box within is closed.
    Empty,
    /// The tuple isn't allowed.
    Barred,
    /// No better than the best value left.
    BestLeft,
    /// On to the next scope.
    Next,
    /// The values of this variable, in cases.
    Branch(VarId),
    /// The case that comes next goes up to this value.
    Range(i64),
    /// The case is left out.
    Skip,
    /// The case is left open.
    LeftOpen,
    /// The cases of the innermost branch end.
    Dot,
}
