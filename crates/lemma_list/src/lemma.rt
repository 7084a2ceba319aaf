//! What a list of lemmas consists of, as values of the program.
//!
//! Anybody may build one. Nothing here says that its literals stand in order, that its steps are right, or that
//! what it names is there: this is `in_place` and `proves` of `specs/InPlace`.
ghost use Rattle.std.specs.Prelude.{◌≡◌, [], ◌∷◌, ◌++◌, OnOk, OnErr};

use qc_model::{ConId, Kind, VarId};
use std::alloc::{AllocError, Global};
use std::marker::Model;

/// The place of a lemma among all lemmas of a list, from 0 on.
#[derive(Clone, Copy, PartialEq, Eq)]
pub struct LemmaId(pub u32);

/// The variable `x` has a value from `lo` to `hi`. Literals of one lemma on the same variable are alternatives:
/// its value lies in one of their ranges.
#[derive(Clone, Copy, PartialEq, Eq)]
pub struct Literal {
    pub x: VarId,
    pub lo: i64,
    pub hi: i64,
}

/// The terms of the linear constraint `c` that are variables of scopes before the last one that the lemma
/// speaks of come to a sum from `lo` to `hi`.
#[derive(Clone, Copy, PartialEq, Eq)]
pub struct SumLiteral {
    pub c: ConId,
    pub lo: i64,
    pub hi: i64,
}

/// Why the loser loses in a box.
#[derive(Clone, Copy, PartialEq, Eq)]
pub enum Reason {
    /// A constraint that the loser has to keep is refuted.
    Constraint(ConId),
    /// An earlier lemma of the same side holds.
    Lemma(LemmaId),
}

/// A step leaves fewer values to a variable.
#[derive(Clone, Copy, PartialEq, Eq)]
pub enum Step {
    /// The loser can't take a value from `lo` to `hi` for its variable `x`.
    Cut {
        x: VarId,
        lo: i64,
        hi: i64,
        by: Reason,
    },
    /// The winner takes the value `v` for its variable `x`.
    Choose {
        x: VarId,
        v: i64,
    },
}

/// How the steps end.
#[derive(Clone, Copy, PartialEq, Eq)]
pub enum Ending {
    /// Some variable has no value left.
    Emptied,
    /// The loser loses in what is left.
    Lost(Reason),
    /// The goal holds in what is left, so the opponent loses.
    Goal,
}

/// Where the literals and sums hold, the side that owns the scopes of this kind loses.
#[derive(Drop)]
pub struct Lemma {
    loser: Kind,
    literals: Vec<Literal>,
    sums: Vec<SumLiteral>,
}

impl Model for Lemma {
    ghost use Rattle.lemma_list.specs.Lemmas.{Lemma};

    ghost Value = { Lemma };

    ghost view = { λ a. record { loser = a.loser; literals = a.literals.items; sums = a.sums.items } };
}

impl Lemma {
    /// A lemma without literals. It takes no memory.
    pub fn new(alloc: Global, loser: Kind) -> Lemma
        ensures loser { result.loser ≡ loser }
        ensures literals { result.literals ≡ [] }
        ensures sums { result.sums ≡ [] }
    {
        Lemma {
            loser,
            literals: Vec::new(alloc),
            sums: Vec::new(alloc),
        }
    }

    /// Puts a literal at the end. Where memory is refused, the lemma is unchanged.
    pub fn push_literal(&mut self, literal: Literal) -> Result<(), AllocError>
        ensures loser { self.new.loser ≡ self.old.loser }
        ensures ok { OnOk result (self.new.literals ≡ self.old.literals ++ literal ∷ []) }
        ensures err { OnErr result (self.new.literals ≡ self.old.literals) }
        ensures sums { self.new.sums ≡ self.old.sums }
    {
        self.literals.push(literal)?;
        Ok(())
    }

    /// Puts a sum at the end. Where memory is refused, the lemma is unchanged.
    pub fn push_sum(&mut self, sum: SumLiteral) -> Result<(), AllocError>
        ensures loser { self.new.loser ≡ self.old.loser }
        ensures literals { self.new.literals ≡ self.old.literals }
        ensures ok { OnOk result (self.new.sums ≡ self.old.sums ++ sum ∷ []) }
        ensures err { OnErr result (self.new.sums ≡ self.old.sums) }
    {
        self.sums.push(sum)?;
        Ok(())
    }

    /// The side that loses.
    pub fn loser(&self) -> Kind
        ensures { result ≡ self.now.loser }
    {
        self.loser
    }

    /// The literals, first to last.
    pub fn literals(&self) -> &[Literal]
        ensures { result.now ≡ self.now.literals }
    {
        self.literals.as_slice()
    }

    /// The sums, first to last.
    pub fn sums(&self) -> &[SumLiteral]
        ensures { result.now ≡ self.now.sums }
    {
        self.sums.as_slice()
    }
}
