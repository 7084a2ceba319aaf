// What is read of a piece of a text before all of it is read.

/// The numbers that stand in the lines of certificates. Their ranges are `most` in `specs/Numerals`.
#[derive(Clone, Copy, PartialEq, Eq)]
pub enum Field {
    /// A variable, counted from 1.
    Variable,
    /// A constraint, counted from 1.
    Constraint,
    /// A lemma, counted from 1.
    Named,
    /// A scope or the goal, counted from 1.
    Scope,
    /// A named node, counted from 1.
    Node,
    /// Turns, at least one.
    Turns,
    /// A value of a variable.
    Value,
    /// A sum, or an optimum.
    Total,
}

/// A number, as far as it is read.
#[derive(Clone, Copy, PartialEq, Eq)]
pub enum Numeral {
    /// No byte of it.
    Start,
    /// Its sign.
    Minus,
    /// The number 0, after which no digit may come.
    Zero,
    /// Digits, of which the first isn't 0, and what they come to.
    Digits { negative: bool, value: u64 },
}

// The pieces with numbers.
#[derive(Clone, Copy)]
pub(crate) enum Form {
    Literal,
    Sum,
    CutByConstraint,
    CutByLemma,
    Choice,
    LostToConstraint,
    LostToLemma,
    Forgotten,
}

// The words of the first two lines.
#[derive(Clone, Copy)]
pub(crate) enum Word {
    Name,
    True,
    False,
}

// What may come at the beginning of a line: an entry; a step or an end of the lemma as well; or its sums too.
#[derive(Clone, Copy)]
pub(crate) enum Due {
    Entries,
    Steps,
    Sums,
}
