//! The table of predicates: each predicate's name, arguments, meaning and family. Predicates of the
//! same meaning hold alike, and a reified predicate has the meaning of its plain one.
ghost use Rattle.std.specs.Prelude.{◌≡◌};
ghost use Rattle.qc_model.specs.RowMeaning.{row_meaning};
ghost use Rattle.qc_model.specs.Meaning.{all_predicates as each_predicate, meaning_of as meaning_in_spec, row_of as row_in_spec};

use self::Meaning::{
    AbsoluteValue, AllDifferent, AllItems, AtMost, Below, Both, Clause, Different, Either, Element,
    Equal, ExactlyOne, Greater, Maximum, Member, Minimum, OddItems, Plus, Quotient, Remainder,
    Smaller, SomeItem, SumAtMost, SumDifferent, SumEqual, Table, Times, VariableElement,
};
use crate::families::Family::{self, Arith, Bool, Linear};
use crate::problem::Pred;
use crate::signature::ArgKind::{
    self, Boolean, Booleans, Integer, Integers, Members, Numbers, Truths,
};

/// What a constraint says of its arguments a, b and c.
#[derive(Clone, Copy, PartialEq, Eq)]
pub enum Meaning {
    /// a = b.
    Equal,
    /// a ≠ b.
    Different,
    /// a ≤ b.
    AtMost,
    /// a < b.
    Below,
    /// The sum of the products of a and b, item by item, is c.
    SumEqual,
    /// That sum is not c.
    SumDifferent,
    /// That sum is at most c.
    SumAtMost,
    /// a + b = c.
    Plus,
    /// a * b = c.
    Times,
    /// The absolute value of a is b.
    AbsoluteValue,
    /// The smaller of a and b is c.
    Smaller,
    /// The greater of a and b is c.
    Greater,
    /// a / b = c, truncated, and b is not 0.
    Quotient,
    /// The remainder of a / b, which has the sign of a, is c, and b is not 0.
    Remainder,
    /// Number a of b, counted from 1, is c.
    Element,
    /// Item a of b, counted from 1, is c.
    VariableElement,
    /// a is the least item of b.
    Minimum,
    /// a is the greatest item of b.
    Maximum,
    /// a is in the set b.
    Member,
    /// c says whether a and b.
    Both,
    /// c says whether a or b.
    Either,
    /// c says whether a or b but not both.
    ExactlyOne,
    /// b says whether each item of a is true.
    AllItems,
    /// b says whether some item of a is true.
    SomeItem,
    /// An odd number of the items of a are true.
    OddItems,
    /// Some item of a is true, or some item of b is false.
    Clause,
    /// The items of a differ from each other.
    AllDifferent,
    /// The items of a are one of the rows that the numbers b make.
    Table,
}

/// What a predicate says of its arguments, and whether its last argument says if that holds.
#[derive(Clone, Copy, PartialEq, Eq)]
pub struct Said {
    pub meaning: Meaning,
    pub reified: bool,
}

/// The row of a predicate.
#[derive(Clone, Copy)]
pub(crate) struct Row {
    /// As the problem text writes it.
    pub(crate) name: &'static str,
    /// The kind of each argument, in order.
    pub(crate) kinds: &'static [ArgKind],
    pub(crate) said: Said,
    /// Whose filter it has.
    pub(crate) family: Family,
}

macro_rules! row {
    ($name:literal; $($kind:ident),*; $meaning:path; $reified:literal; $family:path) => {
        Row {
            name: $name,
            kinds: &[$($kind),*],
            said: Said {
                meaning: $meaning,
                reified: $reified,
            },
            family: $family,
        }
    };
}

/// The row of a predicate that says its meaning.
macro_rules! plain {
    ($name:literal; $($kind:ident),*; $meaning:path; $family:path) => {
        row!($name; $($kind),*; $meaning; false; $family)
    };
}

/// The row of a predicate whose last argument tells whether its meaning holds.
macro_rules! told {
    ($name:literal; $($kind:ident),*; $meaning:path; $family:path) => {
        row!($name; $($kind),*; $meaning; true; $family)
    };
}

/// The table of predicates, in the order of `Pred`: name, kinds, meaning and family.
static ROWS: [Row; 47] = [
    plain!("int_eq"; Integer, Integer; Equal; Linear),
    plain!("int_ne"; Integer, Integer; Different; Linear),
    plain!("int_le"; Integer, Integer; AtMost; Linear),
    plain!("int_lt"; Integer, Integer; Below; Linear),
    plain!("int_lin_eq"; Numbers, Integers, Integer; SumEqual; Linear),
    plain!("int_lin_ne"; Numbers, Integers, Integer; SumDifferent; Linear),
    plain!("int_lin_le"; Numbers, Integers, Integer; SumAtMost; Linear),
    plain!("int_plus"; Integer, Integer, Integer; Plus; Arith),
    plain!("int_times"; Integer, Integer, Integer; Times; Arith),
    plain!("int_abs"; Integer, Integer; AbsoluteValue; Arith),
    plain!("int_min"; Integer, Integer, Integer; Smaller; Arith),
    plain!("int_max"; Integer, Integer, Integer; Greater; Arith),
    plain!("int_div"; Integer, Integer, Integer; Quotient; Arith),
    plain!("int_mod"; Integer, Integer, Integer; Remainder; Arith),
    plain!("bool_eq"; Boolean, Boolean; Equal; Bool),
    plain!("bool2int"; Boolean, Integer; Equal; Bool),
    plain!("bool_not"; Boolean, Boolean; Different; Bool),
    plain!("bool_le"; Boolean, Boolean; AtMost; Bool),
    plain!("bool_lt"; Boolean, Boolean; Below; Bool),
    plain!("array_int_element"; Integer, Numbers, Integer; Element; Family::Element),
    plain!("array_bool_element"; Integer, Truths, Boolean; Element; Family::Element),
    plain!("array_var_int_element"; Integer, Integers, Integer; VariableElement; Family::Element),
    plain!("array_var_bool_element"; Integer, Booleans, Boolean; VariableElement; Family::Element),
    plain!("array_int_minimum"; Integer, Integers; Minimum; Family::Element),
    plain!("array_int_maximum"; Integer, Integers; Maximum; Family::Element),
    plain!("set_in"; Integer, Members; Member; Family::Element),
    plain!("bool_and"; Boolean, Boolean, Boolean; Both; Bool),
    plain!("bool_or"; Boolean, Boolean, Boolean; Either; Bool),
    plain!("bool_xor"; Boolean, Boolean, Boolean; ExactlyOne; Bool),
    plain!("array_bool_and"; Booleans, Boolean; AllItems; Bool),
    plain!("array_bool_or"; Booleans, Boolean; SomeItem; Bool),
    plain!("array_bool_xor"; Booleans; OddItems; Bool),
    plain!("bool_clause"; Booleans, Booleans; Clause; Bool),
    plain!("all_different_int"; Integers; AllDifferent; Family::Element),
    plain!("table_int"; Integers, Numbers; Table; Family::Element),
    told!("int_eq_reif"; Integer, Integer, Boolean; Equal; Linear),
    told!("int_ne_reif"; Integer, Integer, Boolean; Different; Linear),
    told!("int_le_reif"; Integer, Integer, Boolean; AtMost; Linear),
    told!("int_lt_reif"; Integer, Integer, Boolean; Below; Linear),
    told!("int_lin_eq_reif"; Numbers, Integers, Integer, Boolean; SumEqual; Linear),
    told!("int_lin_ne_reif"; Numbers, Integers, Integer, Boolean; SumDifferent; Linear),
    told!("int_lin_le_reif"; Numbers, Integers, Integer, Boolean; SumAtMost; Linear),
    told!("set_in_reif"; Integer, Members, Boolean; Member; Family::Element),
    told!("bool_eq_reif"; Boolean, Boolean, Boolean; Equal; Bool),
    told!("bool_le_reif"; Boolean, Boolean, Boolean; AtMost; Bool),
    told!("bool_lt_reif"; Boolean, Boolean, Boolean; Below; Bool),
    told!("bool_clause_reif"; Booleans, Booleans, Boolean; Clause; Bool),
];

/// The row of a predicate.
#[inline(always)]
pub(crate) fn row_of(pred: Pred) -> Row
    ensures name { result.name.now ≡ (row_in_spec pred).name }
    ensures kinds { result.kinds.now ≡ (row_in_spec pred).kinds }
    ensures meaning { row_meaning result.said ≡ (row_in_spec pred).meaning }
    ensures family { result.family ≡ (row_in_spec pred).family }
{
    ROWS[pred as usize]
}

/// Each predicate, in the order of the table.
pub fn all_predicates() -> &'static [Pred]
    ensures { result.now ≡ each_predicate }
{
    &[
        Pred::IntEq,
        Pred::IntNe,
        Pred::IntLe,
        Pred::IntLt,
        Pred::IntLinEq,
        Pred::IntLinNe,
        Pred::IntLinLe,
        Pred::IntPlus,
        Pred::IntTimes,
        Pred::IntAbs,
        Pred::IntMin,
        Pred::IntMax,
        Pred::IntDiv,
        Pred::IntMod,
        Pred::BoolEq,
        Pred::Bool2int,
        Pred::BoolNot,
        Pred::BoolLe,
        Pred::BoolLt,
        Pred::ArrayIntElement,
        Pred::ArrayBoolElement,
        Pred::ArrayVarIntElement,
        Pred::ArrayVarBoolElement,
        Pred::ArrayIntMinimum,
        Pred::ArrayIntMaximum,
        Pred::SetIn,
        Pred::BoolAnd,
        Pred::BoolOr,
        Pred::BoolXor,
        Pred::ArrayBoolAnd,
        Pred::ArrayBoolOr,
        Pred::ArrayBoolXor,
        Pred::BoolClause,
        Pred::AllDifferentInt,
        Pred::TableInt,
        Pred::IntEqReif,
        Pred::IntNeReif,
        Pred::IntLeReif,
        Pred::IntLtReif,
        Pred::IntLinEqReif,
        Pred::IntLinNeReif,
        Pred::IntLinLeReif,
        Pred::SetInReif,
        Pred::BoolEqReif,
        Pred::BoolLeReif,
        Pred::BoolLtReif,
        Pred::BoolClauseReif,
    ]
}

/// What a predicate means.
pub fn meaning_of(pred: Pred) -> Said
    ensures { row_meaning result ≡ meaning_in_spec pred }
{
    row_of(pred).said
}
