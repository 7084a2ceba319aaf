//! The literals of a clause, and when two of them show that it removes nothing.
ghost use Rattle.std.specs.Prelude.{◌≡◌, ◌<◌, IsTrue, IfSome, List, length};
ghost use Rattle.qc_model.specs.declared.problem.Arg.{Arg};
ghost use Rattle.prop_engine.specs.Literals.{IsLiteralOf, Stands, StaysOpen, same_literal};

use fd_store::Store;
use qc_model::{Arg, VarId};

/// A variable of truth values, or its negation.
#[derive(Clone, Copy)]
pub(crate) struct Literal {
    pub(crate) x: VarId,
    pub(crate) positive: bool,
}

/// What is left of a literal.
#[derive(Clone, Copy)]
pub(crate) enum Standing {
    Holds,
    Fails,
    Unfixed,
}

/// The literal at a place of the two arrays of a clause, where a variable stands there: those of the second are negated.
#[inline(always)]
pub(crate) fn literal_at(plain: &[Arg], negated: &[Arg], k: usize) -> Option<Literal>
    ensures { IfSome result (λ l. IsLiteralOf plain.now negated.now l) }
{
    if k < plain.len() {
        return match plain[k] {
            Arg::Var(x) => Some(Literal { x, positive: true }),
            Arg::Num(_) => None,
        };
    }
    let k = k - plain.len();
    if k < negated.len() {
        return match negated[k] {
            Arg::Var(x) => Some(Literal { x, positive: false }),
            Arg::Num(_) => None,
        };
    }
    None
}

/// How the literal stands.
#[inline(always)]
pub(crate) fn standing_of(literal: Literal, store: &Store) -> Standing
    requires { literal.x.0 < length store.now.box }
    ensures { Stands result store.now.box literal }
{
    if !store.is_fixed(literal.x) {
        return Standing::Unfixed;
    }
    if (store.min(literal.x) == 1) == literal.positive {
        Standing::Holds
    } else {
        Standing::Fails
    }
}

/// Whether both are the same variable, plain or negated.
#[inline(always)]
pub(crate) fn is_same(l: Literal, m: Literal) -> bool
    ensures { result ≡ same_literal l m }
{
    m.x.0 == l.x.0 && l.positive == m.positive
}

/// Whether these two literals show by themselves that a clause that has both removes nothing: one of them holds, or neither
/// fails and they aren't the same.
#[inline(always)]
pub(crate) fn are_enough(one: Literal, other: Literal, store: &Store) -> bool
    requires one { one.x.0 < length store.now.box }
    requires other { other.x.0 < length store.now.box }
    ensures { IsTrue result → (plain negated : List Arg) → IsLiteralOf plain negated one → IsLiteralOf plain negated other → StaysOpen store.now.box plain negated }
{
    match standing_of(one, store) {
        Standing::Holds => true,
        Standing::Fails => match standing_of(other, store) {
            Standing::Holds => true,
            _ => false,
        },
        Standing::Unfixed => match standing_of(other, store) {
            Standing::Holds => true,
            Standing::Fails => false,
            Standing::Unfixed => !is_same(one, other),
        },
    }
}
