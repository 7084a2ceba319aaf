//! Arguments and negated arguments.
ghost use Rattle.std.specs.Prelude.{◌≡◌, ◌<◌, ◌+◌, IsTrue, length, slice_get, Some};
ghost use Rattle.prop_bool.specs.Findings.{Stands};
ghost use Rattle.prop_bool.specs.Literals.{is_truth_at, literals, same_literal};

use fd_store::Store;
use qc_model::Arg;

/// An argument of truth values, or its negation.
#[derive(Clone, Copy)]
pub struct Literal {
    pub arg: Arg,
    pub positive: bool,
}

/// What is left of a literal.
#[derive(Clone, Copy)]
pub enum Standing {
    Holds,
    Fails,
    Unfixed,
}

pub(crate) fn standing_of(literal: Literal, store: &Store) -> Standing
    requires { IsTrue (is_truth_at store.now.box literal) }
    ensures { Stands result store.now.box literal }
{
    let value = match literal.arg {
        Arg::Num(n) => n,
        Arg::Var(x) => {
            if !store.is_fixed(x) {
                return Standing::Unfixed;
            }
            store.min(x)
        }
    };
    if (value == 1) == literal.positive {
        Standing::Holds
    } else {
        Standing::Fails
    }
}

/// Whether both are the same variable, plain or negated.
pub(crate) fn is_same(l: Literal, m: Literal) -> bool
    ensures { result ≡ same_literal l m }
{
    match l.arg {
        Arg::Num(_) => false,
        Arg::Var(x) => match m.arg {
            Arg::Num(_) => false,
            Arg::Var(y) => y.0 == x.0 && l.positive == m.positive,
        },
    }
}

/// The literal at a place of two arrays.
pub(crate) fn literal_at(plain: &[Arg], negated: &[Arg], k: usize) -> Literal
    requires { k < length plain.now + length negated.now }
    ensures { slice_get (literals plain.now negated.now) k ≡ Some result }
{
    if k < plain.len() {
        Literal {
            arg: plain[k],
            positive: true,
        }
    } else {
        Literal {
            arg: negated[k - plain.len()],
            positive: false,
        }
    }
}
