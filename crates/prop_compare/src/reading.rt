//! What is left to one argument.
ghost use Rattle.std.specs.Prelude.{◌≡◌, IsTrue};
ghost use Rattle.qc_model.specs.Domains.{has_value, least_value, greatest_value, is_single};
ghost use Rattle.qc_model.specs.Refuted.{left_to};
ghost use Rattle.fd_store.specs.Held.{values_from, values_up_to, least_of, greatest_of};
ghost use Rattle.qc_refuter.specs.Met.{is_open};

use fd_store::Store;
use qc_model::Arg;

/// The least value left to an argument.
pub fn least(a: Arg, store: &Store) -> i64
    requires { IsTrue (is_open store.now.box a) }
    ensures { result ≡ least_value (left_to store.now.box a) }
{
    match a {
        Arg::Num(n) => n,
        Arg::Var(x) => store.min(x),
    }
}

/// The greatest value left to an argument.
pub fn greatest(a: Arg, store: &Store) -> i64
    requires { IsTrue (is_open store.now.box a) }
    ensures { result ≡ greatest_value (left_to store.now.box a) }
{
    match a {
        Arg::Num(n) => n,
        Arg::Var(x) => store.max(x),
    }
}

/// Whether one value is left to an argument.
pub fn is_fixed(a: Arg, store: &Store) -> bool
    requires { IsTrue (is_open store.now.box a) }
    ensures { result ≡ is_single (left_to store.now.box a) }
{
    match a {
        Arg::Num(_) => true,
        Arg::Var(x) => store.is_fixed(x),
    }
}

/// Whether an argument has the value left.
pub fn has(a: Arg, v: i64, store: &Store) -> bool
    requires { IsTrue (is_open store.now.box a) }
    ensures { result ≡ has_value (left_to store.now.box a) v }
{
    match a {
        Arg::Num(n) => v == n,
        Arg::Var(x) => store.has(x, v),
    }
}

/// The least value left to an argument that is at least v. None comes exactly where there is none.
pub fn next_of(a: Arg, v: i64, store: &Store) -> Option<i64>
    requires { IsTrue (is_open store.now.box a) }
    ensures { result ≡ least_of (values_from v (left_to store.now.box a)) }
{
    match a {
        Arg::Num(n) if v <= n => Some(n),
        Arg::Num(_) => None,
        Arg::Var(x) => store.next(x, v),
    }
}

/// The greatest value left to an argument that is at most v. None comes exactly where there is none.
pub fn previous_of(a: Arg, v: i64, store: &Store) -> Option<i64>
    requires { IsTrue (is_open store.now.box a) }
    ensures { result ≡ greatest_of (values_up_to v (left_to store.now.box a)) }
{
    match a {
        Arg::Num(n) if n <= v => Some(n),
        Arg::Num(_) => None,
        Arg::Var(x) => store.prev(x, v),
    }
}
