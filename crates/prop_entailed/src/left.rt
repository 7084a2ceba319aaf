//! What a store has left to an argument.
ghost use Rattle.std.specs.Prelude.{◌≡◌, IsTrue};
ghost use Rattle.qc_model.specs.Domains.{least_value, greatest_value, has_value, is_single};
ghost use Rattle.qc_model.specs.Refuted.{left_to};
ghost use Rattle.fd_store.specs.Held.{values_from, least_of};
ghost use Rattle.qc_refuter.specs.Met.{is_open};

use fd_store::Store;
use qc_model::Arg;

/// The least value left to an argument.
#[inline(always)]
pub fn least(arg: Arg, store: &Store) -> i64
    requires { IsTrue (is_open store.now.box arg) }
    ensures { result ≡ least_value (left_to store.now.box arg) }
{
    match arg {
        Arg::Num(n) => n,
        Arg::Var(y) => store.min(y),
    }
}

/// The greatest value left to an argument.
#[inline(always)]
pub fn greatest(arg: Arg, store: &Store) -> i64
    requires { IsTrue (is_open store.now.box arg) }
    ensures { result ≡ greatest_value (left_to store.now.box arg) }
{
    match arg {
        Arg::Num(n) => n,
        Arg::Var(y) => store.max(y),
    }
}

/// Whether an argument has the value left.
#[inline(always)]
pub fn has(arg: Arg, v: i64, store: &Store) -> bool
    requires { IsTrue (is_open store.now.box arg) }
    ensures { result ≡ has_value (left_to store.now.box arg) v }
{
    match arg {
        Arg::Num(n) => v == n,
        Arg::Var(y) => store.has(y, v),
    }
}

/// Whether one value is left to an argument.
#[inline(always)]
pub fn is_fixed(arg: Arg, store: &Store) -> bool
    requires { IsTrue (is_open store.now.box arg) }
    ensures { result ≡ is_single (left_to store.now.box arg) }
{
    let low = least(arg, store);
    let high = greatest(arg, store);
    high <= low
}

/// The least value left to an argument that is at least v. None comes exactly where there is none.
pub fn next(arg: Arg, v: i64, store: &Store) -> Option<i64>
    requires { IsTrue (is_open store.now.box arg) }
    ensures { result ≡ least_of (values_from v (left_to store.now.box arg)) }
{
    match arg {
        Arg::Num(n) if v <= n => Some(n),
        Arg::Num(_) => None,
        Arg::Var(y) => store.next(y, v),
    }
}
