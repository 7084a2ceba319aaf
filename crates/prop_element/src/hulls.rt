//! What one variable loses, where it may keep the numbers from one to another.
ghost use Rattle.std.specs.Prelude.{◌≡◌, ◌<◌, IsTrue, IfNone, IfSome, length, pos, ◌+ℤ◌, ◌-ℤ◌};
ghost use Rattle.std.specs.List.{list_all};
ghost use Rattle.qc_model.specs.declared.problem.Arg.TheVariants.{Var};
ghost use Rattle.qc_model.specs.declared.problem.VarId.{VarId as Variable};
ghost use Rattle.qc_model.specs.Domains.{values_left};
ghost use Rattle.qc_model.specs.Refuted.{refuted_by};
ghost use Rattle.qc_model.specs.Valid.{is_number};
ghost use Rattle.model_arguments.specs.Asked.{IsAsked};
ghost use Rattle.qc_refuter.specs.Met.{is_domain_left, is_open};
ghost use Rattle.prop_base.specs.Closed.{IsCut, keeps_at, keeps_arg};
ghost use Rattle.prop_element.specs.Hulls.{IsHull};

use fd_store::Store;
use prop_base::Cut;
use qc_model::{Arg, Constraint, Problem, VarId};

/// The number before another.
pub(crate) fn before(number: i64) -> i64
    requires { IsTrue (is_number number) }
    ensures { result ≡ number -ℤ pos 1 }
{
    number - 1
}

/// The number after another.
pub(crate) fn after(number: i64) -> i64
    requires { IsTrue (is_number number) }
    ensures { result ≡ number +ℤ pos 1 }
{
    number + 1
}

fn hull_cut(rule: &Constraint, x: VarId, lo: i64, hi: i64, store: &Store) -> Option<Cut>
    requires place { x.0 < length store.now.box }
    requires open { IsTrue (is_domain_left (values_left store.now.box x.0)) }
    requires hull { IsHull rule.now store.now.box x.0 lo hi }
    ensures none { IfNone result (IsTrue (keeps_at rule.now store.now.box x.0)) }
    ensures some { IfSome result (λ k. IsCut rule.now store.now.box k) }
{
    let _ = rule.pred;
    let low = store.min(x);
    if low < lo {
        let last = before(lo);
        return Some(Cut {
            x,
            lo: low,
            hi: last,
        });
    }
    let high = store.max(x);
    if hi < high {
        let next = after(hi);
        return Some(Cut {
            x,
            lo: next,
            hi: high,
        });
    }
    None
}

/// Values of the argument below or above what it may keep, where there are some.
pub(crate) fn arg_cut(rule: &Constraint, a: Arg, lo: i64, hi: i64, store: &Store) -> Option<Cut>
    requires open { IsTrue (is_open store.now.box a) }
    requires hull { (x : Variable) → a ≡ Var x → IsHull rule.now store.now.box x.0 lo hi }
    ensures none { IfNone result (IsTrue (keeps_arg rule.now store.now.box a)) }
    ensures some { IfSome result (λ k. IsCut rule.now store.now.box k) }
{
    match a {
        Arg::Num(_) => None,
        Arg::Var(x) => hull_cut(rule, x, lo, hi, store),
    }
}

/// All values of the argument, where it is a variable and the constraint refutes the whole box.
pub(crate) fn whole_cut(problem: &Problem, rule: &Constraint, a: Arg, store: &Store) -> Option<Cut>
    requires asked { IsAsked problem.now rule.now store.now.box }
    requires open { IsTrue (is_open store.now.box a) }
    requires refuted { IsTrue (refuted_by rule.now store.now.box) }
    ensures none { IfNone result (IsTrue (keeps_arg rule.now store.now.box a)) }
    ensures some { IfSome result (λ k. IsCut rule.now store.now.box k) }
{
    let _ = (rule.pred, store.count());
    problem.known();
    match a {
        Arg::Num(_) => None,
        Arg::Var(x) => Some(Cut {
            x,
            lo: -1_000_000_000,
            hi: 1_000_000_000,
        }),
    }
}

/// All values of the first variable among m and the items, where there is one.
pub(crate) fn any_cut(
    problem: &Problem,
    rule: &Constraint,
    m: Arg,
    items: &[Arg],
    store: &Store,
) -> Option<Cut>
    requires asked { IsAsked problem.now rule.now store.now.box }
    requires first { IsTrue (is_open store.now.box m) }
    requires open { IsTrue (list_all (is_open store.now.box) items.now) }
    requires refuted { IsTrue (refuted_by rule.now store.now.box) }
    ensures none { IfNone result (IsTrue (keeps_arg rule.now store.now.box m) × IsTrue (list_all (keeps_arg rule.now store.now.box) items.now)) }
    ensures some { IfSome result (λ k. IsCut rule.now store.now.box k) }
{
    if let Some(cut) = whole_cut(problem, rule, m, store) {
        return Some(cut);
    }
    for item in items {
        if let Some(cut) = whole_cut(problem, rule, *item, store) {
            return Some(cut);
        }
    }
    None
}
