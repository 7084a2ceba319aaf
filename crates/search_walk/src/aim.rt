//! What the incumbent of a scope's own tree rules out.
//!
//! Where the list after a scope of the player begins with a variable that no later owner decides first, values of it that
//! are worse than the best so far needn't be looked at: the incumbent beats whatever comes of them.
ghost use Rattle.std.specs.Prelude.{◌≡◌, ◌<◌, ◌∷◌, ◌||◌, ℕ, suc, not, nat_lt, is_none, length, drop, List, IfSome};
ghost use Rattle.std.specs.Int.{int_max, int_min};
ghost use Rattle.qc_model.specs.declared.problem.Scope.{Scope};
ghost use Rattle.qc_model.specs.declared.problem.Sense.TheVariants.{Min, Max};
ghost use Rattle.qc_model.specs.Block.{no_condition_to};
ghost use Rattle.qc_model.specs.Content.{Game};
ghost use Rattle.joins.specs.Joins.{game_of};
ghost use Rattle.search_walk.specs.Aims.{IsAimed, IsKeptTo, IsSpan, AreRuledOut, AreWorse};

use joins::Joins;
use model_laws::lists_are_visible;
use qc_model::{Problem, ScopeId, Sense, Target, VarId, limits};

/// The largest value that a variable can have.
const LARGEST: i64 = limits::NUMBER as i64;

/// The variable that a scope's own tree optimises first, and how.
#[derive(Clone, Copy)]
pub struct Aim {
    pub sense: Sense,
    pub variable: VarId,
    /// Nothing else is asked, so that a tie can't be decided otherwise.
    pub is_alone: bool,
}

/// Values of the variable, from the first to the last, that the incumbent rules out.
#[derive(Clone, Copy)]
pub(crate) struct Worse {
    pub(crate) sense: Sense,
    pub(crate) variable: VarId,
    pub(crate) lo: i64,
    pub(crate) hi: i64,
}

/// Whether the scope k is one up to the last, and has a condition.
fn is_wished(problem: &Problem, k: u8, last: u8) -> bool
    requires { k < length problem.now.scopes }
    ensures { (later : List Scope) (s : Scope) → drop k problem.now.scopes ≡ s ∷ later → result ≡ not (nat_lt last k || is_none s.condition) }
{
    k <= last && problem.scope(ScopeId(k)).condition.is_some()
}

/// Whether no scope after i, up to the last, has a condition.
fn is_free_to(problem: &Problem, i: u8, last: u8) -> bool
    requires { i < length problem.now.scopes }
    ensures { result ≡ no_condition_to last (drop (suc i) problem.now.scopes) (suc i) }
{
    problem.known();
    for k in i + 1..problem.scopes() as u8 {
        if is_wished(problem, k, last) {
            return false;
        }
    }
    true
}

/// What the own tree of scope i aims at. None comes exactly where no bound may stand there.
pub fn aim_of(problem: &Problem, joins: &Joins, i: ScopeId) -> Option<Aim>
    requires scope { i.0 < length problem.now.scopes }
    requires joins { game_of joins.now ≡ problem.now }
    ensures { IsAimed problem.now i.0 result }
{
    problem.known();
    lists_are_visible();
    let Some((first, rest)) = joins.wishes(i).split_first() else {
        return None;
    };
    let Target::Var(variable) = first.target else {
        return None;
    };
    if !is_free_to(problem, i.0, problem.variable(variable).scope.0) {
        return None;
    }
    Some(Aim {
        sense: first.sense,
        variable,
        is_alone: rest.is_empty(),
    })
}

/// What the aim's variable has from lo to hi, kept to the values that a variable can have. None comes exactly where it can
/// have none of these.
fn kept_to(aim: Aim, lo: i64, hi: i64) -> Option<Worse>
    ensures { IsKeptTo aim lo hi result }
{
    if LARGEST < lo || hi < -LARGEST {
        return None;
    }
    Some(Worse {
        sense: aim.sense,
        variable: aim.variable,
        lo: lo.max(-LARGEST),
        hi: hi.min(LARGEST),
    })
}

/// The values that are worse than this one, and it too where nothing else is asked. None comes exactly where a variable can
/// have none of these.
fn worse_than(aim: Aim, best: i64) -> Option<Worse>
    ensures { AreRuledOut aim best result }
{
    match aim.sense {
        Sense::Min => worse_above(aim, best),
        Sense::Max => worse_below(aim, best),
    }
}

fn worse_above(aim: Aim, best: i64) -> Option<Worse>
    requires { aim.sense ≡ Min }
    ensures { AreRuledOut aim best result }
{
    if aim.is_alone {
        return kept_to(aim, best, LARGEST);
    }
    if LARGEST <= best {
        return None;
    }
    kept_to(aim, best + 1, LARGEST)
}

fn worse_below(aim: Aim, best: i64) -> Option<Worse>
    requires { aim.sense ≡ Max }
    ensures { AreRuledOut aim best result }
{
    if aim.is_alone {
        return kept_to(aim, -LARGEST, best);
    }
    if best <= -LARGEST {
        return None;
    }
    kept_to(aim, -LARGEST, best - 1)
}

/// The values that the incumbent of scope i's own tree rules out. None comes where it rules out none, or there is none.
pub(crate) fn worse_values(aim: Option<Aim>, joins: &Joins, i: ScopeId) -> Option<Worse>
    requires scope { i.0 < length (game_of joins.now).scopes }
    requires aimed { IsAimed (game_of joins.now) i.0 aim }
    ensures { AreWorse (game_of joins.now) i.0 joins.now result }
{
    let Some(aim) = aim else {
        return None;
    };
    let Some(best) = joins.incumbent(i) else {
        return None;
    };
    worse_than(aim, best)
}

/// The values of the aim's variable that are worse than one that was found; ties stay. None comes where there is no aim, or a
/// variable can have none of these.
pub(crate) fn worse_than_found(aim: Option<Aim>, found: Option<i64>) -> Option<Worse>
    ensures { (g : Game) (i : ℕ) → IsAimed g i aim → IfSome result (λ w. IsSpan g i w) }
{
    let Some(aim) = aim else {
        return None;
    };
    let Some(found) = found else {
        return None;
    };
    let with_ties = Aim {
        sense: aim.sense,
        variable: aim.variable,
        is_alone: false,
    };
    worse_than(with_ties, found)
}

/// Those of the values from the first to the last.
pub(crate) fn between(worse: Worse, first: i64, last: i64) -> Worse
    ensures sense { result.sense ≡ worse.sense }
    ensures variable { result.variable ≡ worse.variable }
    ensures lo { result.lo ≡ int_max worse.lo first }
    ensures hi { result.hi ≡ int_min worse.hi last }
{
    Worse {
        sense: worse.sense,
        variable: worse.variable,
        lo: worse.lo.max(first),
        hi: worse.hi.min(last),
    }
}
