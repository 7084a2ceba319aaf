//! What a reason shows: that the loser of a lemma loses in a box.
ghost use Rattle.std.specs.Prelude.{◌≡◌, ◌<◌, ◌≤◌, ◌&&◌, true, int_le, Some, None, MatchOption, length, slice_get};
ghost use Rattle.std.specs.List.{list_all};
ghost use Rattle.qc_model.specs.Domains.{is_within, values_left};
ghost use Rattle.lemma_list.specs.declared.lemma.Literal.{Literal};
ghost use Rattle.lemma_list.specs.Sums.{is_sum_shown as is_sum_shown_in};
ghost use Rattle.lemma_list.specs.Reasons.{lemma_at as lemma_at_in, owner_of as owner_of_in, reason_place as reason_place_in, is_met as is_met_in, rule_shows as rule_shows_in, lemma_shows as lemma_shows_in, reason_shows as reason_shows_in, shows as shows_in};
ghost use Rattle.lemma_reasons.specs.Answering.{answered_by};
ghost use Rattle.lemma_reasons.specs.Asked.{IsFullBox};

use crate::aim::Aim;
use crate::answers::{Answers, may_answer};
use crate::clauses::is_falsified;
use crate::forms::linear_sum;
use crate::kept::{given_for, is_refuted};
use crate::literals::{covers, some_meets, some_misses};
use crate::places::{is_kind, place_of, side_at};
use crate::rules::scope_of;
use crate::spans::goes_on;
use crate::sums::Sum;
use fd_store::Store;
use lemma_list::{Lemma, LemmaId, Literal, Reason, SumLiteral};
use model_levels::Levels;
use qc_model::{ConId, Problem};

/// Whether each value that is left to a literal's variable meets the literals, or the winner may answer with one that
/// does.
pub fn is_met(
    problem: &Problem,
    answers: Answers,
    literals: &[Literal],
    literal: Literal,
    store: &Store,
) -> bool
    requires { IsFullBox problem.now store.now.box }
    ensures { result ≡ is_met_in (answered_by problem.now answers) literals.now store.now.box literal }
{
    problem.known();
    if literal.x.0 as usize >= store.count() {
        return true;
    }
    if !some_misses(literals, literal.x, store) {
        return true;
    }
    may_answer(problem, answers, literal.x) && some_meets(literals, literal.x, store)
}

// Whether the literal's own range has all values that are left to its variable.
fn is_met_alone(problem: &Problem, literal: Literal, store: &Store) -> bool
    requires { IsFullBox problem.now store.now.box }
    ensures { result ≡ true → list_all (is_within literal.lo literal.hi) (values_left store.now.box literal.x.0) ≡ true }
{
    problem.known();
    if literal.x.0 as usize >= store.count() {
        return false;
    }
    covers(literal, store)
}

// The same of one of the literals. Mostly its own range tells, and the others needn't be gone over.
fn is_met_at(
    problem: &Problem,
    answers: Answers,
    literals: &[Literal],
    k: usize,
    store: &Store,
) -> bool
    requires place { k < length literals.now }
    requires left { IsFullBox problem.now store.now.box }
    ensures { (l : Literal) → slice_get literals.now k ≡ Some l → result ≡ is_met_in (answered_by problem.now answers) literals.now store.now.box l }
{
    let literal = literals[k];
    if is_met_alone(problem, literal, store) {
        return true;
    }
    is_met(problem, answers, literals, literal, store)
}

fn all_met(problem: &Problem, answers: Answers, literals: &[Literal], store: &Store) -> bool
    requires { IsFullBox problem.now store.now.box }
    ensures { result ≡ list_all (is_met_in (answered_by problem.now answers) literals.now store.now.box) literals.now }
{
    for k in 0..literals.len() {
        if !is_met_at(problem, answers, literals, k, store) {
            return false;
        }
    }
    true
}

// Whether what is known of a sum keeps it from lo to hi.
fn lies_within(known: Sum, lo: i64, hi: i64) -> bool
    ensures { result ≡ (int_le lo known.from && int_le known.to hi) }
{
    lo as i128 <= known.from && known.to <= hi as i128
}

/// Whether a sum of the variables of scopes before one lies where its literal says, by the box and the lemma's sums.
pub fn is_sum_shown(aim: &Aim, before: usize, sum: SumLiteral, store: &Store) -> bool
    requires { IsFullBox aim.now.problem.now store.now.box }
    ensures { result ≡ is_sum_shown_in aim.now.problem.now aim.now.lemma.now before store.now.box sum }
{
    aim.problem.known();
    if sum.c.0 as usize >= aim.problem.constraints() {
        return false;
    }
    let rule = aim.problem.constraint(sum.c);
    match linear_sum(
        aim.problem,
        rule,
        given_for(aim, sum.c),
        Some(before),
        store,
    ) {
        None => false,
        Some(known) => lies_within(known, sum.lo, sum.hi),
    }
}

fn all_shown(aim: &Aim, before: usize, sums: &[SumLiteral], store: &Store) -> bool
    requires { IsFullBox aim.now.problem.now store.now.box }
    ensures { result ≡ list_all (is_sum_shown_in aim.now.problem.now aim.now.lemma.now before store.now.box) sums.now }
{
    for sum in sums {
        if !is_sum_shown(aim, before, *sum, store) {
            return false;
        }
    }
    true
}

/// Whether a constraint of the loser, of the scope before the lemma's position or a later one, is refuted, where the
/// winner may answer.
pub fn rule_shows(aim: &Aim, answers: Answers, c: ConId, store: &Store) -> bool
    requires { IsFullBox aim.now.problem.now store.now.box }
    ensures { result ≡ rule_shows_in aim.now.problem.now aim.now.lemma.now (answered_by aim.now.problem.now answers) store.now.box c.0 (slice_get aim.now.problem.now.constraints c.0) }
{
    aim.problem.known();
    if c.0 as usize >= aim.problem.constraints() {
        return false;
    }
    let rule = aim.problem.constraint(c);
    let owner = scope_of(rule);
    if !is_kind(aim.lemma.loser(), side_at(aim.problem, owner)) {
        return false;
    }
    if owner + 1 < aim.place {
        return false;
    }
    is_refuted(aim, c, store) || is_falsified(aim.problem, rule, answers, store)
}

/// Whether a lemma of the same loser, of the same position or a later one, holds in the box, where the winner may answer.
pub fn lemma_shows(aim: &Aim, answers: Answers, named: &Lemma, store: &Store) -> bool
    requires { IsFullBox aim.now.problem.now store.now.box }
    ensures { result ≡ lemma_shows_in aim.now.problem.now aim.now.lemma.now (answered_by aim.now.problem.now answers) store.now.box (Some named.now) }
{
    if !is_kind(aim.lemma.loser(), named.loser()) {
        return false;
    }
    let place = place_of(aim.problem, named);
    if place < aim.place {
        return false;
    }
    all_met(aim.problem, answers, named.literals(), store)
        && all_shown(aim, place.saturating_sub(1), named.sums(), store)
}

/// A lemma that is still named.
pub fn lemma_at(known: &[Option<Lemma>], n: LemmaId) -> Option<&Lemma>
    ensures { MatchOption result (lemma_at_in known.now n.0 ≡ None) (λ m. lemma_at_in known.now n.0 ≡ Some m.now) }
{
    match known.get(n.0 as usize) {
        Some(Some(lemma)) => Some(lemma),
        _ => None,
    }
}

/// Where play has to go on to, so that the reason is met: the scope of a constraint, or the place of a lemma; 0 where there
/// is none.
pub fn reason_place(problem: &Problem, known: &[Option<Lemma>], reason: Reason) -> usize
    ensures place { result ≡ reason_place_in problem.now known.now reason }
    ensures within { result ≤ length problem.now.scopes }
{
    match reason {
        Reason::Constraint(c) => owner_of(problem, c),
        Reason::Lemma(n) => match lemma_at(known, n) {
            None => 0,
            Some(named) => place_of(problem, named),
        },
    }
}

// The scope of a constraint, and 0 where there is none.
fn owner_of(problem: &Problem, c: ConId) -> usize
    ensures owner { result ≡ owner_of_in (slice_get problem.now.constraints c.0) }
    ensures within { result ≤ length problem.now.scopes }
{
    problem.known();
    if c.0 as usize >= problem.constraints() {
        return 0;
    }
    scope_of(problem.constraint(c))
}

/// Whether the reason is met in the box, where the winner may answer.
pub fn reason_shows(
    aim: &Aim,
    known: &[Option<Lemma>],
    answers: Answers,
    store: &Store,
    reason: Reason,
) -> bool
    requires { IsFullBox aim.now.problem.now store.now.box }
    ensures { result ≡ reason_shows_in aim.now.problem.now known.now aim.now.lemma.now (answered_by aim.now.problem.now answers) store.now.box reason }
{
    match reason {
        Reason::Constraint(c) => rule_shows(aim, answers, c, store),
        Reason::Lemma(n) => match lemma_at(known, n) {
            None => false,
            Some(named) => lemma_shows(aim, answers, named, store),
        },
    }
}

/// Whether the reason is met in the box, and play goes on to it there, from the scope with the number passed.
pub fn shows(
    aim: &Aim,
    levels: &Levels,
    known: &[Option<Lemma>],
    answers: Answers,
    passed: usize,
    store: &Store,
    reason: Reason,
) -> bool
    requires levels { levels.now.problem.now ≡ aim.now.problem.now }
    requires left { IsFullBox aim.now.problem.now store.now.box }
    ensures { result ≡ shows_in aim.now.problem.now known.now aim.now.lemma.now (answered_by aim.now.problem.now answers) passed store.now.box store.now.box reason }
{
    let stop = reason_place(aim.problem, known, reason);
    goes_on(aim, levels, passed, stop, store) && reason_shows(aim, known, answers, store, reason)
}
