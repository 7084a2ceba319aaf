//! What all constraints from a scope on see of two positions.
ghost use Rattle.std.specs.Prelude.{◌≡◌, ◌||◌, [], length, not};
ghost use Rattle.std.specs.List.{list_all};
ghost use Rattle.qc_model.specs.Domains.{declared_box};
ghost use Rattle.qc_model.specs.Lists.{same_values};
ghost use Rattle.lemma_list.specs.Entailment.{entailed_by};
ghost use Rattle.proof_alike.specs.Alike.{sees};
ghost use Rattle.dense_tree.specs.Alike.{is_from};
ghost use Rattle.dense_alike.specs.Starts.{IsStart};
ghost use Rattle.dense_alike.specs.Laid.{holding, laid, viewed, AgreeFrom, AreValuesOf};

use crate::laying::read_holding;
use crate::reads::Reads;
use crate::seen::{is_rule_same, is_seen_alike};
use check_box::Remains;
use qc_model::{ConId, Problem, ScopeId};

/// Whether each constraint of a scope from i on, or of the goal, sees the same of both positions, but nothing of one after which
/// it holds whatever comes. Those before a place are of earlier scopes. Where some see different values, the positions are laid for
/// a while in the declared box, which stays.
pub(crate) fn are_positions_same(
    reads: &Reads,
    problem: &Problem,
    declared: &mut Remains,
    i: ScopeId,
    start: usize,
    here: &[i64],
    holds_here: &mut [bool],
    there: &[i64],
    holds_there: &mut [bool],
) -> bool
    requires game { reads.now ≡ problem.now }
    requires start { IsStart problem.now i.0 start }
    requires declared { declared.old.box ≡ declared_box problem.now }
    requires past { declared.old.past ≡ [] }
    requires here { AreValuesOf problem.now i.0 here.now }
    requires there { AreValuesOf problem.now i.0 there.now }
    requires places { length holds_here.old ≡ length problem.now.constraints }
    requires others { length holds_there.old ≡ length problem.now.constraints }
    ensures declared { declared.new.box ≡ declared_box problem.now }
    ensures past { declared.new.past ≡ [] }
    ensures places { length holds_here.new ≡ length problem.now.constraints }
    ensures others { length holds_there.new ≡ length problem.now.constraints }
    ensures same { result ≡ list_all (λ c. not (is_from i.0 c) || same_values (viewed problem.now i.0 here.now (entailed_by c (laid problem.now here.now)) c) (viewed problem.now i.0 there.now (entailed_by c (laid problem.now there.now)) c)) problem.now.constraints }
{
    problem.known();
    // Where all see the same of both, each holds whatever comes after both or after neither.
    if see_same(reads, problem, i, start, here, there) {
        return true;
    }
    read_holding(declared, problem, i, start, here, holds_here);
    read_holding(declared, problem, i, start, there, holds_there);
    are_views_same(
        reads,
        problem,
        i,
        start,
        here,
        holds_here,
        there,
        holds_there,
    )
}

/// Whether each constraint of a scope from i on, or of the goal, sees the same of both positions. Those before a place are of earlier
/// scopes.
fn see_same(
    reads: &Reads,
    problem: &Problem,
    i: ScopeId,
    start: usize,
    here: &[i64],
    there: &[i64],
) -> bool
    requires game { reads.now ≡ problem.now }
    requires start { IsStart problem.now i.0 start }
    requires here { AreValuesOf problem.now i.0 here.now }
    requires there { AreValuesOf problem.now i.0 there.now }
    ensures { result ≡ list_all (λ c. not (is_from i.0 c) || same_values (sees problem.now i.0 here.now c) (sees problem.now i.0 there.now c)) problem.now.constraints }
{
    problem.known();
    for k in start..problem.constraints() {
        if !is_seen_alike(reads, i, problem.constraint(ConId(k as u16)), here, there) {
            return false;
        }
    }
    true
}

/// Whether each constraint of a scope from i on, or of the goal, sees the same of both positions. Those before a place are
/// of earlier scopes, and of each other constraint is told whether it is one of these, sees values other than by themselves, and
/// holds whatever comes after the position.
fn are_views_same(
    reads: &Reads,
    problem: &Problem,
    i: ScopeId,
    start: usize,
    here: &[i64],
    holds_here: &[bool],
    there: &[i64],
    holds_there: &[bool],
) -> bool
    requires game { reads.now ≡ problem.now }
    requires start { IsStart problem.now i.0 start }
    requires here { AreValuesOf problem.now i.0 here.now }
    requires there { AreValuesOf problem.now i.0 there.now }
    requires places { length holds_here.now ≡ length problem.now.constraints }
    requires others { length holds_there.now ≡ length problem.now.constraints }
    requires holds_here { AgreeFrom start (holding problem.now i.0 here.now) holds_here.now }
    requires holds_there { AgreeFrom start (holding problem.now i.0 there.now) holds_there.now }
    ensures { result ≡ list_all (λ c. not (is_from i.0 c) || same_values (viewed problem.now i.0 here.now (entailed_by c (laid problem.now here.now)) c) (viewed problem.now i.0 there.now (entailed_by c (laid problem.now there.now)) c)) problem.now.constraints }
{
    problem.known();
    for k in start..problem.constraints() {
        let rule = problem.constraint(ConId(k as u16));
        if !is_rule_same(reads, i, rule, here, holds_here[k], there, holds_there[k]) {
            return false;
        }
    }
    true
}
