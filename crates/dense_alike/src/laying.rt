//! Values of the first variables, laid into the declared box, to ask which constraints hold whatever comes.
ghost use Rattle.std.specs.Prelude.{◌≡◌, ◌≤◌, ◌<◌, ◌&&◌, [], length, map, slice_get, IsTrue};
ghost use Rattle.std.specs.List.{list_all};
ghost use Rattle.qc_model.specs.Content.{Rule};
ghost use Rattle.qc_model.specs.Domains.{declared_box, InBox};
ghost use Rattle.qc_model.specs.Valid.{is_number};
ghost use Rattle.fd_store.specs.Held.{Follows};
ghost use Rattle.lemma_list.specs.Entailment.{entailed_by};
ghost use Rattle.lemma_reasons.specs.Asked.{IsFullBox};
ghost use Rattle.likeness.specs.Seeing.{tells};
ghost use Rattle.dense_tree.specs.Alike.{is_from};
ghost use Rattle.dense_alike.specs.Laid.{holding, laid_in, AgreeFrom, AreValuesOf};

use crate::reading::is_telling;
use check_box::Remains;
use fd_store::Store;
use lemma_reasons::is_entailed;
use qc_model::{ConId, Problem, ScopeId, VarId};

/// Leaves each of the first variables its value alone.
fn lay(remains: &mut Remains, problem: &Problem, values: &[i64])
    requires declared { remains.old.box ≡ declared_box problem.now }
    requires lie { InBox values.now remains.old.box }
    requires numbers { IsTrue (list_all is_number values.now) }
    requires within { length values.now ≤ length remains.old.box }
    ensures content { remains.new.box ≡ laid_in remains.old.box values.now }
    ensures full { IsFullBox problem.now remains.new.box }
    ensures past { Follows remains.old remains.new }
{
    problem.known();
    for k in 0..values.len() {
        remains.keep(VarId(k as u16), values[k], values[k]);
    }
}

/// Whether constraint c is of a scope from i on, or of the goal, sees values other than by themselves, and the box entails it.
fn is_held(problem: &Problem, i: ScopeId, c: ConId, store: &Store) -> bool
    requires c { c.0 < length problem.now.constraints }
    requires left { IsFullBox problem.now store.now.box }
    ensures { (rule : Rule) → slice_get problem.now.constraints c.0 ≡ Some rule → result ≡ (is_from i.0 rule && tells rule && entailed_by rule store.now.box) }
{
    let rule = problem.constraint(c);
    i.0 <= rule.owner.0 && is_telling(rule) && is_entailed(problem, c, store)
}

/// Writes for each constraint from a place on whether it is of a scope from i on, or of the goal, sees values other than by
/// themselves, and the box entails it.
fn read_entailed(problem: &Problem, i: ScopeId, start: usize, store: &Store, holds: &mut [bool])
    requires left { IsFullBox problem.now store.now.box }
    requires places { length holds.old ≡ length problem.now.constraints }
    ensures places { length holds.new ≡ length problem.now.constraints }
    ensures read { AgreeFrom start (map (λ c. is_from i.0 c && tells c && entailed_by c store.now.box) problem.now.constraints) holds.new }
{
    problem.known();
    for k in start..problem.constraints() {
        holds[k] = is_held(problem, i, ConId(k as u16), store);
    }
}

/// Writes for each constraint from a place on whether it is of a scope from i on, or of the goal, sees values other than by
/// themselves, and holds whatever comes after these values of the variables before the scope. The box is the declared one,
/// before and after.
pub(crate) fn read_holding(
    remains: &mut Remains,
    problem: &Problem,
    i: ScopeId,
    start: usize,
    values: &[i64],
    holds: &mut [bool],
)
    requires declared { remains.old.box ≡ declared_box problem.now }
    requires past { remains.old.past ≡ [] }
    requires values { AreValuesOf problem.now i.0 values.now }
    requires places { length holds.old ≡ length problem.now.constraints }
    ensures declared { remains.new.box ≡ declared_box problem.now }
    ensures past { remains.new.past ≡ [] }
    ensures places { length holds.new ≡ length problem.now.constraints }
    ensures holds { AgreeFrom start (holding problem.now i.0 values.now) holds.new }
{
    problem.known();
    let mark = remains.mark();
    lay(remains, problem, values);
    read_entailed(problem, i, start, remains.store(), holds);
    remains.undo_to(mark);
}
