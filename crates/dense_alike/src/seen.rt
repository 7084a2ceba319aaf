//! What a constraint sees of two positions.
ghost use Rattle.std.specs.Prelude.{◌≡◌, ◌||◌, not, IsTrue};
ghost use Rattle.qc_model.specs.Lists.{same_values};
ghost use Rattle.proof_alike.specs.Alike.{sees};
ghost use Rattle.model_evaluation.specs.Evaluation.{are_readable};
ghost use Rattle.dense_tree.specs.Alike.{is_from};
ghost use Rattle.dense_alike.specs.Laid.{viewed};
ghost use Rattle.qc_model.specs.Verdict.{is_none_of};

use crate::clauses::{are_clauses_same, clause_sees_nothing};
use crate::pluses::are_pluses_same;
use crate::reading::{Reading, reading_of};
use crate::reads::Reads;
use crate::sums::are_sums_same;
use qc_model::{Constraint, ScopeId};

/// Whether the constraint sees nothing of the values.
fn sees_nothing(reads: &Reads, i: ScopeId, rule: &Constraint, values: &[i64]) -> bool
    ensures { result ≡ is_none_of (sees reads.now i.0 values.now rule.now) }
{
    match reading_of(rule) {
        Reading::Sum => false,
        Reading::Plus => false,
        Reading::Clause => clause_sees_nothing(reads, i, rule, values),
        Reading::Value => true,
    }
}

/// Whether the constraint sees the same of both values.
fn sees_same(reads: &Reads, i: ScopeId, rule: &Constraint, here: &[i64], there: &[i64]) -> bool
    requires here { IsTrue (are_readable here.now rule.now.args) }
    requires there { IsTrue (are_readable there.now rule.now.args) }
    ensures { result ≡ same_values (sees reads.now i.0 here.now rule.now) (sees reads.now i.0 there.now rule.now) }
{
    match reading_of(rule) {
        Reading::Sum => are_sums_same(rule, here, there),
        Reading::Plus => are_pluses_same(rule, here, there),
        Reading::Clause => are_clauses_same(reads, i, rule, here, there),
        Reading::Value => true,
    }
}

/// Whether the constraint is of a scope before i, or sees the same of both values.
pub(crate) fn is_seen_alike(
    reads: &Reads,
    i: ScopeId,
    rule: &Constraint,
    here: &[i64],
    there: &[i64],
) -> bool
    requires here { IsTrue (are_readable here.now rule.now.args) }
    requires there { IsTrue (are_readable there.now rule.now.args) }
    ensures { result ≡ (not (is_from i.0 rule.now) || same_values (sees reads.now i.0 here.now rule.now) (sees reads.now i.0 there.now rule.now)) }
{
    rule.owner.0 < i.0 || sees_same(reads, i, rule, here, there)
}

/// Whether the constraint sees the same of both positions, where it sees nothing of one after which it holds whatever comes.
fn is_view_same(
    reads: &Reads,
    i: ScopeId,
    rule: &Constraint,
    here: &[i64],
    holds_here: bool,
    there: &[i64],
    holds_there: bool,
) -> bool
    requires here { IsTrue (are_readable here.now rule.now.args) }
    requires there { IsTrue (are_readable there.now rule.now.args) }
    ensures { result ≡ same_values (viewed reads.now i.0 here.now holds_here rule.now) (viewed reads.now i.0 there.now holds_there rule.now) }
{
    if holds_here {
        return holds_there || sees_nothing(reads, i, rule, there);
    }
    if holds_there {
        return sees_nothing(reads, i, rule, here);
    }
    sees_same(reads, i, rule, here, there)
}

/// Whether the constraint is of a scope before i, or sees the same of both positions.
pub(crate) fn is_rule_same(
    reads: &Reads,
    i: ScopeId,
    rule: &Constraint,
    here: &[i64],
    holds_here: bool,
    there: &[i64],
    holds_there: bool,
) -> bool
    requires here { IsTrue (are_readable here.now rule.now.args) }
    requires there { IsTrue (are_readable there.now rule.now.args) }
    ensures { result ≡ (not (is_from i.0 rule.now) || same_values (viewed reads.now i.0 here.now holds_here rule.now) (viewed reads.now i.0 there.now holds_there rule.now)) }
{
    rule.owner.0 < i.0 || is_view_same(reads, i, rule, here, holds_here, there, holds_there)
}
