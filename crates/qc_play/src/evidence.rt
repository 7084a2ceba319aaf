//! What a certificate shows, whatever it states.
ghost use Rattle.std.specs.Prelude.{◌≡◌, IfOk, OnErr, IsTrue};
ghost use Rattle.proof_tree.specs.Lines.{tree_lines};
ghost use Rattle.proof_tree.specs.Proves.{proves};
ghost use Rattle.proof_tree.specs.Tree.{Tree};
ghost use Rattle.qc_play.specs.Evidence.{IsEvidence};
ghost use Rattle.qc_play.specs.Heads.{is_head};
ghost use Rattle.qc_play.specs.Roots.{IsListed};

use crate::counter::Counter;
use crate::judged::lines_prove;
use crate::listed::CertificateLines;
use crate::plan::Plan;
use crate::root::{counter_of_root, plan_of_root};
use proof_meaning::{outcomes_are_true, trees_answer_all_tuples};
use proof_tree::Outcome;
use qc_model::Problem;
use std::alloc::{AllocError, Global};

/// What a certificate shows.
#[derive(Drop)]
pub enum Evidence {
    /// The game is won: an optimal strategy.
    Plan(Plan),
    /// The game isn't won: a counterstrategy that wins.
    Counter(Counter),
    /// The game was left open after so many turns.
    Open(u64),
    /// Nothing: the certificate doesn't prove what it states.
    NotProved,
}

/// What a certificate shows that proves what it states.
fn proved_evidence(
    alloc: Global,
    problem: &Problem,
    cert: &CertificateLines,
) -> Result<Evidence, AllocError>
    requires listed { IsListed cert.now.outcome cert.now.lines.items }
    requires proved { (t : Tree) → cert.now.lines.items ≡ tree_lines t → IsTrue (proves problem.now cert.now.outcome cert.now.optimum t) }
    ensures { IfOk result (λ e. (t : Tree) → cert.now.lines.items ≡ tree_lines t → IsEvidence problem.now cert.now.outcome cert.now.optimum t e) }
{
    problem.known();
    outcomes_are_true();
    trees_answer_all_tuples();
    match cert.outcome {
        Outcome::True => {
            let plan = plan_of_root(alloc, problem, cert.lines.as_slice())?;
            Ok(Evidence::Plan(plan))
        }
        Outcome::False => {
            let counter = counter_of_root(alloc, problem, cert.lines.as_slice())?;
            Ok(Evidence::Counter(counter))
        }
        Outcome::Open(turns) => Ok(Evidence::Open(turns)),
    }
}

/// What a certificate shows that is known by its lines, which are those of a tree that a certificate may have (`read_lines`).
/// NotProved comes exactly where it doesn't prove what it states.
///
/// It fails only where memory is refused, and asks for none where the certificate states an optimum that no tree can show.
pub fn make_evidence(
    alloc: Global,
    problem: &Problem,
    cert: &CertificateLines,
) -> Result<Evidence, AllocError>
    requires { IsListed cert.now.outcome cert.now.lines.items }
    ensures shows { IfOk result (λ e. (t : Tree) → cert.now.lines.items ≡ tree_lines t → IsEvidence problem.now cert.now.outcome cert.now.optimum t e) }
    ensures asked { OnErr result (IsTrue (is_head problem.now.scopes cert.now.outcome cert.now.optimum)) }
{
    let proved = lines_prove(alloc, problem, cert)?;
    if !proved {
        return Ok(Evidence::NotProved);
    }
    proved_evidence(alloc, problem, cert)
}
