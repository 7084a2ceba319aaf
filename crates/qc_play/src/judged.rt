//! Whether a certificate proves what it states.
ghost use Rattle.std.specs.Prelude.{◌≡◌, IfOk, OnErr, IsTrue};
ghost use Rattle.proof_tree.specs.Lines.{tree_lines};
ghost use Rattle.proof_tree.specs.Shape.{tree_of};
ghost use Rattle.proof_tree.specs.Proves.{proves as is_proved};
ghost use Rattle.proof_tree.specs.Tree.{Tree};
ghost use Rattle.qc_play.specs.Heads.{is_head as is_head_of};
ghost use Rattle.qc_play.specs.Roots.{IsListed};

use crate::heads::is_head;
use crate::listed::CertificateLines;
use check_lines::{judge_lines, shows};
use proof_tree::Certificate;
use qc_check::{Answer, Space};
use qc_model::Problem;
use std::alloc::{AllocError, Global};

/// Whether a certificate proves what it states, of however many lines. It asks for memory only where its head may be shown
/// by some tree, and for as much as its problem takes, not its tree.
pub(crate) fn proves(
    alloc: Global,
    problem: &Problem,
    cert: &Certificate,
) -> Result<bool, AllocError>
    ensures told { IfOk result (λ b. b ≡ is_proved problem.now cert.now.outcome cert.now.optimum (tree_of cert.now.root)) }
    ensures asked { OnErr result (IsTrue (is_head_of problem.now.scopes cert.now.outcome cert.now.optimum)) }
{
    if !is_head(problem, cert.outcome, cert.optimum) {
        return Ok(false);
    }
    let mut space = Space::new(alloc, problem)?;
    match space.check(cert) {
        Answer::Yes => Ok(true),
        Answer::NotProved => Ok(false),
    }
}

/// The same of one that is known by its lines.
pub(crate) fn lines_prove(
    alloc: Global,
    problem: &Problem,
    cert: &CertificateLines,
) -> Result<bool, AllocError>
    requires { IsListed cert.now.outcome cert.now.lines.items }
    ensures told { IfOk result (λ b. (t : Tree) → cert.now.lines.items ≡ tree_lines t → b ≡ is_proved problem.now cert.now.outcome cert.now.optimum t) }
    ensures asked { OnErr result (IsTrue (is_head_of problem.now.scopes cert.now.outcome cert.now.optimum)) }
{
    if !is_head(problem, cert.outcome, cert.optimum) {
        return Ok(false);
    }
    match judge_lines(alloc, problem, cert.lines.as_slice())? {
        None => Ok(false),
        Some(answer) => Ok(shows(problem, answer, cert.outcome, cert.optimum)),
    }
}
