//! Whether a certificate that is kept as a tree proves what it states.
ghost use Rattle.std.specs.Prelude.{◌≡◌, ◌≤◌, ◌↔◌, ◌^◌, ◌&&◌, IfOk, IsTrue, Some};
ghost use Rattle.proof_tree.specs.Shape.{tree_of};
ghost use Rattle.proof_tree.specs.Counts.{ends_of};
ghost use Rattle.proof_tree.specs.Lines.{tree_lines};
ghost use Rattle.proof_tree.specs.Proves.{proves};
ghost use Rattle.proof_tree.specs.Meaning.{OutcomeMeans};
ghost use Rattle.check_lines.specs.Found.{Answers};
ghost use Rattle.check_lines.specs.LedgerHeld.{first_ledger, goes_through};
ghost use Rattle.check_lines.specs.Machine.{game_of};
ghost use Rattle.qc_check.specs.Giving.{CanCheck};
ghost use Rattle.qc_check.specs.Shown.{answer_of};
ghost use Rattle.qc_check.specs.declared.finding.Answer.TheVariants as answer_as;

use crate::finding::Answer;
use crate::giving::give_node;
use crate::shown::is_shown;
use crate::space::Space;
use crate::stated::Stated;
use crate::turns::has_turns;
use check_lines::{Answer as TreeAnswer, Machine, answers_are_right};
use proof_meaning::outcomes_are_true;
use proof_tree::{Certificate, Node};
use qc_model::Problem;
use std::alloc::{AllocError, Global};

impl<'p> Space<'p> {
    /// All memory that checks of certificates of this problem take. It fails only where that runs out.
    pub fn new(alloc: Global, problem: &'p Problem) -> Result<Space<'p>, AllocError>
        ensures usable { IfOk result (λ s. CanCheck s) }
        ensures same { IfOk result (λ s. game_of s.machine ≡ problem.now) }
    {
        let machine = Machine::new(alloc, problem)?;
        Ok(Space { problem, machine })
    }

    // What the lines of a tree come to.
    fn judge(&mut self, root: &Node) -> Option<TreeAnswer>
        requires usable { CanCheck self.old }
        requires few { ends_of (tree_of root.now) ≤ 2 ^ 30 }
        ensures come { Answers result (goes_through (game_of self.old.machine) (Some (first_ledger (game_of self.old.machine))) (tree_lines (tree_of root.now))) }
        ensures usable { CanCheck self.new }
        ensures same { game_of self.new.machine ≡ game_of self.old.machine }
    {
        self.problem.known();
        self.machine.restart();
        give_node(self, root);
        self.machine.finish()
    }

    /// Whether a certificate, however it came to be, proves what it states. It takes no memory, and the space may be used
    /// again.
    pub fn check(&mut self, cert: &Certificate) -> Answer
        requires usable { CanCheck self.old }
        ensures yes { result ≡ answer_as.Yes ↔ IsTrue (proves (game_of self.old.machine) cert.now.outcome cert.now.optimum (tree_of cert.now.root)) }
        ensures means { result ≡ answer_as.Yes → OutcomeMeans cert.now.outcome cert.now.optimum (game_of self.old.machine) (tree_of cert.now.root) }
        ensures usable { CanCheck self.new }
        ensures same { game_of self.new.machine ≡ game_of self.old.machine }
    {
        self.problem.known();
        answers_are_right();
        outcomes_are_true();
        let found = self.judge(&cert.root);
        let stated = Stated {
            outcome: cert.outcome,
            optimum: cert.optimum,
        };
        let shown = is_shown(self.problem, found, stated);
        let counted = has_turns(cert);
        conclude(shown, counted)
    }
}

fn conclude(shown: bool, counted: bool) -> Answer
    ensures { result ≡ answer_of (shown && counted) }
{
    if shown && counted {
        Answer::Yes
    } else {
        Answer::NotProved
    }
}
