//! Turns that the machine doesn't count. It stops at 2^64 - 1, and a certificate that was built in code may state so many.
ghost use Rattle.std.specs.Prelude.{◌≡◌, ◌==◌, ◌-◌, ◌^◌, min};
ghost use Rattle.proof_tree.specs.Shape.{tree_of, ending_of, branches_of};
ghost use Rattle.proof_tree.specs.Counts.{turns_of, ending_turns, branch_turns};
ghost use Rattle.qc_check.specs.Shown.{IsStatable, counts_turns};

use proof_tree::{Body, Case, Certificate, End, Node, Outcome, Piece};

/// Whether the tree has the turns that are stated, where they are as many as the machine counts; of fewer nothing is asked.
pub(crate) fn has_turns(cert: &Certificate) -> bool
    ensures counts { result ≡ counts_turns (turns_of (tree_of cert.now.root)) cert.now.outcome }
    ensures fits { IsStatable cert.now.outcome }
{
    match cert.outcome {
        Outcome::True => true,
        Outcome::False => true,
        Outcome::Open(turns) => turns < u64::MAX || has_so_many(&cert.root, turns),
    }
}

fn has_so_many(root: &Node, turns: u64) -> bool
    ensures { result ≡ (turns_of (tree_of root.now) == turns) }
{
    node_turns(root) == turns as u128
}

#[cycle(turns)]
fn node_turns(node: &Node) -> u128
    ensures { result ≡ min (turns_of (tree_of node.now)) (2 ^ 128 - 1) }
{
    match &node.body {
        Body::Stuck => 0,
        Body::Goal => 0,
        Body::Tree(cases) => end_turns(&cases.end),
    }
}

#[cycle(turns)]
fn end_turns(end: &End) -> u128
    ensures { result ≡ min (ending_turns (ending_of end.now)) (2 ^ 128 - 1) }
{
    match end {
        End::Empty => 0,
        End::Barred => 0,
        End::Next(node) => node_turns(node),
        End::Branch { x: _, cases } => case_turns(cases.items()),
    }
}

#[cycle(turns)]
fn case_turns(cases: &[Piece]) -> u128
    ensures { result ≡ min (branch_turns (branches_of cases.now)) (2 ^ 128 - 1) }
{
    let mut count: u128 = 0;
    for piece in cases {
        if let Case::Go(inner) = &piece.case {
            count = count
                .saturating_add(1)
                .saturating_add(end_turns(&inner.end));
        }
    }
    count
}
