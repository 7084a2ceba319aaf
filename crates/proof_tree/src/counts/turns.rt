//! The cases taken.
ghost use Rattle.std.specs.Prelude.{◌≡◌, ◌≤◌, ◌<◌, ◌+◌, ◌^◌, ℕ};
ghost use Rattle.proof_tree.specs.Shape.{tree_of, ending_of, branches_of};
ghost use Rattle.proof_tree.specs.Counts.{turns_of, ending_turns, branch_turns, depth_of, cases_of};

use crate::tree::{Body, Case, End, Node, Piece};

/// How many cases are taken. The tree nests at most 1,000 branches and next nodes, and has at most 2^30
/// cases of all kinds.
pub fn turns(node: &Node) -> u64
    requires shallow { depth_of (tree_of node.now) ≤ 1000 }
    requires few { cases_of (tree_of node.now) ≤ 2 ^ 30 }
    ensures { result ≡ turns_of (tree_of node.now) }
{
    node_turns(node)
}

#[cycle(turns)]
fn node_turns(node: &Node) -> u64
    requires { turns_of (tree_of node.now) < 2 ^ 32 }
    ensures { result ≡ turns_of (tree_of node.now) }
{
    match &node.body {
        Body::Stuck => 0,
        Body::Goal => 0,
        Body::Tree(cases) => end_turns(&cases.end),
    }
}

#[cycle(turns)]
fn end_turns(end: &End) -> u64
    requires { ending_turns (ending_of end.now) < 2 ^ 32 }
    ensures { result ≡ ending_turns (ending_of end.now) }
{
    match end {
        End::Empty => 0,
        End::Barred => 0,
        End::Next(node) => node_turns(node),
        End::Branch { x: _, cases } => case_turns(cases.items()),
    }
}

#[cycle(turns)]
fn case_turns(cases: &[Piece]) -> u64
    requires { branch_turns (branches_of cases.now) < 2 ^ 32 }
    ensures { result ≡ branch_turns (branches_of cases.now) }
{
    let mut count = 0;
    for piece in cases {
        if let Case::Go(inner) = &piece.case {
            count += 1 + end_turns(&inner.end);
        }
    }
    count
}
