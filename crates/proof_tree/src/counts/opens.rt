//! The cases left open.
ghost use Rattle.std.specs.Prelude.{◌≡◌, ◌≤◌, ◌<◌, ◌^◌};
ghost use Rattle.proof_tree.specs.Shape.{tree_of, ending_of, branches_of};
ghost use Rattle.proof_tree.specs.Counts.{opens_of, ending_opens, branch_opens, depth_of, cases_of};

use crate::tree::{Body, Case, End, Node, Piece};

/// How many cases are left open. The tree nests at most 1,000 branches and next nodes, and has at most
/// 2^30 cases of all kinds.
pub fn opens(node: &Node) -> u64
    requires shallow { depth_of (tree_of node.now) ≤ 1000 }
    requires few { cases_of (tree_of node.now) ≤ 2 ^ 30 }
    ensures { result ≡ opens_of (tree_of node.now) }
{
    node_opens(node)
}

#[cycle(opens)]
fn node_opens(node: &Node) -> u64
    requires { opens_of (tree_of node.now) < 2 ^ 64 }
    ensures { result ≡ opens_of (tree_of node.now) }
{
    match &node.body {
        Body::Stuck => 0,
        Body::Goal => 0,
        Body::Tree(cases) => end_opens(&cases.end),
    }
}

#[cycle(opens)]
fn end_opens(end: &End) -> u64
    requires { ending_opens (ending_of end.now) < 2 ^ 64 }
    ensures { result ≡ ending_opens (ending_of end.now) }
{
    match end {
        End::Empty => 0,
        End::Barred => 0,
        End::Next(node) => node_opens(node),
        End::Branch { x: _, cases } => case_opens(cases.items()),
    }
}

#[cycle(opens)]
fn case_opens(cases: &[Piece]) -> u64
    requires { branch_opens (branches_of cases.now) < 2 ^ 64 }
    ensures { result ≡ branch_opens (branches_of cases.now) }
{
    let mut count = 0;
    for piece in cases {
        match &piece.case {
            Case::Skip => {}
            Case::Open => count += 1,
            Case::Go(inner) => count += end_opens(&inner.end),
        }
    }
    count
}
