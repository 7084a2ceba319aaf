//! How deep a tree nests.
ghost use Rattle.std.specs.Prelude.{◌≡◌, ◌≤◌, ◌<◌, ◌^◌};
ghost use Rattle.proof_tree.specs.Shape.{tree_of, ending_of, branches_of};
ghost use Rattle.proof_tree.specs.Counts.{depth_of, ending_depth, branch_depth, cases_of};

use crate::tree::{Body, Case, End, Node, Piece};

/// The greatest number of branches and next nodes that stand above one another: 0 where there is
/// neither. The tree nests at most 1,000 branches and next nodes, and has at most 2^30 cases of all kinds.
pub fn depth(node: &Node) -> u32
    requires shallow { depth_of (tree_of node.now) ≤ 1000 }
    requires few { cases_of (tree_of node.now) ≤ 2 ^ 30 }
    ensures { result ≡ depth_of (tree_of node.now) }
{
    node_depth(node)
}

#[cycle(depth)]
fn node_depth(node: &Node) -> u32
    requires { depth_of (tree_of node.now) < 2 ^ 32 }
    ensures { result ≡ depth_of (tree_of node.now) }
{
    match &node.body {
        Body::Stuck => 0,
        Body::Goal => 0,
        Body::Tree(cases) => end_depth(&cases.end),
    }
}

#[cycle(depth)]
fn end_depth(end: &End) -> u32
    requires { ending_depth (ending_of end.now) < 2 ^ 32 }
    ensures { result ≡ ending_depth (ending_of end.now) }
{
    match end {
        End::Empty => 0,
        End::Barred => 0,
        End::Next(node) => 1 + node_depth(node),
        End::Branch { x: _, cases } => 1 + case_depth(cases.items()),
    }
}

#[cycle(depth)]
fn case_depth(cases: &[Piece]) -> u32
    requires { branch_depth (branches_of cases.now) < 2 ^ 32 }
    ensures { result ≡ branch_depth (branches_of cases.now) }
{
    let mut deepest = 0;
    for piece in cases {
        if let Case::Go(inner) = &piece.case {
            deepest = end_depth(&inner.end).max(deepest);
        }
    }
    deepest
}
