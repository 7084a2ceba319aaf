//! The ends of a tree.
ghost use Rattle.std.specs.Prelude.{◌≡◌, ◌≤◌, ◌<◌, ◌^◌};
ghost use Rattle.proof_tree.specs.Shape.{tree_of, ending_of, branches_of};
ghost use Rattle.proof_tree.specs.Counts.{ends_of, ending_ends, branch_ends, depth_of, cases_of};

use crate::tree::{Body, Case, End, Node, Piece};

/// How many ends the tree has: empty boxes, barred tuples, stuck nodes and goals. A case that is skipped or left
/// open is no end. The tree nests at most 1,000 branches and next nodes, and has at most 2^30 cases of all kinds.
pub fn ends(node: &Node) -> u64
    requires shallow { depth_of (tree_of node.now) ≤ 1000 }
    requires few { cases_of (tree_of node.now) ≤ 2 ^ 30 }
    ensures { result ≡ ends_of (tree_of node.now) }
{
    node_ends(node)
}

#[cycle(ends)]
fn node_ends(node: &Node) -> u64
    requires { ends_of (tree_of node.now) < 2 ^ 64 }
    ensures { result ≡ ends_of (tree_of node.now) }
{
    match &node.body {
        Body::Stuck => 1,
        Body::Goal => 1,
        Body::Tree(cases) => end_ends(&cases.end),
    }
}

#[cycle(ends)]
fn end_ends(end: &End) -> u64
    requires { ending_ends (ending_of end.now) < 2 ^ 64 }
    ensures { result ≡ ending_ends (ending_of end.now) }
{
    match end {
        End::Empty => 1,
        End::Barred => 1,
        End::Next(node) => node_ends(node),
        End::Branch { x: _, cases } => case_ends(cases.items()),
    }
}

#[cycle(ends)]
fn case_ends(cases: &[Piece]) -> u64
    requires { branch_ends (branches_of cases.now) < 2 ^ 64 }
    ensures { result ≡ branch_ends (branches_of cases.now) }
{
    let mut count = 0;
    for piece in cases {
        if let Case::Go(inner) = &piece.case {
            count += end_ends(&inner.end);
        }
    }
    count
}
