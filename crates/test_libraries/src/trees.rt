//! The counts of a deep tree, which is let go.
ghost use Rattle.std.specs.Prelude.{◌≡◌, None, IfOk};
ghost use Rattle.proof_tree.specs.Shape.{tree_of, body_of, ending_of};
ghost use Rattle.proof_tree.specs.Tree.{tree, next as next_ending};
ghost use Rattle.proof_tree.specs.Counts.{depth_of, cases_of};

use proof_tree::{Body, Cases, End, Node, StepList, depth, ends, opens, turns};
use std::alloc::{AllocError, Global};
use std::test::Fail;

/// A scope's own tree that has no step, and then this end.
fn own(alloc: Global, end: End) -> Cases
    ensures { ending_of result.end ≡ ending_of end }
{
    Cases {
        steps: StepList::new(alloc),
        end,
    }
}

/// The next node, without a horizon.
fn next(alloc: Global, body: Body) -> Result<End, AllocError>
    ensures { IfOk result (λ end. ending_of end ≡ next_ending (tree None (body_of body))) }
{
    let node = Node {
        horizon: None,
        body,
    };
    Ok(End::Next(Box::new(alloc, node)?))
}

/// So many next nodes, one above the other, and then the goal.
fn nested(alloc: Global, deep: u32) -> Result<Node, AllocError>
    ensures deep { IfOk result (λ node. depth_of (tree_of node) ≡ deep) }
    ensures none { IfOk result (λ node. cases_of (tree_of node) ≡ 0) }
{
    let mut body = Body::Goal;
    for _ in 0..deep {
        body = Body::Tree(own(alloc, next(alloc, body)?));
    }
    Ok(Node {
        horizon: None,
        body,
    })
}

#[test]
fn counts_and_drops_a_deep_tree(rt: HostRuntime) -> Result<(), Fail> {
    let node = nested(rt.alloc(), 1000)?;
    let counted = (turns(&node), opens(&node), ends(&node), depth(&node));
    assert!(rt; counted == (0, 0, 1, 1000));
    Ok(())
}
