//! A certificate, and the limits on its tree.
ghost use Rattle.std.specs.Prelude.{◌≤◌, ◌^◌, IsTrue};
ghost use Rattle.proof_tree.specs.Shape.{tree_of};
ghost use Rattle.proof_tree.specs.Counts.{depth_of, ends_of};
ghost use Rattle.proof_tree.specs.Pieces.{version_has};

use crate::tree::{Node, Outcome, Version};

/// What a search found out about a problem, and the tree that shows it.
///
/// Anybody may build one: it states its outcome, and whether its tree proves that of a game is another
/// question (`proves`). What holds of each is its size alone. At most 1,000 branches and next nodes stand
/// above one another. At most 2^30 ends stand in the tree: empty boxes, barred tuples, stuck nodes and
/// goals; cases that are skipped or left open are no ends, and their number isn't limited here. In the
/// first version of the text each case has one value.
#[derive(Drop)]
pub struct Certificate {
    pub version: Version,
    pub outcome: Outcome,
    pub optimum: Option<i64>,
    pub root: Node,
    ghost shallow: { depth_of (tree_of root) ≤ 1000 },
    ghost few_ends: { ends_of (tree_of root) ≤ 2 ^ 30 },
    ghost worded: { IsTrue (version_has version (tree_of root)) },
}
