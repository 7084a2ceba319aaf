//! How many turns the lines of a node have.
ghost use Rattle.std.specs.Prelude.{◌≡◌, ◌≤◌};
ghost use Rattle.proof_tree.specs.Counts.{turns_of};
ghost use Rattle.proof_tree.specs.Lines.{tree_lines};
ghost use Rattle.proof_tree.specs.Tree.{Tree};
ghost use Rattle.search_kept.specs.Ends.{ends, ends_in};

use proof_tree::Line;
use strategy_arena::Arena;

fn is_end(line: Line) -> bool
    ensures { result ≡ ends line }
{
    match line {
        Line::Stuck => true,
        Line::Goal => true,
        Line::Empty => true,
        Line::Barred => true,
        Line::Branch { .. } => true,
        _ => false,
    }
}

/// How many of the lines are the last of a case's part, or stand for a node that has none.
fn count_ends(lines: &Arena) -> usize
    ensures { result ≡ ends_in lines.now }
{
    let mut count: usize = 0;
    let mut cursor = lines.cursor();
    while let Some(line) = cursor.next() {
        prove!(count < lines.len());
        if is_end(line) {
            count += 1;
        }
    }
    count
}

/// How many turns the tree with these lines has.
pub(crate) fn turns_in(lines: &Arena) -> u64
    ensures { (t : Tree) → lines.now ≡ tree_lines t → turns_of t ≤ result }
{
    count_ends(lines).saturating_sub(1) as u64
}
