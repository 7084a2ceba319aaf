//! Whether a node was won.
ghost use Rattle.std.specs.Prelude.{IfSome, IsTrue, List, ℤ};
ghost use Rattle.joins.specs.Seen.{verdict_of};
ghost use Rattle.likeness.specs.Likeness.{ends_as};

use joins::Found;

/// Whether the node was won. None comes where that isn't known.
pub fn is_won(found: Found) -> Option<bool>
    ensures { IfSome result (λ won. (v : List ℤ) → IsTrue (ends_as won (verdict_of found v))) }
{
    match found {
        Found::Lost => Some(false),
        Found::Exact => Some(true),
        Found::AtMost(_) => None,
        Found::Unknown => None,
    }
}
