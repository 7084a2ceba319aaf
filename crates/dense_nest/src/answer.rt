//! What the lines of a certificate come to.
ghost use Rattle.std.specs.Prelude.{◌≡◌, None, List, IfNone, IfSome};
ghost use Rattle.qc_model.specs.Domains.{Box};
ghost use Rattle.dense_tree.specs.Tree.{Given};
ghost use Rattle.dense_ledger.specs.Ledger.{Ledger as Kept};
ghost use Rattle.dense_nest.specs.declared.place.Due.TheVariants as due;
ghost use Rattle.dense_nest.specs.Telling.{Tells};
ghost use Rattle.dense_nest.specs.Answers.{IsUnended, IsAnswer};

use crate::nest::Nest;
use crate::place::Due;
use joins::Found;

/// What the root comes to, the value of its scope's own condition, the cases that were gone into, up to 2^64 - 1, and whether one is
/// open.
#[derive(Clone, Copy)]
pub struct Answer {
    pub found: Found,
    pub own: Option<i64>,
    pub turns: u64,
    pub has_open: bool,
}

impl<'p> Nest<'p> {
    /// What the lines so far come to, where the root has ended; nothing where a line was out of place, or lines are missing.
    pub fn answer(&self) -> Option<Answer>
        ensures wrong { self.now.due ≡ due.Wrong → result ≡ None }
        ensures none { IfNone result ((us : List Given) (boxes : List Box) (d : Kept) → Tells self.now us boxes d → IsUnended d) }
        ensures some { IfSome result (λ a. (us : List Given) (boxes : List Box) (d : Kept) → Tells self.now us boxes d → IsAnswer d a) }
    {
        match self.due {
            Due::Ended => Some(Answer {
                found: self.found,
                own: self.own,
                turns: self.turns,
                has_open: self.has_open,
            }),
            _ => None,
        }
    }
}
