//! Which variables are known to stand in the assignment.
ghost use Rattle.std.specs.Prelude.{◌≡◌, ◌≤◌, ◌<◌, ℕ, List, true, false, length, map, take, IfOk};
ghost use Rattle.std.specs.List.{list_all};
ghost use Rattle.qc_model.specs.Domains.{has_empty, is_single};
ghost use Rattle.qc_model.specs.Valid.{is_number};
ghost use Rattle.check_lines.specs.declared.open.Open.{Open};
ghost use Rattle.check_lines.specs.Known.{mark_of, Rises, HasRead, AreBranchesRead};
ghost use Rattle.check_box.specs.Placed.{only};

use check_assignment::Assignment;
use fd_store::{Mark, Store};
use qc_model::VarId;
use std::alloc::{AllocError, Global};

/// How many of the first variables have been read and are known to stand, and how long the trail was as each was read: a
/// variable keeps its one value until the trail is undone below that length. What stands behind them may be old.
#[derive(Drop)]
pub(crate) struct Reads {
    marks: Vec<usize>,
    count: usize,
}

impl Reads {
    /// None of the variables has been read. It fails only where memory runs out.
    pub(crate) fn new(alloc: Global, variables: usize) -> Result<Reads, AllocError>
        ensures none { IfOk result (λ r. r.count ≡ 0) }
        ensures places { IfOk result (λ r. length r.marks.items ≡ variables) }
    {
        let marks = vec![in alloc; 0usize; variables]?;
        Ok(Reads { marks, count: 0 })
    }

    /// Gives up all that was read.
    pub(crate) fn clear(&mut self)
        ensures none { self.new.count ≡ 0 }
        ensures marks { self.new.marks ≡ self.old.marks }
    {
        self.count = 0;
    }

    /// The trail has been undone down to the mark: gives up what was read since.
    #[inline(always)]
    pub(crate) fn back_to(&mut self, mark: Mark)
        requires within { self.old.count ≤ length self.old.marks.items }
        requires rises { Rises self.old }
        ensures marks { self.new.marks ≡ self.old.marks }
        ensures fewer { self.new.count ≤ self.old.count }
        ensures past { (k : ℕ) → k < self.new.count → mark_of self.new k ≤ mark.at }
    {
        while self.count > 0 && self.marks[self.count - 1] > mark.at {
            self.count -= 1;
        }
    }

    /// Reads on, up to the variable before `stop`, and says whether each has one value left: it stops at the first that
    /// hasn't. Those that were read before stand there already.
    #[inline(always)]
    pub(crate) fn read_on(&mut self, store: &Store, stop: usize, values: &mut Assignment) -> bool
        requires bound { stop ≤ length store.now.box }
        requires few { length store.now.box ≤ 500 }
        requires full { has_empty store.now.box ≡ false }
        requires each { length values.old.items ≡ length store.now.box }
        requires numbers { list_all is_number values.old.items ≡ true }
        requires places { length self.old.marks.items ≡ length store.now.box }
        requires read { HasRead store.now values.old.items self.old }
        ensures fixed { result ≡ list_all is_single (take stop store.now.box) }
        ensures placed { result ≡ true → take stop store.now.box ≡ map only (take stop values.new.items) }
        ensures read { HasRead store.now values.new.items self.new }
        ensures branches { (fs : List Open) → AreBranchesRead store.now values.old.items self.old fs → AreBranchesRead store.now values.new.items self.new fs }
        ensures kept { (n : ℕ) → take n store.now.box ≡ map only (take n values.old.items) → take n values.new.items ≡ take n values.old.items }
        ensures places { length self.new.marks.items ≡ length self.old.marks.items }
        ensures game { values.new.game ≡ values.old.game }
        ensures each { length values.new.items ≡ length values.old.items }
        ensures numbers { list_all is_number values.new.items ≡ true }
    {
        let at = store.mark().at;
        while self.count < stop {
            let k = self.count;
            let x = VarId(k as u16);
            if !store.is_fixed(x) {
                return false;
            }
            store.known(x);
            values.set(x, store.min(x));
            self.marks[k] = at;
            self.count = k + 1;
        }
        true
    }
}
