//! What is remembered of the closings on the way to a box.
ghost use Rattle.std.specs.Prelude.{◌≡◌, ◌≤◌, ℕ, length, slice_get, Some, IsTrue, IsFalse, IfOk, OnOk};
ghost use Rattle.qc_model.specs.Content.{Rule};
ghost use Rattle.qc_model.specs.Domains.{has_empty};
ghost use Rattle.qc_model.specs.Lists.{Among};
ghost use Rattle.model_arguments.specs.Asked.{is_box_of};
ghost use Rattle.model_levels.specs.Spans.{is_between};
ghost use Rattle.fd_store.specs.Held.{trail_len, past_box};
ghost use Rattle.dense_closing.specs.Takes.{keeps_box};
ghost use Rattle.dense_quiet.specs.declared.taking.Taking.{Taking};
ghost use Rattle.dense_close.specs.Memory.{Memory, IsOneOf, AreMemories, ComeFrom, IsAlike, IsAsSeen};
ghost use Rattle.dense_quiet.specs.Taking.{takes_of};

use crate::memory::Memory;
use crate::task::Task;
use check_box::Remains;
use qc_model::Problem;
use std::alloc::{AllocError, Global};
use std::marker::Model;
use std::mem;

// How many are kept.
const MOST: usize = 32;

/// The memory that a closing works in, and those of the closings on the way to its box.
///
/// Boxes are closed in a tree: a walk takes values and closes what is left, goes back, and takes others. So a closing begins with the
/// last memory of those that were made where the trail wasn't longer than it is now; the others are of branches that were left. Each
/// holds for any box, so what is remembered saves work, whichever it is.
#[derive(Drop)]
pub(crate) struct Memories {
    present: Memory,
    kept: Vec<Memory>,
    used: usize,
}

impl Model for Memories {
    ghost use Rattle.std.specs.Prelude.{◌≤◌, length};
    ghost use Rattle.dense_close.specs.Memory.{Memories};

    ghost Value = { Memories };

    ghost view = { λ a. record { present = a.present; kept = a.kept.items } };

    ghost invariant = { λ a. a.used ≤ length a.kept.items };
}

impl Memories {
    // Keeps one more, in which nothing is known yet.
    fn add(&mut self, alloc: Global, problem: &Problem) -> Result<(), AllocError>
        requires { (t : Taking) → AreMemories t problem.now self.old }
        ensures { OnOk result ((t : Taking) → AreMemories t problem.now self.new) }
    {
        self.kept.push(Memory::new(alloc, problem)?)?;
        Ok(())
    }

    fn add_all(&mut self, alloc: Global, problem: &Problem) -> Result<(), AllocError>
        requires { (t : Taking) → AreMemories t problem.now self.old }
        ensures { OnOk result ((t : Taking) → AreMemories t problem.now self.new) }
    {
        for _ in 0..MOST {
            self.add(alloc, problem)?;
        }
        Ok(())
    }

    /// Nothing is known yet. It fails only where memory runs out.
    pub(crate) fn new(alloc: Global, problem: &Problem) -> Result<Memories, AllocError>
        ensures { IfOk result (λ m. (t : Taking) → AreMemories t problem.now m) }
    {
        let mut memories = Memories {
            present: Memory::new(alloc, problem)?,
            kept: Vec::with_capacity(alloc, MOST)?,
            used: 0,
        };
        memories.add_all(alloc, problem)?;
        Ok(memories)
    }

    /// The one that the closing works in.
    #[inline(always)]
    pub(crate) fn present(&self) -> &Memory
        ensures { result.now ≡ self.now.present }
    {
        &self.present
    }

    // How many of those in use are left once the ones that were made where the trail was longer are gone.
    fn made_by(&self, at: usize) -> usize
        ensures { result ≤ length self.now.kept }
    {
        let mut used = self.used;
        while used > 0 {
            if self.kept[used - 1].at() <= at {
                return used;
            }
            used -= 1;
        }
        0
    }

    /// The last one that was made where the trail wasn't longer than this.
    pub(crate) fn last(&self, at: usize) -> &Memory
        ensures { IsOneOf result.now self.now }
    {
        let used = self.made_by(at);
        if used == 0 {
            return &self.present;
        }
        &self.kept[used - 1]
    }

    // The last one in use becomes the present one too.
    fn restore(&mut self)
        requires alike { (m : Memory) → Among m self.old.kept → IsAlike self.old.present m }
        ensures { ComeFrom self.old self.new }
    {
        if self.used > 0 {
            self.present.copy(&self.kept[self.used - 1]);
        }
    }

    /// Begins a closing of this box: what is remembered of boxes that it lies within is taken over, and all variables are looked at.
    pub(crate) fn begin(&mut self, task: &Task, remains: &Remains)
        requires declared { IsTrue (is_box_of task.now.problem.now remains.now.box) }
        requires full { IsFalse (has_empty remains.now.box) }
        requires memories { AreMemories task.now.taking task.now.problem.now self.old }
        ensures memories { AreMemories task.now.taking task.now.problem.now self.new }
        ensures seen { IsAsSeen (length task.now.problem.now.variables) task.now.taking task.now.problem.now self.new.present remains.now.box }
    {
        self.used = self.made_by(remains.mark().at);
        self.restore();
        self.present.look(task, remains.store());
    }

    // Where the present one is to be kept: in place of one of the same length of the trail, or behind those in use; in place of the
    // last where there is no room.
    fn place(&self) -> usize
        ensures { result ≤ length self.now.kept }
    {
        if self.used == 0 {
            return 0;
        }
        let last = self.used - 1;
        if self.used == self.kept.len() {
            return last;
        }
        if self.kept[last].at() == self.present.at() {
            return last;
        }
        self.used
    }

    // Keeps the present one, which becomes one that isn't needed any more.
    fn keep(&mut self)
        ensures { ComeFrom self.old self.new }
    {
        let place = self.place();
        if place < self.kept.len() {
            mem::swap(&mut self.present, &mut self.kept[place]);
            self.used = place + 1;
        }
    }

    /// Ends a closing with this box, which began where the trail was so long: the constraints of the span are settled.
    pub(crate) fn end(&mut self, task: &Task, remains: &Remains, at: usize)
        requires declared { IsTrue (is_box_of task.now.problem.now remains.now.box) }
        requires full { IsFalse (has_empty remains.now.box) }
        requires memories { AreMemories task.now.taking task.now.problem.now self.old }
        requires at { at ≤ trail_len remains.now }
        requires seen { IsAsSeen (length task.now.problem.now.variables) task.now.taking task.now.problem.now self.old.present (past_box remains.now at) }
        requires keeps { (k : ℕ) (c : Rule) → IsTrue (is_between task.now.span.first task.now.span.end k) → slice_get task.now.problem.now.constraints k ≡ Some c → IsTrue (keeps_box (takes_of task.now.taking task.now.problem.now) remains.now.box c) }
        ensures { AreMemories task.now.taking task.now.problem.now self.new }
    {
        self.present.look_again(task, remains.store(), at);
        self.present.settle(task, remains.mark().at);
        self.keep();
    }
}
