//! Boxes that are gone back to.
ghost use Rattle.std.specs.Prelude.{◌≡◌, ◌⊎◌, ◌++◌, ◌∷◌, [], IfNone, IfSome};

use crate::board::Board;
use fd_store::Mark;
use std::alloc::AllocError;

fn push_mark(marks: &mut Vec<Mark>, mark: Mark) -> Result<(), AllocError>
    ensures { (marks.new.items ≡ marks.old.items) ⊎ (marks.new.items ≡ marks.old.items ++ mark ∷ []) }
{
    marks.push(mark)?;
    Ok(())
}

fn pop_mark(marks: &mut Vec<Mark>) -> Option<Mark>
    ensures none { IfNone result (marks.new.items ≡ marks.old.items) }
    ensures some { IfSome result (λ mark. marks.old.items ≡ marks.new.items ++ mark ∷ []) }
{
    marks.pop()
}

impl<'p> Board<'p> {
    /// Saves the box, to go back to. Where a variable has no value left nothing is saved, and the answer is false. It fails only where
    /// memory runs out, and then nothing is saved.
    pub fn save(&mut self) -> Result<bool, AllocError>
        ensures same { self.new.levels ≡ self.old.levels }
    {
        if self.remains.is_empty() {
            return Ok(false);
        }
        let mark = self.remains.mark();
        push_mark(&mut self.saved, mark)?;
        Ok(true)
    }

    /// How many boxes are saved.
    pub fn saved_count(&self) -> usize {
        self.saved.len()
    }

    /// Goes back to the box that was saved last, and forgets it; where none is, nothing happens.
    pub fn restore(&mut self)
        ensures same { self.new.levels ≡ self.old.levels }
    {
        match pop_mark(&mut self.saved) {
            None => {}
            Some(mark) => self.remains.undo_to(mark),
        }
    }

    /// Forgets the box that was saved last, and stays at the one that is here; where none is, nothing happens.
    pub fn forget(&mut self)
        ensures same { self.new.levels ≡ self.old.levels }
    {
        let _ = pop_mark(&mut self.saved);
    }

    /// Goes back to the box that was saved before all but so many others, and forgets it and those after it.
    pub fn restore_to(&mut self, count: usize) {
        for _ in count..self.saved.len() {
            self.restore();
        }
    }
}
