//! The values of a tuple, one after the other.
ghost use Rattle.std.specs.Prelude.{◌≡◌, ◌≤◌, ◌∷◌, [], ◌++◌, List, ℤ, IfOk, length};
ghost use Rattle.dense_check.specs.Telling.{IsGathered};

use std::alloc::{AllocError, Global};
use std::marker::Model;

/// So many values are kept. No scope has as many variables, so a tuple that is longer is none of a scope's, whatever comes after.
const MOST: usize = 501;

/// The values of a tuple that came so far, or the first 501 of them. A clause sees the list.
#[derive(Drop)]
pub(crate) struct Values {
    // room for all, of which the first `count` are values
    room: Vec<i64>,
    count: usize,
}

impl Model for Values {
    ghost use Rattle.std.specs.Prelude.{◌≡◌, ◌≤◌, List, ℤ, length, take};

    ghost Value = { List ℤ };

    ghost view = { λ v. take v.count v.room.items };

    ghost invariant = { λ v. (length v.room.items ≡ 501) × (v.count ≤ 501) };
}

impl Values {
    /// No value, and room for all. It fails only where memory runs out.
    pub(crate) fn new(alloc: Global) -> Result<Values, AllocError>
        ensures { IfOk result (λ v. v ≡ []) }
    {
        let room = vec![in alloc; 0i64; MOST]?;
        Ok(Values { room, count: 0 })
    }

    /// Begins anew, without a value.
    pub(crate) fn clear(&mut self)
        ensures { self.new ≡ [] }
    {
        self.count = 0;
    }

    /// One value more, unless there are as many as are kept.
    pub(crate) fn add(&mut self, value: i64)
        ensures { (t : List ℤ) → IsGathered self.old t → IsGathered self.new (t ++ value ∷ []) }
    {
        if self.count < MOST {
            self.room[self.count] = value;
            self.count += 1;
        }
    }

    /// The values.
    pub(crate) fn as_slice(&self) -> &[i64]
        ensures items { result.now ≡ self.now }
        ensures few { length result.now ≤ 501 }
    {
        &self.room[..self.count]
    }
}
