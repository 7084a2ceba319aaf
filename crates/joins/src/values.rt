//! A vector of values with room of its own.
ghost use Rattle.std.specs.Prelude.{◌≡◌, ◌≤◌, ◌<◌, [], ◌∷◌, ◌++◌, length, IfOk};

use smallvec::SmallVec;
use std::alloc::{AllocError, Global};

/// The values of a demanded list. Lists are short, so up to four values lie in the vector itself.
#[derive(Drop)]
pub struct Value {
    pub(crate) list: SmallVec<i64, 4>,
}

impl Value {
    /// The empty vector, with room for so many values.
    pub fn new(alloc: Global, room: usize) -> Result<Value, AllocError>
        ensures empty { IfOk result (λ v. v.list.items ≡ []) }
        ensures room { IfOk result (λ v. room ≤ v.list.capacity) }
    {
        Ok(Value {
            list: SmallVec::with_capacity(alloc, room)?,
        })
    }

    /// The values, in the order of the list.
    pub fn items(&self) -> &[i64]
        ensures { result.now ≡ self.now.list.items }
    {
        self.list.as_slice()
    }

    /// Takes these values, for which there is room, in place of its own.
    pub fn set(&mut self, items: &[i64])
        requires { length items.now ≤ self.old.list.capacity }
        ensures items { self.new.list.items ≡ items.now }
        ensures room { self.old.list.capacity ≤ self.new.list.capacity }
    {
        self.list.clear();
        // a list without entries is the most common one
        if items.is_empty() {
            return;
        }
        let _ = self.list.extend_from_slice(items);
    }

    pub(crate) fn clear(&mut self)
        ensures items { self.new.list.items ≡ [] }
        ensures room { self.new.list.capacity ≡ self.old.list.capacity }
    {
        self.list.clear();
    }

    /// Appends a value, for which there is room.
    pub(crate) fn push(&mut self, value: i64)
        requires { length self.old.list.items < self.old.list.capacity }
        ensures items { self.new.list.items ≡ self.old.list.items ++ value ∷ [] }
        ensures room { self.new.list.capacity ≡ self.old.list.capacity }
    {
        self.list.push_reserved(value);
    }
}
