//! Tuples that settled their scope.
use dense_board::Board;
use qc_model::{ScopeId, VarId};
use std::alloc::{AllocError, Global};

/// For each scope the tuple that settled it last: one value for each of its variables.
#[derive(Drop)]
pub struct Hints {
    values: Vec<i64>,
    has_tuple: Vec<bool>,
}

impl Hints {
    /// Without room for a tuple.
    pub fn new(alloc: Global) -> Hints {
        Hints {
            values: Vec::new(alloc),
            has_tuple: Vec::new(alloc),
        }
    }

    /// Makes room for a tuple of each of so many scopes, which have so many variables.
    pub fn make_room(
        &mut self,
        alloc: Global,
        variables: usize,
        scopes: usize,
    ) -> Result<(), AllocError> {
        self.values = vec![in alloc; 0; variables]?;
        self.has_tuple = vec![in alloc; false; scopes]?;
        Ok(())
    }

    /// Keeps the least values left to the variables of the scope.
    pub fn note(&mut self, board: &Board, scope: ScopeId) {
        if board.is_empty() {
            return;
        }
        let Some(level) = board.level(scope) else {
            return;
        };
        level.problem.known();
        for at in level.from..level.stop {
            if let Some(value) = self.values.get_mut(at) {
                *value = board.least(VarId(at as u16));
            }
        }
        if let Some(known) = self.has_tuple.get_mut(scope.0 as usize) {
            *known = true;
        }
    }

    /// The value that a variable of the scope had then.
    pub fn value(&self, scope: ScopeId, x: VarId) -> Option<i64> {
        if !*self.has_tuple.get(scope.0 as usize)? {
            return None;
        }
        let value = self.values.get(x.0 as usize)?;
        Some(*value)
    }
}
